//! What calls answer, kept or compared by functions that own it, so that the tests own nothing that is dropped.

use picky_wire::Text;
use std::fmt::Debug;
use std::mem::ManuallyDrop;
use std::test::Fail;

/// The value, which is never dropped.
pub fn kept<T: Drop, E: Debug + Drop>(answer: Result<T, E>) -> Result<ManuallyDrop<T>, Fail> {
    Ok(ManuallyDrop::new(answer?))
}

/// The answer is this value.
pub fn gives<T: PartialEq + Drop, E: Debug + Drop>(
    answer: Result<T, E>,
    wanted: &T,
) -> Result<bool, Fail> {
    Ok(answer? == *wanted)
}

/// The answer is this text.
pub fn is_text<E: Debug + Drop>(answer: Result<Text, E>, wanted: &str) -> Result<bool, Fail> {
    let text = kept(answer)?;
    Ok(text.as_str() == wanted)
}

/// The answer is this error.
pub fn refuses<T: Drop, E: PartialEq + Drop>(answer: Result<T, E>, wanted: &E) -> bool {
    match answer {
        Ok(_) => false,
        Err(why) => why == *wanted,
    }
}
