//! How a call ends, which the tests compare.

use picky_wire::Text;

/// The call gives this.
pub fn gives<T: PartialEq + Drop, E: Drop>(made: Result<T, E>, wanted: &T) -> bool {
    match made {
        Ok(made) => made == *wanted,
        Err(_) => false,
    }
}

/// The call gives this text, and this at its end.
pub fn gives_text<E: Drop>(made: Result<Text, E>, wanted: &str, end: &str) -> bool {
    match made {
        Ok(text) => text.as_str().strip_suffix(end) == Some(wanted),
        Err(_) => false,
    }
}

/// The call ends in this refusal or, where there is none, in a value.
pub fn ends_in<T: Drop, E: PartialEq + Drop>(refusal: Option<E>, made: Result<T, E>) -> bool {
    made.err() == refusal
}
