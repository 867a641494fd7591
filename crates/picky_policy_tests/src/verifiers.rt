//! The verifiers: what they say, and when they fail.

use crate::terms::offer_of;
use picky_policy::{HandedVerifier, MemoryVerifier, Offer, Verifier};
use picky_wire::{Bytes, Failed};
use std::alloc::Global;
use std::mem::ManuallyDrop;
use std::test::Fail;

/// What the verifier says of the plain certificate's signature, and of another message.
fn says<V: Verifier>(
    verifier: &mut V,
    offer: &Offer,
    message: &[u8],
) -> Option<Result<bool, Failed>> {
    match offer {
        Offer::Certificate(certificate, _) => Some(verifier.verify(
            &certificate.signature_key.inner_key,
            &certificate.signature,
            message,
        )),
        Offer::Key(_) => None,
    }
}

/// Of four calls the second and the fourth fail, and the others say so.
fn says_in_memory(alloc: Global, yes: bool) -> Result<bool, Fail> {
    let offer = offer_of(alloc, "<plain>")?;
    let mut verifier = ManuallyDrop::new(MemoryVerifier::new(alloc, yes, &[3, 1])?);
    let one = says(&mut *verifier, &offer, offer.message());
    let two = says(&mut *verifier, &offer, b"");
    let three = says(&mut *verifier, &offer, b"");
    let four = says(&mut *verifier, &offer, offer.message());
    Ok(
        one == Some(Ok(yes))
            && two == Some(Err(Failed))
            && three == Some(Ok(yes))
            && four == Some(Err(Failed)),
    )
}

#[test]
fn fails_the_listed_calls(rt: HostRuntime) -> Result<(), Fail> {
    assert!(rt; says_in_memory(rt.alloc(), true)?);
    assert!(rt; says_in_memory(rt.alloc(), false)?);
    Ok(())
}

/// A verifier that was handed these bytes.
fn handed(alloc: Global, bytes: &[u8]) -> Result<ManuallyDrop<HandedVerifier>, Fail> {
    let message = Bytes::new(alloc, bytes)?;
    Ok(ManuallyDrop::new(HandedVerifier::new(Some(message))))
}

/// It was handed the message and says this, twice.
fn says_as_handed(alloc: Global, bytes: &[u8], message: &[u8], yes: bool) -> Result<bool, Fail> {
    let offer = offer_of(alloc, "<plain>")?;
    let mut verifier = handed(alloc, bytes)?;
    let one = says(&mut *verifier, &offer, message);
    let two = says(&mut *verifier, &offer, message);
    Ok(one == Some(Ok(yes)) && two == Some(Ok(yes)))
}

// What was handed, a message, and whether it is that.
static HANDED: [(&[u8], &[u8], bool); 9] = [
    (b"", b"", true),
    (b"", b"a", false),
    (b"a", b"", false),
    (b"a", b"a", true),
    (b"a", b"b", false),
    (b"a", b"ab", false),
    (b"ab", b"a", false),
    (b"ab", b"ba", false),
    (b"a\0", b"a", false),
];

#[test]
fn says_yes_of_one_message(rt: HostRuntime) -> Result<(), Fail> {
    for (bytes, message, yes) in &HANDED {
        assert!(rt;
            says_as_handed(rt.alloc(), bytes, message, *yes)?,
            "{bytes:?}: {message:?}"
        );
    }
    Ok(())
}

fn fails_unhanded(alloc: Global) -> Result<bool, Fail> {
    let offer = offer_of(alloc, "<plain>")?;
    let mut verifier = ManuallyDrop::new(HandedVerifier::new(None));
    let one = says(&mut *verifier, &offer, offer.message());
    let two = says(&mut *verifier, &offer, b"");
    Ok(one == Some(Err(Failed)) && two == Some(Err(Failed)))
}

#[test]
fn fails_without_an_answer(rt: HostRuntime) -> Result<(), Fail> {
    assert!(rt; fails_unhanded(rt.alloc())?);
    Ok(())
}
