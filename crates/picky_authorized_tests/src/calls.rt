//! The other calls of the library once, with memory enough.

use picky_authorized::{
    AuthContent, AuthEntry, AuthOption, CERT_AUTHORITY, PRINCIPALS, PolicyError, are_fit,
};
use picky_wire::{Text, TryClone};
use std::alloc::Global;
use std::mem::ManuallyDrop;
use std::test::Fail;

/// An option's name and its value.
type Said = (&'static str, Option<&'static str>);

fn text_of(alloc: Global, text: Option<&str>) -> Result<Option<Text>, Fail> {
    match text {
        Some(text) => Ok(Some(Text::new(alloc, text)?)),
        None => Ok(None),
    }
}

fn option_of(alloc: Global, said: &Said) -> Result<AuthOption, Fail> {
    let (name, value) = said;
    let name = ManuallyDrop::new(Text::new(alloc, name)?);
    let value = text_of(alloc, *value)?;
    Ok(AuthOption {
        name: ManuallyDrop::into_inner(name),
        value,
    })
}

fn options_of(alloc: Global, said: &[Said]) -> Result<Vec<AuthOption>, Fail> {
    let mut options = ManuallyDrop::new(Vec::new(alloc));
    for said in said {
        options.push(option_of(alloc, said)?)?;
    }
    Ok(ManuallyDrop::into_inner(options))
}

/// The option's copy is the option.
fn is_copied(alloc: Global, said: &Said) -> Result<bool, Fail> {
    let option = ManuallyDrop::new(option_of(alloc, said)?);
    let copy = ManuallyDrop::new(option.try_clone(alloc)?);
    Ok(*copy == *option)
}

static OPTIONS: [Said; 3] = [
    ("no-pty", None),
    ("command", Some("ls")),
    ("principals", Some("")),
];

#[test]
fn copies_options(rt: HostRuntime) -> Result<(), Fail> {
    for said in &OPTIONS {
        assert!(rt; is_copied(rt.alloc(), said)?, "{}", said.0);
    }
    Ok(())
}

fn is_named(alloc: Global, name: &str) -> Result<bool, Fail> {
    let option = ManuallyDrop::new(option_of(alloc, &("no-pty", Some("x")))?);
    Ok(option.is_named(name))
}

#[test]
fn compares_whole_names(rt: HostRuntime) -> Result<(), Fail> {
    assert!(rt; is_named(rt.alloc(), "no-pty")?);
    for name in ["", "no-pt", "no-ptyx", "No-pty", "x"] {
        assert!(rt; !is_named(rt.alloc(), name)?, "{name}");
    }
    Ok(())
}

// sshd(8) has the two names.
#[test]
fn knows_two_names(rt: HostRuntime) {
    assert!(rt; CERT_AUTHORITY == "cert-authority");
    assert!(rt; PRINCIPALS == "principals");
}

/// Options, and whether they fit.
type Fitting = (&'static [Said], bool);

static FITTING: [Fitting; 9] = [
    (&[], true),
    (&[("no-pty", None), ("no-pty", None)], true),
    (&[("cert-authority", None)], true),
    (&[("cert-authority", Some(""))], false),
    (&[("principals", Some(""))], true),
    (&[("principals", None)], false),
    (&[("cert-authority", None), ("principals", Some("a"))], true),
    (&[("cert-authority", None), ("cert-authority", None)], false),
    (
        &[("principals", Some("a")), ("principals", Some("a"))],
        false,
    ),
];

fn fit(alloc: Global, said: &[Said]) -> Result<bool, Fail> {
    let options = ManuallyDrop::new(options_of(alloc, said)?);
    Ok(are_fit(options.as_slice()))
}

#[test]
fn tells_options_that_fit(rt: HostRuntime) -> Result<(), Fail> {
    for (said, wanted) in &FITTING {
        assert!(rt; fit(rt.alloc(), said)? == *wanted, "{said:?}");
    }
    Ok(())
}

fn prints(alloc: Global, error: &PolicyError, name: &str) -> Result<bool, Fail> {
    let text = ManuallyDrop::new(format!(in alloc; "{error} {error:?}")?);
    Ok(text.as_str() == name)
}

#[test]
fn prints_refusals(rt: HostRuntime) -> Result<(), Fail> {
    assert!(rt; prints(rt.alloc(), &PolicyError::TooLong, "TooLong TooLong")?);
    assert!(rt; prints(rt.alloc(), &PolicyError::NoMemory, "NoMemory NoMemory")?);
    Ok(())
}

fn shows_entry(alloc: Global) -> Result<bool, Fail> {
    let entry = ManuallyDrop::new(AuthEntry {
        line: 7,
        content: AuthContent::BadOptions,
    });
    let entry = &*entry;
    let text = ManuallyDrop::new(format!(in alloc; "{entry:?}")?);
    Ok(text.as_str() == "AuthEntry { line: 7, content: BadOptions }")
}

// Rust's derived Debug.
#[test]
fn shows_an_entry(rt: HostRuntime) -> Result<(), Fail> {
    assert!(rt; shows_entry(rt.alloc())?);
    Ok(())
}
