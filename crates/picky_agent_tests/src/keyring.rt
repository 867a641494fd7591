//! A key of each type is kept; check/agent_cases.py has orders, limits and comments.

use crate::keys::{KEYS, KeyRow, key_of};
use crate::talks::{FAILURE, LIST, NONE, SUCCESS, Talk, add, is_said, list_of, remove};
use std::alloc::Global;
use std::mem::ManuallyDrop;
use std::test::Fail;

/// The key is added, listed and removed.
fn is_kept(alloc: Global, row: &KeyRow) -> Result<bool, Fail> {
    let key = ManuallyDrop::new(key_of(alloc, row)?);
    let add = ManuallyDrop::new(add(alloc, key.private.as_slice(), b"a comment")?);
    let remove = ManuallyDrop::new(remove(alloc, key.public.as_slice())?);
    let one = ManuallyDrop::new(list_of(alloc, key.public.as_slice(), b"a comment")?);
    let mut talk = ManuallyDrop::new(Talk::new(alloc));
    talk.say(LIST, NONE)?;
    talk.say(remove.as_slice(), FAILURE)?;
    talk.say(add.as_slice(), SUCCESS)?;
    talk.say(LIST, one.as_slice())?;
    talk.say(remove.as_slice(), SUCCESS)?;
    talk.say(LIST, NONE)?;
    talk.say(remove.as_slice(), FAILURE)?;
    is_said(alloc, &*talk)
}

#[test]
fn keeps_a_key_of_each_type(rt: HostRuntime) -> Result<(), Fail> {
    for row in &KEYS {
        assert!(rt; is_kept(rt.alloc(), row)?, "{}", row.name);
    }
    Ok(())
}
