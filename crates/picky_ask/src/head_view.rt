//! A head whose strings are borrowed, and questions made of it.

ghost use Rattle.std.specs.Prelude.{◌≡◌, ◌↔◌, IfOk, IsTrue};
ghost use Rattle.picky_ask.specs.Head.{IsHead};
ghost use Rattle.picky_ask.specs.Lookup.{question as question_seen};
ghost use Rattle.picky_ask.specs.State.{IsShort};
ghost use Rattle.picky_ask.specs.inner.HeadView.{head_seen, two_head};

use crate::question::{Head, Question};
use picky_keys::SignatureAlgorithm;
use picky_suite::Flavour;
use picky_wire::{Bytes, MAX_LEN, NoMemory, both};
use std::alloc::Global;

/// The operations whose arguments but the text are two strings.
#[derive(Clone, Copy, PartialEq, Eq)]
pub(crate) enum TwoStrings {
    CbcSeal,
    CbcOpen,
    Ctr,
    Verify,
}

/// A head whose strings are borrowed.
#[derive(Clone, Copy, PartialEq, Eq)]
pub(crate) enum HeadView<'a> {
    Bcrypt {
        len: u32,
        rounds: u32,
        salt: &'a [u8],
    },
    Argon2 {
        flavour: Flavour,
        memory: u32,
        passes: u32,
        parallelism: u32,
        salt: &'a [u8],
    },
    Two {
        of: TwoStrings,
        first: &'a [u8],
        second: &'a [u8],
    },
    Sign {
        algorithm: SignatureAlgorithm,
        key: &'a [u8],
    },
}

/// The head, with its strings borrowed.
pub(crate) fn head_view<'a>(head: &'a Head) -> HeadView<'a>
    ensures { head_seen result ≡ head.now }
{
    match head {
        Head::Bcrypt { len, rounds, salt } => HeadView::Bcrypt {
            len: *len,
            rounds: *rounds,
            salt: salt.as_slice(),
        },
        Head::Argon2 {
            flavour,
            memory,
            passes,
            parallelism,
            salt,
        } => HeadView::Argon2 {
            flavour: *flavour,
            memory: *memory,
            passes: *passes,
            parallelism: *parallelism,
            salt: salt.as_slice(),
        },
        Head::CbcSeal { key, iv } => two_view(TwoStrings::CbcSeal, key, iv),
        Head::CbcOpen { key, iv } => two_view(TwoStrings::CbcOpen, key, iv),
        Head::Ctr { key, iv } => two_view(TwoStrings::Ctr, key, iv),
        Head::Sign { algorithm, key } => HeadView::Sign {
            algorithm: *algorithm,
            key: key.as_slice(),
        },
        Head::Verify { key, signature } => two_view(TwoStrings::Verify, key, signature),
    }
}

fn two_view<'a>(of: TwoStrings, first: &'a Bytes, second: &'a Bytes) -> HeadView<'a>
    ensures { head_seen result ≡ two_head of first.now second.now }
{
    HeadView::Two {
        of,
        first: first.as_slice(),
        second: second.as_slice(),
    }
}

/// Whether each string of the question is shorter than 2^32 bytes, so that bytes can say it.
pub(crate) fn is_short(head: &HeadView<'_>, text: &[u8]) -> bool
    ensures { IsTrue result ↔ IsShort (question_seen (head_seen head.now) text.now) }
{
    is_short_head(head) && text.len() <= MAX_LEN
}

fn is_short_head(head: &HeadView<'_>) -> bool
    ensures { IsTrue result ↔ IsHead (head_seen head.now) }
{
    match head {
        HeadView::Bcrypt { len, rounds, salt } => {
            let _numbers = (*len, *rounds);
            salt.len() <= MAX_LEN
        }
        HeadView::Argon2 {
            memory,
            passes,
            parallelism,
            salt,
            ..
        } => {
            let _numbers = (*memory, *passes, *parallelism);
            salt.len() <= MAX_LEN
        }
        HeadView::Two { first, second, .. } => first.len() <= MAX_LEN && second.len() <= MAX_LEN,
        HeadView::Sign { key, .. } => key.len() <= MAX_LEN,
    }
}

/// A copy of the question. Refuses: `NoMemory`.
pub(crate) fn question_copy(
    alloc: Global,
    head: &HeadView<'_>,
    text: &[u8],
) -> Result<Question, NoMemory>
    ensures { IfOk result (λ q. q ≡ question_seen (head_seen head.now) text.now) }
{
    let (head, text) = both(head_copy(alloc, head), copy(alloc, text))?;
    Ok(Question { head, text })
}

/// A copy of the head. Refuses: `NoMemory`.
pub(crate) fn head_copy(alloc: Global, view: &HeadView<'_>) -> Result<Head, NoMemory>
    ensures { IfOk result (λ head. head ≡ head_seen view.now) }
{
    match view {
        HeadView::Bcrypt { len, rounds, salt } => {
            let salt = copy(alloc, salt)?;
            Ok(Head::Bcrypt {
                len: *len,
                rounds: *rounds,
                salt,
            })
        }
        HeadView::Argon2 {
            flavour,
            memory,
            passes,
            parallelism,
            salt,
        } => {
            let salt = copy(alloc, salt)?;
            Ok(Head::Argon2 {
                flavour: *flavour,
                memory: *memory,
                passes: *passes,
                parallelism: *parallelism,
                salt,
            })
        }
        HeadView::Two { of, first, second } => {
            let (first, second) = both(copy(alloc, first), copy(alloc, second))?;
            Ok(two_strings(*of, first, second))
        }
        HeadView::Sign { algorithm, key } => {
            let key = copy(alloc, key)?;
            Ok(Head::Sign {
                algorithm: *algorithm,
                key,
            })
        }
    }
}

fn two_strings(of: TwoStrings, first: Bytes, second: Bytes) -> Head
    ensures { result ≡ two_head of first second }
{
    match of {
        TwoStrings::CbcSeal => Head::CbcSeal {
            key: first,
            iv: second,
        },
        TwoStrings::CbcOpen => Head::CbcOpen {
            key: first,
            iv: second,
        },
        TwoStrings::Ctr => Head::Ctr {
            key: first,
            iv: second,
        },
        TwoStrings::Verify => Head::Verify {
            key: first,
            signature: second,
        },
    }
}

/// A copy of bytes. Refuses: `NoMemory`.
pub(crate) fn copy(alloc: Global, bytes: &[u8]) -> Result<Bytes, NoMemory>
    ensures { IfOk result (λ copy. copy ≡ bytes.now) }
{
    match Bytes::new(alloc, bytes) {
        Ok(bytes) => Ok(bytes),
        Err(_) => Err(NoMemory),
    }
}
