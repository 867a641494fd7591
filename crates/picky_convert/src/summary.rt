//! The summary of the sample keys.

ghost use Rattle.std.specs.Prelude.{◌≡◌, IfOk, length, string_bytes};
ghost use Rattle.std.specs.List.{concat};
ghost use Rattle.sha2.specs.Sha256.{sha256};
ghost use Rattle.picky_convert.specs.Sample.{sample_text, summary_of, texts_of};

use crate::texts::feed_texts;
use picky_suite::Suite;
use picky_wire::NoMemory;
use sha2::{Digest, Sha256};
use std::alloc::{AllocError, Global};

/// How many texts there are, and their digest.
#[derive(Clone, Copy)]
struct Digested {
    texts: u32,
    digest: [u8; 32],
}

/// The summary of the sample keys with the numbers from 0 on, so many: three lines, each ended by LF, of how many keys and
/// texts there are, and of SHA-256 of all texts joined.
///
/// Each key is drawn by its number, written as OpenSSH's private key, and converted from text to text, none of them sealed
/// (docs/FORMATS.md, "Sample keys"). Refuses: `NoMemory`.
pub fn sample<S: Suite>(alloc: Global, suite: &mut S, keys: u16) -> Result<String, NoMemory>
    ensures gives { IfOk result (λ text. string_bytes text ≡ sample_text (S.meanings suite.old) keys) }
    ensures suite { suite.new ≡ suite.old }
{
    let digested = digest_texts(alloc, suite, keys)?;
    match summary(alloc, keys, digested) {
        Ok(text) => Ok(text),
        Err(_) => Err(NoMemory),
    }
}

/// The texts of so many keys, counted and digested.
fn digest_texts<S: Suite>(alloc: Global, suite: &mut S, keys: u16) -> Result<Digested, NoMemory>
    ensures texts { IfOk result (λ d. d.texts ≡ length (texts_of (S.meanings suite.old) keys)) }
    ensures digest { IfOk result (λ d. d.digest ≡ sha256 (concat (texts_of (S.meanings suite.old) keys))) }
    ensures suite { suite.new ≡ suite.old }
{
    let mut hasher = Sha256::new();
    let mut texts = 0;
    'keys: for number in 0..keys {
        texts += feed_texts(alloc, suite, &mut hasher, number)?;
    }
    Ok(Digested {
        texts,
        digest: hasher.finalize(),
    })
}

/// The three lines.
#[tactic(auto, unfolding(crate::specs::Sample::summary_of, picky_text::specs::Lines::text_of))]
fn summary(alloc: Global, keys: u16, digested: Digested) -> Result<String, AllocError>
    ensures { IfOk result (λ text. string_bytes text ≡ summary_of keys digested.texts digested.digest) }
{
    let Digested { texts, digest } = digested;
    let digest = hex::encode(alloc, digest)?;
    let mut text = format!(in alloc; "keys {keys}\ntexts {texts}\nsha256 ")?;
    text.push_str(digest.as_str())?;
    text.push_str("\n")?;
    Ok(text)
}
