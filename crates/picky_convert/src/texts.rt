//! The texts of a sample key, each made, fed to a hasher, and dropped.

ghost use Rattle.std.specs.Prelude.{◌≡◌, ◌≤◌, IfOk, IsOk, OnOk, Ok, false, length, map};
ghost use Rattle.std.specs.List.{concat};
ghost use Rattle.picky_keys.specs.Key.{is_security_key_kind};
ghost use Rattle.picky_conversion.specs.Convert.{conversion};
ghost use Rattle.picky_convert.specs.SampleChain.{without_passphrase};
ghost use Rattle.picky_convert.specs.SampleKeys.{kind_at};
ghost use Rattle.picky_convert.specs.SampleTexts.{five_targets, openssh, text_at, texts_at};
ghost use Rattle.picky_convert.specs.inner.Fed.{Feeds};

use crate::command::file_of;
use crate::keys::{kind_of, meaning_of};
use picky_conversion::{ConversionGiven, convert_key_text};
use picky_ppk::PpkVersion;
use picky_suite::Suite;
use picky_target::{ConvertError, DEFAULT_ROUNDS, KeyTarget, write_text};
use picky_wire::{NoMemory, Text};
use sha2::{Digest, Sha256};
use std::alloc::Global;

/// Feeds the texts of the key with a number, in their order, and counts them. Refuses: `NoMemory`.
pub fn feed_texts<S: Suite>(
    alloc: Global,
    suite: &mut S,
    hasher: &mut Sha256,
    number: u16,
) -> Result<u32, NoMemory>
    ensures fed { OnOk result (Feeds hasher.old hasher.new (concat (texts_at (S.meanings suite.old) number))) }
    ensures count { IfOk result (λ count. count ≡ length (texts_at (S.meanings suite.old) number)) }
    ensures few { IfOk result (λ count. count ≤ 6) }
    ensures suite { suite.new ≡ suite.old }
{
    let envelope = first(alloc, suite, hasher, number)?;
    if kind_of(number).is_security_key() {
        let _line = next(
            alloc,
            suite,
            hasher,
            number,
            KeyTarget::OpenSshPublic,
            &envelope,
        )?;
        return Ok(2);
    }
    feed_five(alloc, suite, hasher, number, &envelope)?;
    Ok(6)
}

/// Feeds what is converted from the envelope of a key that PuTTY has.
fn feed_five<S: Suite>(
    alloc: Global,
    suite: &mut S,
    hasher: &mut Sha256,
    number: u16,
    envelope: &Text,
) -> Result<(), NoMemory>
    requires envelope { envelope.now ≡ text_at (S.meanings suite.old) number openssh }
    requires plain { is_security_key_kind (kind_at number) ≡ false }
    ensures fed { OnOk result (Feeds hasher.old hasher.new (concat (map (text_at (S.meanings suite.old) number) five_targets))) }
    ensures suite { suite.new ≡ suite.old }
{
    let file = next(
        alloc,
        suite,
        hasher,
        number,
        file_of(PpkVersion::V3),
        envelope,
    )?;
    let file = next(alloc, suite, hasher, number, file_of(PpkVersion::V2), &file)?;
    let again = next(
        alloc,
        suite,
        hasher,
        number,
        KeyTarget::OpenSsh(DEFAULT_ROUNDS),
        &file,
    )?;
    let _line = next(
        alloc,
        suite,
        hasher,
        number,
        KeyTarget::OpenSshPublic,
        &again,
    )?;
    let _putty = next(alloc, suite, hasher, number, KeyTarget::PuttyPublic, &again)?;
    Ok(())
}

/// The envelope of a key, which is fed.
fn first<S: Suite>(
    alloc: Global,
    suite: &mut S,
    hasher: &mut Sha256,
    number: u16,
) -> Result<Text, NoMemory>
    ensures text { IfOk result (λ text. text ≡ text_at (S.meanings suite.old) number openssh) }
    ensures fed { OnOk result (Feeds hasher.old hasher.new (text_at (S.meanings suite.old) number openssh)) }
    ensures suite { suite.new ≡ suite.old }
{
    match envelope(alloc, suite, number) {
        Ok(text) => {
            feed(hasher, &text);
            Ok(text)
        }
        Err(e) => Err(e),
    }
}

/// The text of a target, from another of the key, which is fed.
fn next<S: Suite>(
    alloc: Global,
    suite: &mut S,
    hasher: &mut Sha256,
    number: u16,
    target: KeyTarget,
    from: &Text,
) -> Result<Text, NoMemory>
    requires { conversion (without_passphrase (S.meanings suite.old)) target from.now ≡ Ok (text_at (S.meanings suite.old) number target) }
    ensures text { IfOk result (λ text. text ≡ text_at (S.meanings suite.old) number target) }
    ensures fed { OnOk result (Feeds hasher.old hasher.new (text_at (S.meanings suite.old) number target)) }
    ensures suite { suite.new ≡ suite.old }
{
    match converted(alloc, suite, target, from.as_str()) {
        Ok(text) => {
            feed(hasher, &text);
            Ok(text)
        }
        Err(e) => Err(e),
    }
}

/// Feeds a text.
fn feed(hasher: &mut Sha256, text: &Text)
    ensures { Feeds hasher.old hasher.new text.now }
{
    hasher.update(text.as_str().as_bytes());
}

/// The envelope of a key.
fn envelope<S: Suite>(alloc: Global, suite: &mut S, number: u16) -> Result<Text, NoMemory>
    ensures text { IfOk result (λ text. text ≡ text_at (S.meanings suite.old) number openssh) }
    ensures suite { suite.new ≡ suite.old }
{
    match meaning_of(alloc, number) {
        Ok(meaning) => match write_text(
            alloc,
            suite,
            KeyTarget::OpenSsh(DEFAULT_ROUNDS),
            meaning,
            None,
            &[],
        ) {
            Ok(text) => Ok(text),
            Err(e) => Err(want_of(e)),
        },
        Err(_) => Err(NoMemory),
    }
}

/// What a text is converted to, where there is such a text.
fn converted<S: Suite>(
    alloc: Global,
    suite: &mut S,
    target: KeyTarget,
    from: &str,
) -> Result<Text, NoMemory>
    requires { IsOk (conversion (without_passphrase (S.meanings suite.old)) target from.now) }
    ensures text { IfOk result (λ text. conversion (without_passphrase (S.meanings suite.old)) target from.now ≡ Ok text) }
    ensures suite { suite.new ≡ suite.old }
{
    let given = ConversionGiven {
        pass_in: None,
        pass_out: None,
        fresh: &[],
    };
    match convert_key_text(alloc, suite, from, target, given) {
        Ok(text) => Ok(text),
        Err(e) => Err(want_of(e)),
    }
}

/// The one refusal that is left where a text is sure to be made.
fn want_of(e: ConvertError) -> NoMemory
    requires { e ≡ ConvertError.NoMemory }
{
    drop(e);
    NoMemory
}
