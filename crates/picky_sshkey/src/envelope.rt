//! The envelope of a private key, seen in the content of its text.

ghost use Rattle.std.specs.Prelude.{◌≡◌, ◌^◌, ◌<◌, ⊤, drop, length, Ok, Err, IfOk, IfErr};
ghost use Rattle.picky_wire_base.specs.Front.{read_front};
ghost use Rattle.picky_wire_base.specs.Outcome.{map_err};
ghost use Rattle.picky_wire_base.specs.Flaw.{Flawed};
ghost use Rattle.picky_wire_base.specs.Fixed.{fixed_uint32, raw};
ghost use Rattle.picky_wire_base.specs.View.{Seen, why_of, why_in};
ghost use Rattle.picky_sshkey.specs.Envelope.{envelope, envelope_fields, envelope_parts, magic};
ghost use Rattle.picky_sshkey.specs.Kdf.{kdf_option};
ghost use Rattle.picky_sshkey.specs.PrivateRefusal.{envelope_error, envelope_why};
ghost use Rattle.picky_sshkey.specs.View.{envelope_seen, kdf_option_seen};
ghost use Rattle.picky_sshkey.specs.inner.Short.{IsShortEnvelope};

use crate::kdf::{OptionView, option_in};
use picky_sshkey_blob::SshPrivateKeyError;
use picky_wire::{IoKind, Stuck, byte_at, string_at, uint32_at, word_at};

/// What an envelope's bytes begin with.
const MAGIC: &[u8; 14] = b"openssh-key-v1";

/// An envelope whose parts are slices of its content.
#[derive(Clone, Copy)]
pub struct EnvelopeView<'a> {
    pub cipher: &'a str,
    pub kdf: &'a str,
    pub option: OptionView<'a>,
    pub outer: &'a [u8],
    pub block: &'a [u8],
}

/// The envelope that the content begins with.
///
/// OpenSSH's PROTOCOL.key, section 1. Refuses, in order: `IoError(UnexpectedEnd)` where the magic is cut,
/// `InvalidAuthMagicHeader`, and by field `IoError(UnexpectedEnd)`, `FromUtf8Error`, `InvalidKeysAmount`.
#[tactic(auto, unfolding(crate::specs::Envelope::envelope))]
pub fn envelope_in(content: &[u8]) -> Result<EnvelopeView<'_>, SshPrivateKeyError>
    requires { length content.now < 2 ^ 32 }
    ensures ok { IfOk result (λ seen. map_err envelope_error (read_front envelope content.now) ≡ Ok (envelope_seen seen)) }
    ensures err { IfErr result (λ e. map_err envelope_error (read_front envelope content.now) ≡ Err e) }
    ensures short { IfOk result (λ seen. IsShortEnvelope seen) }
{
    let next = match magic_at(content) {
        Ok(next) => next,
        Err(e) => return Err(e),
    };
    match fields_at(content, next) {
        Ok((seen, _)) => Ok(seen),
        Err(stuck) => Err(envelope_field_refusal(stuck)),
    }
}

/// The place after the magic.
#[tactic(auto, unfolding(crate::specs::Envelope::magic, picky_wire_base::specs::Fixed::raw, picky_wire_base::specs::Wire::byte_array))]
fn magic_at(content: &[u8]) -> Result<usize, SshPrivateKeyError>
    ensures ok { IfOk result (λ next. (raw 0 magic).read content.now ≡ Ok (magic, drop next content.now)) }
    ensures err { IfErr result (λ e. map_err envelope_error ((raw 0 magic).read content.now) ≡ Err e) }
{
    match content.split_first_chunk::<14>() {
        Some((front, _)) => {
            if front == MAGIC {
                Ok(14)
            } else {
                Err(SshPrivateKeyError::InvalidAuthMagicHeader)
            }
        }
        None => Err(SshPrivateKeyError::IoError(IoKind::UnexpectedEnd)),
    }
}

/// The error for a field that is stuck.
fn envelope_field_refusal(stuck: Stuck<'_>) -> SshPrivateKeyError
    ensures { result ≡ envelope_why (why_of stuck.entry) }
{
    match stuck {
        Stuck::Short => SshPrivateKeyError::IoError(IoKind::UnexpectedEnd),
        Stuck::NotUtf8 => SshPrivateKeyError::FromUtf8Error,
        Stuck::Number(n) => SshPrivateKeyError::InvalidKeysAmount(n),
        Stuck::Name(_) | Stuck::Length => SshPrivateKeyError::InvalidKeyFormat,
    }
}

/// The fields after the magic.
#[tactic(auto, unfolding(crate::specs::Envelope::envelope_fields))]
fn fields_at<'a>(content: &'a [u8], from: usize) -> Result<(EnvelopeView<'a>, usize), Stuck<'a>>
    requires { length content.now < 2 ^ 32 }
    ensures seen { Seen envelope_seen (λ _. ⊤) why_in envelope_fields content.now from result }
    ensures short { IfOk result (λ found. IsShortEnvelope found.0) }
{
    let (_, next) = match byte_at(content, from) {
        Ok(found) => found,
        Err(stuck) => return Err(stuck),
    };
    let (cipher, next) = match word_at(content, next) {
        Ok(found) => found,
        Err(stuck) => return Err(stuck),
    };
    let (kdf, next) = match word_at(content, next) {
        Ok(found) => found,
        Err(stuck) => return Err(stuck),
    };
    parts_at(content, next, cipher.text, kdf.text)
}

/// The fields after the names.
#[tactic(auto, unfolding(crate::specs::Envelope::envelope_parts))]
fn parts_at<'a>(
    content: &'a [u8],
    from: usize,
    cipher: &'a str,
    kdf: &'a str,
) -> Result<(EnvelopeView<'a>, usize), Stuck<'a>>
    requires content { length content.now < 2 ^ 32 }
    requires cipher { length cipher.now < 2 ^ 32 }
    requires kdf { length kdf.now < 2 ^ 32 }
    ensures seen { Seen envelope_seen (λ _. ⊤) why_in (envelope_parts cipher.now kdf.now) content.now from result }
    ensures short { IfOk result (λ found. IsShortEnvelope found.0) }
{
    let (option, next) = match option_at(content, from) {
        Ok(found) => found,
        Err(stuck) => return Err(stuck),
    };
    let next = match one_key_at(content, next) {
        Ok((_, next)) => next,
        Err(stuck) => return Err(stuck),
    };
    let (outer, next) = match string_at(content, next) {
        Ok(found) => found,
        Err(stuck) => return Err(stuck),
    };
    let (block, next) = match string_at(content, next) {
        Ok(found) => found,
        Err(stuck) => return Err(stuck),
    };
    Ok((
        EnvelopeView {
            cipher,
            kdf,
            option,
            outer: outer.bytes,
            block: block.bytes,
        },
        next,
    ))
}

/// The options of a key derivation.
#[tactic(auto, unfolding(crate::specs::Kdf::kdf_option))]
fn option_at<'a>(content: &'a [u8], from: usize) -> Result<(OptionView<'a>, usize), Stuck<'a>>
    requires { length content.now < 2 ^ 32 }
    ensures seen { Seen kdf_option_seen (λ _. ⊤) Flawed kdf_option content.now from result }
    ensures short { IfOk result (λ found. length found.0.salt.now < 2 ^ 32) }
{
    let (block, next) = match string_at(content, from) {
        Ok(found) => found,
        Err(stuck) => return Err(stuck),
    };
    match option_in(block.bytes) {
        Ok(option) => Ok((option, next)),
        Err(stuck) => Err(stuck),
    }
}

/// The number of keys, which is one.
fn one_key_at<'a>(content: &'a [u8], from: usize) -> Result<(u32, usize), Stuck<'a>>
    ensures { Seen (λ n. n) (λ _. ⊤) why_in (fixed_uint32 5 1) content.now from result }
{
    let (keys, next) = match uint32_at(content, from) {
        Ok(found) => found,
        Err(stuck) => return Err(stuck),
    };
    if keys != 1 {
        return Err(Stuck::Number(keys));
    }
    Ok((keys, next))
}
