//! An envelope, seen in its content (OpenSSH's PROTOCOL.key, section 1).

ghost use Rattle.std.specs.Prelude.{◌≡◌, ◌^◌, ◌<◌, ⊤, Ok, Err, drop, length, IfOk, IfErr};
ghost use Rattle.picky_wire_base.specs.Fixed.{fixed_uint32, raw};
ghost use Rattle.picky_wire_base.specs.Flaw.{Flawed};
ghost use Rattle.picky_wire_base.specs.Front.{read_front};
ghost use Rattle.picky_wire_base.specs.Outcome.{map_err};
ghost use Rattle.picky_wire_base.specs.View.{Seen, why_in, why_of};
ghost use Rattle.picky_sshkey.specs.Envelope.{envelope, envelope_fields, envelope_parts, magic};
ghost use Rattle.picky_sshkey.specs.Kdf.{kdf_fields, kdf_option, option_inside};
ghost use Rattle.picky_sshkey.specs.PrivateRefusal.{envelope_error, envelope_why};
ghost use Rattle.picky_shown.specs.inner.View.{envelope_seen, option_seen};

use picky_sshkey::SshPrivateKeyError;
use picky_wire::{IoKind, Stuck, byte_at, string_at, uint32_at, word_at};

/// What an envelope's bytes begin with.
const MAGIC: &[u8; 14] = b"openssh-key-v1";

/// A salt and a number of rounds, seen in the string that has them.
#[derive(Clone, Copy)]
pub struct OptionView<'a> {
    pub salt: &'a [u8],
    pub rounds: u32,
}

/// An envelope whose parts are slices of its content.
#[derive(Clone, Copy)]
pub struct EnvelopeView<'a> {
    pub cipher: &'a str,
    pub kdf: &'a str,
    pub option: OptionView<'a>,
    pub outer: &'a [u8],
    pub block: &'a [u8],
}

/// The envelope that the content begins with.
///
/// Refuses, in order: `IoError(UnexpectedEnd)` where the magic is cut, `InvalidAuthMagicHeader`, and by field
/// `IoError(UnexpectedEnd)`, `FromUtf8Error`, `InvalidKeysAmount`.
#[tactic(auto, unfolding(picky_sshkey::specs::Envelope::envelope))]
pub fn envelope_at_front(content: &[u8]) -> Result<EnvelopeView<'_>, SshPrivateKeyError>
    requires { length content.now < 2 ^ 32 }
    ensures ok { IfOk result (λ seen. map_err envelope_error (read_front envelope content.now) ≡ Ok (envelope_seen seen)) }
    ensures err { IfErr result (λ e. map_err envelope_error (read_front envelope content.now) ≡ Err e) }
    ensures short { IfOk result (λ seen. (length seen.cipher.now < 2 ^ 32) × (length seen.kdf.now < 2 ^ 32)) }
{
    let next = match magic_at(content) {
        Ok(next) => next,
        Err(e) => return Err(e),
    };
    match fields_at(content, next) {
        Ok((seen, _)) => Ok(seen),
        Err(stuck) => Err(envelope_refusal(stuck)),
    }
}

/// The place after the magic.
#[tactic(auto, unfolding(picky_sshkey::specs::Envelope::magic, picky_wire_base::specs::Fixed::raw, picky_wire_base::specs::Wire::byte_array))]
fn magic_at(content: &[u8]) -> Result<usize, SshPrivateKeyError>
    ensures ok { IfOk result (λ next. (raw 0 magic).read content.now ≡ Ok (magic, drop next content.now)) }
    ensures err { IfErr result (λ e. map_err envelope_error ((raw 0 magic).read content.now) ≡ Err e) }
{
    match content.split_first_chunk::<14>() {
        Some((front, _)) => {
            if front == MAGIC {
                Ok(14)
            } else {
                Err(SshPrivateKeyError::InvalidAuthMagicHeader)
            }
        }
        None => Err(SshPrivateKeyError::IoError(IoKind::UnexpectedEnd)),
    }
}

/// The error for a field that is stuck.
fn envelope_refusal(stuck: Stuck<'_>) -> SshPrivateKeyError
    ensures { result ≡ envelope_why (why_of stuck.entry) }
{
    match stuck {
        Stuck::Short => SshPrivateKeyError::IoError(IoKind::UnexpectedEnd),
        Stuck::NotUtf8 => SshPrivateKeyError::FromUtf8Error,
        Stuck::Number(n) => SshPrivateKeyError::InvalidKeysAmount(n),
        Stuck::Name(_) | Stuck::Length => SshPrivateKeyError::InvalidKeyFormat,
    }
}

/// The fields after the magic.
#[tactic(auto, unfolding(picky_sshkey::specs::Envelope::envelope_fields))]
fn fields_at<'a>(content: &'a [u8], from: usize) -> Result<(EnvelopeView<'a>, usize), Stuck<'a>>
    requires { length content.now < 2 ^ 32 }
    ensures seen { Seen envelope_seen (λ _. ⊤) why_in envelope_fields content.now from result }
    ensures short { IfOk result (λ found. (length found.0.cipher.now < 2 ^ 32) × (length found.0.kdf.now < 2 ^ 32)) }
{
    let (_, next) = match byte_at(content, from) {
        Ok(found) => found,
        Err(stuck) => return Err(stuck),
    };
    let (cipher, next) = match word_at(content, next) {
        Ok(found) => found,
        Err(stuck) => return Err(stuck),
    };
    let (kdf, next) = match word_at(content, next) {
        Ok(found) => found,
        Err(stuck) => return Err(stuck),
    };
    parts_at(content, next, cipher.text, kdf.text)
}

/// The fields after the names.
#[tactic(auto, unfolding(picky_sshkey::specs::Envelope::envelope_parts))]
fn parts_at<'a>(
    content: &'a [u8],
    from: usize,
    cipher: &'a str,
    kdf: &'a str,
) -> Result<(EnvelopeView<'a>, usize), Stuck<'a>>
    requires content { length content.now < 2 ^ 32 }
    requires cipher { length cipher.now < 2 ^ 32 }
    requires kdf { length kdf.now < 2 ^ 32 }
    ensures seen { Seen envelope_seen (λ _. ⊤) why_in (envelope_parts cipher.now kdf.now) content.now from result }
    ensures short { IfOk result (λ found. (length found.0.cipher.now < 2 ^ 32) × (length found.0.kdf.now < 2 ^ 32)) }
{
    let (option, next) = match option_at(content, from) {
        Ok(found) => found,
        Err(stuck) => return Err(stuck),
    };
    let next = match one_key_at(content, next) {
        Ok((_, next)) => next,
        Err(stuck) => return Err(stuck),
    };
    let (outer, next) = match string_at(content, next) {
        Ok(found) => found,
        Err(stuck) => return Err(stuck),
    };
    let (block, next) = match string_at(content, next) {
        Ok(found) => found,
        Err(stuck) => return Err(stuck),
    };
    Ok((
        EnvelopeView {
            cipher,
            kdf,
            option,
            outer: outer.bytes,
            block: block.bytes,
        },
        next,
    ))
}

/// The options of a key derivation.
#[tactic(auto, unfolding(picky_sshkey::specs::Kdf::kdf_option))]
fn option_at<'a>(content: &'a [u8], from: usize) -> Result<(OptionView<'a>, usize), Stuck<'a>>
    requires { length content.now < 2 ^ 32 }
    ensures { Seen option_seen (λ _. ⊤) Flawed kdf_option content.now from result }
{
    let (block, next) = match string_at(content, from) {
        Ok(found) => found,
        Err(stuck) => return Err(stuck),
    };
    match option_in(block.bytes) {
        Ok(option) => Ok((option, next)),
        Err(stuck) => Err(stuck),
    }
}

/// What the bytes of that string say.
fn option_in(block: &[u8]) -> Result<OptionView<'_>, Stuck<'_>>
    ensures ok { IfOk result (λ seen. option_inside.decide block.now ≡ Ok (option_seen seen)) }
    ensures err { IfErr result (λ stuck. map_err Flawed (option_inside.decide block.now) ≡ Err (why_of stuck)) }
{
    if block.is_empty() {
        return Ok(OptionView {
            salt: &[],
            rounds: 0,
        });
    }
    salt_and_rounds(block)
}

/// The salt and the rounds that the bytes begin with.
#[tactic(auto, unfolding(picky_sshkey::specs::Kdf::kdf_fields))]
fn salt_and_rounds(block: &[u8]) -> Result<OptionView<'_>, Stuck<'_>>
    ensures ok { IfOk result (λ seen. read_front kdf_fields block.now ≡ Ok (option_seen seen)) }
    ensures err { IfErr result (λ stuck. map_err Flawed (read_front kdf_fields block.now) ≡ Err (why_of stuck)) }
{
    let (salt, next) = match string_at(block, 0) {
        Ok(found) => found,
        Err(stuck) => return Err(stuck),
    };
    match uint32_at(block, next) {
        Ok((rounds, _)) => Ok(OptionView {
            salt: salt.bytes,
            rounds,
        }),
        Err(stuck) => Err(stuck),
    }
}

/// The number of keys, which is one.
fn one_key_at<'a>(content: &'a [u8], from: usize) -> Result<(u32, usize), Stuck<'a>>
    ensures { Seen (λ n. n) (λ _. ⊤) why_in (fixed_uint32 5 1) content.now from result }
{
    let (keys, next) = match uint32_at(content, from) {
        Ok(found) => found,
        Err(stuck) => return Err(stuck),
    };
    if keys != 1 {
        return Err(Stuck::Number(keys));
    }
    Ok((keys, next))
}
