//! A key written as PuTTY's private key file.

ghost use Rattle.std.specs.Prelude.{◌≡◌, ◌<◌, ◌^◌, IfOk, length};
ghost use Rattle.std.specs.Option.{option_copied};
ghost use Rattle.picky_wire_base.specs.Mpint.{mpint_of};
ghost use Rattle.picky_wire_base.specs.Wire.{string_of};
ghost use Rattle.picky_wire_base.specs.Zeros.{without_zeros};
ghost use Rattle.picky_kv.specs.declared.PpkVersionKey.TheVariants.{V3};
ghost use Rattle.picky_suite.specs.Asked.{GivesAsked, IsAskedAtMost, LeavesSuite};
ghost use Rattle.picky_wire.specs.Count.{Rose};
ghost use Rattle.picky_wire_base.specs.Gives.{Gives};
ghost use Rattle.picky_sshkey_blob.specs.Key.{public_part};
ghost use Rattle.picky_ppk_parts.specs.Secret.{secret_bytes};
ghost use Rattle.picky_ppk_file.specs.File.{version_of};
ghost use Rattle.picky_ppk_file.specs.PuttyRefusal.{is_security_key as is_security_key_of};
ghost use Rattle.picky_ppk.specs.Sealed.{file_to_seal, is_sealable, padding_len as missing_len};
ghost use Rattle.picky_ppk.specs.Fresh.{salt_len as salt_len_of};
ghost use Rattle.picky_ppk.specs.PpkLayout.{laid_secret};
ghost use Rattle.picky_ppk.specs.declared.layout.PpkLayout.TheVariants.{Putty};
ghost use Rattle.picky_target.specs.Drafts.{key_padding_len, plain_file as plain_file_of};
ghost use Rattle.picky_target.specs.inner.File.{salt_and_padding, measured, plain_drafted, plain_written};
ghost use Rattle.picky_target.specs.inner.File.{sealed_text as sealed_text_of};
ghost use Rattle.picky_target.specs.inner.File.{sealed_written, sealed_asks, text_of_file as text_of_file_of};
ghost use Rattle.picky_target.specs.inner.File.{ppk_written, ppk_writing_asks};

use crate::comment::carries_comment;
use crate::error::ConvertError;
use crate::lengths::sealed_text_len;
use crate::public::{no_such_kind, putty_refusal};
use crate::target::KeyTarget;
use picky_ppk::aes::lacking_len;
use picky_ppk::{
    Ppk, PpkEncryptionConfig, PpkLayout, PpkVersion, PuttyError, can_derive_by, salt_len,
};
use picky_ppk_file::MAX_BLOCK_LEN;
use picky_sshkey::SshBasePrivateKey;
use picky_suite::Suite;
use picky_wire::{MAX_LEN, Mpint, Text};
use std::alloc::Global;

/// PuTTY's file of a key and a comment in a version, sealed where there is a passphrase.
/// Refuses as `write_text` for `Ppk` and a private key.
pub fn write_file<S: Suite>(
    alloc: Global,
    suite: &mut S,
    version: PpkVersion,
    config: PpkEncryptionConfig,
    layout: PpkLayout,
    key: &SshBasePrivateKey,
    comment: Text,
    pass: Option<&str>,
    fresh: &[u8],
) -> Result<Text, ConvertError>
    ensures gives { GivesAsked ConvertError.NoMemory (ConvertError.Putty PuttyError.SuiteFault) (λ text. text) result
        (ppk_written (S.meanings suite.old) (record { pass = option_copied pass.entry; fresh = fresh.now }) version config layout key.now comment)
        (ppk_writing_asks (S.meanings suite.old) (record { pass = option_copied pass.entry; fresh = fresh.now }) version config layout key.now comment)
        (Rose (S.faults suite.old) (S.faults suite.new)) }
    ensures suite { LeavesSuite S.meanings S.faults (ConvertError.Putty PuttyError.SuiteFault)
        (ppk_writing_asks (S.meanings suite.old) (record { pass = option_copied pass.entry; fresh = fresh.now }) version config layout key.now comment) result
        suite.old suite.new }
    ensures asked { IsAskedAtMost 2 S.calls suite.old suite.new }
{
    if is_security_key(key) {
        return Err(no_such_kind(alloc));
    }
    if !carries_comment(KeyTarget::Ppk(version, config, layout), comment.as_str()) {
        return Err(ConvertError::CommentNotCarried);
    }
    match pass {
        Some(pass) => write_sealed(
            alloc, suite, version, config, layout, key, comment, pass, fresh,
        ),
        None => write_plain(alloc, suite, version, layout, key, comment),
    }
}

/// Whether a device keeps the key's secret.
fn is_security_key(key: &SshBasePrivateKey) -> bool
    ensures { result ≡ is_security_key_of (public_part key.now) }
{
    key.kind().is_security_key()
}

/// The file that isn't sealed.
fn write_plain<S: Suite>(
    alloc: Global,
    suite: &S,
    version: PpkVersion,
    layout: PpkLayout,
    key: &SshBasePrivateKey,
    comment: Text,
) -> Result<Text, ConvertError>
    ensures { Gives ConvertError.NoMemory (λ text. text) result (plain_written (S.meanings suite.now) version layout key.now comment) }
{
    match Ppk::from_base_key_in(alloc, suite, version, layout, key, comment) {
        Ok(ppk) => {
            let text = text_of_file(alloc, &ppk);
            drop(ppk);
            text
        }
        Err(e) => Err(putty_refusal(e)),
    }
}

/// The text of a file.
fn text_of_file(alloc: Global, ppk: &Ppk) -> Result<Text, ConvertError>
    ensures { Gives ConvertError.NoMemory (λ text. text) result (text_of_file_of ppk.now) }
{
    match ppk.to_string(alloc) {
        Ok(text) => Ok(text),
        Err(e) => Err(putty_refusal(e)),
    }
}

/// The file that is sealed: what sealing takes is judged first, then what is to be written, and then the suite is asked.
#[tactic(auto, using(crate::proofs::FaultLemmas::sealing_faults, crate::proofs::FileLemmas::sealing_steps))]
fn write_sealed<S: Suite>(
    alloc: Global,
    suite: &mut S,
    version: PpkVersion,
    config: PpkEncryptionConfig,
    layout: PpkLayout,
    key: &SshBasePrivateKey,
    comment: Text,
    pass: &str,
    fresh: &[u8],
) -> Result<Text, ConvertError>
    ensures gives { GivesAsked ConvertError.NoMemory (ConvertError.Putty PuttyError.SuiteFault) (λ text. text) result
        (sealed_written (S.meanings suite.old) pass.now fresh.now version config layout key.now comment)
        (sealed_asks (S.meanings suite.old) pass.now fresh.now version config layout key.now comment)
        (Rose (S.faults suite.old) (S.faults suite.new)) }
    ensures suite { LeavesSuite S.meanings S.faults (ConvertError.Putty PuttyError.SuiteFault)
        (sealed_asks (S.meanings suite.old) pass.now fresh.now version config layout key.now comment) result suite.old suite.new }
    ensures asked { IsAskedAtMost 2 S.calls suite.old suite.new }
{
    let fresh = match drawn_under(version, config, layout, key, pass, fresh) {
        Ok(fresh) => fresh,
        Err(e) => return Err(e),
    };
    match plain_file(alloc, suite, version, config, layout, key, comment, &fresh) {
        Ok(ppk) => sealed_text(alloc, suite, ppk, config, pass, &fresh),
        Err(e) => Err(e),
    }
}

/// The text of the file sealed.
#[tactic(auto, using(crate::proofs::FaultLemmas::text_no_fault))]
fn sealed_text<S: Suite>(
    alloc: Global,
    suite: &mut S,
    ppk: Ppk,
    config: PpkEncryptionConfig,
    pass: &str,
    fresh: &Drawn<'_>,
) -> Result<Text, ConvertError>
    requires padding { length fresh.now.padding.now ≡ missing_len ppk }
    requires salt { version_of ppk.sealing ≡ V3 → length fresh.now.salt.now ≡ config.argon2_salt_size }
    ensures gives { GivesAsked ConvertError.NoMemory (ConvertError.Putty PuttyError.SuiteFault) (λ text. text) result
        (sealed_text_of (S.meanings suite.old) pass.now config
        (record { salt = fresh.now.salt.now; padding = fresh.now.padding.now; plain = ppk }))
        (is_sealable pass.now ppk (file_to_seal config fresh.now.salt.now fresh.now.padding.now ppk))
        (Rose (S.faults suite.old) (S.faults suite.new)) }
    ensures suite { LeavesSuite S.meanings S.faults (ConvertError.Putty PuttyError.SuiteFault)
        (is_sealable pass.now ppk (file_to_seal config fresh.now.salt.now fresh.now.padding.now ppk)) result
        suite.old suite.new }
    ensures asked { IsAskedAtMost 2 S.calls suite.old suite.new }
{
    match ppk.into_encrypted(alloc, suite, pass, config, fresh.salt, fresh.padding) {
        Ok(sealed) => {
            let text = text_of_file(alloc, &sealed);
            drop(sealed);
            text
        }
        Err(e) => Err(putty_refusal(e)),
    }
}

/// The fresh bytes that sealing takes.
#[derive(Drop)]
struct Drawn<'a> {
    salt: &'a [u8],
    padding: &'a [u8],
}

/// The salt and the padding. Refuses, in order: `Putty(Argon2)`, `FreshTooShort`.
fn drawn_under<'a>(
    version: PpkVersion,
    config: PpkEncryptionConfig,
    layout: PpkLayout,
    key: &SshBasePrivateKey,
    pass: &str,
    fresh: &'a [u8],
) -> Result<Drawn<'a>, ConvertError>
    ensures gives { Gives ConvertError.NoMemory (λ d. (d.salt.now, d.padding.now)) result (salt_and_padding pass.now fresh.now version config layout key.now) }
    ensures salt { IfOk result (λ d. length d.salt.now ≡ salt_len_of version config) }
    ensures padding { IfOk result (λ d. length d.padding.now ≡ key_padding_len layout key.now) }
{
    if !can_derive_by(version, pass, config) {
        return Err(ConvertError::Putty(PuttyError::Argon2));
    }
    let padding_len = padding_len(layout, key);
    let salt_len = salt_len(version, config);
    if fresh.len() < salt_len + padding_len {
        return Err(ConvertError::FreshTooShort);
    }
    let (salt, more) = fresh.split_at(salt_len);
    let (padding, _) = more.split_at(padding_len);
    Ok(Drawn { salt, padding })
}

/// How many fresh bytes the padding takes.
fn padding_len(layout: PpkLayout, key: &SshBasePrivateKey) -> usize
    ensures len { result ≡ key_padding_len layout key.now }
    ensures few { result < 16 }
{
    lacking_len(laid_len(layout, key))
}

/// How many bytes the private bytes have in a layout, without padding.
#[tactic(auto, unfolding(picky_ppk::specs::PpkLayout::laid_secret))]
fn laid_len(layout: PpkLayout, key: &SshBasePrivateKey) -> usize
    ensures { result ≡ length (laid_secret layout key.now) }
{
    match layout {
        PpkLayout::Number => secret_len(key),
        PpkLayout::Putty => putty_len(key),
    }
}

/// How many they are in PuTTY's own.
#[tactic(auto, unfolding(picky_ppk::specs::PpkLayout::laid_secret))]
fn putty_len(key: &SshBasePrivateKey) -> usize
    ensures { result ≡ length (laid_secret Putty key.now) }
{
    match key {
        SshBasePrivateKey::Ed { secret, .. } => string_len(secret),
        SshBasePrivateKey::Rsa { .. }
        | SshBasePrivateKey::Ec { .. }
        | SshBasePrivateKey::SkEcdsaSha2NistP256 { .. }
        | SshBasePrivateKey::SkEd25519 { .. } => secret_len(key),
    }
}

/// How many bytes the string of the bytes has.
#[tactic(auto, using(crate::proofs::LengthLemmas::string_len))]
fn string_len(bytes: &[u8]) -> usize
    requires { length bytes.now < 2 ^ 32 }
    ensures { result ≡ length (string_of bytes.now) }
{
    bytes.len() + 4
}

/// How many they are with an Ed25519 secret as a number.
#[tactic(auto, unfolding(picky_ppk_parts::specs::Secret::secret_bytes))]
fn secret_len(key: &SshBasePrivateKey) -> usize
    ensures { result ≡ length (secret_bytes key.now) }
{
    match key {
        SshBasePrivateKey::Rsa { d, p, q, iqmp, .. } => {
            mpint_len(d) + mpint_len(p) + mpint_len(q) + mpint_len(iqmp)
        }
        SshBasePrivateKey::Ec { secret, .. } => mpint_len(secret),
        SshBasePrivateKey::Ed { secret, .. } => number_len(secret),
        SshBasePrivateKey::SkEcdsaSha2NistP256 { .. } | SshBasePrivateKey::SkEd25519 { .. } => 0,
    }
}

/// How many bytes a number's field has.
fn mpint_len(number: &Mpint) -> usize
    ensures len { result ≡ length (mpint_of number.now) }
    ensures short { result < 2 ^ 33 }
{
    number_len(number.bytes())
}

/// How many bytes the field of the number has that follows the zeros of these bytes.
#[tactic(auto, using(crate::proofs::LengthLemmas::number_fields))]
fn number_len(bytes: &[u8]) -> usize
    requires { length bytes.now < 2 ^ 32 }
    ensures len { result ≡ length (mpint_of (without_zeros bytes.now)) }
    ensures short { result < 2 ^ 33 }
{
    let number = after_zeros(bytes);
    match number.first() {
        Some(128..) => number.len() + 5,
        Some(_) | None => number.len() + 4,
    }
}

/// The bytes from the first that isn't zero.
fn after_zeros(bytes: &[u8]) -> &[u8]
    ensures { result.now ≡ without_zeros bytes.now }
{
    let mut rest = bytes;
    'zeros: while let Some((0, more)) = rest.split_first() {
        rest = more;
    }
    rest
}

/// The file before it is sealed, where the sealed one isn't too long, or has too many lines.
#[tactic(auto, using(crate::proofs::FileLemmas::made_is_plain))]
fn plain_file<S: Suite>(
    alloc: Global,
    suite: &S,
    version: PpkVersion,
    config: PpkEncryptionConfig,
    layout: PpkLayout,
    key: &SshBasePrivateKey,
    comment: Text,
    fresh: &Drawn<'_>,
) -> Result<Ppk, ConvertError>
    requires salt { version ≡ V3 → length fresh.now.salt.now ≡ config.argon2_salt_size }
    requires padding { length fresh.now.padding.now < 16 }
    ensures gives { Gives ConvertError.NoMemory (λ ppk. ppk) result
        (plain_drafted (S.meanings suite.now) version config layout key.now comment fresh.now.salt.now fresh.now.padding.now) }
    ensures file { IfOk result (λ ppk. plain_file_of (S.meanings suite.now) version layout key.now comment ≡ ppk) }
{
    match Ppk::from_base_key_in(alloc, suite, version, layout, key, comment) {
        Ok(ppk) => match measure(&ppk, config, fresh) {
            Ok(()) => Ok(ppk),
            Err(e) => {
                drop(ppk);
                Err(e)
            }
        },
        Err(e) => Err(putty_refusal(e)),
    }
}

/// Judges the sealed file's lengths and lines, which are known before it is sealed. Refuses, in order: `TooLong`,
/// `TooManyLines`.
fn measure(ppk: &Ppk, config: PpkEncryptionConfig, fresh: &Drawn<'_>) -> Result<(), ConvertError>
    requires salt { version_of ppk.now.sealing ≡ V3 → length fresh.now.salt.now ≡ config.argon2_salt_size }
    requires padding { length fresh.now.padding.now < 16 }
    ensures { result ≡ measured config fresh.now.salt.now fresh.now.padding.now ppk.now }
{
    let file = ppk.file();
    let public_len = file.public_key.as_slice().len();
    let private_len = file.private_bytes.as_slice().len() + fresh.padding.len();
    if private_len > MAX_LEN || sealed_text_len(file, config, fresh.salt, fresh.padding) > MAX_LEN {
        return Err(ConvertError::TooLong);
    }
    if public_len > MAX_BLOCK_LEN || private_len > MAX_BLOCK_LEN {
        return Err(ConvertError::TooManyLines);
    }
    Ok(())
}
