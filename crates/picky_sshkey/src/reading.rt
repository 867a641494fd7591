//! A private key read from its text (OpenSSH's PROTOCOL.key).

ghost use Rattle.std.specs.Prelude.{◌≡◌, ◌≢◌, ◌⊎◌, ◌^◌, ◌<◌, true, false, None, Some, Ok, Err, length, not, IfOk};
ghost use Rattle.std.specs.Prelude.{IfErr, IfSome, if◌then◌else◌};
ghost use Rattle.std.specs.Option.{option_copied};
ghost use Rattle.picky_wire_base.specs.Front.{read_front};
ghost use Rattle.picky_wire_base.specs.Outcome.{and_then, map_ok};
ghost use Rattle.picky_suite.specs.Asked.{GivesAsked, IsAskedAtMost, LeavesSuite};
ghost use Rattle.picky_suite.specs.Ranges.{BcryptOk, IsWhole};
ghost use Rattle.picky_wire.specs.Count.{Rose};
ghost use Rattle.picky_wire_base.specs.Gives.{Gives};
ghost use Rattle.picky_keys.specs.LineRefusal.{is_short_text};
ghost use Rattle.picky_sshkey.specs.Cipher.{is_cbc};
ghost use Rattle.picky_sshkey.specs.PrivateRefusal.{content_asks, content_key, envelope_under, key_closed, text_asks};
ghost use Rattle.picky_sshkey.specs.PrivateRefusal.{text_key};
ghost use Rattle.picky_sshkey.specs.PrivateRefusal.{key_of_block as key_of_block_of, lock_of as lock_of_envelope};
ghost use Rattle.picky_sshkey.specs.PrivateRefusal.{lock_under as lock_under_of, sealed_under as sealed_under_of};
ghost use Rattle.picky_sshkey.specs.PrivateBlock.{private_block};
ghost use Rattle.picky_sshkey.specs.PrivateText.{base_and_comment};
ghost use Rattle.picky_sshkey.specs.View.{envelope_seen, found_seen, lock_seen, lock_shown};
ghost use Rattle.picky_sshkey.specs.inner.Short.{IsShortEnvelope};

use crate::block::block_in;
use crate::cipher::Cipher;
use crate::envelope::{EnvelopeView, envelope_in};
use crate::found::FoundKey;
use crate::kdf::{BCRYPT, NONE};
use crate::kept::name_text;
use crate::key_of_block::{kept, key_of_block};
use crate::private_key::SshPrivateKey;
use crate::sealing::open;
use picky_sshkey_blob::{Pem, PemError, SshBasePrivateKey, SshPrivateKeyError, parse_pem};
use picky_suite::{Suite, bcrypt_ok};
use picky_wire::{Failed, MAX_LEN, NoMemory, Text};
use std::alloc::Global;

/// A cipher, and the passphrase that its key is derived from.
#[derive(Clone, Copy)]
pub struct Lock<'a> {
    pub cipher: Cipher,
    pub pass: &'a str,
}

impl SshPrivateKey {
    /// The key of an envelope's text, opened under a passphrase, which it keeps whether or not it was needed.
    ///
    /// OpenSSH's PROTOCOL.key. Refuses, in order: `PemError` as `parse_pem`, and what `from_pem` refuses.
    #[tactic(auto, unfolding(crate::specs::PrivateRefusal::text_key, crate::specs::PrivateRefusal::text_asks))]
    pub fn from_pem_str<S: Suite>(
        alloc: Global,
        suite: &mut S,
        text: &str,
        passphrase: Option<&str>,
    ) -> Result<SshPrivateKey, SshPrivateKeyError>
        ensures gives { GivesAsked SshPrivateKeyError.NoMemory SshPrivateKeyError.SuiteFault (λ key. key) result
            (text_key (S.meanings suite.old) (option_copied passphrase.entry) text.now)
            (text_asks (option_copied passphrase.entry) text.now) (Rose (S.faults suite.old) (S.faults suite.new)) }
        ensures suite { LeavesSuite S.meanings S.faults SshPrivateKeyError.SuiteFault
            (text_asks (option_copied passphrase.entry) text.now) result suite.old suite.new }
        ensures asked { IsAskedAtMost 2 S.calls suite.old suite.new }
    {
        match parse_pem(alloc, text) {
            Ok(pem) => SshPrivateKey::from_pem(alloc, suite, &pem, passphrase),
            Err(PemError::NoMemory) => Err(SshPrivateKeyError::NoMemory),
            Err(e) => Err(SshPrivateKeyError::PemError(e)),
        }
    }

    /// The key of an envelope, opened under a passphrase, which it keeps whether or not it was needed.
    ///
    /// OpenSSH's PROTOCOL.key. Refuses, in order: `TooLong` for the passphrase; by field of the envelope; where its kdf
    /// isn't `none` `UnsupportedCipher`, `UnsupportedKdf`, `MissingPassphrase`, `HashingError`, `DecryptionError`,
    /// `SuiteFault`; `InvalidCheckNumbers`; by field of the key and comment; `PublicKeyMismatch`.
    pub fn from_pem<S: Suite>(
        alloc: Global,
        suite: &mut S,
        pem: &Pem,
        passphrase: Option<&str>,
    ) -> Result<SshPrivateKey, SshPrivateKeyError>
        ensures gives { GivesAsked SshPrivateKeyError.NoMemory SshPrivateKeyError.SuiteFault (λ key. key) result
            (content_key (S.meanings suite.old) (option_copied passphrase.entry) pem.now.content)
            (content_asks (option_copied passphrase.entry) pem.now.content) (Rose (S.faults suite.old) (S.faults suite.new)) }
        ensures suite { LeavesSuite S.meanings S.faults SshPrivateKeyError.SuiteFault
            (content_asks (option_copied passphrase.entry) pem.now.content) result suite.old suite.new }
        ensures asked { IsAskedAtMost 2 S.calls suite.old suite.new }
    {
        match key_found(alloc, suite, pem.content(), passphrase) {
            Ok(found) => match kept(alloc, found) {
                Ok(key) => Ok(key),
                Err(NoMemory) => Err(SshPrivateKeyError::NoMemory),
            },
            Err(e) => Err(e),
        }
    }

    /// The key and the comment of an envelope's text. All of it is read, as by `from_pem_str`, and nothing else is copied.
    ///
    /// OpenSSH's PROTOCOL.key. Refuses as `from_pem_str`.
    #[tactic(auto, unfolding(crate::specs::PrivateRefusal::text_key, crate::specs::PrivateRefusal::text_asks))]
    pub fn base_key_from_pem_str<S: Suite>(
        alloc: Global,
        suite: &mut S,
        text: &str,
        passphrase: Option<&str>,
    ) -> Result<(SshBasePrivateKey, Text), SshPrivateKeyError>
        ensures gives { GivesAsked SshPrivateKeyError.NoMemory SshPrivateKeyError.SuiteFault (λ found. found) result
            (map_ok base_and_comment (text_key (S.meanings suite.old) (option_copied passphrase.entry) text.now))
            (text_asks (option_copied passphrase.entry) text.now) (Rose (S.faults suite.old) (S.faults suite.new)) }
        ensures suite { LeavesSuite S.meanings S.faults SshPrivateKeyError.SuiteFault
            (text_asks (option_copied passphrase.entry) text.now) result suite.old suite.new }
        ensures asked { IsAskedAtMost 2 S.calls suite.old suite.new }
    {
        match parse_pem(alloc, text) {
            Ok(pem) => match key_found(alloc, suite, pem.content(), passphrase) {
                Ok(found) => Ok((found.base_key, found.comment)),
                Err(e) => Err(e),
            },
            Err(PemError::NoMemory) => Err(SshPrivateKeyError::NoMemory),
            Err(e) => Err(SshPrivateKeyError::PemError(e)),
        }
    }
}

/// The key of a content. Refuses as `SshPrivateKey::from_pem`.
#[tactic(auto, unfolding(crate::specs::PrivateRefusal::content_key, crate::specs::PrivateRefusal::content_asks, crate::specs::PrivateRefusal::closed), using(crate::proofs::ReadingLemmas::plain_gives))]
fn key_found<'a, S: Suite>(
    alloc: Global,
    suite: &mut S,
    content: &'a [u8],
    pass: Option<&'a str>,
) -> Result<FoundKey<'a>, SshPrivateKeyError>
    requires { length content.now < 2 ^ 32 }
    ensures gives { GivesAsked SshPrivateKeyError.NoMemory SshPrivateKeyError.SuiteFault found_seen result
        (content_key (S.meanings suite.old) (option_copied pass.entry) content.now)
        (content_asks (option_copied pass.entry) content.now) (Rose (S.faults suite.old) (S.faults suite.new)) }
    ensures suite { LeavesSuite S.meanings S.faults SshPrivateKeyError.SuiteFault
        (content_asks (option_copied pass.entry) content.now) result suite.old suite.new }
    ensures asked { IsAskedAtMost 2 S.calls suite.old suite.new }
{
    let envelope = match short_envelope(content, pass) {
        Ok(envelope) => envelope,
        Err(e) => return Err(e),
    };
    match lock_of(alloc, &envelope, pass) {
        Ok(Some(lock)) => key_sealed(alloc, suite, &envelope, lock, pass),
        Ok(None) => key_in(alloc, &envelope, envelope.block, pass),
        Err(e) => Err(e),
    }
}

/// The envelope of the content, where the passphrase is short.
#[tactic(auto, unfolding(crate::specs::PrivateRefusal::envelope_under), using(crate::proofs::ReadingLemmas::no_fault))]
fn short_envelope<'a>(
    content: &'a [u8],
    pass: Option<&str>,
) -> Result<EnvelopeView<'a>, SshPrivateKeyError>
    requires { length content.now < 2 ^ 32 }
    ensures short { IfOk result (λ seen. IsShortEnvelope seen) }
    ensures pass { IfOk result (λ _. is_short_text (option_copied pass.entry) ≡ true) }
    ensures ok { IfOk result (λ seen. envelope_under (option_copied pass.entry) content.now ≡ Ok (envelope_seen seen)) }
    ensures err { IfErr result (λ e. envelope_under (option_copied pass.entry) content.now ≡ Err e) }
    ensures no_fault { IfErr result (λ e. e ≢ SshPrivateKeyError.SuiteFault) }
{
    if is_too_long(pass) {
        return Err(SshPrivateKeyError::TooLong);
    }
    match envelope_in(content) {
        Ok(envelope) => Ok(envelope),
        Err(e) => Err(e),
    }
}

/// Whether there is a passphrase that a length of the wire can't say.
fn is_too_long(pass: Option<&str>) -> bool
    ensures { result ≡ not (is_short_text (option_copied pass.entry)) }
{
    match pass {
        Some(pass) => pass.len() > MAX_LEN,
        None => false,
    }
}

/// What opens the envelope's block, and none where no derivation is named.
#[tactic(auto, unfolding(crate::specs::PrivateRefusal::lock_of, crate::specs::Kdf::none), using(crate::proofs::ReadingLemmas::no_fault))]
fn lock_of<'a>(
    alloc: Global,
    envelope: &EnvelopeView<'_>,
    pass: Option<&'a str>,
) -> Result<Option<Lock<'a>>, SshPrivateKeyError>
    requires { IsShortEnvelope envelope.now }
    ensures gives { Gives SshPrivateKeyError.NoMemory lock_shown result (lock_of_envelope (option_copied pass.entry) (envelope_seen envelope.now)) }
    ensures no_fault { IfErr result (λ e. e ≢ SshPrivateKeyError.SuiteFault) }
    ensures range { IfOk result (λ lock. IfSome lock (λ lock. BcryptOk (length lock.pass.now) (length envelope.now.option.salt.now) envelope.now.option.rounds)) }
    ensures whole { IfOk result (λ lock. IfSome lock (λ lock. is_cbc lock.cipher ≡ true → IsWhole envelope.now.block.now)) }
{
    if envelope.kdf == NONE {
        return Ok(None);
    }
    match sealed_under(alloc, envelope, pass) {
        Ok(lock) => Ok(Some(lock)),
        Err(e) => Err(e),
    }
}

/// What opens a block that is sealed.
#[tactic(auto, unfolding(crate::specs::PrivateRefusal::sealed_under, crate::specs::Kdf::bcrypt))]
fn sealed_under<'a>(
    alloc: Global,
    envelope: &EnvelopeView<'_>,
    pass: Option<&'a str>,
) -> Result<Lock<'a>, SshPrivateKeyError>
    requires { IsShortEnvelope envelope.now }
    ensures gives { Gives SshPrivateKeyError.NoMemory lock_seen result (sealed_under_of (option_copied pass.entry) (envelope_seen envelope.now)) }
    ensures range { IfOk result (λ lock. BcryptOk (length lock.pass.now) (length envelope.now.option.salt.now) envelope.now.option.rounds) }
    ensures whole { IfOk result (λ lock. is_cbc lock.cipher ≡ true → IsWhole envelope.now.block.now) }
{
    let Some(cipher) = Cipher::of_name(envelope.cipher) else {
        return Err(unsupported_cipher(alloc, envelope.cipher));
    };
    if envelope.kdf != BCRYPT {
        return Err(unsupported_kdf(alloc, envelope.kdf));
    }
    match pass {
        Some(pass) => lock_under(envelope, cipher, pass),
        None => Err(SshPrivateKeyError::MissingPassphrase),
    }
}

/// What opens the block under this cipher and passphrase.
fn lock_under<'a>(
    envelope: &EnvelopeView<'_>,
    cipher: Cipher,
    pass: &'a str,
) -> Result<Lock<'a>, SshPrivateKeyError>
    ensures ok { IfOk result (λ lock. lock_under_of (envelope_seen envelope.now) cipher pass.now ≡ Ok (lock_seen lock)) }
    ensures err { IfErr result (λ e. lock_under_of (envelope_seen envelope.now) cipher pass.now ≡ Err e) }
    ensures range { IfOk result (λ lock. BcryptOk (length lock.pass.now) (length envelope.now.option.salt.now) envelope.now.option.rounds) }
    ensures whole { IfOk result (λ lock. is_cbc lock.cipher ≡ true → IsWhole envelope.now.block.now) }
{
    if !bcrypt_ok(
        pass.len(),
        envelope.option.salt.len(),
        envelope.option.rounds,
    ) {
        return Err(SshPrivateKeyError::HashingError);
    }
    if cipher.is_cbc() && envelope.block.len() % 16 != 0 {
        return Err(SshPrivateKeyError::DecryptionError);
    }
    Ok(Lock { cipher, pass })
}

/// The error for the name of a cipher.
fn unsupported_cipher(alloc: Global, name: &str) -> SshPrivateKeyError
    requires { length name.now < 2 ^ 32 }
    ensures { (result ≡ SshPrivateKeyError.UnsupportedCipher name.now) ⊎ (result ≡ SshPrivateKeyError.NoMemory) }
{
    match name_text(alloc, name) {
        Ok(name) => SshPrivateKeyError::UnsupportedCipher(name),
        Err(NoMemory) => SshPrivateKeyError::NoMemory,
    }
}

/// The error for the name of a key derivation.
fn unsupported_kdf(alloc: Global, name: &str) -> SshPrivateKeyError
    requires { length name.now < 2 ^ 32 }
    ensures { (result ≡ SshPrivateKeyError.UnsupportedKdf name.now) ⊎ (result ≡ SshPrivateKeyError.NoMemory) }
{
    match name_text(alloc, name) {
        Ok(name) => SshPrivateKeyError::UnsupportedKdf(name),
        Err(NoMemory) => SshPrivateKeyError::NoMemory,
    }
}

/// The key of a sealed block.
#[tactic(auto, unfolding(crate::specs::PrivateRefusal::key_closed))]
fn key_sealed<'a, S: Suite>(
    alloc: Global,
    suite: &mut S,
    envelope: &EnvelopeView<'a>,
    lock: Lock<'_>,
    pass: Option<&'a str>,
) -> Result<FoundKey<'a>, SshPrivateKeyError>
    requires range { BcryptOk (length lock.pass.now) (length envelope.now.option.salt.now) envelope.now.option.rounds }
    requires whole { is_cbc lock.cipher ≡ true → IsWhole envelope.now.block.now }
    requires short { IsShortEnvelope envelope.now }
    requires pass { is_short_text (option_copied pass) ≡ true }
    ensures gives { GivesAsked SshPrivateKeyError.NoMemory SshPrivateKeyError.SuiteFault found_seen result
        (key_closed (S.meanings suite.old) (option_copied pass.entry) (record { envelope = envelope_seen envelope.now; lock = Some (lock_seen lock.entry) }))
        true (Rose (S.faults suite.old) (S.faults suite.new)) }
    ensures suite { LeavesSuite S.meanings S.faults SshPrivateKeyError.SuiteFault true result suite.old suite.new }
    ensures asked { IsAskedAtMost 2 S.calls suite.old suite.new }
{
    let mut block = match Vec::from_slice(alloc, envelope.block) {
        Ok(block) => block,
        Err(_) => return Err(SshPrivateKeyError::NoMemory),
    };
    let EnvelopeView { option, .. } = envelope;
    match open(
        suite,
        lock.cipher,
        lock.pass,
        option.salt,
        option.rounds,
        block.as_mut_slice(),
    ) {
        Ok(()) => key_in(alloc, envelope, block.as_slice(), pass),
        Err(Failed) => Err(SshPrivateKeyError::SuiteFault),
    }
}

/// The key of an opened block.
#[tactic(auto, using(crate::proofs::ReadingLemmas::no_fault))]
fn key_in<'a>(
    alloc: Global,
    envelope: &EnvelopeView<'a>,
    block: &[u8],
    pass: Option<&'a str>,
) -> Result<FoundKey<'a>, SshPrivateKeyError>
    requires block { length block.now < 2 ^ 32 }
    requires short { IsShortEnvelope envelope.now }
    requires pass { is_short_text (option_copied pass) ≡ true }
    ensures gives { Gives SshPrivateKeyError.NoMemory found_seen result
        (and_then (read_front private_block block.now) (key_of_block_of (option_copied pass.entry) (envelope_seen envelope.now))) }
    ensures no_fault { result ≢ Err SshPrivateKeyError.SuiteFault }
{
    match block_in(alloc, block) {
        Ok(block) => key_of_block(alloc, envelope, &block, pass),
        Err(e) => Err(e),
    }
}
