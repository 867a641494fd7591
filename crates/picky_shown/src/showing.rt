//! What a key text shows without a passphrase.

ghost use Rattle.std.specs.Prelude.{◌≡◌, ◌^◌, ◌<◌, Ok, length, IfOk};
ghost use Rattle.picky_wire_base.specs.Front.{read_front};
ghost use Rattle.picky_wire_base.specs.Gives.{Gives};
ghost use Rattle.picky_wire_base.specs.Outcome.{and_then, map_err};
ghost use Rattle.picky_sshkey.specs.Envelope.{envelope as layout};
ghost use Rattle.picky_sshkey.specs.PrivateRefusal.{envelope_error};
ghost use Rattle.picky_key_text.specs.inner.Refusals.{line_refusal as line_refusal_of, putty_refusal as putty_refusal_of};
ghost use Rattle.picky_shown.specs.Shown.{envelope_shows, file_shows, open_shows, sealed_shows, sealed_shows_as, shows};
ghost use Rattle.picky_shown.specs.Shown.{sealing_shown, shown_config as shown_config_of, shown_rounds, text_envelope};
ghost use Rattle.picky_shown.specs.inner.View.{envelope_seen};

use crate::envelope::{EnvelopeView, envelope_at_front};
use crate::sealing::ShownSealing;
use picky_key_text::{Form, ReadError, form_of, public_key, read_text};
use picky_keys::{SshBasePublicKey, SshPublicKey, SshPublicKeyError};
use picky_ppk::{Argon2Params, PpkEncryptionConfig, PpkFile, PpkSealing, PuttyError};
use picky_ppk_parts::key_in_blob;
use picky_sshkey::{PemError, SshPrivateKeyError, parse_pem};
use picky_suite::Suite;
use picky_wire::{NoMemory, Text, both};
use std::alloc::Global;

/// The name of no derivation.
const NONE: &str = "none";

/// The name of the derivation that has rounds.
const BCRYPT: &str = "bcrypt";

/// What a text shows: a public key with its comment, and what the text is encrypted by.
#[derive(Debug, Drop, PartialEq, Eq)]
pub struct Shown {
    /// An encrypted OpenSSH private key keeps its comment inside, so the comment is empty.
    pub key: SshPublicKey,
    pub sealing: ShownSealing,
}

/// What the text shows without a passphrase. Of a text that isn't encrypted that is what `read_text` reads. Of an encrypted
/// one it is what stands open in it: that the public key is the private key's is known only when the text is read.
///
/// OpenSSH's PROTOCOL.key, section 1; PuTTY's manual, Appendix C. Refuses, in order: of an encrypted text `Private` as
/// `parse_pem` and by field of the envelope, `Public` for its public key; or `Putty` as `PpkFile::from_str` and for the
/// public key; of another what `read_text` refuses without a passphrase.
#[tactic(auto, unfolding(crate::specs::Shown::shows))]
pub fn show_text<S: Suite>(alloc: Global, suite: &mut S, text: &str) -> Result<Shown, ReadError>
    ensures gives { Gives ReadError.NoMemory (λ shown. shown) result (shows (S.meanings suite.old) text.now) }

    // The suite isn't asked.
    ensures suite { suite.new ≡ suite.old }
{
    match sealed_shown(alloc, text) {
        Ok(Some(shown)) => Ok(shown),
        Ok(None) => open_shown(alloc, suite, text),
        Err(e) => Err(e),
    }
}

/// What a text shows that isn't encrypted.
#[tactic(auto, using(crate::proofs::OpenLemmas::open_texts))]
fn open_shown<S: Suite>(alloc: Global, suite: &mut S, text: &str) -> Result<Shown, ReadError>
    ensures gives { Gives ReadError.NoMemory (λ shown. shown) result (open_shows (S.meanings suite.old) text.now) }
    ensures suite { suite.new ≡ suite.old }
{
    match read_text(alloc, suite, text, None) {
        Ok(meaning) => Ok(Shown {
            key: public_key(meaning),
            sealing: ShownSealing::Unsealed,
        }),
        Err(e) => Err(e),
    }
}

/// What an encrypted text shows, and none where it isn't encrypted.
#[tactic(auto, unfolding(crate::specs::Shown::sealed_shows))]
fn sealed_shown(alloc: Global, text: &str) -> Result<Option<Shown>, ReadError>
    ensures { Gives ReadError.NoMemory (λ shown. shown) result (sealed_shows text.now) }
{
    sealed_shown_as(alloc, form_of(text), text)
}

/// The same of a text in a form.
fn sealed_shown_as(alloc: Global, form: Form, text: &str) -> Result<Option<Shown>, ReadError>
    ensures { Gives ReadError.NoMemory (λ shown. shown) result (sealed_shows_as form text.now) }
{
    match form {
        Form::Envelope => in_envelope(alloc, text),
        Form::Ppk => match PpkFile::from_str(alloc, text) {
            Ok(file) => file_shown(alloc, file),
            Err(e) => Err(putty_refusal(e)),
        },
        Form::PuttyPublic | Form::Certificate | Form::PublicLine => Ok(None),
    }
}

/// What the envelope of a text shows.
#[tactic(auto, unfolding(crate::specs::Shown::text_envelope))]
fn in_envelope(alloc: Global, text: &str) -> Result<Option<Shown>, ReadError>
    ensures { Gives ReadError.NoMemory (λ shown. shown) result
        (and_then (map_err ReadError.Private (text_envelope text.now)) envelope_shows) }
{
    match parse_pem(alloc, text) {
        Ok(pem) => in_content(alloc, pem.content()),
        Err(PemError::NoMemory) => Err(ReadError::NoMemory),
        Err(e) => Err(ReadError::Private(SshPrivateKeyError::PemError(e))),
    }
}

/// What the envelope in front of a content shows.
fn in_content(alloc: Global, content: &[u8]) -> Result<Option<Shown>, ReadError>
    requires { length content.now < 2 ^ 32 }
    ensures { Gives ReadError.NoMemory (λ shown. shown) result
        (and_then (map_err ReadError.Private (map_err envelope_error (read_front layout content.now))) envelope_shows) }
{
    match envelope_at_front(content) {
        Ok(envelope) => envelope_shown(alloc, &envelope),
        Err(e) => Err(ReadError::Private(e)),
    }
}

/// What an envelope shows.
#[tactic(auto, unfolding(picky_sshkey::specs::Kdf::none))]
fn envelope_shown(alloc: Global, envelope: &EnvelopeView<'_>) -> Result<Option<Shown>, ReadError>
    requires cipher { length envelope.now.cipher.now < 2 ^ 32 }
    requires kdf { length envelope.now.kdf.now < 2 ^ 32 }
    ensures { Gives ReadError.NoMemory (λ shown. shown) result (envelope_shows (envelope_seen envelope.now)) }
{
    if envelope.kdf == NONE {
        return Ok(None);
    }
    match SshBasePublicKey::from_blob(alloc, envelope.outer) {
        Ok(inner_key) => match both(name_text(alloc, ""), envelope_sealing(alloc, envelope)) {
            Ok((comment, sealing)) => Ok(Some(Shown {
                key: SshPublicKey { inner_key, comment },
                sealing,
            })),
            Err(NoMemory) => {
                drop(inner_key);
                Err(ReadError::NoMemory)
            }
        },
        Err(e) => Err(line_refusal(e)),
    }
}

/// What an envelope's block is encrypted by. Refuses: `NoMemory`.
#[tactic(auto, unfolding(picky_sshkey::specs::Kdf::bcrypt))]
fn envelope_sealing(alloc: Global, envelope: &EnvelopeView<'_>) -> Result<ShownSealing, NoMemory>
    requires cipher { length envelope.now.cipher.now < 2 ^ 32 }
    requires kdf { length envelope.now.kdf.now < 2 ^ 32 }
    ensures { IfOk result (λ sealing. sealing ≡ ShownSealing.OpenSsh envelope.now.cipher.now envelope.now.kdf.now
        (shown_rounds (envelope_seen envelope.now))) }
{
    let names = both(
        name_text(alloc, envelope.cipher),
        name_text(alloc, envelope.kdf),
    );
    let rounds = rounds_of(envelope);
    match names {
        Ok((cipher, kdf)) => Ok(ShownSealing::OpenSsh {
            cipher,
            kdf,
            rounds,
        }),
        Err(NoMemory) => Err(NoMemory),
    }
}

/// The rounds, where the derivation has them.
#[tactic(auto, unfolding(picky_sshkey::specs::Kdf::bcrypt))]
fn rounds_of(envelope: &EnvelopeView<'_>) -> Option<u32>
    ensures { result ≡ shown_rounds (envelope_seen envelope.now) }
{
    if envelope.kdf == BCRYPT {
        return Some(envelope.option.rounds);
    }
    None
}

/// A text that is short. Refuses: `NoMemory`.
fn name_text(alloc: Global, name: &str) -> Result<Text, NoMemory>
    requires { length name.now < 2 ^ 32 }
    ensures { IfOk result (λ text. text ≡ name.now) }
{
    match Text::new(alloc, name) {
        Ok(text) => Ok(text),
        Err(_) => Err(NoMemory),
    }
}

/// What a PuTTY private key file shows.
fn file_shown(alloc: Global, file: PpkFile) -> Result<Option<Shown>, ReadError>
    ensures { Gives ReadError.NoMemory (λ shown. shown) result (file_shows file) }
{
    if !file.sealing.is_sealed() {
        drop(file);
        return Ok(None);
    }
    match key_in_blob(alloc, &file.public_key) {
        Ok(inner_key) => {
            let sealing = file_sealing(&file.sealing);
            let PpkFile { comment, .. } = file;
            Ok(Some(Shown {
                key: SshPublicKey { inner_key, comment },
                sealing,
            }))
        }
        Err(e) => {
            drop(file);
            Err(putty_refusal(e))
        }
    }
}

/// What a file is encrypted by.
fn file_sealing(sealing: &PpkSealing) -> ShownSealing
    ensures { result ≡ sealing_shown sealing.now }
{
    match sealing {
        PpkSealing::Unsealed(_) => ShownSealing::Unsealed,
        PpkSealing::SealedV2 => ShownSealing::PpkV2,
        PpkSealing::SealedV3(params) => ShownSealing::PpkV3(shown_config(params)),
    }
}

/// What Argon2 is run with, and how long its salt is.
fn shown_config(params: &Argon2Params) -> PpkEncryptionConfig
    ensures { result ≡ shown_config_of params.now }
{
    let salt = params.salt.as_slice();
    PpkEncryptionConfig {
        argon2_flavour: params.flavor,
        argon2_memory: params.memory,
        argon2_passes: params.passes,
        argon2_parallelism: params.parallelism,
        argon2_salt_size: salt.len() as u32,
    }
}

/// The refusal of a public key as the text's, where want of memory is the outer want.
fn line_refusal(e: SshPublicKeyError) -> ReadError
    ensures { result ≡ line_refusal_of e }
{
    match e {
        SshPublicKeyError::NoMemory => {
            drop(e);
            ReadError::NoMemory
        }
        e => ReadError::Public(e),
    }
}

/// The same of a PuTTY private key file.
fn putty_refusal(e: PuttyError) -> ReadError
    ensures { result ≡ putty_refusal_of e }
{
    match e {
        PuttyError::NoMemory => ReadError::NoMemory,
        e => ReadError::Putty(e),
    }
}
