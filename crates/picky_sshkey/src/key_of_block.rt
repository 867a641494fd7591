//! The key of a block that was opened, checked against the envelope's public key (OpenSSH's PROTOCOL.key).

ghost use Rattle.std.specs.Prelude.{◌≡◌, ◌^◌, ◌<◌, true, false, length, IfOk};
ghost use Rattle.std.specs.Option.{option_copied};
ghost use Rattle.picky_wire_base.specs.Gives.{Gives};
ghost use Rattle.picky_keys.specs.LineRefusal.{is_short_text};
ghost use Rattle.picky_keys.specs.View.{key_seen as public_seen};
ghost use Rattle.picky_sshkey_blob.specs.Key.{IsPrivateKey, public_part};
ghost use Rattle.picky_sshkey_blob.specs.View.{private_key_seen};
ghost use Rattle.picky_sshkey.specs.PrivateRefusal.{is_public_part, key_of_block as key_of_block_of};
ghost use Rattle.picky_sshkey.specs.View.{block_seen, envelope_seen, found_seen, kdf_option_seen};
ghost use Rattle.picky_sshkey.specs.inner.Short.{IsShortEnvelope};

use crate::block::BlockView;
use crate::envelope::EnvelopeView;
use crate::found::FoundKey;
use crate::kdf::{Kdf, option_of};
use crate::kept::{kept_pass, name_text};
use crate::private_key::{SshPrivateKey, public_key_of};
use picky_keys::PublicView;
use picky_sshkey_blob::{PrivateView, SshPrivateKeyError};
use picky_wire::{NoMemory, Text, both};
use std::alloc::Global;

/// The key of a block, where the envelope's public key is its own.
pub fn key_of_block<'a>(
    alloc: Global,
    envelope: &EnvelopeView<'a>,
    block: &BlockView<'_>,
    pass: Option<&'a str>,
) -> Result<FoundKey<'a>, SshPrivateKeyError>
    requires key { IsPrivateKey (private_key_seen block.now.key) }
    requires short { IsShortEnvelope envelope.now }
    requires comment { length block.now.comment.now < 2 ^ 32 }
    requires pass { is_short_text (option_copied pass) ≡ true }
    ensures gives { Gives SshPrivateKeyError.NoMemory found_seen result
        (key_of_block_of (option_copied pass.entry) (envelope_seen envelope.now) (block_seen block.now)) }
{
    if !has_public_part(envelope.outer, &block.key) {
        return Err(SshPrivateKeyError::PublicKeyMismatch);
    }
    let base_key = block.key.to_key(alloc);
    match both(base_key, name_text(alloc, block.comment.trim_end())) {
        Ok((base_key, comment)) => Ok(FoundKey {
            envelope: *envelope,
            pass,
            check: block.check,
            base_key,
            comment,
        }),
        Err(NoMemory) => Err(SshPrivateKeyError::NoMemory),
    }
}

/// Whether the bytes begin with the blob of the key's public part.
fn has_public_part(outer: &[u8], key: &PrivateView<'_>) -> bool
    requires key { IsPrivateKey (private_key_seen key.now) }
    requires outer { length outer.now < 2 ^ 32 }
    ensures { result ≡ is_public_part outer.now (private_key_seen key.now) }
{
    match PublicView::read(outer) {
        Ok((said, _)) => is_public_part_of(&said, key),
        Err(_) => false,
    }
}

/// Whether the public key is the private key's public part.
fn is_public_part_of(said: &PublicView<'_>, key: &PrivateView<'_>) -> bool
    ensures same { result ≡ true → public_seen said.now ≡ public_part (private_key_seen key.now) }
    ensures other { result ≡ false → public_seen said.now ≡ public_part (private_key_seen key.now) → ⊥ }
{
    match key {
        PrivateView::Rsa { n, e, .. } => match said {
            PublicView::Rsa {
                e: said_e,
                n: said_n,
            } => said_e.bytes == e.bytes && said_n.bytes == n.bytes,
            PublicView::Ec { .. }
            | PublicView::Ed { .. }
            | PublicView::SkEcdsaSha2NistP256 { .. }
            | PublicView::SkEd25519 { .. } => false,
        },
        PrivateView::Ec { curve, point, .. } => match said {
            PublicView::Ec {
                curve: said_curve,
                point: said_point,
            } => *said_curve == *curve && said_point.bytes == point.bytes,
            PublicView::Rsa { .. }
            | PublicView::Ed { .. }
            | PublicView::SkEcdsaSha2NistP256 { .. }
            | PublicView::SkEd25519 { .. } => false,
        },
        PrivateView::Ed { public, .. } => match said {
            PublicView::Ed { key } => key.bytes == public.bytes,
            PublicView::Rsa { .. }
            | PublicView::Ec { .. }
            | PublicView::SkEcdsaSha2NistP256 { .. }
            | PublicView::SkEd25519 { .. } => false,
        },
        PrivateView::SkEcdsaSha2NistP256 {
            point,
            application,
            ..
        } => match said {
            PublicView::SkEcdsaSha2NistP256 {
                point: said_point,
                application: said_application,
            } => said_point.bytes == point.bytes && said_application.bytes == application.bytes,
            PublicView::Rsa { .. }
            | PublicView::Ec { .. }
            | PublicView::Ed { .. }
            | PublicView::SkEd25519 { .. } => false,
        },
        PrivateView::SkEd25519 {
            key,
            application,
            ..
        } => match said {
            PublicView::SkEd25519 {
                key: said_key,
                application: said_application,
            } => said_key.bytes == key.bytes && said_application.bytes == application.bytes,
            PublicView::Rsa { .. }
            | PublicView::Ec { .. }
            | PublicView::Ed { .. }
            | PublicView::SkEcdsaSha2NistP256 { .. } => false,
        },
    }
}

/// The key that was found, with copies of what it was found in. Refuses: `NoMemory`.
pub fn kept(alloc: Global, found: FoundKey<'_>) -> Result<SshPrivateKey, NoMemory>
    ensures { IfOk result (λ key. key ≡ found_seen found.entry) }
{
    let FoundKey {
        envelope,
        pass,
        check,
        base_key,
        comment,
    } = found;
    let public_key = public_key_of(alloc, &base_key);
    match both(public_key, kept_parts(alloc, &envelope, pass)) {
        Ok((public_key, (cipher_name, kdf, passphrase))) => Ok(SshPrivateKey {
            cipher_name,
            kdf,
            base_key,
            public_key,
            check,
            comment,
            passphrase,
        }),
        Err(NoMemory) => {
            drop(base_key);
            drop(comment);
            Err(NoMemory)
        }
    }
}

/// The cipher's name, the derivation and the passphrase. Refuses: `NoMemory`.
fn kept_parts(
    alloc: Global,
    envelope: &EnvelopeView<'_>,
    pass: Option<&str>,
) -> Result<(Text, Kdf, Option<Text>), NoMemory>
    requires short { IsShortEnvelope envelope.now }
    requires pass { is_short_text (option_copied pass) ≡ true }
    ensures { IfOk result (λ parts. parts ≡ (
      envelope.now.cipher.now,
      record { name = envelope.now.kdf.now; option = kdf_option_seen envelope.now.option },
      option_copied pass.entry,
    )) }
{
    let passphrase = match kept_pass(alloc, pass) {
        Ok(passphrase) => passphrase,
        Err(e) => {
            drop(e);
            return Err(NoMemory);
        }
    };
    let names = both(
        name_text(alloc, envelope.cipher),
        name_text(alloc, envelope.kdf),
    );
    let option = option_of(alloc, envelope.option.salt, envelope.option.rounds);
    match both(names, option) {
        Ok(((cipher_name, name), option)) => Ok((cipher_name, Kdf { name, option }, passphrase)),
        Err(NoMemory) => {
            drop(passphrase);
            Err(NoMemory)
        }
    }
}
