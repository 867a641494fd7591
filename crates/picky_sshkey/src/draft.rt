//! What is written of a private key, before its block is sealed.

ghost use Rattle.std.specs.Prelude.{◌≡◌, ◌⊎◌, ◌^◌, ◌<◌, ◌≤◌, ◌++◌, ℕ, List, true, false, length, IfOk, IfErr, OnOk};
ghost use Rattle.std.specs.Option.{IfSome};
ghost use Rattle.picky_keys.specs.Blob.{blob_of};
ghost use Rattle.picky_keys.specs.Key.{IsString, IsText};
ghost use Rattle.picky_sshkey_blob.specs.Key.{IsPrivateKey, public_part};
ghost use Rattle.picky_sshkey.specs.Written.{envelope_of, may_derive as may_derive_of, block_padding, plain_block};
ghost use Rattle.picky_sshkey.specs.inner.Draft.{IsDraft};

use crate::private_key::SshPrivateKey;
use picky_keys::SshPublicKeyError;
use picky_sshkey_blob::{SshBasePrivateKey, SshPrivateKeyError, secret_pieces};
use picky_suite::bcrypt_ok;
use picky_wire::{Bytes, MAX_LEN, Piece, push_pieces};
use std::alloc::{AllocError, Global};

/// The padding of an aligned block, where it is sealed.
const PADDING: [u8; 16] = [1, 2, 3, 4, 5, 6, 7, 8, 9, 10, 11, 12, 13, 14, 15, 16];

/// What is written of a key, before its block is sealed.
#[derive(Drop)]
pub struct PrivateKeyDraft {
    pub outer: Bytes,
    pub block: Vec<u8>,
    pub len: usize,
}

/// Whether the passphrase may be derived from, where there is one.
fn may_derive(key: &SshPrivateKey) -> bool
    ensures may { result ≡ may_derive_of key.now.passphrase key.now.kdf.option }
    ensures pass { IfSome key.now.passphrase IsText }
    ensures salt { IsString key.now.kdf.option.salt }
    ensures rounds { key.now.kdf.option.rounds < 2 ^ 32 }
{
    let rounds = key.kdf.option.rounds;
    let salt = key.kdf.option.salt.as_slice();
    match &key.passphrase {
        Some(pass) => {
            let pass = pass.as_str();
            bcrypt_ok(pass.len(), salt.len(), rounds)
        }
        None => true,
    }
}

/// The public key's blob and the block of a key, where its passphrase may be derived from and its envelope is short.
/// Refuses, in order: `HashingError`, `TooLong`.
#[tactic(auto, using(crate::proofs::WrittenLemmas::lengths))]
pub fn private_key_draft(
    alloc: Global,
    key: &SshPrivateKey,
) -> Result<PrivateKeyDraft, SshPrivateKeyError>
    ensures ok { IfOk result (λ draft. IsDraft key.now draft) }
    ensures err { IfErr result (λ e. (e ≡ SshPrivateKeyError.NoMemory)
        ⊎ ((e ≡ SshPrivateKeyError.HashingError) × (may_derive_of key.now.passphrase key.now.kdf.option ≡ false))
        ⊎ ((e ≡ SshPrivateKeyError.TooLong) × (may_derive_of key.now.passphrase key.now.kdf.option ≡ true)
        × (2 ^ 32 ≤ length (envelope_of key.now (plain_block key.now))))) }
{
    if !may_derive(key) {
        return Err(SshPrivateKeyError::HashingError);
    }
    let outer = match outer_of(alloc, &key.base_key) {
        Ok(outer) => outer,
        Err(e) => return Err(e),
    };
    let block = match block_of(alloc, key) {
        Ok(block) => block,
        Err(_) => return Err(SshPrivateKeyError::NoMemory),
    };
    let len = envelope_len(key, outer.as_slice().len(), block.len());
    if len > MAX_LEN {
        return Err(SshPrivateKeyError::TooLong);
    }
    Ok(PrivateKeyDraft { outer, block, len })
}

/// The blob of the key's public part. Refuses, in order: `TooLong`, where it has 2^32 bytes or more.
#[tactic(auto, unfolding(picky_keys::specs::LineRefusal::blob_bytes))]
fn outer_of(alloc: Global, base: &SshBasePrivateKey) -> Result<Bytes, SshPrivateKeyError>
    ensures ok { IfOk result (λ blob. blob ≡ blob_of (public_part base.now)) }
    ensures err { IfErr result (λ e. (e ≡ SshPrivateKeyError.NoMemory)
        ⊎ ((e ≡ SshPrivateKeyError.TooLong) × (2 ^ 32 ≤ length (blob_of (public_part base.now))))) }
{
    match base.public_blob(alloc) {
        Ok(blob) => Ok(blob),
        Err(e) => match e {
            SshPublicKeyError::TooLong => {
                drop(e);
                Err(SshPrivateKeyError::TooLong)
            }
            e => {
                drop(e);
                Err(SshPrivateKeyError::NoMemory)
            }
        },
    }
}

/// The block with its padding.
#[tactic(auto, unfolding(crate::specs::Written::plain_block, crate::specs::Written::unpadded_block))]
fn block_of(alloc: Global, key: &SshPrivateKey) -> Result<Vec<u8>, AllocError>
    ensures block { IfOk result (λ block. block.items ≡ plain_block key.now) }
    ensures check { key.now.check < 2 ^ 32 }
    ensures base_key { OnOk result (IsPrivateKey key.now.base_key) }
    ensures comment { OnOk result (IsText key.now.comment) }
{
    let check = key.check.to_be_bytes();
    let mut block = Vec::new(alloc);
    block.extend_from_slice(&check)?;
    block.extend_from_slice(&check)?;
    push_pieces(&mut block, &secret_pieces(&key.base_key))?;
    push_pieces(&mut block, &[Piece::text(&key.comment)])?;
    let unit = if key.passphrase.is_some() { 16 } else { 8 };
    pad(&mut block, unit)?;
    Ok(block)
}

/// Appends 1, 2, 3 and so on up to a multiple of the unit.
#[tactic(auto, using(crate::proofs::WrittenLemmas::padding_counts))]
fn pad(block: &mut Vec<u8>, unit: usize) -> Result<(), AllocError>
    requires some { 1 ≤ unit }
    requires most { unit ≤ 16 }
    ensures { OnOk result (block.new.items ≡ block.old.items ++ block_padding unit block.old.items) }
{
    let count = unit - block.len() % unit;
    let (padding, _) = PADDING.split_at(count);
    block.extend_from_slice(padding)?;
    Ok(())
}

/// How many bytes an envelope has round a block of this length.
#[tactic(auto, using(crate::proofs::WrittenLemmas::lengths))]
fn envelope_len(key: &SshPrivateKey, outer_len: usize, block_len: usize) -> usize
    requires outer { outer_len ≡ length (blob_of (public_part key.now.base_key)) }
    requires outer_short { outer_len < 2 ^ 32 }
    requires range { may_derive_of key.now.passphrase key.now.kdf.option ≡ true }
    requires block_fits { block_len < 2 ^ 63 }
    ensures { (block : List ℕ) → length block ≡ block_len → result ≡ length (envelope_of key.now block) }
{
    let parts = outer_len + block_len;
    match &key.passphrase {
        Some(_) => parts + key.kdf.option.salt.as_slice().len() + 63,
        None => parts + 47,
    }
}
