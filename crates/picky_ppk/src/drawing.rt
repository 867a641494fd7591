//! Bytes drawn from a generator.

ghost use Rattle.std.specs.Prelude.{◌≡◌, ◌<◌, ◌^◌, vec_len, IfOk, OnErr};
ghost use Rattle.picky_ppk_file.specs.File.{version_of};
ghost use Rattle.picky_ppk.specs.Sealed.{padding_len};
ghost use Rattle.picky_ppk.specs.Fresh.{drawn as drawn_of, fresh_for, IsDrawnFrom, salt_len as salt_len_of};

use crate::ppk::Ppk;
use picky_ppk_parts::{PpkEncryptionConfig, PpkVersion};
use picky_wire::NoMemory;
use rand_core::Rng;
use std::alloc::Global;

/// What a generator gave for a file.
#[derive(Drop)]
pub struct SaltAndPadding {
    pub salt: Vec<u8>,
    pub padding: Vec<u8>,
}

/// What a generator gives for a file: first a salt, in version 3, and then the padding. Refuses: `NoMemory`.
pub fn fresh<R: Rng>(
    alloc: Global,
    ppk: &Ppk,
    config: PpkEncryptionConfig,
    rng: &mut R,
) -> Result<SaltAndPadding, NoMemory>
    ensures drawn { IfOk result (λ fresh. fresh_for config ppk.now (R.stream rng.old)
        ≡ record { salt = fresh.salt.items; padding = fresh.padding.items; left = R.stream rng.new }) }
    ensures salt { IfOk result (λ fresh. vec_len fresh.salt ≡ salt_len_of (version_of ppk.now.sealing) config) }
    ensures padding { IfOk result (λ fresh. vec_len fresh.padding ≡ padding_len ppk.now) }
    ensures in_part { OnErr result (IsDrawnFrom config ppk.now (R.stream rng.old) (R.stream rng.new)) }
{
    let salt = drawn(alloc, rng, salt_len(ppk.version(), config))?;
    let padding = drawn(alloc, rng, ppk.padding_len())?;
    Ok(SaltAndPadding { salt, padding })
}

/// How many bytes a salt has.
pub fn salt_len(version: PpkVersion, config: PpkEncryptionConfig) -> usize
    ensures len { result ≡ salt_len_of version config }
    ensures short { result < 2 ^ 32 }
{
    match version {
        PpkVersion::V2 => 0,
        PpkVersion::V3 => config.argon2_salt_size as usize,
    }
}

/// So many bytes of a generator, which isn't asked for none.
#[tactic(auto, using(crate::proofs::FreshLemmas::drawn_some))]
fn drawn<R: Rng>(alloc: Global, rng: &mut R, len: usize) -> Result<Vec<u8>, NoMemory>
    ensures bytes { IfOk result (λ bytes. drawn_of len (R.stream rng.old) ≡ (bytes.items, R.stream rng.new)) }
    ensures len { IfOk result (λ bytes. vec_len bytes ≡ len) }
    ensures undrawn { OnErr result (rng.new ≡ rng.old) }
{
    if len == 0 {
        return Ok(Vec::new(alloc));
    }
    let mut bytes = match Vec::from_elem(alloc, 0, len) {
        Ok(bytes) => bytes,
        Err(_) => return Err(NoMemory),
    };
    rng.fill_bytes(bytes.as_mut_slice());
    Ok(bytes)
}
