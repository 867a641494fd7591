//! AES-256-CBC over a message, in place, and what fills a message up to whole blocks.

ghost use Rattle.std.specs.Prelude.{◌≡◌, ◌<◌, ◌-◌, ◌%◌, OnErr};
ghost use Rattle.picky_wire_base.specs.Gives.{Gives};
ghost use Rattle.picky_ppk.specs.Fresh.{padded_fresh};

pub use picky_ppk_parts::aes::{BLOCK_SIZE, KEY_SIZE, decrypt, encrypt};
use picky_wire::{Bytes, MAX_LEN, SizeError};
use rand_core::Rng;

/// The message with what a generator gives behind it, up to whole blocks; the generator isn't asked where they are whole.
///
/// Refuses, in order: `TooLong`, where it would have 2^32 bytes or more. No error asks the generator.
#[tactic(auto, unfolding(crate::specs::Fresh::padded_fresh), using(crate::proofs::FreshLemmas::drawn_some))]
pub fn make_padding<R: Rng>(message: Bytes, rng: &mut R) -> Result<Bytes, SizeError>
    ensures gives { Gives SizeError.NoMemory (λ padded. (padded, R.stream rng.new)) result
        (padded_fresh message (R.stream rng.old)) }
    ensures unasked { OnErr result (rng.new ≡ rng.old) }
{
    let mut bytes = message.into_vec();
    let len = lacking_len(bytes.len());
    if bytes.len() + len > MAX_LEN {
        return Err(SizeError::TooLong);
    }
    if len == 0 {
        return Ok(Bytes::from_vec(bytes));
    }
    match bytes.reserve(len) {
        Ok(()) => {}
        Err(_) => return Err(SizeError::NoMemory),
    }
    let mut block = [0; BLOCK_SIZE];
    let (padding, _) = block.split_at_mut(len);
    rng.fill_bytes(padding);
    match bytes.extend_from_slice(padding) {
        Ok(()) => Ok(Bytes::from_vec(bytes)),
        Err(_) => Err(SizeError::NoMemory),
    }
}

/// How many bytes lack to whole blocks.
pub fn lacking_len(len: usize) -> usize
    ensures lacking { result ≡ (16 - len % 16) % 16 }
    ensures short { result < 16 }
{
    (BLOCK_SIZE - len % BLOCK_SIZE) % BLOCK_SIZE
}
