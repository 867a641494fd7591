//! HMAC (RFC 2104, section 2) over SHA-1 and SHA-256.

ghost use Rattle.std.specs.Prelude.{◌≡◌, ℕ, ◌≤◌, List, ◌++◌, length};
ghost use Rattle.sha1.specs.Sha1.{sha1};
ghost use Rattle.sha2.specs.Sha256.{sha256};
ghost use Rattle.picky_suite.specs.Hmac.{padded_key, block_key, xored_block, hmac};

use sha1::Sha1;
use sha2::{Digest, Sha256};

// B, the bytes of a block, which both digests share.
const BLOCK_LEN: usize = 64;

// The byte of ipad.
const INNER_PAD: u8 = 0x36;

// The byte of opad.
const OUTER_PAD: u8 = 0x5C;

// A digest of `N` bytes that works on blocks of `BLOCK_LEN`.
trait BlockDigest<const N: usize> {
    // The digest of a message.
    ghost digest: { List ℕ → List ℕ };

    // The digest of two pieces as one message, which are read in place.
    fn digest_of_two(first: &[u8], second: &[u8]) -> [u8; N]
        ensures { result ≡ digest (first.now ++ second.now) };
}

impl BlockDigest<20> for Sha1 {
    ghost digest = { sha1 };

    fn digest_of_two(first: &[u8], second: &[u8]) -> [u8; 20] {
        let mut hasher = Sha1::new();
        hasher.update(first);
        hasher.update(second);
        hasher.finalize()
    }
}

impl BlockDigest<32> for Sha256 {
    ghost digest = { sha256 };

    fn digest_of_two(first: &[u8], second: &[u8]) -> [u8; 32] {
        let mut hasher = Sha256::new();
        hasher.update(first);
        hasher.update(second);
        hasher.finalize()
    }
}

/// HMAC-SHA-1 of the message, under a key of any length (RFC 2104, section 2).
pub fn hmac_sha1(key: &[u8], message: &[u8]) -> [u8; 20]
    ensures { result ≡ hmac sha1 key.now message.now }
{
    hmac_over::<Sha1, 20>(key, message)
}

/// HMAC-SHA-256 of the message, under a key of any length (RFC 2104, section 2).
pub fn hmac_sha256(key: &[u8], message: &[u8]) -> [u8; 32]
    ensures { result ≡ hmac sha256 key.now message.now }
{
    hmac_over::<Sha256, 32>(key, message)
}

// HMAC over the digest `H`.
fn hmac_over<H: BlockDigest<N>, const N: usize>(key: &[u8], message: &[u8]) -> [u8; N]
    requires { N ≤ BLOCK_LEN }
    ensures { result ≡ hmac H.digest key.now message.now }
{
    let block = block_key::<H, N>(key);
    let inner = H::digest_of_two(&xored_block(&block, INNER_PAD), message);
    H::digest_of_two(&xored_block(&block, OUTER_PAD), &inner)
}

// The block that stands for the key.
fn block_key<H: BlockDigest<N>, const N: usize>(key: &[u8]) -> [u8; BLOCK_LEN]
    requires { N ≤ BLOCK_LEN }
    ensures { result ≡ block_key H.digest key.now }
{
    if key.len() > BLOCK_LEN {
        padded_key(&H::digest_of_two(key, &[]))
    } else {
        padded_key(key)
    }
}

// The short key, and zero bytes after it.
fn padded_key(short: &[u8]) -> [u8; BLOCK_LEN]
    requires { length short.now ≤ BLOCK_LEN }
    ensures { result ≡ padded_key short.now }
{
    let mut block = [0; BLOCK_LEN];
    block[..short.len()].copy_from_slice(short);
    block
}

// The block with each of its bytes xored with the pad's.
fn xored_block(block: &[u8; BLOCK_LEN], pad: u8) -> [u8; BLOCK_LEN]
    ensures { result ≡ xored_block block.now pad }
{
    let mut out = *block;
    for byte in out.iter_mut() {
        *byte ^= pad;
    }
    out
}
