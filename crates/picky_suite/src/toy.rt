//! The cipher and the key derivation of `MemorySuite`, for tests alone.

ghost use Rattle.std.specs.Prelude.{◌≡◌, ◌^◌, ◌+◌, ◌*◌, ◌<◌, ◌≤◌, ℕ, List, ◌++◌, length, take, drop};
ghost use Rattle.std.specs.Int.{w32, to_be_bytes};
ghost use Rattle.std.specs.List.{flat_map};
ghost use Rattle.sha2.specs.Hashers.{Holds512};
ghost use Rattle.picky_wire_base.specs.Wire.{string_of};
ghost use Rattle.picky_suite.specs.Toy.{xored, first_block, ciphered, masks, toy_seal, toy_open, toy_ctr};
ghost use Rattle.picky_suite.specs.Toy.{derived_block, toy_derived, flavour_number};

use crate::flavour::Flavour;
use sha2::{Digest, Sha512};

// The bytes of a block of the cipher.
const BLOCK_LEN: usize = 16;

/// Seals whole blocks in place, each chained with the one before it.
pub(crate) fn seal_text(key: &[u8], iv: &[u8; 16], text: &mut [u8])
    requires { 16 ≤ length key.now }
    ensures { text.new ≡ toy_seal key.now iv.now text.old }
{
    let mask = block_at(key, 0);
    let mut before = *iv;
    let count = text.len() / BLOCK_LEN;
    for i in 0..count {
        before = seal_at(&mask, &before, text, i * BLOCK_LEN);
    }
}

/// Opens whole blocks in place, each chained with the sealed one before it.
pub(crate) fn open_text(key: &[u8], iv: &[u8; 16], text: &mut [u8])
    requires { 16 ≤ length key.now }
    ensures { text.new ≡ toy_open key.now iv.now text.old }
{
    let mask = block_at(key, 0);
    let mut before = *iv;
    let count = text.len() / BLOCK_LEN;
    for i in 0..count {
        before = open_at(&mask, &before, text, i * BLOCK_LEN);
    }
}

/// Xors each block of the text with one mask, in place.
pub(crate) fn mask_text(key: &[u8], iv: &[u8; 16], text: &mut [u8])
    requires { 16 ≤ length key.now }
    ensures { text.new ≡ toy_ctr key.now iv.now text.old }
{
    let mask = xored(iv, &block_at(key, 0));
    for (i, byte) in text.iter_mut().enumerate() {
        *byte ^= mask[i % BLOCK_LEN];
    }
}

/// Derives a key from a passphrase, a salt and numbers.
#[tactic(auto, unfolding(crate::specs::Toy::toy_derived))]
pub(crate) fn derive(pass: &[u8], salt: &[u8], numbers: &[u32], out: &mut [u8])
    requires pass { length pass.now < 2 ^ 32 }
    requires salt { length salt.now < 2 ^ 32 }
    requires room { length out.old ≤ 128 }
    ensures { out.new ≡ toy_derived (length out.old) pass.now salt.now numbers.now }
{
    let zeroth = derived_block(pass, salt, numbers, 0);
    let first = derived_block(pass, salt, numbers, 1);
    put_front(&zeroth, &first, out);
}

/// A flavour as a number of the derivation.
pub(crate) fn flavour_number(flavour: Flavour) -> u32
    ensures { result ≡ flavour_number flavour }
{
    match flavour {
        Flavour::Argon2d => 0,
        Flavour::Argon2i => 1,
        Flavour::Argon2id => 2,
    }
}

// Seals the block at a place, under the mask that the key is, and answers the sealed block.
fn seal_at(mask: &[u8; 16], before: &[u8; 16], text: &mut [u8], at: usize) -> [u8; 16]
    requires { at + 16 ≤ length text.old }
    ensures sealed { result ≡ xored (xored (first_block (drop at text.old)) before.now) mask.now }
    ensures placed { text.new ≡ take at text.old ++ result ++ drop (at + 16) text.old }
{
    let plain = block_at(text, at);
    let sealed = xored(&xored(&plain, before), mask);
    put_at(&sealed, text, at);
    sealed
}

// Opens the block at a place, under the mask that the key is, and answers the sealed block.
fn open_at(mask: &[u8; 16], before: &[u8; 16], text: &mut [u8], at: usize) -> [u8; 16]
    requires { at + 16 ≤ length text.old }
    ensures sealed { result ≡ first_block (drop at text.old) }
    ensures placed { text.new ≡ take at text.old ++ xored (xored result mask.now) before.now ++ drop (at + 16) text.old }
{
    let sealed = block_at(text, at);
    put_at(&xored(&xored(&sealed, mask), before), text, at);
    sealed
}

// The block at a place.
#[tactic(auto, unfolding(crate::specs::Toy::first_block))]
fn block_at(text: &[u8], at: usize) -> [u8; 16]
    requires { at + 16 ≤ length text.now }
    ensures { result ≡ first_block (drop at text.now) }
{
    let mut block = [0; BLOCK_LEN];
    block.copy_from_slice(&text[at..at + BLOCK_LEN]);
    block
}

// Puts a block into a place.
fn put_at(block: &[u8; 16], text: &mut [u8], at: usize)
    requires { at + 16 ≤ length text.old }
    ensures { text.new ≡ take at text.old ++ block.now ++ drop (at + 16) text.old }
{
    text[at..at + BLOCK_LEN].copy_from_slice(block);
}

// A block xored with a mask.
fn xored(block: &[u8; 16], mask: &[u8; 16]) -> [u8; 16]
    ensures { result ≡ xored block.now mask.now }
{
    let mut out = *block;
    for (i, byte) in out.iter_mut().enumerate() {
        *byte ^= mask[i];
    }
    out
}

// One digest of the derivation, by its number.
#[tactic(auto, unfolding(crate::specs::Toy::derived_block))]
fn derived_block(pass: &[u8], salt: &[u8], numbers: &[u32], index: u8) -> [u8; 64]
    requires pass { length pass.now < 2 ^ 32 }
    requires salt { length salt.now < 2 ^ 32 }
    ensures { result ≡ derived_block pass.now salt.now numbers.now index }
{
    let mut hasher = Sha512::new();
    put_string(&mut hasher, pass);
    put_string(&mut hasher, salt);
    put_numbers(&mut hasher, numbers);
    hasher.update(&[index]);
    hasher.finalize()
}

// Feeds bytes behind their length.
#[tactic(auto, unfolding(picky_wire_base::specs::Wire::string_of))]
fn put_string(hasher: &mut Sha512, bytes: &[u8])
    requires { length bytes.now < 2 ^ 32 }
    ensures { (m : List ℕ) → Holds512 hasher.old m → Holds512 hasher.new (m ++ string_of bytes.now) }
{
    hasher.update(&(bytes.len() as u32).to_be_bytes());
    hasher.update(bytes);
}

// Feeds numbers, each as four bytes.
fn put_numbers(hasher: &mut Sha512, numbers: &[u32])
    ensures { (m : List ℕ) → Holds512 hasher.old m
        → Holds512 hasher.new (m ++ flat_map (to_be_bytes w32) numbers.now) }
{
    for number in numbers {
        hasher.update(&number.to_be_bytes());
    }
}

// Puts the first bytes of two lists in a row into a buffer.
fn put_front(first: &[u8], second: &[u8], out: &mut [u8])
    requires { length out.old ≤ length first.now + length second.now }
    ensures { out.new ≡ take (length out.old) (first.now ++ second.now) }
{
    let split = out.len().min(first.len());
    let (front, back) = out.split_at_mut(split);
    front.copy_from_slice(&first[..split]);
    back.copy_from_slice(&second[..back.len()]);
}
