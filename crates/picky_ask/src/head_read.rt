//! A head read from bytes, whose strings are slices of them.

ghost use Rattle.picky_wire_base.specs.View.{Sees, why_in};
ghost use Rattle.picky_ask.specs.Algorithm.{algorithm, hash};
ghost use Rattle.picky_ask.specs.Head.{argon2_fields, bcrypt_fields, cipher_fields, head, operation_fields, sign_fields};
ghost use Rattle.picky_ask.specs.inner.HeadView.{head_seen, two_head};

use crate::head_view::{HeadView, TwoStrings};
use crate::operation::{AlgorithmKind, Operation, flavour_of, hash_of, kind_of, operation_of};
use picky_keys::{HashAlgorithm, SignatureAlgorithm};
use picky_wire::{Stuck, byte_at, string_at, uint32_at};

/// The head that stands at a place, and the place after it. Refuses, in order, by field: `Short`, `Number`.
#[tactic(auto, unfolding(crate::specs::Head::head, crate::specs::Head::operation))]
pub(crate) fn head_at<'a>(blob: &'a [u8], from: usize) -> Result<(HeadView<'a>, usize), Stuck<'a>>
    ensures { Sees head_seen why_in head blob.now from result }
{
    let (number, next) = match byte_at(blob, from) {
        Ok(found) => found,
        Err(stuck) => return Err(stuck),
    };
    match operation_of(number) {
        Some(operation) => fields_at(blob, next, operation),
        None => Err(Stuck::Number(u32::from(number))),
    }
}

fn fields_at<'a>(
    blob: &'a [u8],
    from: usize,
    operation: Operation,
) -> Result<(HeadView<'a>, usize), Stuck<'a>>
    ensures { Sees head_seen why_in (operation_fields operation) blob.now from result }
{
    match operation {
        Operation::Bcrypt => bcrypt_at(blob, from),
        Operation::Argon2 => argon2_at(blob, from),
        Operation::CbcSeal => two_at(blob, from, TwoStrings::CbcSeal),
        Operation::CbcOpen => two_at(blob, from, TwoStrings::CbcOpen),
        Operation::Ctr => two_at(blob, from, TwoStrings::Ctr),
        Operation::Sign => sign_at(blob, from),
        Operation::Verify => two_at(blob, from, TwoStrings::Verify),
    }
}

#[tactic(auto, unfolding(crate::specs::Head::bcrypt_fields))]
fn bcrypt_at<'a>(blob: &'a [u8], from: usize) -> Result<(HeadView<'a>, usize), Stuck<'a>>
    ensures { Sees head_seen why_in bcrypt_fields blob.now from result }
{
    let (len, next) = match uint32_at(blob, from) {
        Ok(found) => found,
        Err(stuck) => return Err(stuck),
    };
    let (rounds, next) = match uint32_at(blob, next) {
        Ok(found) => found,
        Err(stuck) => return Err(stuck),
    };
    let (salt, next) = match string_at(blob, next) {
        Ok(found) => found,
        Err(stuck) => return Err(stuck),
    };
    let salt = salt.bytes;
    Ok((HeadView::Bcrypt { len, rounds, salt }, next))
}

#[tactic(auto, unfolding(crate::specs::Head::argon2_fields, crate::specs::Head::flavour))]
fn argon2_at<'a>(blob: &'a [u8], from: usize) -> Result<(HeadView<'a>, usize), Stuck<'a>>
    ensures { Sees head_seen why_in argon2_fields blob.now from result }
{
    let (number, next) = match byte_at(blob, from) {
        Ok(found) => found,
        Err(stuck) => return Err(stuck),
    };
    let flavour = match flavour_of(number) {
        Some(flavour) => flavour,
        None => return Err(Stuck::Number(u32::from(number))),
    };
    let (memory, next) = match uint32_at(blob, next) {
        Ok(found) => found,
        Err(stuck) => return Err(stuck),
    };
    let (passes, next) = match uint32_at(blob, next) {
        Ok(found) => found,
        Err(stuck) => return Err(stuck),
    };
    let (parallelism, next) = match uint32_at(blob, next) {
        Ok(found) => found,
        Err(stuck) => return Err(stuck),
    };
    let (salt, next) = match string_at(blob, next) {
        Ok(found) => found,
        Err(stuck) => return Err(stuck),
    };
    let salt = salt.bytes;
    Ok((
        HeadView::Argon2 {
            flavour,
            memory,
            passes,
            parallelism,
            salt,
        },
        next,
    ))
}

#[tactic(auto, unfolding(crate::specs::Head::cipher_fields))]
fn two_at<'a>(
    blob: &'a [u8],
    from: usize,
    of: TwoStrings,
) -> Result<(HeadView<'a>, usize), Stuck<'a>>
    ensures { Sees head_seen why_in (cipher_fields (two_head of)) blob.now from result }
{
    let (first, next) = match string_at(blob, from) {
        Ok(found) => found,
        Err(stuck) => return Err(stuck),
    };
    let (second, next) = match string_at(blob, next) {
        Ok(found) => found,
        Err(stuck) => return Err(stuck),
    };
    let (first, second) = (first.bytes, second.bytes);
    Ok((HeadView::Two { of, first, second }, next))
}

#[tactic(auto, unfolding(crate::specs::Head::sign_fields))]
fn sign_at<'a>(blob: &'a [u8], from: usize) -> Result<(HeadView<'a>, usize), Stuck<'a>>
    ensures { Sees head_seen why_in sign_fields blob.now from result }
{
    let (algorithm, next) = match algorithm_at(blob, from) {
        Ok(found) => found,
        Err(stuck) => return Err(stuck),
    };
    let (key, next) = match string_at(blob, next) {
        Ok(found) => found,
        Err(stuck) => return Err(stuck),
    };
    let key = key.bytes;
    Ok((HeadView::Sign { algorithm, key }, next))
}

#[tactic(auto, unfolding(crate::specs::Algorithm::algorithm, crate::specs::Algorithm::kind, crate::specs::Algorithm::kind_hash, crate::specs::Algorithm::no_hash))]
fn algorithm_at<'a>(blob: &'a [u8], from: usize) -> Result<(SignatureAlgorithm, usize), Stuck<'a>>
    ensures { Sees (λ by. by) why_in algorithm blob.now from result }
{
    let (number, next) = match byte_at(blob, from) {
        Ok(found) => found,
        Err(stuck) => return Err(stuck),
    };
    match kind_of(number) {
        Some(AlgorithmKind::Rsa) => match hash_at(blob, next) {
            Ok((hash, end)) => Ok((SignatureAlgorithm::RsaPkcs1v15(hash), end)),
            Err(stuck) => Err(stuck),
        },
        Some(AlgorithmKind::Ecdsa) => match hash_at(blob, next) {
            Ok((hash, end)) => Ok((SignatureAlgorithm::Ecdsa(hash), end)),
            Err(stuck) => Err(stuck),
        },
        Some(AlgorithmKind::Ed25519) => match byte_at(blob, next) {
            Ok((0, end)) => Ok((SignatureAlgorithm::Ed25519, end)),
            Ok((digest, _)) => Err(Stuck::Number(u32::from(digest))),
            Err(stuck) => Err(stuck),
        },
        None => Err(Stuck::Number(u32::from(number))),
    }
}

#[tactic(auto, unfolding(crate::specs::Algorithm::hash))]
fn hash_at<'a>(blob: &'a [u8], from: usize) -> Result<(HashAlgorithm, usize), Stuck<'a>>
    ensures { Sees (λ digest. digest) why_in hash blob.now from result }
{
    let (number, next) = match byte_at(blob, from) {
        Ok(found) => found,
        Err(stuck) => return Err(stuck),
    };
    match hash_of(number) {
        Some(hash) => Ok((hash, next)),
        None => Err(Stuck::Number(u32::from(number))),
    }
}
