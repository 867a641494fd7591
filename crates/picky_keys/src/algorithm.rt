//! Digests and signature algorithms by name.

ghost use Rattle.std.specs.Prelude.{◌≡◌, IfOk, IsOk};

use picky_wire::{NoMemory, TryClone};
use std::alloc::Global;

/// A digest (RFC 1321; FIPS 180-4).
#[derive(Clone, Copy, Debug, PartialEq, Eq)]
pub enum HashAlgorithm {
    MD5,
    SHA1,
    SHA2_224,
    SHA2_256,
    SHA2_384,
    SHA2_512,
}

impl TryClone for HashAlgorithm {
    fn try_clone(&self, _alloc: Global) -> Result<HashAlgorithm, NoMemory>
        ensures ok { IfOk result (λ copy. copy ≡ self.now) }
        ensures always { IsOk result }
    {
        Ok(*self)
    }
}

/// A signature algorithm, with its digest where the key's kind leaves a choice (RFC 8017; RFC 5656; RFC 8032).
#[derive(Clone, Copy, Debug, PartialEq, Eq)]
pub enum SignatureAlgorithm {
    RsaPkcs1v15(HashAlgorithm),
    Ecdsa(HashAlgorithm),
    Ed25519,
}

impl TryClone for SignatureAlgorithm {
    fn try_clone(&self, _alloc: Global) -> Result<SignatureAlgorithm, NoMemory>
        ensures ok { IfOk result (λ copy. copy ≡ self.now) }
        ensures always { IsOk result }
    {
        Ok(*self)
    }
}
