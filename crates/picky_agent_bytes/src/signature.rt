//! The signer of a signature that the host made.

ghost use Rattle.std.specs.Prelude.{Some};
ghost use Rattle.std.proofs.Common.{lit<};
ghost use Rattle.picky_keys.specs.PrivateKey.{issuer_key};
ghost use Rattle.picky_suite.specs.Signs.{Signs, SignsAsHanded};

use picky_keys::{Issuer, SignatureAlgorithm};
use picky_suite::{SignError, Signer};
use picky_wire::Bytes;
use std::alloc::Global;

/// A signer that hands out this signature, whatever the message and whoever signs. It never fails.
#[derive(Drop)]
pub(crate) struct GivenSignature<'a> {
    pub(crate) signature: &'a [u8],
}

impl Signer for GivenSignature<'_> {
    ghost signs = { λ s. SignsAsHanded (record { signature = Some s.signature.now; faults = 0 }) };

    ghost faults = { λ _. 0 };

    ghost in_range = { λ _. lit< tt };

    fn sign(
        &mut self,
        alloc: Global,
        _issuer: &Issuer,
        _algorithm: SignatureAlgorithm,
        _message: &[u8],
    ) -> Result<Bytes, SignError> {
        match Bytes::new(alloc, self.signature) {
            Ok(signature) => Ok(signature),
            Err(_) => Err(SignError::NoMemory),
        }
    }
}
