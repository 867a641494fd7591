//! The verifier that calls each signature good.

ghost use Rattle.std.proofs.Common.{arith};
ghost use Rattle.picky_login.specs.Trusted.{TrustsAll};

use picky_cert::SshSignature;
use picky_keys::SshBasePublicKey;
use picky_policy::Verifier;
use picky_wire::Failed;

/// It calls each signature good and never fails, so that what is decided under it is what the rules say but for the
/// signature's.
#[derive(Drop)]
pub struct Trusting;

impl Verifier for Trusting {
    ghost verifies = { λ s. TrustsAll };

    ghost faults = { λ s. 0 };

    ghost in_range = { λ s. Prim.omega arith };

    fn verify(
        &mut self,
        _key: &SshBasePublicKey,
        _signature: &SshSignature,
        _message: &[u8],
    ) -> Result<bool, Failed> {
        Ok(true)
    }
}
