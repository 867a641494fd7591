//! A host's certificate issued, with a signer of the caller's own.

ghost use Rattle.std.specs.Prelude.{◌≡◌, ◌⊎◌, ◌+◌, ◌-◌, ◌^◌, Err, IfErr, IfOk, IsOk, OnErr, OnOk, min};
ghost use Rattle.std.proofs.Common.{arith};
ghost use Rattle.picky.specs.Count.{Rose};
ghost use Rattle.picky.specs.Draft.{requested};
ghost use Rattle.picky.specs.PrivateKey.{issuer_key};
ghost use Rattle.picky.specs.Signs.{Signs};
ghost use Rattle.picky_callers.specs.Issued.{host_request, IsIssued};

use picky::ssh::{
    Issuer, SignError, SignatureAlgorithm, Signer, SshCertKeyType, SshCertType, SshCertificate,
    SshCertificateBuilder, SshCertificateGenerationError, SshPublicKey,
};
use picky::wire::{Bytes, List, Text, Timestamp};
use std::alloc::Global;

/// A signer that signs so many times, and then fails.
#[derive(Drop)]
pub struct QuotaSigner<G> {
    pub signer: G,
    pub left: u32,
    /// How many calls were refused.
    pub refused: u64,
}

impl<G: Signer> Signer for QuotaSigner<G> {
    ghost signs = { λ s. G.signs s.signer };

    ghost faults = { λ s. min (G.faults s.signer + s.refused) (2 ^ 64 - 1) };

    ghost in_range = { λ s. Prim.omega arith };

    fn sign(
        &mut self,
        alloc: Global,
        issuer: &Issuer,
        algorithm: SignatureAlgorithm,
        message: &[u8],
    ) -> Result<Bytes, SignError>
        ensures quota { OnOk result (self.old.left ≡ self.new.left + 1) }
        ensures unspent { OnErr result (self.new.left ≡ self.old.left) }

        // What every signer promises.
        ensures signs { Signs (λ s. G.signs s.signer) (λ s. min (G.faults s.signer + s.refused) (2 ^ 64 - 1))
            (issuer_key issuer.now) algorithm message.now result self.old self.new }
    {
        if self.left == 0 {
            self.refused = self.refused.saturating_add(1);
            return Err(SignError::Failed);
        }
        match self.signer.sign(alloc, issuer, algorithm, message) {
            Ok(signature) => {
                self.left -= 1;
                Ok(signature)
            }
            Err(e) => Err(e),
        }
    }
}

/// What is asked: that a host goes by these names from one moment to another.
fn request_for(
    issuer: SshPublicKey,
    key_type: SshCertKeyType,
    host: SshPublicKey,
    names: List<Text>,
    valid_after: Timestamp,
    valid_before: Timestamp,
) -> SshCertificateBuilder
    ensures { result ≡ host_request issuer key_type host names valid_after valid_before }
{
    let mut builder = SshCertificateBuilder::init();
    builder
        .cert_key_type(key_type)
        .cert_type(SshCertType::Host)
        .key(host)
        .principals(names)
        .valid_after(valid_after)
        .valid_before(valid_before)
        .issuer_public(issuer);
    builder
}

/// A certificate that says of a host's key that it goes by these names from one moment to another.
pub fn host_certificate<G: Signer>(
    alloc: Global,
    signer: &mut G,
    issuer: SshPublicKey,
    key_type: SshCertKeyType,
    host: SshPublicKey,
    names: List<Text>,
    valid_after: Timestamp,
    valid_before: Timestamp,
    nonce: &[u8; 32],
) -> Result<SshCertificate, SshCertificateGenerationError>
    // It says just that, and its signature is one that the signer calls good, under the issuer's key, of exactly what is said.
    ensures ok { IfOk result (IsIssued (G.signs signer.old) (host_request issuer key_type host names valid_after valid_before) nonce.now) }

    // Else no certificate comes of what is asked, or it does and the signer, asked to sign it, counted a fault.
    ensures refused { IfErr result (λ e. (e ≡ SshCertificateGenerationError.NoMemory)
        ⊎ ((e ≡ SshCertificateGenerationError.SignatureError) × IsOk (requested (host_request issuer key_type host names valid_after valid_before) nonce.now)
        × Rose (G.faults signer.old) (G.faults signer.new))
        ⊎ (requested (host_request issuer key_type host names valid_after valid_before) nonce.now ≡ Err e)) }
{
    let mut builder = request_for(issuer, key_type, host, names, valid_after, valid_before);
    let built = builder.build(alloc, nonce, signer);
    drop(builder);
    built
}
