//! A certificate made and signed.

ghost use Rattle.std.specs.Prelude.{◌≡◌, Ok, IfOk, OnOk, OnErr};
ghost use Rattle.picky_wire_base.specs.Outcome.{map_ok};
ghost use Rattle.picky_wire.specs.Count.{Rose};
ghost use Rattle.picky_wire_base.specs.Gives.{Gives};
ghost use Rattle.picky_suite.specs.Asked.{IsAskedAtMost};
ghost use Rattle.picky_cert.specs.Spelled.{signed_of};
ghost use Rattle.picky_cert_builder.specs.Built.{IsBuilt, LeavesSigner};
ghost use Rattle.picky_cert_builder.specs.Draft.{requested};
ghost use Rattle.picky_cert_builder.specs.Request.{unset};
ghost use Rattle.picky_cert_builder.specs.Drafted.{IsWholeDraft, draft_shown};

use crate::builder::SshCertificateBuilder;
use crate::draft::CertificateDraft;
use crate::error::SshCertificateGenerationError;
use picky_cert::{SshCertificate, SshSignatureBlob};
use picky_suite::{SignError, Signer};
use picky_wire::Bytes;
use std::alloc::Global;
use std::mem::replace;

impl SshCertificateBuilder {
    /// The bytes that are signed of the certificate that `build` would make (OpenSSH's PROTOCOL.certkeys).
    ///
    /// Refuses, in order: as `RequestTerms::judge`; `TooLong`, where there are 2^32 bytes or more.
    pub fn unsigned(
        &self,
        alloc: Global,
        nonce: &[u8; 32],
    ) -> Result<Bytes, SshCertificateGenerationError>
        ensures { Gives SshCertificateGenerationError.NoMemory (λ bytes. bytes) result
            (map_ok (λ u. signed_of u.certificate) (requested self.now nonce.now)) }
    {
        match self.draft(alloc, nonce) {
            Ok(draft) => Ok(draft.into_message()),
            Err(e) => Err(e),
        }
    }

    /// The certificate that is asked for, with the device's signature of exactly its signed bytes; and then no field is set
    /// but the type of certificates. A refusal leaves all fields.
    ///
    /// OpenSSH's PROTOCOL.certkeys. Refuses, in order: as `unsigned`; `SignatureError`.
    pub fn build<G: Signer>(
        &mut self,
        alloc: Global,
        nonce: &[u8; 32],
        signer: &mut G,
    ) -> Result<SshCertificate, SshCertificateGenerationError>
        ensures answers { IsBuilt (G.signs signer.old) (requested self.old nonce.now)
            (Rose (G.faults signer.old) (G.faults signer.new)) result }
        ensures signer { LeavesSigner G.signs G.faults (requested self.old nonce.now) result signer.old signer.new }

        ensures unset { OnOk result (self.new ≡ unset self.old) }
        ensures kept { OnErr result (self.new ≡ self.old) }
        ensures asked { IsAskedAtMost 1 G.calls signer.old signer.new }
    {
        match self.draft(alloc, nonce) {
            Ok(draft) => match draft.sign(alloc, signer) {
                Ok(certificate) => {
                    self.unset();
                    Ok(certificate)
                }
                Err(e) => Err(e),
            },
            Err(e) => Err(e),
        }
    }

    /// Unsets all fields but the type of certificates.
    fn unset(&mut self)
        ensures { self.new ≡ unset self.old }
    {
        let cert_key_type = self.cert_key_type;
        drop(replace(self, SshCertificateBuilder::init()));
        self.cert_key_type = cert_key_type;
    }
}

impl CertificateDraft {
    /// The certificate with the device's signature of exactly its signed bytes. Refuses: `SignatureError`.
    pub fn sign<G: Signer>(
        self,
        alloc: Global,
        signer: &mut G,
    ) -> Result<SshCertificate, SshCertificateGenerationError>
        requires { IsWholeDraft self }
        ensures answers { IsBuilt (G.signs signer.old) (Ok (draft_shown self)) (Rose (G.faults signer.old) (G.faults signer.new)) result }
        ensures signer { LeavesSigner G.signs G.faults (Ok (draft_shown self)) result signer.old signer.new }
        ensures asked { IsAskedAtMost 1 G.calls signer.old signer.new }
    {
        let CertificateDraft {
            mut certificate,
            issuer,
            algorithm,
            message,
        } = self;
        match signer.sign(alloc, &issuer, algorithm, message.as_slice()) {
            Ok(bytes) => {
                drop(issuer);
                certificate.signature.blob = SshSignatureBlob::Standard(bytes);
                Ok(certificate)
            }
            Err(e) => {
                drop(issuer);
                drop(certificate);
                match e {
                    SignError::Failed => Err(SshCertificateGenerationError::SignatureError),
                    SignError::NoMemory => Err(SshCertificateGenerationError::NoMemory),
                }
            }
        }
    }
}
