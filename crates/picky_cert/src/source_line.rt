//! A certificate's line taken from a source.

ghost use Rattle.std.specs.Prelude.{◌≡◌, ◌≢◌, IfOk, IfErr};
ghost use Rattle.picky_wire.specs.Count.{Rose};
ghost use Rattle.picky_wire.specs.Takes.{Takes, HasCause, causes_of};
ghost use Rattle.picky_wire.specs.declared.error.IoKind.TheVariants as io_kinds;
ghost use Rattle.picky_keys.specs.SourceLine.{after_line, line_used, HasLine};
ghost use Rattle.picky_cert_parts.specs.CertFromWire.{certificate_error};
ghost use Rattle.picky_cert.specs.LineRefusal.{cert_line_meaning};
ghost use Rattle.picky_cert.specs.SourceLine.{cert_source_meaning};

use crate::certificate::SshCertificate;
use crate::line::certificate_of_line;
use picky_cert_parts::SshCertificateError;
use picky_keys::take_line;
use picky_wire::{Source, SshComplexTypeDecode};
use std::alloc::Global;

impl SshComplexTypeDecode for SshCertificate {
    ghost use Rattle.picky_cert.specs.carried.SourceLine.{source_own};

    type Error = SshCertificateError;

    ghost reads = { cert_source_meaning };

    ghost used = { line_used };

    ghost own = { source_own };

    /// The certificate and the comment of the line in front, which is taken with the one CR or LF that ends it.
    ///
    /// Refuses, in order: `CertificateProcessingError(ReadFault)`, `TooLong`, where 2^32 bytes came without CR or LF,
    /// `InvalidUtf8` and `InvalidCertificateKeyType` for the name, `Base64DecodeError`, the bytes' by field, `InvalidUtf8` for
    /// the comment.
    fn decode<S: Source>(
        alloc: Global,
        stream: &mut S,
    ) -> Result<SshCertificate, SshCertificateError>
        ensures takes { Takes S.tells S.left S.known S.faults (causes_of certificate_error) cert_source_meaning line_used
            result stream.old stream.new }
        ensures cause { IfErr result (HasCause (causes_of certificate_error) cert_source_meaning
            (Rose (S.faults stream.old) (S.faults stream.new))) }

        // Whatever the source tells, some line means the certificate.
        ensures meant { IfOk result (HasLine cert_line_meaning) }

        // A line that is refused for what it says was taken, a cut certificate's too.
        ensures taken { S.tells stream.old → IfErr result (λ e.
            e ≢ SshCertificateError.CertificateProcessingError io_kinds.ReadFault
            → e ≢ SshCertificateError.NoMemory → S.left stream.new ≡ after_line (S.left stream.old)) }
    {
        match take_line::<SshCertificateError, S>(alloc, stream) {
            Ok(line) => certificate_of_line(alloc, line.as_slice()),
            Err(e) => Err(e),
        }
    }
}
