//! Why a certificate is refused: each reason, and the part at which its bytes are stuck.

use crate::certificate_and_view::blob_of;
use crate::conversion::converted;
use picky_cert::{CertPart, CertView, SshCertificate, SshCertificateError};
use picky_cert_rows::{CertFault, FAULTS, ZERO_LINE};
use picky_conversion::Target;
use picky_key_text::ReadError;
use picky_target::ConvertError;
use std::alloc::{AllocError, Global};
use std::mem::ManuallyDrop;
use std::test::Fail;

/// `{:?}` prints the error so.
fn is_said(alloc: Global, e: &SshCertificateError, why: &str) -> Result<bool, AllocError> {
    let printed = ManuallyDrop::new(format!(in alloc; "{e:?}")?);
    Ok(printed.as_str() == why)
}

/// The call refuses the line so.
pub fn is_refused(alloc: Global, line: &str, why: &str) -> Result<bool, AllocError> {
    let read = ManuallyDrop::new(SshCertificate::from_str(alloc, line));
    match &*read {
        Err(e) => is_said(alloc, e, why),
        Ok(_) => Ok(false),
    }
}

/// And so does the conversion.
pub fn is_unread(alloc: Global, line: &str, why: &str) -> Result<bool, AllocError> {
    let text = ManuallyDrop::new(converted(alloc, line, Target::OpenSshPublic));
    match &*text {
        Err(ConvertError::Input(ReadError::Certificate(e))) => is_said(alloc, e, why),
        Err(_) | Ok(_) => Ok(false),
    }
}

/// Each call refuses the line so, and its bytes are stuck at the part.
fn is_bad(alloc: Global, line: &str, part: CertPart, why: &str) -> Result<bool, Fail> {
    let blob = ManuallyDrop::new(blob_of(alloc, line)?);
    Ok(
        is_refused(alloc, line, why)?
            && is_unread(alloc, line, why)?
            && CertView::stuck_at(blob.as_slice()) == Some(part),
    )
}

/// So is a line of the row's bytes.
pub fn is_fault(alloc: Global, row: &CertFault) -> Result<bool, Fail> {
    let line = format!(in alloc; "ssh-ed25519-cert-v01@openssh.com {} host\n", row.body)?;
    let line = ManuallyDrop::new(line);
    is_bad(alloc, line.as_str(), row.part, row.why)
}

#[test]
fn refuses_certificates_by_field(rt: HostRuntime) -> Result<(), Fail> {
    for row in &FAULTS {
        assert!(rt; is_fault(rt.alloc(), row)?, "{}", row.name);
    }
    Ok(())
}

// How many symbols of ZERO_LINE's base64 there are, the part at which their bytes are cut, and why they are refused.
static CUTS: [(usize, CertPart, &str); 16] = [
    (
        44,
        CertPart::Name,
        "CertificateProcessingError(UnexpectedEnd)",
    ),
    (
        52,
        CertPart::Nonce,
        "CertificateProcessingError(UnexpectedEnd)",
    ),
    (
        100,
        CertPart::Subject,
        "CertificateProcessingError(UnexpectedEnd)",
    ),
    (
        148,
        CertPart::Serial,
        "CertificateProcessingError(UnexpectedEnd)",
    ),
    (
        156,
        CertPart::CertType,
        "InvalidCertificateType(IoError(UnexpectedEnd))",
    ),
    (
        164,
        CertPart::KeyId,
        "CertificateProcessingError(UnexpectedEnd)",
    ),
    (
        168,
        CertPart::Principals,
        "CertificateProcessingError(UnexpectedEnd)",
    ),
    (
        172,
        CertPart::After,
        "CertificateProcessingError(UnexpectedEnd)",
    ),
    (
        184,
        CertPart::Before,
        "CertificateProcessingError(UnexpectedEnd)",
    ),
    (
        196,
        CertPart::Options,
        "SshCriticalOptionError(IoError(UnexpectedEnd))",
    ),
    (
        200,
        CertPart::Extensions,
        "SshExtensionError(IoError(UnexpectedEnd))",
    ),
    (
        204,
        CertPart::Reserved,
        "CertificateProcessingError(UnexpectedEnd)",
    ),
    (
        212,
        CertPart::IssuerString,
        "CertificateProcessingError(UnexpectedEnd)",
    ),
    (
        280,
        CertPart::IssuerString,
        "CertificateProcessingError(UnexpectedEnd)",
    ),
    (
        284,
        CertPart::Signature,
        "SshSignatureError(IoError(UnexpectedEnd))",
    ),
    (
        396,
        CertPart::Signature,
        "SshSignatureError(IoError(UnexpectedEnd))",
    ),
];

/// The first so many bytes of the zero certificate's line are refused so.
fn is_cut(alloc: Global, len: usize, part: CertPart, why: &str) -> Result<bool, Fail> {
    let line = ZERO_LINE.get(..len).ok_or("a shorter line")?;
    is_bad(alloc, line, part, why)
}

#[test]
fn refuses_a_certificate_that_is_cut(rt: HostRuntime) -> Result<(), Fail> {
    for (len, part, why) in &CUTS {
        assert!(rt; is_cut(rt.alloc(), 33 + *len, *part, why)?, "after {len}");
    }
    Ok(())
}
