//! Certificates from a source and to a sink, which may fail, and copies of them.

use crate::answers::{ends_in, gives};
use crate::certificate_and_view::cert_of;
use picky_cert::{SshCertificate, SshCertificateError};
use picky_cert_rows::{ROW_COUNT, ZERO_LINE, cert_row};
use picky_wire::{
    IoKind, MemorySink, MemorySource, NoMemory, SliceSource, SshComplexTypeDecode, TryClone,
};
use std::alloc::Global;
use std::mem::ManuallyDrop;
use std::test::Fail;

/// The certificate is written to a sink as it is printed.
fn is_encoded(alloc: Global, cert: &SshCertificate, line: &str) -> Result<bool, NoMemory> {
    let mut sink = ManuallyDrop::new(MemorySink::new(alloc, 9999, 7, &[])?);
    Ok(
        ends_in(None, cert.encode(alloc, &mut *sink))
            && sink.written().strip_suffix(b"\r\n") == Some(line.as_bytes()),
    )
}

/// The line is taken from a source that gives it by 7 bytes, as the certificate.
fn is_taken(alloc: Global, cert: &SshCertificate, line: &str) -> Result<bool, NoMemory> {
    let mut source = ManuallyDrop::new(MemorySource::new(alloc, line.as_bytes(), 7, &[])?);
    Ok(gives(SshCertificate::decode(alloc, &mut *source), cert))
}

/// So it is, and its copy is the same.
fn is_kept(alloc: Global, line: &str) -> Result<bool, Fail> {
    let cert = ManuallyDrop::new(cert_of(alloc, line)?);
    Ok(
        is_encoded(alloc, &cert, line)?
            && is_taken(alloc, &cert, line)?
            && gives(cert.try_clone(alloc), &*cert),
    )
}

#[test]
fn takes_writes_and_copies_certificates(rt: HostRuntime) -> Result<(), Fail> {
    for number in 0..ROW_COUNT {
        let row = cert_row(number);
        assert!(rt; is_kept(rt.alloc(), row.line)?, "{}", row.name);
    }
    Ok(())
}

/// The bytes begin with a line that is read or refused so, and this is left.
fn leaves(alloc: Global, bytes: &[u8], why: Option<SshCertificateError>, left: &[u8]) -> bool {
    let mut source = SliceSource::new(bytes);
    ends_in(why, SshCertificate::decode(alloc, &mut source)) && source.rest() == left
}

#[test]
fn takes_one_certificate_of_a_source(rt: HostRuntime) -> Result<(), Fail> {
    let two = ManuallyDrop::new(format!(in rt.alloc(); "{ZERO_LINE}\r\nmore")?);
    assert!(rt; leaves(rt.alloc(), two.as_bytes(), None, b"\nmore"));
    let bad = b"ssh-ed25519-cert-v01@openssh.com ? \xc3(\nmore";
    let why = SshCertificateError::Base64DecodeError;
    assert!(rt; leaves(rt.alloc(), bad, Some(why), b"more"));
    Ok(())
}

/// Where the call of a source fails, so does the reading of the line.
fn fails_to_read(alloc: Global, call: u64) -> Result<bool, NoMemory> {
    let mut source = ManuallyDrop::new(MemorySource::new(alloc, ZERO_LINE.as_bytes(), 7, &[call])?);
    let why = SshCertificateError::CertificateProcessingError(IoKind::ReadFault);
    Ok(ends_in(Some(why), SshCertificate::decode(alloc, &mut *source)))
}

/// And where that of a sink fails, its writing.
fn fails_to_write(alloc: Global, call: u64) -> Result<bool, Fail> {
    let mut sink = ManuallyDrop::new(MemorySink::new(alloc, 999, 7, &[call])?);
    let cert = ManuallyDrop::new(cert_of(alloc, ZERO_LINE)?);
    let why = SshCertificateError::CertificateProcessingError(IoKind::WriteFault);
    Ok(ends_in(Some(why), cert.encode(alloc, &mut *sink)))
}

#[test]
fn fails_where_a_stream_fails(rt: HostRuntime) -> Result<(), Fail> {
    for call in [0, 20] {
        assert!(rt; fails_to_read(rt.alloc(), call)?, "read {call}");
        assert!(rt; fails_to_write(rt.alloc(), call)?, "write {call}");
    }
    Ok(())
}
