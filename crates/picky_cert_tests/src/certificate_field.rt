//! Fields of certificates of `ssh-keygen`, each by its number, and why a line has no such field.

use crate::certificate_and_view::blob_of;
use picky_cert_field::{CertFieldError, certificate_field, field_by_number};
use picky_cert_rows::{CertRow, ROW_COUNT, cert_row};
use std::alloc::Global;
use std::mem::ManuallyDrop;
use std::test::Fail;

/// The field of a number, or why there is none.
fn field_of(
    alloc: Global,
    line: &[u8],
    number: u32,
    place: usize,
) -> Result<Result<Vec<u8>, CertFieldError>, Fail> {
    let field = field_by_number(number).ok_or("no such number")?;
    Ok(certificate_field(alloc, line, field, place))
}

fn name_of(e: &CertFieldError) -> &'static str {
    match e {
        CertFieldError::NotUtf8 => "NotUtf8",
        CertFieldError::Certificate(_) => "Certificate",
        CertFieldError::NoSuchPlace => "NoSuchPlace",
        CertFieldError::NoMemory => "NoMemory",
    }
}

/// The field is these bytes, or the refusal's name.
fn is_field(
    alloc: Global,
    line: &[u8],
    number: u32,
    place: usize,
    wanted: &[u8],
) -> Result<bool, Fail> {
    let found = ManuallyDrop::new(field_of(alloc, line, number, place)?);
    match &*found {
        Ok(bytes) => Ok(bytes.as_slice() == wanted),
        Err(e) => Ok(name_of(e).as_bytes() == wanted),
    }
}

/// A row of picky_cert_rows, the number of a field, a place, and the field or the refusal's name.
type Said = (usize, u32, usize, &'static str);

// As the rows have it.
static SAID: [Said; 31] = [
    (5, 1, 9, "ecdsa-sha2-nistp384-cert-v01@openssh.com"),
    (0, 2, 0, "user"),
    (1, 2, 0, "host"),
    (1, 3, 0, "0"),
    (2, 3, 0, "18446744073709551615"),
    (1, 4, 0, "1577836800"),
    (1, 5, 0, "1893456000"),
    (1, 6, 0, "a host"),
    (0, 7, 0, "ed25519@example.org"),
    (2, 12, 0, "rsa-sha2-512"),
    (2, 16, 0, "3"),
    (12, 16, 0, "0"),
    (5, 17, 0, "3"),
    (0, 17, 0, "0"),
    (0, 18, 0, "5"),
    (1, 19, 0, "first.example.com"),
    (1, 19, 1, "second.example.com"),
    (1, 19, 2, "NoSuchPlace"),
    (5, 20, 2, "verify-required"),
    (5, 20, 3, "NoSuchPlace"),
    (5, 21, 0, "\0\0\0\x05ls -l"),
    (5, 21, 2, ""),
    (0, 21, 0, "NoSuchPlace"),
    (0, 22, 3, "permit-pty"),
    (1, 22, 0, "NoSuchPlace"),
    (6, 23, 3, "\0\0\0\x011"),
    (6, 23, 4, "NoSuchPlace"),
    (5, 24, 0, "\0\0\0\x04root"),
    (12, 24, 0, ""),
    (0, 25, 0, ""),
    (1, 26, 0, ""),
];

#[test]
fn takes_certificates_apart(rt: HostRuntime) -> Result<(), Fail> {
    for (row, number, place, wanted) in &SAID {
        let line = cert_row(*row).line.as_bytes();
        assert!(rt;
            is_field(rt.alloc(), line, *number, *place, wanted.as_bytes())?,
            "{number} of {row} at {place}"
        );
    }
    Ok(())
}

/// A row, the number of a field, and where the field begins and ends in the certificate's bytes.
type Seen = (usize, u32, usize, usize);

// By python3's struct.unpack of the bytes.
static SEEN: [Seen; 11] = [
    (0, 8, 40, 72),
    (0, 13, 376, 440),
    (0, 14, 357, 440),
    (0, 24, 132, 140),
    (0, 26, 164, 294),
    (5, 8, 48, 80),
    (5, 13, 522, 595),
    (5, 25, 245, 350),
    (5, 26, 354, 379),
    (11, 13, 303, 367),
    (11, 14, 269, 372),
];

fn is_seen(alloc: Global, seen: &Seen) -> Result<bool, Fail> {
    let (row, number, start, end) = seen;
    let line = cert_row(*row).line;
    let blob = ManuallyDrop::new(blob_of(alloc, line)?);
    match blob.as_slice().get(*start..*end) {
        Some(wanted) => is_field(alloc, line.as_bytes(), *number, 0, wanted),
        None => Ok(false),
    }
}

#[test]
fn hands_out_bytes_as_they_stand(rt: HostRuntime) -> Result<(), Fail> {
    for seen in &SEEN {
        assert!(rt; is_seen(rt.alloc(), seen)?, "{} of {}", seen.1, seen.0);
    }
    Ok(())
}

/// The blobs of both keys, the issuer's line, and what was signed, are the row's.
fn has_keys(alloc: Global, row: &CertRow) -> Result<bool, Fail> {
    let line = row.line.as_bytes();
    let subject = ManuallyDrop::new(blob_of(alloc, row.public_key)?);
    let issuer = ManuallyDrop::new(blob_of(alloc, row.issuer)?);
    let blob = ManuallyDrop::new(blob_of(alloc, row.line)?);
    match blob.as_slice().get(..row.signed_len) {
        Some(signed) => Ok(
            is_field(alloc, line, 9, 0, subject.as_slice())?
                && is_field(alloc, line, 10, 0, issuer.as_slice())?
                && is_field(alloc, line, 11, 0, row.issuer.as_bytes())?
                && is_field(alloc, line, 15, 0, signed)?,
        ),
        None => Ok(false),
    }
}

#[test]
fn has_the_keys_and_what_was_signed(rt: HostRuntime) -> Result<(), Fail> {
    for number in 0..ROW_COUNT {
        let row = cert_row(number);
        assert!(rt; has_keys(rt.alloc(), row)?, "{}", row.name);
    }
    Ok(())
}

// What is refused, whatever the field.
static REFUSED: [(&[u8], &str); 4] = [
    (b"\xff", "NotUtf8"),
    (b"", "Certificate"),
    (b"ssh-ed25519 AAAA k", "Certificate"),
    (b"ssh-ed25519-cert-v01@openssh.com AAAA k\xff", "NotUtf8"),
];

#[test]
fn refuses_lines_of_no_certificate(rt: HostRuntime) -> Result<(), Fail> {
    for number in 1..27 {
        for (line, wanted) in &REFUSED {
            assert!(rt;
                is_field(rt.alloc(), line, number, 9, wanted.as_bytes())?,
                "{wanted}"
            );
        }
    }
    assert!(rt; field_by_number(0).is_none() && field_by_number(27).is_none());
    Ok(())
}
