//! How a certificate is written and read under other fields.

use crate::answers::gives;
use crate::cert_parts::extension_of;
use crate::certificate_and_view::{blob_of, cert_of, prints};
use picky_cert::{CertView, SshCertType, SshCertificate, SshExtension};
use picky_cert_rows::ZERO_LINE;
use picky_wire::{List, Text};
use std::alloc::Global;
use std::mem::ManuallyDrop;
use std::test::Fail;

// As ZERO_LINE, with s(b"picky") and s(s(b"first.example.com") + s(b"second.example.com")).
const NAMED_LINE: &str =
    "ssh-ed25519-cert-v01@openssh.com AAAAIHNzaC1lZDI1NTE5LWNlcnQtdjAxQG9wZW5zc2guY29tAAAAIAAAAAAAAAAAAAAAAAAAAAAAAAAAAAAAAAAAAAAAAAAAAAAAIAAAAAAAAAAAAAAAAAAAAAAAAAAAAAAAAAAAAAAAAAAAAAAAAAAAAAAAAAACAAAABXBpY2t5AAAAKwAAABFmaXJzdC5leGFtcGxlLmNvbQAAABJzZWNvbmQuZXhhbXBsZS5jb20AAAAAAAAAAAAAAAAAAAAAAAAAAAAAAAAAAAAAAAAAMwAAAAtzc2gtZWQyNTUxOQAAACAAAAAAAAAAAAAAAAAAAAAAAAAAAAAAAAAAAAAAAAAAAAAAAFMAAAALc3NoLWVkMjU1MTkAAABAAAAAAAAAAAAAAAAAAAAAAAAAAAAAAAAAAAAAAAAAAAAAAAAAAAAAAAAAAAAAAAAAAAAAAAAAAAAAAAAAAAAAAA== with a trailing space ";

/// Puts the value in the other's place.
fn put<T: Drop>(place: &mut T, value: T) {
    *place = value;
}

fn two_principals(alloc: Global) -> Result<List<Text>, Fail> {
    let mut principals = ManuallyDrop::new(List::new(alloc));
    for name in ["first.example.com", "second.example.com"] {
        principals.push(Text::new(alloc, name)?)?;
    }
    Ok(ManuallyDrop::into_inner(principals))
}

/// The zero certificate under other names.
fn named(alloc: Global, comment: &str) -> Result<ManuallyDrop<SshCertificate>, Fail> {
    let mut cert = ManuallyDrop::new(cert_of(alloc, ZERO_LINE)?);
    put(&mut cert.key_id, Text::new(alloc, "picky")?);
    put(&mut cert.valid_principals, two_principals(alloc)?);
    put(&mut cert.comment, Text::new(alloc, comment)?);
    Ok(cert)
}

/// In the line's bytes the blocks of the principals and of the extensions are so long.
fn has_blocks(
    alloc: Global,
    line: &str,
    principals_len: usize,
    extensions_len: usize,
) -> Result<bool, Fail> {
    let blob = ManuallyDrop::new(blob_of(alloc, line)?);
    match CertView::read(blob.as_slice()) {
        Ok((view, _)) => Ok(
            view.valid_principals.bytes.len() == principals_len
                && view.extensions.bytes.len() == extensions_len,
        ),
        Err(_) => Ok(false),
    }
}

#[test]
fn reads_a_comment_without_the_space_at_its_end(rt: HostRuntime) -> Result<(), Fail> {
    let alloc = rt.alloc();
    let spaced = named(alloc, "with a trailing space ")?;
    assert!(rt; prints(alloc, &spaced, NAMED_LINE));
    let read = named(alloc, "with a trailing space")?;
    assert!(rt; gives(SshCertificate::from_str(alloc, NAMED_LINE), &*read));
    assert!(rt; has_blocks(alloc, NAMED_LINE, 43, 0)?);
    Ok(())
}

// As ZERO_LINE, with b"\0\0\0\1" and s(s(b"permit-X11-forwarding") + s(b"") + s(b"permit-agent-forwarding") + ..).
const PERMITS_LINE: &str =
    "ssh-ed25519-cert-v01@openssh.com AAAAIHNzaC1lZDI1NTE5LWNlcnQtdjAxQG9wZW5zc2guY29tAAAAIAAAAAAAAAAAAAAAAAAAAAAAAAAAAAAAAAAAAAAAAAAAAAAAIAAAAAAAAAAAAAAAAAAAAAAAAAAAAAAAAAAAAAAAAAAAAAAAAAAAAAAAAAABAAAAAAAAAAAAAAAAAAAAAAAAAAAAAAAAAAAAAAAAAIIAAAAVcGVybWl0LVgxMS1mb3J3YXJkaW5nAAAAAAAAABdwZXJtaXQtYWdlbnQtZm9yd2FyZGluZwAAAAAAAAAWcGVybWl0LXBvcnQtZm9yd2FyZGluZwAAAAAAAAAKcGVybWl0LXB0eQAAAAAAAAAOcGVybWl0LXVzZXItcmMAAAAAAAAAAAAAADMAAAALc3NoLWVkMjU1MTkAAAAgAAAAAAAAAAAAAAAAAAAAAAAAAAAAAAAAAAAAAAAAAAAAAABTAAAAC3NzaC1lZDI1NTE5AAAAQAAAAAAAAAAAAAAAAAAAAAAAAAAAAAAAAAAAAAAAAAAAAAAAAAAAAAAAAAAAAAAAAAAAAAAAAAAAAAAAAAAAAAA= host";

fn five_permits(alloc: Global) -> Result<List<SshExtension>, Fail> {
    let mut permits = ManuallyDrop::new(List::new(alloc));
    for name in [
        "permit-X11-forwarding",
        "permit-agent-forwarding",
        "permit-port-forwarding",
        "permit-pty",
        "permit-user-rc",
    ] {
        permits.push(extension_of(alloc, name, b"")?)?;
    }
    Ok(ManuallyDrop::into_inner(permits))
}

/// The zero certificate as a user's, with five permits, is written as the line and read from it.
fn is_permitted(alloc: Global, line: &str) -> Result<bool, Fail> {
    let mut cert = ManuallyDrop::new(cert_of(alloc, ZERO_LINE)?);
    put(&mut cert.cert_type, SshCertType::Client);
    put(&mut cert.extensions, five_permits(alloc)?);
    Ok(prints(alloc, &cert, line) && gives(SshCertificate::from_str(alloc, line), &*cert))
}

#[test]
fn writes_and_reads_the_permits_of_a_user(rt: HostRuntime) -> Result<(), Fail> {
    assert!(rt; is_permitted(rt.alloc(), PERMITS_LINE)?);
    assert!(rt; has_blocks(rt.alloc(), PERMITS_LINE, 0, 130)?);
    Ok(())
}
