//! The keys that a line means, part by part.

use crate::form_and_reading::meaning_of;
use picky_key_text::{Key, Meaning};
use picky_keys::{EcCurve, SshBasePublicKey};
use picky_wire::{Bytes, Mpint, Text, TryClone};
use std::alloc::Global;
use std::mem::ManuallyDrop;
use std::test::Fail;

/// The line means this, and so does a copy.
fn is_meaning(alloc: Global, line: &str, meaning: &Meaning) -> Result<bool, Fail> {
    let read = ManuallyDrop::new(meaning_of(alloc, line)?);
    let copy = ManuallyDrop::new(read.try_clone(alloc)?);
    Ok(*read == *meaning && *copy == *meaning)
}

/// The line, whose comment is `k`, means the key, and so does a copy.
fn means(alloc: Global, line: &str, inner_key: SshBasePublicKey) -> Result<bool, Fail> {
    let inner_key = ManuallyDrop::new(inner_key);
    let comment = Text::new(alloc, "k")?;
    let key = Key::Public(ManuallyDrop::into_inner(inner_key));
    let meaning = ManuallyDrop::new(Meaning { key, comment });
    is_meaning(alloc, line, &meaning)
}

fn rsa_key(alloc: Global) -> Result<SshBasePublicKey, Fail> {
    let e = ManuallyDrop::new(Mpint::from_be(alloc, &[3])?);
    let n = Mpint::from_be(alloc, &[0x81])?;
    Ok(SshBasePublicKey::Rsa {
        e: ManuallyDrop::into_inner(e),
        n,
    })
}

fn ec_key(alloc: Global, curve: EcCurve) -> Result<SshBasePublicKey, Fail> {
    let point = Bytes::new(alloc, &[4])?;
    Ok(SshBasePublicKey::Ec { curve, point })
}

fn ecdsa_of_device(alloc: Global) -> Result<SshBasePublicKey, Fail> {
    let point = ManuallyDrop::new(Bytes::new(alloc, &[4])?);
    let application = Text::new(alloc, "ssh:")?;
    Ok(SshBasePublicKey::SkEcdsaSha2NistP256 {
        point: ManuallyDrop::into_inner(point),
        application,
    })
}

// The blobs are laid out by hand, with s = lambda b: len(b).to_bytes(4, "big") + b of python3:
// s(b"ssh-rsa") + s(b"\3") + s(b"\0\x81"), where e = 3 and n = 129 (RFC 4253, section 6.6); s(b"ecdsa-sha2-nistp256") + s(b"nistp256") + s(b"\4") (RFC
// 5656, section 3.1); and so on.
static EC_LINES: [(EcCurve, &str); 3] = [
    (
        EcCurve::NistP256,
        "ecdsa-sha2-nistp256 AAAAE2VjZHNhLXNoYTItbmlzdHAyNTYAAAAIbmlzdHAyNTYAAAABBA== k",
    ),
    (
        EcCurve::NistP384,
        "ecdsa-sha2-nistp384 AAAAE2VjZHNhLXNoYTItbmlzdHAzODQAAAAIbmlzdHAzODQAAAABBA== k",
    ),
    (
        EcCurve::NistP521,
        "ecdsa-sha2-nistp521 AAAAE2VjZHNhLXNoYTItbmlzdHA1MjEAAAAIbmlzdHA1MjEAAAABBA== k",
    ),
];

#[test]
fn reads_each_kind(rt: HostRuntime) -> Result<(), Fail> {
    let alloc = rt.alloc();
    let line = "ssh-rsa AAAAB3NzaC1yc2EAAAABAwAAAAIAgQ== k";
    assert!(rt; means(alloc, line, rsa_key(alloc)?)?);
    for (curve, line) in &EC_LINES {
        assert!(rt; means(alloc, line, ec_key(alloc, *curve)?)?, "{line}");
    }
    let ed = SshBasePublicKey::Ed { key: [0; 32] };
    assert!(rt;
        means(
            alloc,
            "ssh-ed25519 AAAAC3NzaC1lZDI1NTE5AAAAIAAAAAAAAAAAAAAAAAAAAAAAAAAAAAAAAAAAAAAAAAAA k",
            ed
        )?
    );
    Ok(())
}

// s(b"sk-ecdsa-sha2-nistp256@openssh.com") + s(b"nistp256") + s(b"\4") + s(b"ssh:"), and
// s(b"sk-ssh-ed25519@openssh.com") + s(bytes(32)) + s(b"ssh:") (OpenSSH's PROTOCOL.u2f).
#[test]
fn reads_the_keys_of_devices(rt: HostRuntime) -> Result<(), Fail> {
    let alloc = rt.alloc();
    let line =
        "sk-ecdsa-sha2-nistp256@openssh.com AAAAInNrLWVjZHNhLXNoYTItbmlzdHAyNTZAb3BlbnNzaC5jb20AAAAIbmlzdHAyNTYAAAABBAAAAARzc2g6 k";
    assert!(rt; means(alloc, line, ecdsa_of_device(alloc)?)?);
    let ed = SshBasePublicKey::SkEd25519 {
        key: [0; 32],
        application: Text::new(alloc, "ssh:")?,
    };
    let line =
        "sk-ssh-ed25519@openssh.com AAAAGnNrLXNzaC1lZDI1NTE5QG9wZW5zc2guY29tAAAAIAAAAAAAAAAAAAAAAAAAAAAAAAAAAAAAAAAAAAAAAAAAAAAABHNzaDo= k";
    assert!(rt; means(alloc, line, ed)?);
    Ok(())
}
