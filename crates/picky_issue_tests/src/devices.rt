//! The device that signs a certificate: what it is asked, and what comes of its failures.

use crate::runs::{End, ends_by, ends_unsigned};
use crate::zero_lines::{FRESH, HOST_SIGNED, SUBJECT_LINE, ZERO_HOST};
use picky_cert::{SshCertKeyType, SshCertType};
use picky_conversion::{ConversionGiven, convert_owned};
use picky_convert::{CertRequest, ConvertError, Key, Target, convert};
use picky_keys::SshBasePublicKey;
use picky_suite::{MemorySigner, PlainSuite};
use picky_wire::{List, NoMemory, Text, Timestamp, TryClone};
use std::alloc::Global;
use std::mem::ManuallyDrop;
use std::test::Fail;

// The signature of the signer for tests is the SHA-256 digest of what is signed. With the functions of crate::zero_lines:
// line(signed(2), payload=hashlib.sha256(signed(2)).digest())
const DIGEST_LINE: &str =
    "ssh-ed25519-cert-v01@openssh.com AAAAIHNzaC1lZDI1NTE5LWNlcnQtdjAxQG9wZW5zc2guY29tAAAAIAAAAAAAAAAAAAAAAAAAAAAAAAAAAAAAAAAAAAAAAAAAAAAAIAAAAAAAAAAAAAAAAAAAAAAAAAAAAAAAAAAAAAAAAAAAAAAAAAAAAAAAAAACAAAAAAAAAAAAAAAAAAAAAAAAAAAAAAAAAAAAAAAAAAAAAAAAAAAAMwAAAAtzc2gtZWQyNTUxOQAAACAAAAAAAAAAAAAAAAAAAAAAAAAAAAAAAAAAAAAAAAAAAAAAADMAAAALc3NoLWVkMjU1MTkAAAAg/50Z6JTWH1uo/bPxBPgnyVjeZJhK5abOPIAE9Wdebec= host\r\n";

const FAULT: End<'static> = End {
    code: 5,
    out: "",
    err: "keyconv: outside fault\n",
};

const DIGEST: End<'static> = End {
    code: 0,
    out: DIGEST_LINE,
    err: "",
};

const SIGNED: End<'static> = End {
    code: 0,
    out: HOST_SIGNED,
    err: "",
};

/// The zero certificate, by a device whose calls of these numbers fail.
fn ends_with(alloc: Global, command: &str, failing: &[u64], end: &End<'_>) -> Result<bool, Fail> {
    let mut signer = ManuallyDrop::new(MemorySigner::new(alloc, failing)?);
    ends_by(alloc, command, &ZERO_HOST, &mut *signer, end)
}

#[test]
fn asks_a_device_once_for_a_certificate_alone(rt: HostRuntime) -> Result<(), Fail> {
    let all = [0, 1, 2, 3, 4, 5, 6, 7, 8, 9];
    assert!(rt; ends_unsigned(rt.alloc(), "cert", &ZERO_HOST, &FAULT)?);
    assert!(rt; ends_with(rt.alloc(), "cert", &all[..1], &FAULT)?);
    assert!(rt; ends_with(rt.alloc(), "cert", &all[1..], &DIGEST)?);
    assert!(rt; ends_with(rt.alloc(), "tbs", &all, &SIGNED)?);
    Ok(())
}

/// The zero certificate's request.
fn zero_request(alloc: Global) -> CertRequest {
    CertRequest {
        cert_key_type: Some(SshCertKeyType::SshEd25519V01),
        cert_type: Some(SshCertType::Host),
        serial: None,
        key_id: None,
        principals: List::new(alloc),
        valid_after: Some(Timestamp(0)),
        valid_before: Some(Timestamp(0)),
        critical_options: List::new(alloc),
        extensions: List::new(alloc),
        signature_algo: None,
        issuer: Some(Key::Public(SshBasePublicKey::Ed { key: [0; 32] })),
    }
}

fn is_converted(alloc: Global, signer: &mut MemorySigner, target: &Target) -> bool {
    let answer = ManuallyDrop::new(convert(
        alloc,
        &mut PlainSuite::new(),
        signer,
        SUBJECT_LINE,
        None,
        target,
        None,
        FRESH,
    ));
    is_digest_line(&answer)
}

fn is_moved(alloc: Global, signer: &mut MemorySigner, target: Target) -> bool {
    let given = ConversionGiven {
        pass_in: None,
        pass_out: None,
        fresh: FRESH,
    };
    let answer = ManuallyDrop::new(convert_owned(
        alloc,
        &mut PlainSuite::new(),
        signer,
        SUBJECT_LINE,
        target,
        given,
    ));
    is_digest_line(&answer)
}

fn is_digest_line(answer: &Result<Text, ConvertError>) -> bool {
    match answer {
        Ok(text) => text.as_str() == DIGEST_LINE,
        Err(_) => false,
    }
}

/// By the request, and by a copy of it that is moved.
fn is_certified(alloc: Global) -> Result<bool, NoMemory> {
    let mut signer = ManuallyDrop::new(MemorySigner::new(alloc, &[])?);
    let target = ManuallyDrop::new(Target::Certificate(zero_request(alloc)));
    let copy = target.try_clone(alloc)?;
    Ok(is_converted(alloc, &mut signer, &target) && is_moved(alloc, &mut signer, copy))
}

#[test]
fn converts_to_a_certificate(rt: HostRuntime) -> Result<(), Fail> {
    assert!(rt; is_certified(rt.alloc())?);
    Ok(())
}
