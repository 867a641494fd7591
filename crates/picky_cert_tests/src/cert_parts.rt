//! Parts of certificates by themselves: told by their names, and read, written and copied.

use crate::answers::{ends_in, gives};
use picky_cert::{
    SshCertKeyType, SshCertType, SshCertificateError, SshCriticalOption, SshCriticalOptionError,
    SshCriticalOptionType, SshExtension, SshExtensionType, SshSignature, SshSignatureBlob,
    SshSignatureError, SshSignatureFormat,
};
use picky_wire::{
    Bytes, MemorySink, NoMemory, SizeError, SliceSource, SshComplexTypeDecode,
    SshComplexTypeEncode, SshElement, Text, TryClone,
};
use std::alloc::Global;
use std::mem::ManuallyDrop;
use std::test::Fail;

// ssh -Q HostKeyAlgorithms | grep cert
static KEY_TYPES: [(&str, SshCertKeyType); 10] = [
    (
        "ssh-ed25519-cert-v01@openssh.com",
        SshCertKeyType::SshEd25519V01,
    ),
    (
        "sk-ssh-ed25519-cert-v01@openssh.com",
        SshCertKeyType::SkSshEd25519V01,
    ),
    (
        "ecdsa-sha2-nistp256-cert-v01@openssh.com",
        SshCertKeyType::EcdsaSha2Nistp256V01,
    ),
    (
        "ecdsa-sha2-nistp384-cert-v01@openssh.com",
        SshCertKeyType::EcdsaSha2Nistp384V01,
    ),
    (
        "ecdsa-sha2-nistp521-cert-v01@openssh.com",
        SshCertKeyType::EcdsaSha2Nistp521V01,
    ),
    (
        "sk-ecdsa-sha2-nistp256-cert-v01@openssh.com",
        SshCertKeyType::SkSshSha2Nistp256V01,
    ),
    ("ssh-dss-cert-v01@openssh.com", SshCertKeyType::SshDssV01),
    ("ssh-rsa-cert-v01@openssh.com", SshCertKeyType::SshRsaV01),
    (
        "rsa-sha2-256-cert-v01@openssh.com",
        SshCertKeyType::RsaSha2_256V01,
    ),
    (
        "rsa-sha2-512-cert-v01@openssh.com",
        SshCertKeyType::RsaSha2_512v01,
    ),
];

// OpenSSH's PROTOCOL.certkeys, "Critical options".
static OPTION_TYPES: [(&str, SshCriticalOptionType); 3] = [
    ("force-command", SshCriticalOptionType::ForceCommand),
    ("source-address", SshCriticalOptionType::SourceAddress),
    ("verify-required", SshCriticalOptionType::VerifyRequired),
];

// ssh -Q sig, without DSS and webauthn
static FORMATS: [(&str, SshSignatureFormat); 9] = [
    ("ssh-ed25519", SshSignatureFormat::SshEd25519),
    ("sk-ssh-ed25519@openssh.com", SshSignatureFormat::SkEd25519),
    ("ecdsa-sha2-nistp256", SshSignatureFormat::EcdsaSha2Nistp256),
    ("ecdsa-sha2-nistp384", SshSignatureFormat::EcdsaSha2Nistp384),
    ("ecdsa-sha2-nistp521", SshSignatureFormat::EcdsaSha2Nistp521),
    (
        "sk-ecdsa-sha2-nistp256@openssh.com",
        SshSignatureFormat::SkEcdsaSha2NistP256,
    ),
    ("ssh-rsa", SshSignatureFormat::SshRsa),
    ("rsa-sha2-256", SshSignatureFormat::RsaSha256),
    ("rsa-sha2-512", SshSignatureFormat::RsaSha512),
];

/// No part but an extension has the name, and each says so with it.
fn is_unknown(alloc: Global, name: &str) -> Result<bool, SizeError> {
    let key_type = SshCertificateError::InvalidCertificateKeyType(Text::new(alloc, name)?);
    let is_type_so = ends_in(Some(key_type), SshCertKeyType::try_from_name(alloc, name));
    let option = SshCriticalOptionError::UnsupportedCriticalOptionType(Text::new(alloc, name)?);
    let is_option_so = ends_in(
        Some(option),
        SshCriticalOptionType::try_from_name(alloc, name),
    );
    let format = SshSignatureError::UnsupportedSignatureFormat(Text::new(alloc, name)?);
    let is_format_so = ends_in(Some(format), SshSignatureFormat::new(alloc, name));
    Ok(is_type_so && is_option_so && is_format_so)
}

#[test]
fn tells_parts_by_their_names(rt: HostRuntime) -> Result<(), Fail> {
    let alloc = rt.alloc();
    for (name, key_type) in &KEY_TYPES {
        let is_told = gives(SshCertKeyType::try_from_name(alloc, *name), key_type);
        assert!(rt; is_told && key_type.as_str() == *name, "{name}");
    }
    for (name, option_type) in &OPTION_TYPES {
        let is_told = gives(
            SshCriticalOptionType::try_from_name(alloc, *name),
            option_type,
        );
        assert!(rt; is_told && option_type.as_str() == *name, "{name}");
    }
    for (name, format) in &FORMATS {
        let is_told = gives(SshSignatureFormat::new(alloc, *name), format);
        assert!(rt; is_told && format.as_str() == *name, "{name}");
    }
    assert!(rt; is_unknown(alloc, "x@y")?);
    Ok(())
}

/// The value is written as the bytes, read from them to their end, and copied.
fn is_part<T: SshElement + TryClone + PartialEq>(
    alloc: Global,
    value: T,
    bytes: &[u8],
) -> Result<bool, NoMemory> {
    let value = ManuallyDrop::new(value);
    let mut sink = ManuallyDrop::new(MemorySink::new(alloc, 100, 3, &[])?);
    let mut source = SliceSource::new(bytes);
    Ok(
        value.encode(&mut *sink).is_ok()
            && sink.written() == bytes
            && gives(T::decode(alloc, &mut source), &*value)
            && source.rest().is_empty()
            && gives(value.try_clone(alloc), &*value),
    )
}

fn option_part(alloc: Global) -> Result<SshCriticalOption, Fail> {
    let payload = Bytes::new(alloc, b"\0\0\0\x02ls")?;
    Ok(SshCriticalOption {
        option_type: SshCriticalOptionType::ForceCommand,
        payload,
    })
}

/// The extension of this name and data.
pub fn extension_of(alloc: Global, name: &str, payload: &[u8]) -> Result<SshExtension, Fail> {
    let payload = ManuallyDrop::new(Bytes::new(alloc, payload)?);
    let extension_type = SshExtensionType::try_from_name(alloc, name)?;
    Ok(SshExtension::new(extension_type, ManuallyDrop::into_inner(payload)))
}

fn signature_part(alloc: Global) -> Result<SshSignature, Fail> {
    let payload = Bytes::new(alloc, b"ab")?;
    Ok(SshSignature {
        format: SshSignatureFormat::SshEd25519,
        blob: SshSignatureBlob::Standard(payload),
    })
}

/// A device's signature.
fn counted_part(alloc: Global) -> Result<SshSignature, Fail> {
    let payload = Bytes::new(alloc, b"ab")?;
    Ok(SshSignature {
        format: SshSignatureFormat::SkEd25519,
        blob: SshSignatureBlob::Sk {
            payload,
            flags: 1,
            counter: 258,
        },
    })
}

// By hand of OpenSSH's PROTOCOL.certkeys and PROTOCOL.u2f, with the strings of RFC 4251, section 5.
const OPTION: &[u8] = b"\0\0\0\x0dforce-command\0\0\0\x06\0\0\0\x02ls";

const EXTENSION: &[u8] = b"\0\0\0\x03x@y\0\0\0\x05\0\0\0\x011";

const SIGNATURE: &[u8] = b"\0\0\0\x15\0\0\0\x0bssh-ed25519\0\0\0\x02ab";

const COUNTED: &[u8] =
    b"\0\0\0\x29\0\0\0\x1ask-ssh-ed25519@openssh.com\0\0\0\x02ab\x01\0\0\x01\x02";

#[test]
fn reads_writes_and_copies_parts(rt: HostRuntime) -> Result<(), Fail> {
    let alloc = rt.alloc();
    // "x@y" names no extension that is known.
    let data = b"\0\0\0\x011";
    assert!(rt; is_part(alloc, SshCertType::Client, b"\0\0\0\x01")?);
    assert!(rt; is_part(alloc, SshCertType::Host, b"\0\0\0\x02")?);
    assert!(rt; is_part(alloc, option_part(alloc)?, OPTION)?);
    assert!(rt; is_part(alloc, extension_of(alloc, "x@y", data)?, EXTENSION)?);
    assert!(rt; is_part(alloc, signature_part(alloc)?, SIGNATURE)?);
    assert!(rt; is_part(alloc, counted_part(alloc)?, COUNTED)?);
    Ok(())
}
