//! The error of a certificate that is stopped at a part.

ghost use Rattle.std.specs.Prelude.{◌≡◌, ◌⊎◌};
ghost use Rattle.picky_wire.specs.Principals.{IsPrincipal};
ghost use Rattle.picky_wire_base.specs.View.{why_of};
ghost use Rattle.picky_cert.specs.CertRefusal.{cert_error, issuer_error, extensions_error, name_error, options_error};
ghost use Rattle.picky_cert.specs.CertRefusal.{own_error, signature_part_error, type_error};
ghost use Rattle.picky_cert.specs.View.{IsCertRefusal, NamesPrincipal};
ghost use Rattle.picky_wire_base.specs.View.{reason_of};

use picky_cert_blob::CertPart;
use picky_cert_parts::{
    SshCertKeyType, SshCertTypeError, SshCertificateError, SshCriticalOptionError,
    SshExtensionError, SshSignatureError,
};
use picky_keys::SshPublicKeyError;
use picky_wire::{IoKind, NoMemory, Part, Stopped, Stuck};
use std::alloc::Global;

/// The error of the reader where a view is stopped, with a copy of a refused name, or `NoMemory`.
pub fn certificate_view_refusal(
    alloc: Global,
    stopped: &Stopped<'_, CertPart>,
) -> SshCertificateError
    requires { IsCertRefusal stopped.now }
    ensures { (result ≡ cert_error (reason_of stopped.now)) ⊎ (result ≡ SshCertificateError.NoMemory) }
{
    match stopped.place {
        CertPart::CertType => type_refusal(alloc, &stopped.stuck),
        CertPart::Options => options_refusal(alloc, &stopped.stuck),
        CertPart::Extensions => extensions_refusal(alloc, &stopped.stuck),
        CertPart::Issuer => issuer_refusal(&stopped.stuck),
        CertPart::Signature => signature_refusal(alloc, &stopped.stuck),
        CertPart::Name
        | CertPart::Nonce
        | CertPart::Subject
        | CertPart::Serial
        | CertPart::KeyId
        | CertPart::Principals
        | CertPart::After
        | CertPart::Before
        | CertPart::Reserved
        | CertPart::IssuerString => own_refusal(alloc, &stopped.stuck),
    }
}

/// Of a part whose errors are the certificate's own.
fn own_refusal(alloc: Global, stuck: &Stuck<'_>) -> SshCertificateError
    requires { NamesPrincipal stuck.now }
    ensures { (result ≡ own_error (why_of stuck.now)) ⊎ (result ≡ SshCertificateError.NoMemory) }
{
    match stuck {
        Stuck::Short => SshCertificateError::CertificateProcessingError(IoKind::UnexpectedEnd),
        Stuck::NotUtf8 => SshCertificateError::InvalidUtf8,
        Stuck::Name(name) => name_refusal(alloc, name),
        Stuck::Length => SshCertificateError::KeyError,
        Stuck::Number(number) => SshCertificateError::InvalidCertificateType(
            SshCertTypeError::InvalidCertificateType(*number),
        ),
    }
}

/// Of a name of a type of certificates that isn't read.
fn name_refusal(alloc: Global, name: &Part<'_>) -> SshCertificateError
    requires { IsPrincipal name.now.bytes.now }
    ensures { (result ≡ name_error name.now.bytes.now) ⊎ (result ≡ SshCertificateError.NoMemory) }
{
    match name.to_text(alloc) {
        Ok(copy) => {
            if copy.as_str() == SshCertKeyType::SshDssV01.as_str() {
                SshCertificateError::UnsupportedCertificateType(copy)
            } else {
                SshCertificateError::InvalidCertificateKeyType(copy)
            }
        }
        Err(NoMemory) => SshCertificateError::NoMemory,
    }
}

/// Of the type, user or host.
fn type_refusal(alloc: Global, stuck: &Stuck<'_>) -> SshCertificateError
    requires { NamesPrincipal stuck.now }
    ensures { (result ≡ type_error (why_of stuck.now)) ⊎ (result ≡ SshCertificateError.NoMemory) }
{
    match stuck {
        Stuck::Short => SshCertificateError::InvalidCertificateType(SshCertTypeError::IoError(
            IoKind::UnexpectedEnd,
        )),
        Stuck::NotUtf8 => {
            SshCertificateError::InvalidCertificateType(SshCertTypeError::InvalidUtf8)
        }
        Stuck::Name(_) | Stuck::Length | Stuck::Number(_) => own_refusal(alloc, stuck),
    }
}

/// Of the critical options.
fn options_refusal(alloc: Global, stuck: &Stuck<'_>) -> SshCertificateError
    requires { NamesPrincipal stuck.now }
    ensures { (result ≡ options_error (why_of stuck.now)) ⊎ (result ≡ SshCertificateError.NoMemory) }
{
    match stuck {
        Stuck::Short => SshCertificateError::SshCriticalOptionError(SshCriticalOptionError::IoError(
            IoKind::UnexpectedEnd,
        )),
        Stuck::NotUtf8 => {
            SshCertificateError::SshCriticalOptionError(SshCriticalOptionError::InvalidUtf8)
        }
        Stuck::Name(name) => match name.to_text(alloc) {
            Ok(name) => SshCertificateError::SshCriticalOptionError(
                SshCriticalOptionError::UnsupportedCriticalOptionType(name),
            ),
            Err(NoMemory) => SshCertificateError::NoMemory,
        },
        Stuck::Length | Stuck::Number(_) => own_refusal(alloc, stuck),
    }
}

/// Of the extensions.
fn extensions_refusal(alloc: Global, stuck: &Stuck<'_>) -> SshCertificateError
    requires { NamesPrincipal stuck.now }
    ensures { (result ≡ extensions_error (why_of stuck.now)) ⊎ (result ≡ SshCertificateError.NoMemory) }
{
    match stuck {
        Stuck::Short => SshCertificateError::SshExtensionError(SshExtensionError::IoError(
            IoKind::UnexpectedEnd,
        )),
        Stuck::NotUtf8 => SshCertificateError::SshExtensionError(SshExtensionError::InvalidUtf8),
        Stuck::Name(_) | Stuck::Length | Stuck::Number(_) => own_refusal(alloc, stuck),
    }
}

/// Of the issuer's key, inside its string.
fn issuer_refusal(stuck: &Stuck<'_>) -> SshCertificateError
    ensures { result ≡ issuer_error (why_of stuck.now) }
{
    SshCertificateError::InvalidPublicKey(SshPublicKeyError::from(*stuck))
}

/// Of the signature.
fn signature_refusal(alloc: Global, stuck: &Stuck<'_>) -> SshCertificateError
    requires { NamesPrincipal stuck.now }
    ensures { (result ≡ signature_part_error (why_of stuck.now)) ⊎ (result ≡ SshCertificateError.NoMemory) }
{
    match stuck {
        Stuck::Short => SshCertificateError::SshSignatureError(SshSignatureError::IoError(
            IoKind::UnexpectedEnd,
        )),
        Stuck::NotUtf8 => SshCertificateError::SshSignatureError(SshSignatureError::InvalidUtf8),
        Stuck::Name(name) => match name.to_text(alloc) {
            Ok(name) => SshCertificateError::SshSignatureError(
                SshSignatureError::UnsupportedSignatureFormat(name),
            ),
            Err(NoMemory) => SshCertificateError::NoMemory,
        },
        Stuck::Length | Stuck::Number(_) => own_refusal(alloc, stuck),
    }
}
