//! Certificates that are issued: those of `ssh-keygen` made again from what they say, and a device that fails.

use crate::answers::{ends_in, gives};
use crate::certificate_and_view::{blob_of, cert_of};
use picky_cert::{
    SshCertKeyType, SshCertType, SshCertificate, SshSignature, SshSignatureBlob, SshSignatureFormat,
};
use picky_cert_builder::{BuildCertificate, SshCertificateBuilder, SshCertificateGenerationError};
use picky_cert_rows::{CA_SK_ED, CA_SK_P256, CertRow, P521, ROW_COUNT, ZERO_LINE, cert_row};
use picky_keys::{HashAlgorithm, SignatureAlgorithm};
use picky_suite::{HandedSigner, MemorySigner};
use picky_wire::{NoMemory, TryClone};
use std::alloc::{AllocError, Global};
use std::mem::ManuallyDrop;
use std::test::Fail;

/// The algorithm that makes signatures of a format, where no device makes them.
fn algorithm_of(format: SshSignatureFormat) -> Option<SignatureAlgorithm> {
    match format {
        SshSignatureFormat::SshRsa => Some(SignatureAlgorithm::RsaPkcs1v15(HashAlgorithm::SHA1)),
        SshSignatureFormat::RsaSha256 => {
            Some(SignatureAlgorithm::RsaPkcs1v15(HashAlgorithm::SHA2_256))
        }
        SshSignatureFormat::RsaSha512 => {
            Some(SignatureAlgorithm::RsaPkcs1v15(HashAlgorithm::SHA2_512))
        }
        SshSignatureFormat::EcdsaSha2Nistp256 => {
            Some(SignatureAlgorithm::Ecdsa(HashAlgorithm::SHA2_256))
        }
        SshSignatureFormat::EcdsaSha2Nistp384 => {
            Some(SignatureAlgorithm::Ecdsa(HashAlgorithm::SHA2_384))
        }
        SshSignatureFormat::EcdsaSha2Nistp521 => {
            Some(SignatureAlgorithm::Ecdsa(HashAlgorithm::SHA2_512))
        }
        SshSignatureFormat::SshEd25519 => Some(SignatureAlgorithm::Ed25519),
        SshSignatureFormat::SkEcdsaSha2NistP256 | SshSignatureFormat::SkEd25519 => None,
    }
}

/// Asks for who and what a certificate is for.
fn ask_terms(
    alloc: Global,
    builder: &mut SshCertificateBuilder,
    cert: &SshCertificate,
) -> Result<(), NoMemory> {
    builder.key(cert.public_key.try_clone(alloc)?);
    builder.key_id(cert.key_id.try_clone(alloc)?);
    builder.principals(cert.valid_principals.try_clone(alloc)?);
    builder
        .cert_key_type(cert.cert_key_type)
        .serial(cert.serial)
        .cert_type(cert.cert_type)
        .valid_after(cert.valid_after)
        .valid_before(cert.valid_before);
    Ok(())
}

/// Asks for what it grants, and by whom.
fn ask_grants(
    alloc: Global,
    builder: &mut SshCertificateBuilder,
    cert: &SshCertificate,
) -> Result<(), NoMemory> {
    builder.critical_options(cert.critical_options.try_clone(alloc)?);
    builder.extensions(cert.extensions.try_clone(alloc)?);
    builder.issuer_public(cert.signature_key.try_clone(alloc)?);
    builder.comment(cert.comment.try_clone(alloc)?);
    match algorithm_of(cert.signature.format) {
        Some(algorithm) => {
            builder.signature_algo(algorithm);
        }
        None => {}
    }
    Ok(())
}

/// What asks for a certificate that is there.
fn asks_for(
    alloc: Global,
    cert: &SshCertificate,
) -> Result<ManuallyDrop<SshCertificateBuilder>, NoMemory> {
    let mut builder = ManuallyDrop::new(cert.builder());
    ask_terms(alloc, &mut *builder, cert)?;
    ask_grants(alloc, &mut *builder, cert)?;
    Ok(builder)
}

/// The device that hands out the certificate's signature.
fn signer_of(alloc: Global, signature: &SshSignature) -> Result<HandedSigner, NoMemory> {
    let payload = match &signature.blob {
        SshSignatureBlob::Standard(payload) => payload,
        SshSignatureBlob::Sk { payload, .. } => payload,
    };
    Ok(HandedSigner::new(Some(payload.try_clone(alloc)?)))
}

/// The request, with the certificate's nonce, ends in this refusal or, where there is none, in the certificate.
fn ends_so(
    alloc: Global,
    builder: &mut SshCertificateBuilder,
    signer: &mut HandedSigner,
    cert: &SshCertificate,
    refusal: Option<SshCertificateGenerationError>,
) -> bool {
    match (cert.nonce.as_slice().first_chunk::<32>(), refusal) {
        (Some(nonce), Some(why)) => ends_in(Some(why), builder.build(alloc, nonce, signer)),
        (Some(nonce), None) => gives(builder.build(alloc, nonce, signer), cert),
        (None, _) => false,
    }
}

/// Why no certificate like the row's is made here: NIST P-521 certifies no key, and no device's signature is made.
fn refusal_of(row: &CertRow) -> Option<SshCertificateGenerationError> {
    if row.public_key == P521 {
        return Some(
            SshCertificateGenerationError::UnsupportedCertificateKeyType(
                SshCertKeyType::EcdsaSha2Nistp521V01,
            ),
        );
    }
    if row.issuer == CA_SK_ED || row.issuer == CA_SK_P256 {
        return Some(SshCertificateGenerationError::IncorrectSignatureAlgorithm);
    }
    None
}

/// The certificate of the row's line, made again from what it says with its nonce and signature, is the same; or it
/// isn't made, for the row's reason.
fn is_issued(alloc: Global, row: &CertRow) -> Result<bool, Fail> {
    let cert = ManuallyDrop::new(cert_of(alloc, row.line)?);
    let mut builder = asks_for(alloc, &cert)?;
    let mut signer = ManuallyDrop::new(signer_of(alloc, &cert.signature)?);
    Ok(ends_so(alloc, &mut *builder, &mut *signer, &cert, refusal_of(row)))
}

#[test]
fn issues_what_ssh_keygen_issued(rt: HostRuntime) -> Result<(), Fail> {
    for number in 0..ROW_COUNT {
        let row = cert_row(number);
        // A user's certificate without extensions is no row to make again: here it gets the permits.
        let gets_permits = row.cert_type == SshCertType::Client && row.extensions.is_empty();
        assert!(rt; gets_permits || is_issued(rt.alloc(), row)?, "{}", row.name);
    }
    Ok(())
}

/// The zero certificate's request.
fn asks_for_zero(alloc: Global) -> Result<ManuallyDrop<SshCertificateBuilder>, Fail> {
    let cert = ManuallyDrop::new(cert_of(alloc, ZERO_LINE)?);
    Ok(asks_for(alloc, &cert)?)
}

/// The request ends in this refusal or, where there is none, in a certificate, which isn't looked at.
fn ends(
    alloc: Global,
    builder: &mut SshCertificateBuilder,
    signer: &mut MemorySigner,
    refusal: Option<SshCertificateGenerationError>,
) -> bool {
    ends_in(refusal, builder.build(alloc, &[0; 32], signer))
}

#[test]
fn keeps_what_is_asked_for_until_it_is_signed(rt: HostRuntime) -> Result<(), Fail> {
    let alloc = rt.alloc();
    let mut builder = asks_for_zero(alloc)?;
    let mut signer = ManuallyDrop::new(MemorySigner::new(alloc, &[0])?);
    let unsigned = Some(SshCertificateGenerationError::SignatureError);
    assert!(rt; ends(alloc, &mut *builder, &mut *signer, unsigned));
    assert!(rt; ends(alloc, &mut *builder, &mut *signer, None));
    let unset = Some(SshCertificateGenerationError::MissingPublicKey);
    assert!(rt; ends(alloc, &mut *builder, &mut *signer, unset));
    Ok(())
}

/// The first so many bytes of the zero certificate are those to be signed.
fn is_unsigned(alloc: Global) -> Result<bool, Fail> {
    let blob = ManuallyDrop::new(blob_of(alloc, ZERO_LINE)?);
    let builder = asks_for_zero(alloc)?;
    let bytes = ManuallyDrop::new(builder.unsigned(alloc, &[0; 32])?);
    Ok(Some(bytes.as_slice()) == blob.as_slice().get(..211))
}

#[test]
fn shows_the_bytes_to_be_signed(rt: HostRuntime) -> Result<(), Fail> {
    assert!(rt; is_unsigned(rt.alloc())?);
    Ok(())
}

static NAMES: [(SshCertificateGenerationError, &str); 12] = [
    (
        SshCertificateGenerationError::UnsupportedCertificateKeyType(SshCertKeyType::SshDssV01),
        "UnsupportedCertificateKeyType",
    ),
    (
        SshCertificateGenerationError::IncorrectSignatureAlgorithm,
        "IncorrectSignatureAlgorithm",
    ),
    (
        SshCertificateGenerationError::MissingPublicKey,
        "MissingPublicKey",
    ),
    (
        SshCertificateGenerationError::MissingCertificateType,
        "MissingCertificateType",
    ),
    (SshCertificateGenerationError::InvalidTime, "InvalidTime"),
    (
        SshCertificateGenerationError::MissingSignatureKey,
        "MissingSignatureKey",
    ),
    (
        SshCertificateGenerationError::HostCertificateExtensions,
        "HostCertificateExtensions",
    ),
    (
        SshCertificateGenerationError::HostCertificateCriticalOptions,
        "HostCertificateCriticalOptions",
    ),
    (SshCertificateGenerationError::NoKeyType, "NoKeyType"),
    (
        SshCertificateGenerationError::SignatureError,
        "SignatureError",
    ),
    (SshCertificateGenerationError::TooLong, "TooLong"),
    (SshCertificateGenerationError::NoMemory, "NoMemory"),
];

/// Each error prints its name.
fn prints_names(
    alloc: Global,
    rows: &[(SshCertificateGenerationError, &str)],
) -> Result<bool, AllocError> {
    let mut is_so = true;
    for (error, name) in rows {
        let text = ManuallyDrop::new(format!(in alloc; "{error}")?);
        is_so = is_so && text.as_str() == *name;
    }
    Ok(is_so)
}

#[test]
fn prints_the_names_of_refusals(rt: HostRuntime) -> Result<(), Fail> {
    assert!(rt; prints_names(rt.alloc(), &NAMES)?);
    Ok(())
}
