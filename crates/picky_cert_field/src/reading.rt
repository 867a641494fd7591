//! One field of a certificate's line.

ghost use Rattle.std.specs.Prelude.{◌≡◌, Ok, IfOk};
ghost use Rattle.picky_wire_base.specs.Gives.{Gives};
ghost use Rattle.picky_cert.specs.LineRefusal.{cert_line_meaning};
ghost use Rattle.picky_cert_field.specs.Fields.{IsFieldOfLine, field_in, field_of as field_of_certificate, signed_in_line};

use crate::error::{CertFieldError, certificate_refusal};
use crate::field::CertField;
use crate::lists::{
    count_of, extension_name_at, extension_payload_at, list_of, option_name_at, option_payload_at,
    principal_at,
};
use crate::parts::{
    bare_key_line, copy_of, digits, key_blob, kind_word, payload_of, signature_bytes,
};
use crate::signed::signed_part;
use picky_cert::SshCertificate;
use picky_utf8::as_text;
use std::alloc::Global;

/// A field of the certificate that a line means, as bytes.
///
/// `place` is that of an item in its list, counted from 0, and else says nothing. The signature isn't verified.
/// Refuses, in order: `NotUtf8`; `Certificate`, as `SshCertificate::from_str`; `NoSuchPlace`, where the list ends before the place.
pub fn certificate_field(
    alloc: Global,
    line: &[u8],
    field: CertField,
    place: usize,
) -> Result<Vec<u8>, CertFieldError>
    ensures gives { Gives CertFieldError.NoMemory (λ bytes. bytes.items) result (field_in field line.now place) }
    ensures means { IfOk result (λ bytes. IsFieldOfLine field line.now place bytes.items) }
{
    field_in_line(alloc, line, field, place)
}

/// The same, without what follows from it.
fn field_in_line(
    alloc: Global,
    line: &[u8],
    field: CertField,
    place: usize,
) -> Result<Vec<u8>, CertFieldError>
    ensures { Gives CertFieldError.NoMemory (λ bytes. bytes.items) result (field_in field line.now place) }
{
    let text = match as_text(line) {
        Some(text) => text,
        None => return Err(CertFieldError::NotUtf8),
    };
    match SshCertificate::from_str(alloc, text) {
        Ok(certificate) => {
            let bytes = field_of(alloc, text, &certificate, field, place);
            drop(certificate);
            bytes
        }
        Err(e) => Err(certificate_refusal(e)),
    }
}

/// The field of the certificate that the text means. Refuses: `NoSuchPlace`.
fn field_of(
    alloc: Global,
    text: &str,
    certificate: &SshCertificate,
    field: CertField,
    place: usize,
) -> Result<Vec<u8>, CertFieldError>
    requires { cert_line_meaning text.now ≡ Ok certificate.now }
    ensures { Gives CertFieldError.NoMemory (λ bytes. bytes.items) result
        (field_of_certificate field certificate.now (signed_in_line text.now) place) }
{
    match field {
        CertField::Type => copy_of(alloc, certificate.cert_key_type.as_str().as_bytes()),
        CertField::Kind => copy_of(alloc, kind_word(certificate.cert_type).as_bytes()),
        CertField::Serial => digits(alloc, certificate.serial),
        CertField::ValidAfter => digits(alloc, certificate.valid_after.secs()),
        CertField::ValidBefore => digits(alloc, certificate.valid_before.secs()),
        CertField::KeyId => copy_of(alloc, certificate.key_id.as_str().as_bytes()),
        CertField::Comment => copy_of(alloc, certificate.comment.as_str().as_bytes()),
        CertField::Nonce => copy_of(alloc, certificate.nonce.as_slice()),
        CertField::Subject => key_blob(alloc, &certificate.public_key.inner_key),
        CertField::Issuer => key_blob(alloc, &certificate.signature_key.inner_key),
        CertField::IssuerLine => bare_key_line(alloc, &certificate.signature_key.inner_key),
        CertField::SignatureFormat => copy_of(
            alloc,
            certificate.signature.format.as_str().as_bytes(),
        ),
        CertField::SignatureBlob => copy_of(alloc, payload_of(&certificate.signature.blob)),
        CertField::Signature => signature_bytes(alloc, &certificate.signature),
        CertField::Signed => signed_part(alloc, text),
        CertField::Principals => count_of(alloc, certificate.valid_principals.as_slice()),
        CertField::CriticalOptions => count_of(alloc, certificate.critical_options.as_slice()),
        CertField::Extensions => count_of(alloc, certificate.extensions.as_slice()),
        CertField::Principal => principal_at(alloc, certificate.valid_principals.as_slice(), place),
        CertField::CriticalOptionName => option_name_at(
            alloc,
            certificate.critical_options.as_slice(),
            place,
        ),
        CertField::CriticalOptionPayload => option_payload_at(
            alloc,
            certificate.critical_options.as_slice(),
            place,
        ),
        CertField::ExtensionName => extension_name_at(
            alloc,
            certificate.extensions.as_slice(),
            place,
        ),
        CertField::ExtensionPayload => extension_payload_at(
            alloc,
            certificate.extensions.as_slice(),
            place,
        ),
        CertField::PrincipalList => list_of(alloc, certificate.valid_principals.as_slice()),
        CertField::CriticalOptionList => list_of(alloc, certificate.critical_options.as_slice()),
        CertField::ExtensionList => list_of(alloc, certificate.extensions.as_slice()),
    }
}
