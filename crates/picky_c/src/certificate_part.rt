//! A field of a certificate's line, by its number.

ghost use Rattle.std.specs.Prelude.{◌≡◌, IfOk};
ghost use Rattle.picky_wire_base.specs.Gives.{Gives};
ghost use Rattle.picky_c.specs.CertificatePart.{IsCertificatePart, certificate_part_in, field_refusal as field_refusal_of};

use crate::error::PickyError;
use picky_cert_field::{CertFieldError, certificate_field, field_by_number};
use picky_key_text::ReadError;
use picky_target::ConvertError;
use std::alloc::Global;

/// The field with a number of the certificate that a line says; of a list's item, that of the one at the place.
///
/// Refuses, in order: `NoSuchPart`, and as `picky_cert_field::certificate_field`.
pub fn certificate_part(
    alloc: Global,
    line: &[u8],
    part: u32,
    place: usize,
) -> Result<Vec<u8>, PickyError>
    ensures gives { Gives PickyError.NoMemory (λ bytes. bytes.items) result (certificate_part_in line.now part place) }
    ensures means { IfOk result (λ bytes. IsCertificatePart line.now part place bytes.items) }
{
    let field = match field_by_number(part) {
        Some(field) => field,
        None => return Err(PickyError::NoSuchPart),
    };
    match certificate_field(alloc, line, field, place) {
        Ok(bytes) => Ok(bytes),
        Err(e) => Err(field_refusal(e)),
    }
}

/// A field's refusal as a call's.
fn field_refusal(e: CertFieldError) -> PickyError
    ensures { result ≡ field_refusal_of e }
{
    match e {
        CertFieldError::NotUtf8 => PickyError::TextNotUtf8,
        CertFieldError::Certificate(e) => {
            PickyError::Refused(ConvertError::Input(ReadError::Certificate(e)))
        }
        CertFieldError::NoSuchPlace => PickyError::NoSuchPlace,
        CertFieldError::NoMemory => PickyError::NoMemory,
    }
}
