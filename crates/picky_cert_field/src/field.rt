//! The fields of a certificate, by number.

ghost use Rattle.std.specs.Prelude.{◌≡◌};
ghost use Rattle.picky_cert_field.specs.FieldNumbers.{field_numbered};

/// A field of a certificate, or of its line. Of each of the three lists it is the number of its items, one item, or all of them.
#[derive(Clone, Copy, Debug)]
pub enum CertField {
    /// The name of the type of certificates.
    Type,
    /// `user` or `host`.
    Kind,
    Serial,
    ValidAfter,
    ValidBefore,
    KeyId,
    /// The line's comment.
    Comment,
    Nonce,
    /// The blob of the subject's key.
    Subject,
    /// The blob of the issuer's key.
    Issuer,
    /// The public key line of the issuer, without a comment and a line end.
    IssuerLine,
    SignatureFormat,
    /// The bytes of the signature's string.
    SignatureBlob,
    /// The signature behind its total.
    Signature,
    /// The bytes that the issuer signed, as they were read.
    Signed,
    Principals,
    CriticalOptions,
    Extensions,
    Principal,
    CriticalOptionName,
    CriticalOptionPayload,
    ExtensionName,
    ExtensionPayload,
    /// The items as they stand on the wire, without the length in front of them.
    PrincipalList,
    CriticalOptionList,
    ExtensionList,
}

/// The field of a number.
pub fn field_by_number(number: u32) -> Option<CertField>
    ensures { result ≡ field_numbered number }
{
    match number {
        1 => Some(CertField::Type),
        2 => Some(CertField::Kind),
        3 => Some(CertField::Serial),
        4 => Some(CertField::ValidAfter),
        5 => Some(CertField::ValidBefore),
        6 => Some(CertField::KeyId),
        7 => Some(CertField::Comment),
        8 => Some(CertField::Nonce),
        9 => Some(CertField::Subject),
        10 => Some(CertField::Issuer),
        11 => Some(CertField::IssuerLine),
        12 => Some(CertField::SignatureFormat),
        13 => Some(CertField::SignatureBlob),
        14 => Some(CertField::Signature),
        15 => Some(CertField::Signed),
        16 => Some(CertField::Principals),
        17 => Some(CertField::CriticalOptions),
        18 => Some(CertField::Extensions),
        19 => Some(CertField::Principal),
        20 => Some(CertField::CriticalOptionName),
        21 => Some(CertField::CriticalOptionPayload),
        22 => Some(CertField::ExtensionName),
        23 => Some(CertField::ExtensionPayload),
        24 => Some(CertField::PrincipalList),
        25 => Some(CertField::CriticalOptionList),
        26 => Some(CertField::ExtensionList),
        _ => None,
    }
}
