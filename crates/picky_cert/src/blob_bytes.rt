//! A certificate's bytes, written.

ghost use Rattle.std.specs.Prelude.{◌≡◌, ◌++◌, ◌∷◌, [], ◌^◌, ◌<◌, ◌≤◌, ℕ, List, length, IfErr, IfOk, OnOk};
ghost use Rattle.std.specs.Int.{w32, w64, to_be_bytes};
ghost use Rattle.std.specs.List.{concat};
ghost use Rattle.picky_wire_base.specs.Wire.{string_of};
ghost use Rattle.picky_keys.specs.Blob.{blob_of as key_blob_of};
ghost use Rattle.picky_cert_blob.specs.Spelled.{grants_spelled, head_spelled, terms_spelled};
ghost use Rattle.picky_cert_parts.specs.CertNumber.{cert_type_number};
ghost use Rattle.picky_wire_base.specs.Gives.{Gives};
ghost use Rattle.picky_cert.specs.Certificate.{said};
ghost use Rattle.picky_cert.specs.LineRefusal.{signed_text};
ghost use Rattle.picky_cert.specs.Spelled.{signed_of};
ghost use Rattle.picky_cert.specs.Keeps.{IsCertificate, IsWellFormed};
ghost use Rattle.picky_cert.specs.declared.certificate.SshCertificate.{SshCertificate as Certificate};

use crate::certificate::SshCertificate;
use crate::lists::block_of;
use crate::ranges::certificate_keeps_its_ranges;
use picky_cert_blob::fits_subject;
use picky_cert_parts::SshCertificateError;
use picky_keys::{SshBasePublicKey, bytes_of, pieces_behind};
use picky_wire::{Bytes, MAX_LEN, NoMemory, Piece, SizeError, push_pieces};
use std::alloc::{AllocError, Global};

impl SshCertificate {
    /// All bytes that are signed, which are those before the signature (OpenSSH's PROTOCOL.certkeys).
    ///
    /// Refuses, in order: `SubjectMismatch`, where the type isn't for the subject's key; `TooLong`, where there are 2^32
    /// bytes or more.
    #[tactic(auto, using(crate::proofs::WrittenLaws::written_binds, crate::proofs::FormedLaws::signed_is_formed))]
    pub fn signed_bytes(&self, alloc: Global) -> Result<Bytes, SshCertificateError>
        ensures gives { Gives SshCertificateError.NoMemory (λ bytes. bytes) result (signed_text self.now) }

        // They are a prefix of another well-formed certificate's signed bytes, or have those as a prefix, only where both
        // certificates are equal in all fields but the signature and the comments.
        ensures prefix { IfOk result (λ bytes. (d : Certificate) (more : List ℕ) → IsCertificate d → IsWellFormed d
            → signed_of d ≡ bytes ++ more → said self.now ≡ said d) }
        ensures extension { IfOk result (λ bytes. (d : Certificate) (more : List ℕ) → IsCertificate d → IsWellFormed d
            → bytes ≡ signed_of d ++ more → said self.now ≡ said d) }
    {
        certificate_keeps_its_ranges(self);
        one_spelling(alloc, self)
    }
}

/// The one spelling of what is signed. Refuses as `signed_bytes`.
#[tactic(auto, unfolding(crate::specs::LineRefusal::signed_text))]
fn one_spelling(alloc: Global, certificate: &SshCertificate) -> Result<Bytes, SshCertificateError>
    ensures gives { Gives SshCertificateError.NoMemory (λ bytes. bytes) result (signed_text certificate.now) }
    ensures spelled { IfOk result (λ bytes. bytes ≡ signed_of certificate.now) }
{
    if !fits_subject(certificate.cert_key_type, &certificate.public_key.inner_key) {
        return Err(SshCertificateError::SubjectMismatch);
    }
    let bytes = signed_vec(alloc, certificate)?;
    Ok(Bytes::from_vec(bytes))
}

/// All bytes before the signature.
///
/// Refuses: `TooLong`, where there are 2^32 bytes or more.
#[tactic(auto, unfolding(crate::specs::Spelled::signed_of, picky_cert_blob::specs::Spelled::body_spelled))]
pub fn signed_vec(alloc: Global, certificate: &SshCertificate) -> Result<Vec<u8>, SizeError>
    ensures signed { IfOk result (λ bytes. bytes.items ≡ signed_of certificate.now) }
    ensures short { IfOk result (λ bytes. length bytes.items < 2 ^ 32) }
    ensures too_long { IfErr result (λ e. e ≡ SizeError.TooLong → 2 ^ 32 ≤ length (signed_of certificate.now)) }
{
    let mut bytes = Vec::new(alloc);
    match push_head(&mut bytes, certificate) {
        Ok(()) => {}
        Err(_) => return Err(SizeError::NoMemory),
    }
    match push_terms(alloc, &mut bytes, certificate) {
        Ok(()) => {}
        Err(e) => return Err(e),
    }
    match push_grants(alloc, &mut bytes, certificate) {
        Ok(()) => {}
        Err(e) => return Err(e),
    }
    if bytes.len() > MAX_LEN {
        return Err(SizeError::TooLong);
    }
    Ok(bytes)
}

/// Appends who is certified.
#[tactic(auto, unfolding(picky_cert_blob::specs::Spelled::head_spelled))]
fn push_head(out: &mut Vec<u8>, certificate: &SshCertificate) -> Result<(), AllocError>
    ensures { OnOk result (out.new.items ≡ out.old.items ++ head_spelled (said certificate.now).head) }
{
    let name = certificate.cert_key_type.as_str();
    push_pieces(out, &[Piece::string(name.as_bytes())])?;
    push_pieces(
        out,
        &pieces_behind(
            Piece::bytes(&certificate.nonce),
            &certificate.public_key.inner_key,
        ),
    )
}

/// Appends for what and how long.
///
/// Refuses: `TooLong`, where the names have 2^32 bytes or more.
#[tactic(auto, unfolding(picky_cert_blob::specs::Spelled::terms_spelled, picky_cert_parts::specs::CertType::cert_type_of))]
fn push_terms(
    alloc: Global,
    out: &mut Vec<u8>,
    certificate: &SshCertificate,
) -> Result<(), SizeError>
    ensures pushed { OnOk result (out.new.items ≡ out.old.items ++ terms_spelled (said certificate.now).terms) }
    ensures too_long { IfErr result (λ e. e ≡ SizeError.TooLong → 2 ^ 32 ≤ length (terms_spelled (said certificate.now).terms)) }
{
    let principals = match block_of(alloc, certificate.valid_principals.as_slice()) {
        Ok(block) => block,
        Err(e) => return Err(e),
    };
    match push_pieces(out, &terms_front(certificate)) {
        Ok(()) => {}
        Err(_) => return Err(SizeError::NoMemory),
    }
    match push_pieces(out, &terms_back(certificate, principals.as_slice())) {
        Ok(()) => Ok(()),
        Err(_) => Err(SizeError::NoMemory),
    }
}

/// The terms up to the names.
fn terms_front(certificate: &SshCertificate) -> [Piece<'_>; 3]
    ensures { concat result ≡ concat (to_be_bytes w64 certificate.now.serial
        ∷ to_be_bytes w32 (cert_type_number certificate.now.cert_type) ∷ string_of certificate.now.key_id ∷ []) }
{
    [
        Piece::uint64(certificate.serial),
        Piece::uint32(certificate.cert_type.number()),
        Piece::text(&certificate.key_id),
    ]
}

/// The names, whose block this is, and the terms behind them.
fn terms_back<'a>(certificate: &SshCertificate, principals: &'a [u8]) -> [Piece<'a>; 3]
    requires { length principals.now < 2 ^ 32 }
    ensures { concat result ≡ concat (string_of principals.now ∷ to_be_bytes w64 certificate.now.valid_after.0
        ∷ to_be_bytes w64 certificate.now.valid_before.0 ∷ []) }
{
    [
        Piece::string(principals),
        Piece::uint64(certificate.valid_after.secs()),
        Piece::uint64(certificate.valid_before.secs()),
    ]
}

/// Appends what is granted, nothing reserved, and by whom.
///
/// Refuses: `TooLong`, where the options, the extensions or the issuer's blob have 2^32 bytes or more.
#[tactic(auto, unfolding(picky_cert_blob::specs::Spelled::grants_spelled))]
fn push_grants(
    alloc: Global,
    out: &mut Vec<u8>,
    certificate: &SshCertificate,
) -> Result<(), SizeError>
    ensures pushed { OnOk result (out.new.items ≡ out.old.items ++ grants_spelled (said certificate.now).grants) }
    ensures too_long { IfErr result (λ e. e ≡ SizeError.TooLong → 2 ^ 32 ≤ length (grants_spelled (said certificate.now).grants)) }
{
    let options = match block_of(alloc, certificate.critical_options.as_slice()) {
        Ok(block) => block,
        Err(e) => return Err(e),
    };
    let extensions = match block_of(alloc, certificate.extensions.as_slice()) {
        Ok(block) => block,
        Err(e) => return Err(e),
    };
    let issuer = match issuer_vec(alloc, &certificate.signature_key.inner_key) {
        Ok(blob) => blob,
        Err(e) => return Err(e),
    };
    let pieces = [
        Piece::string(options.as_slice()),
        Piece::string(extensions.as_slice()),
        Piece::string(&[]),
        Piece::string(issuer.as_slice()),
    ];
    match push_pieces(out, &pieces) {
        Ok(()) => Ok(()),
        Err(_) => Err(SizeError::NoMemory),
    }
}

/// The blob of the issuer's key.
///
/// Refuses: `TooLong`, where it has 2^32 bytes or more.
fn issuer_vec(alloc: Global, key: &SshBasePublicKey) -> Result<Vec<u8>, SizeError>
    ensures blob { IfOk result (λ blob. blob.items ≡ key_blob_of key.now) }
    ensures short { IfOk result (λ blob. length blob.items < 2 ^ 32) }
    ensures too_long { IfErr result (λ e. e ≡ SizeError.TooLong → 2 ^ 32 ≤ length (key_blob_of key.now)) }
{
    match bytes_of(alloc, key) {
        Ok(blob) => {
            if blob.len() > MAX_LEN {
                return Err(SizeError::TooLong);
            }
            Ok(blob)
        }
        Err(NoMemory) => Err(SizeError::NoMemory),
    }
}
