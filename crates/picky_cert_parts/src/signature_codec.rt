//! Signatures, read from a source and written to a sink.

ghost use Rattle.std.specs.Prelude.{◌≡◌, ◌<◌, ◌^◌, None, Some, IfOk, IfErr, refl};
ghost use Rattle.std.specs.List.{concat};
ghost use Rattle.picky_wire.specs.Count.{Rose};
ghost use Rattle.picky_wire.specs.Takes.{Takes, HasCause, causes_of};
ghost use Rattle.picky_cert_parts.specs.CertFromWire.{signature_error};
ghost use Rattle.picky_cert_parts.specs.Signature.{signature_format, standard_fields, sk_fields, signature_rest, signature};
ghost use Rattle.picky_cert_parts.specs.Signature.{total_of, behind_total, signature_of, signature_reason, IsSignature};
ghost use Rattle.picky_cert_parts.specs.carried.Signature.{signature_spells, signature_solid, signature_own};
ghost use Rattle.picky_cert_parts.specs.carried.Signature.{reason_is_no_want};

use crate::error::SshSignatureError;
use crate::fields::{byte_field, bytes_field, text_field, uint32_field};
use crate::signature::{SshSignature, SshSignatureBlob};
use crate::signature_format::SshSignatureFormat;
use picky_wire::{
    MAX_LEN, Piece, Sink, Source, SshComplexTypeDecode, SshComplexTypeEncode, SshElement,
    SshLayout, Text, WireError, pieces_len, write_pieces,
};
use std::alloc::Global;

impl SshComplexTypeEncode for SshSignature {
    type Error = SshSignatureError;

    ghost spelling = { signature_of };

    ghost write_reason = { signature_reason };

    ghost keeps = { IsSignature };

    ghost reason_is_no_want = { reason_is_no_want };

    /// Writes a total, which counts what follows it, the format's name, and the blob with its flags and its counter.
    ///
    /// Refuses, in order: `BlobMismatch`, where one of format and blob has a counter and the other none; `TooLong`, where 2^32
    /// bytes or more follow the total; `IoError(WriteFault)`. For the first two nothing is written.
    #[tactic(auto, unfolding(crate::specs::Signature::signature_of))]
    fn encode<S: Sink>(&self, stream: &mut S) -> Result<(), SshSignatureError> {
        let total = match written_total(self) {
            Ok(total) => total,
            Err(e) => return Err(e),
        };
        match write_pieces(stream, &signature_pieces(self, total)) {
            Ok(()) => Ok(()),
            Err(e) => Err(SshSignatureError::from(e)),
        }
    }

    #[tactic(auto, unfolding(crate::specs::Signature::signature_of), using(crate::proofs::SignatureLemmas::same_len))]
    fn spelling_len(&self) -> u64 {
        pieces_len(&signature_pieces(self, 0))
    }
}

/// How many bytes follow the total.
///
/// Refuses, in order: `BlobMismatch`, `TooLong`, as `encode`.
pub fn written_total(signature: &SshSignature) -> Result<u32, SshSignatureError>
    ensures total { IfOk result (λ total. total ≡ total_of signature.now) }
    ensures written { IfOk result (λ _. signature_reason signature.now ≡ None) }
    ensures refused { IfErr result (λ e. signature_reason signature.now ≡ Some e) }
{
    if !signature.blob.fits(signature.format) {
        return Err(SshSignatureError::BlobMismatch);
    }
    let total = total_len(signature);
    if total > MAX_LEN as u64 {
        return Err(SshSignatureError::TooLong);
    }
    Ok(total as u32)
}

fn total_len(signature: &SshSignature) -> u64
    ensures { result ≡ total_of signature.now }
{
    signature.format.as_str().len() as u64 + signature.blob.size() as u64 + 8
}

/// The fields of the signature behind a total.
#[tactic(auto, unfolding(crate::specs::Signature::behind_total))]
pub fn signature_pieces(signature: &SshSignature, total: u32) -> [Piece<'_>; 5]
    ensures spelled { concat result ≡ behind_total total signature.now }
    ensures keeps { IsSignature signature.now }
{
    let total = Piece::uint32(total);
    let name = Piece::string(signature.format.as_str().as_bytes());
    match &signature.blob {
        SshSignatureBlob::Standard(payload) => [
            total,
            name,
            Piece::bytes(payload),
            Piece::none(),
            Piece::none(),
        ],
        SshSignatureBlob::Sk {
            payload,
            flags,
            counter,
        } => [
            total,
            name,
            Piece::bytes(payload),
            Piece::byte(*flags),
            Piece::uint32(*counter),
        ],
    }
}

impl SshComplexTypeDecode for SshSignature {
    type Error = SshSignatureError;

    ghost reads = { signature.read };

    ghost used = { signature.used };

    ghost own = { signature_own };

    /// `uint32 total`, which nothing is held against, `string format` and `string blob` (RFC 4253, section 6.6), and for a
    /// security key's format `byte flags` and `uint32 counter` (PROTOCOL.u2f). What follows the last of them is left.
    ///
    /// Refuses, in order, at each field: `IoError(ReadFault)`; `IoError(UnexpectedEnd)`; for the format `InvalidUtf8`, and
    /// `UnsupportedSignatureFormat`, where it is the name of none, with it.
    #[tactic(auto, unfolding(crate::specs::Signature::signature, crate::specs::Signature::signature_total), using(crate::proofs::SignatureLemmas::signature_causes))]
    fn decode<S: Source>(alloc: Global, stream: &mut S) -> Result<SshSignature, SshSignatureError> {
        match uint32_field::<SshSignatureError, S>(stream) {
            Ok(_) => {}
            Err(e) => return Err(e),
        }
        let format = match take_format(alloc, stream) {
            Ok(format) => format,
            Err(e) => return Err(e),
        };
        match take_signature_rest(alloc, stream, format) {
            Ok(signature) => Ok(signature),
            Err(e) => Err(e),
        }
    }
}

/// The name of a format; another is refused with itself.
#[tactic(auto, unfolding(crate::specs::Signature::signature_format), using(crate::proofs::SignatureLemmas::format_names))]
fn take_format<S: Source>(
    alloc: Global,
    stream: &mut S,
) -> Result<SshSignatureFormat, SshSignatureError>
    ensures takes { Takes S.tells S.left S.known S.faults (causes_of signature_error) signature_format.read signature_format.used result stream.old stream.new }
    ensures cause { IfErr result (HasCause (causes_of signature_error) signature_format.read (Rose (S.faults stream.old) (S.faults stream.new))) }
{
    let name: Text = match text_field::<SshSignatureError, S>(alloc, stream) {
        Ok(name) => name,
        Err(e) => return Err(e),
    };
    match SshSignatureFormat::of_name(name.as_str()) {
        Some(format) => Ok(format),
        None => Err(SshSignatureError::UnsupportedSignatureFormat(name)),
    }
}

/// The fields that follow the name of this format.
fn take_signature_rest<S: Source>(
    alloc: Global,
    stream: &mut S,
    format: SshSignatureFormat,
) -> Result<SshSignature, SshSignatureError>
    ensures takes { Takes S.tells S.left S.known S.faults (causes_of signature_error) (signature_rest format).read (signature_rest format).used result stream.old stream.new }
    ensures cause { IfErr result (HasCause (causes_of signature_error) (signature_rest format).read (Rose (S.faults stream.old) (S.faults stream.new))) }
{
    if format.is_sk() {
        take_sk(alloc, stream, format)
    } else {
        take_standard(alloc, stream, format)
    }
}

#[tactic(auto, unfolding(crate::specs::Signature::standard_fields, crate::specs::Signature::signature_payload), using(crate::proofs::SignatureLemmas::standard_causes))]
fn take_standard<S: Source>(
    alloc: Global,
    stream: &mut S,
    format: SshSignatureFormat,
) -> Result<SshSignature, SshSignatureError>
    ensures takes { Takes S.tells S.left S.known S.faults (causes_of signature_error) (standard_fields format).read (standard_fields format).used result stream.old stream.new }
    ensures cause { IfErr result (HasCause (causes_of signature_error) (standard_fields format).read (Rose (S.faults stream.old) (S.faults stream.new))) }
{
    match bytes_field::<SshSignatureError, S>(alloc, stream) {
        Ok(payload) => Ok(SshSignature {
            format,
            blob: SshSignatureBlob::Standard(payload),
        }),
        Err(e) => Err(e),
    }
}

#[tactic(auto, unfolding(crate::specs::Signature::sk_fields, crate::specs::Signature::signature_payload, crate::specs::Signature::signature_flags, crate::specs::Signature::signature_counter), using(crate::proofs::SignatureLemmas::sk_causes))]
fn take_sk<S: Source>(
    alloc: Global,
    stream: &mut S,
    format: SshSignatureFormat,
) -> Result<SshSignature, SshSignatureError>
    ensures takes { Takes S.tells S.left S.known S.faults (causes_of signature_error) (sk_fields format).read (sk_fields format).used result stream.old stream.new }
    ensures cause { IfErr result (HasCause (causes_of signature_error) (sk_fields format).read (Rose (S.faults stream.old) (S.faults stream.new))) }
{
    let payload = match bytes_field::<SshSignatureError, S>(alloc, stream) {
        Ok(payload) => payload,
        Err(e) => return Err(e),
    };
    let flags = match byte_field::<SshSignatureError, S>(stream) {
        Ok(flags) => flags,
        Err(e) => return Err(e),
    };
    match uint32_field::<SshSignatureError, S>(stream) {
        Ok(counter) => Ok(SshSignature {
            format,
            blob: SshSignatureBlob::Sk {
                payload,
                flags,
                counter,
            },
        }),
        Err(e) => Err(e),
    }
}

impl SshLayout for SshSignature {
    ghost layout = { signature };

    ghost reads_layout = { λ bytes. refl };

    ghost used_layout = { λ bytes. refl };

    ghost solid = { signature_solid };

    fn refusal(error: WireError) -> SshSignatureError {
        SshSignatureError::from(error)
    }
}

impl SshElement for SshSignature {
    ghost spelled = { signature_spells };
}
