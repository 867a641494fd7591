//! A public key's blob, read and written.

ghost use Rattle.std.specs.Prelude.{◌≡◌, ◌≢◌, ◌^◌, ◌<◌, ◌++◌, None, length, refl};
ghost use Rattle.std.specs.List.{concat};
ghost use Rattle.picky_wire.specs.Flaws.{TakesLayout};
ghost use Rattle.picky_wire.specs.inner.Stop.{stop_of};
ghost use Rattle.picky_keys.specs.Blob.{rsa_fields, ec_fields, ed_fields, sk_ecdsa_fields, sk_ed_fields};
ghost use Rattle.picky_keys.specs.Blob.{public_key_fields, fields_spelled, blob, blob_of};
ghost use Rattle.picky_keys.specs.Key.{IsKey};
ghost use Rattle.picky_keys.specs.BlobRefusal.{read_blob};

use crate::curve::{EcCurve, EcCurveSshExt};
use crate::error::SshPublicKeyError;
use crate::key::SshBasePublicKey;
use crate::kind::KeyKind;
use crate::read::{take_ed_key, take_kind};
use picky_wire::{
    Piece, Sink, Source, SshComplexTypeDecode, SshComplexTypeEncode, SshElement, SshLayout, Stop,
    WireError, pieces_len, take_bytes, take_mpint, take_text, write_pieces,
};
use std::alloc::Global;

/// The key of a blob. Refuses, in order, by field: `Fault`, `Short`, `NotUtf8`, `Name`, `Length`, `TooLong`.
#[tactic(auto, unfolding(crate::specs::Blob::blob))]
pub fn take_blob<S: Source>(alloc: Global, stream: &mut S) -> Result<SshBasePublicKey, Stop>
    ensures { TakesLayout S.tells S.left S.known S.faults stop_of blob result stream.old stream.new }
{
    let kind = take_kind(alloc, stream)?;
    match kind {
        KeyKind::Rsa => take_rsa(alloc, stream),
        KeyKind::Ec(curve) => take_ec(alloc, stream, curve),
        KeyKind::Ed(_) => take_ed(alloc, stream),
        KeyKind::SkEcdsaSha2NistP256 => take_sk_ecdsa(alloc, stream),
        KeyKind::SkEd25519 => take_sk_ed(alloc, stream),
    }
}

#[tactic(auto, unfolding(crate::specs::Blob::rsa_fields))]
fn take_rsa<S: Source>(alloc: Global, stream: &mut S) -> Result<SshBasePublicKey, Stop>
    ensures { TakesLayout S.tells S.left S.known S.faults stop_of rsa_fields result stream.old stream.new }
{
    let e = take_mpint(alloc, stream)?;
    let n = take_mpint(alloc, stream)?;
    Ok(SshBasePublicKey::Rsa { e, n })
}

#[tactic(auto, unfolding(crate::specs::Blob::ec_fields))]
fn take_ec<S: Source>(
    alloc: Global,
    stream: &mut S,
    curve: EcCurve,
) -> Result<SshBasePublicKey, Stop>
    ensures { TakesLayout S.tells S.left S.known S.faults stop_of (ec_fields curve) result stream.old stream.new }
{
    take_text(alloc, stream)?;
    let point = take_bytes(alloc, stream)?;
    Ok(SshBasePublicKey::Ec { curve, point })
}

#[tactic(auto, unfolding(crate::specs::Blob::ed_fields))]
fn take_ed<S: Source>(alloc: Global, stream: &mut S) -> Result<SshBasePublicKey, Stop>
    ensures { TakesLayout S.tells S.left S.known S.faults stop_of ed_fields result stream.old stream.new }
{
    let key = take_ed_key(alloc, stream)?;
    Ok(SshBasePublicKey::Ed { key })
}

#[tactic(auto, unfolding(crate::specs::Blob::sk_ecdsa_fields))]
fn take_sk_ecdsa<S: Source>(alloc: Global, stream: &mut S) -> Result<SshBasePublicKey, Stop>
    ensures { TakesLayout S.tells S.left S.known S.faults stop_of sk_ecdsa_fields result stream.old stream.new }
{
    take_text(alloc, stream)?;
    let point = take_bytes(alloc, stream)?;
    let application = take_text(alloc, stream)?;
    Ok(SshBasePublicKey::SkEcdsaSha2NistP256 { point, application })
}

#[tactic(auto, unfolding(crate::specs::Blob::sk_ed_fields))]
fn take_sk_ed<S: Source>(alloc: Global, stream: &mut S) -> Result<SshBasePublicKey, Stop>
    ensures { TakesLayout S.tells S.left S.known S.faults stop_of sk_ed_fields result stream.old stream.new }
{
    let key = take_ed_key(alloc, stream)?;
    let application = take_text(alloc, stream)?;
    Ok(SshBasePublicKey::SkEd25519 { key, application })
}

/// The fields of the key's one spelling, its name first.
#[tactic(auto, unfolding(crate::specs::Blob::blob_of))]
pub fn pieces(key: &SshBasePublicKey) -> [Piece<'_>; 4]
    ensures spelled { concat result ≡ blob_of key.now }
    ensures keeps { IsKey key.now }
{
    pieces_behind(Piece::string(key.kind().name().as_bytes()), key)
}

/// The fields of the key's one spelling behind another field, which is its name in a blob and the nonce in a certificate.
#[tactic(auto, unfolding(crate::specs::Blob::fields_spelled))]
pub fn pieces_behind<'a>(first: Piece<'a>, key: &'a SshBasePublicKey) -> [Piece<'a>; 4]
    ensures spelled { concat result ≡ first.entry ++ fields_spelled key.now }
    ensures keeps { IsKey key.now }
{
    match key {
        SshBasePublicKey::Rsa { e, n } => {
            [first, Piece::mpint(e), Piece::mpint(n), Piece::none()]
        }
        SshBasePublicKey::Ec { curve, point } => {
            let identifier = curve.to_ecdsa_ssh_key_identifier();
            [
                first,
                Piece::string(identifier.as_bytes()),
                Piece::bytes(point),
                Piece::none(),
            ]
        }
        SshBasePublicKey::Ed { key } => {
            [first, Piece::string(key), Piece::none(), Piece::none()]
        }
        SshBasePublicKey::SkEcdsaSha2NistP256 { point, application } => {
            let identifier = EcCurve::NistP256.to_ecdsa_ssh_key_identifier();
            [
                first,
                Piece::string(identifier.as_bytes()),
                Piece::bytes(point),
                Piece::text(application),
            ]
        }
        SshBasePublicKey::SkEd25519 { key, application } => [
            first,
            Piece::string(key),
            Piece::text(application),
            Piece::none(),
        ],
    }
}

impl SshComplexTypeEncode for SshBasePublicKey {
    type Error = SshPublicKeyError;

    ghost spelling = { blob_of };

    ghost write_reason = { λ _. None };

    ghost keeps = { IsKey };

    ghost reason_is_no_want = { λ key same. Prim.cc same };

    /// Writes the blob (RFC 4253, section 6.6). Refuses: `IoError(WriteFault)`.
    fn encode<S: Sink>(&self, stream: &mut S) -> Result<(), SshPublicKeyError> {
        match write_pieces(stream, &pieces(self)) {
            Ok(()) => Ok(()),
            Err(e) => Err(SshPublicKeyError::from(e)),
        }
    }

    fn spelling_len(&self) -> u64 {
        pieces_len(&pieces(self))
    }
}

impl SshComplexTypeDecode for SshBasePublicKey {
    ghost use Rattle.picky_keys.specs.carried.BlobLayout.{blob_own};

    type Error = SshPublicKeyError;

    ghost reads = { read_blob };

    ghost used = { blob.used };

    ghost own = { blob_own };

    /// The key of the blob that the bytes begin with (RFC 4253, section 6.6).
    ///
    /// Refuses, in order, by field: `IoError(ReadFault)`, `IoError(UnexpectedEnd)`, `InvalidUtf8`, `UnknownKeyType`,
    /// `KeyError`, `TooLong`.
    #[tactic(auto, unfolding(crate::specs::BlobRefusal::read_blob))]
    fn decode<S: Source>(
        alloc: Global,
        stream: &mut S,
    ) -> Result<SshBasePublicKey, SshPublicKeyError> {
        match take_blob(alloc, stream) {
            Ok(key) => Ok(key),
            Err(stop) => Err(SshPublicKeyError::from(stop)),
        }
    }
}

impl SshLayout for SshBasePublicKey {
    ghost use Rattle.picky_keys.specs.BlobLayout.{blob_layout};
    ghost use Rattle.picky_keys.specs.carried.BlobLayout.{blob_reads_layout, blob_solid};

    ghost layout = { blob_layout };

    ghost reads_layout = { blob_reads_layout };

    ghost used_layout = { λ bytes. refl };

    ghost solid = { blob_solid };

    fn refusal(error: WireError) -> SshPublicKeyError {
        SshPublicKeyError::from(error)
    }
}

impl SshElement for SshBasePublicKey {
    ghost use Rattle.picky_keys.specs.carried.Blob.{blob_spells};

    ghost spelled = { λ key is _. blob_spells key is };
}
