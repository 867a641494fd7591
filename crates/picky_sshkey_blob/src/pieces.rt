//! The fields of a private key's one spelling, ready to be written.

ghost use Rattle.std.specs.Prelude.{◌≡◌};
ghost use Rattle.std.specs.List.{concat};
ghost use Rattle.picky_sshkey_blob.specs.Blob.{secret_of};
ghost use Rattle.picky_sshkey_blob.specs.Key.{IsPrivateKey};

use crate::key::SshBasePrivateKey;
use picky_keys::{EcCurve, EcCurveSshExt};
use picky_wire::Piece;

/// How long the secret of Ed25519 and the copy of its public key are together.
const BOTH_LEN: u32 = 64;

/// The fields of the key's one spelling, its name first.
#[tactic(auto, using(crate::proofs::PieceLemmas::both_joined), unfolding(crate::specs::Blob::secret_of, crate::specs::Blob::private_fields_spelled))]
pub fn secret_pieces(key: &SshBasePrivateKey) -> [Piece<'_>; 7]
    ensures spelled { concat result ≡ secret_of key.now }
    ensures keeps { IsPrivateKey key.now }
{
    let name = Piece::string(key.kind().name().as_bytes());
    match key {
        SshBasePrivateKey::Rsa {
            n,
            e,
            d,
            iqmp,
            p,
            q,
        } => [
            name,
            Piece::mpint(n),
            Piece::mpint(e),
            Piece::mpint(d),
            Piece::mpint(iqmp),
            Piece::mpint(p),
            Piece::mpint(q),
        ],
        SshBasePrivateKey::Ec {
            curve,
            point,
            secret,
        } => {
            let identifier = curve.to_ecdsa_ssh_key_identifier();
            [
                name,
                Piece::string(identifier.as_bytes()),
                Piece::bytes(point),
                Piece::mpint(secret),
                Piece::none(),
                Piece::none(),
                Piece::none(),
            ]
        }
        SshBasePrivateKey::Ed { secret, public } => [
            name,
            Piece::string(public),
            Piece::uint32(BOTH_LEN),
            Piece::raw(secret),
            Piece::raw(public),
            Piece::none(),
            Piece::none(),
        ],
        SshBasePrivateKey::SkEcdsaSha2NistP256 {
            point,
            application,
            flags,
            handle,
        } => {
            let identifier = EcCurve::NistP256.to_ecdsa_ssh_key_identifier();
            [
                name,
                Piece::string(identifier.as_bytes()),
                Piece::bytes(point),
                Piece::text(application),
                Piece::byte(*flags),
                Piece::bytes(handle),
                Piece::string(&[]),
            ]
        }
        SshBasePrivateKey::SkEd25519 {
            key,
            application,
            flags,
            handle,
        } => [
            name,
            Piece::string(key),
            Piece::text(application),
            Piece::byte(*flags),
            Piece::bytes(handle),
            Piece::string(&[]),
            Piece::none(),
        ],
    }
}
