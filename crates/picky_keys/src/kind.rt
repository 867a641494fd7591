//! The kinds of keys, each with the name of its key type.

ghost use Rattle.std.specs.Prelude.{◌≡◌, ◌≤◌, bytes_eq, length};
ghost use Rattle.picky_wire_base.specs.Table.{find_entry};

use crate::curve::{EcCurve, EcCurveSshExt, EdAlgorithm, EdAlgorithmSshExt};
use crate::key_type;

/// A kind of key. The first string of a blob, its key type's name, says which.
#[derive(Clone, Copy, Debug, PartialEq, Eq)]
pub enum KeyKind {
    Rsa,
    Ec(EcCurve),
    Ed(EdAlgorithm),
    SkEcdsaSha2NistP256,
    SkEd25519,
}

impl KeyKind {
    ghost use Rattle.picky_keys.specs.Key.{is_security_key_kind};
    ghost use Rattle.picky_keys.specs.KeyNames.{kind_name};
    ghost use Rattle.picky_keys.specs.KeyNameTables.{key_types};

    /// The name of the key type.
    #[tactic(auto, unfolding(crate::specs::KeyNames::kind_name))]
    pub fn name(self) -> &'static str
        ensures name { result.now ≡ kind_name self }
        ensures short { length result.now ≤ 64 }
    {
        match self {
            KeyKind::Rsa => key_type::RSA,
            KeyKind::Ec(curve) => curve.to_ecdsa_ssh_key_type(),
            KeyKind::Ed(algorithm) => algorithm.to_ed_ssh_key_type(),
            KeyKind::SkEcdsaSha2NistP256 => key_type::SK_ECDSA_SHA2_NIST_P256,
            KeyKind::SkEd25519 => key_type::SK_ED25519,
        }
    }

    /// The kind whose key type has this name, where one has.
    #[tactic(auto, unfolding(crate::specs::KeyNameTables::key_types))]
    pub fn of_name(name: &str) -> Option<KeyKind>
        ensures { result ≡ find_entry key_types name.now }
    {
        KINDS.iter().copied().find(
            |kind| -> bool
                ensures { result ≡ bytes_eq name.entry.now (kind_name kind.now) }
            { name == kind.name() },
        )
    }

    /// Whether a device keeps the secrets of its keys.
    pub fn is_security_key(self) -> bool
        ensures { result ≡ is_security_key_kind self }
    {
        match self {
            KeyKind::Rsa | KeyKind::Ec(_) | KeyKind::Ed(_) => false,
            KeyKind::SkEcdsaSha2NistP256 | KeyKind::SkEd25519 => true,
        }
    }
}

/// Every kind, in the order in which names are tried.
const KINDS: [KeyKind; 7] = [
    KeyKind::Rsa,
    KeyKind::Ec(EcCurve::NistP256),
    KeyKind::Ec(EcCurve::NistP384),
    KeyKind::Ec(EcCurve::NistP521),
    KeyKind::Ed(EdAlgorithm::Ed25519),
    KeyKind::SkEcdsaSha2NistP256,
    KeyKind::SkEd25519,
];
