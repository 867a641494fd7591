//! The laws of this crate, each as the contract of a function that does nothing else.

ghost use Rattle.std.specs.Prelude.{◌≡◌, List, ℕ, Some, codes};
ghost use Rattle.picky_wire_base.specs.Table.{find_entry};
ghost use Rattle.picky_wire_base.specs.Equality.{IsEquality, IsEqualityOf};
ghost use Rattle.picky_keys.specs.KeyNames.{kind_name, curve_identifier};
ghost use Rattle.picky_keys.specs.PublicKey.{key_shown};
ghost use Rattle.picky_keys.specs.KeyNameTables.{key_types, curves};
ghost use Rattle.picky_keys.specs.declared.kind.KeyKind.{KeyKind as Kind};
ghost use Rattle.picky_keys.specs.declared.curve.EcCurve.{EcCurve as Curve};

use crate::algorithm::{HashAlgorithm, SignatureAlgorithm};
use crate::curve::{EcCurve, EdAlgorithm};
use crate::key_identifier::{
    ECDSA_SHA2_NIST_P256 as CURVE_P256, ECDSA_SHA2_NIST_P384 as CURVE_P384,
    ECDSA_SHA2_NIST_P521 as CURVE_P521,
};
use crate::key_type::{
    ECDSA_SHA2_NIST_P256, ECDSA_SHA2_NIST_P384, ECDSA_SHA2_NIST_P521, ED25519, RSA,
    SK_ECDSA_SHA2_NIST_P256, SK_ED25519,
};
use crate::kind::KeyKind;
use crate::private_key::{Issuer, PrivateKey};
use crate::public_key::{PublicKey, PublicKeyRef};

/// A name of a key type stands for its kind, and no other name does.
#[tactic(auto, using(crate::proofs::KeyNames::both_ways))]
pub fn each_kind_has_one_name()
    ensures found { (kind : Kind) → find_entry key_types (kind_name kind) ≡ Some kind }
    ensures only { (name : List ℕ) (kind : Kind) → find_entry key_types name ≡ Some kind → kind_name kind ≡ name }
{}

/// A name of a curve stands for its curve, and no other name does.
#[tactic(auto, using(crate::proofs::KeyNames::both_ways))]
pub fn each_curve_has_one_name()
    ensures found { (curve : Curve) → find_entry curves (curve_identifier curve) ≡ Some curve }
    ensures only { (name : List ℕ) (curve : Curve) → find_entry curves name ≡ Some curve → curve_identifier curve ≡ name }
{}

/// The constants are the standards' names of key types (RFC 4253, section 6.6; RFC 5656, section 6.2; RFC 8709, section 4;
/// OpenSSH's PROTOCOL.u2f) and of curves (RFC 5656, section 6.1).
pub fn constants_are_the_standards_names()
    ensures rsa { RSA.now ≡ codes "ssh-rsa" }
    ensures nist_p256 { ECDSA_SHA2_NIST_P256.now ≡ codes "ecdsa-sha2-nistp256" }
    ensures nist_p384 { ECDSA_SHA2_NIST_P384.now ≡ codes "ecdsa-sha2-nistp384" }
    ensures nist_p521 { ECDSA_SHA2_NIST_P521.now ≡ codes "ecdsa-sha2-nistp521" }
    ensures ed25519 { ED25519.now ≡ codes "ssh-ed25519" }
    ensures sk_nist_p256 { SK_ECDSA_SHA2_NIST_P256.now ≡ codes "sk-ecdsa-sha2-nistp256@openssh.com" }
    ensures sk_ed25519 { SK_ED25519.now ≡ codes "sk-ssh-ed25519@openssh.com" }

    ensures curve_p256 { CURVE_P256.now ≡ codes "nistp256" }
    ensures curve_p384 { CURVE_P384.now ≡ codes "nistp384" }
    ensures curve_p521 { CURVE_P521.now ≡ codes "nistp521" }
{}

/// Two keys are equal exactly where their contents are, and so are issuers, curves, algorithms and kinds.
pub fn equality_is_of_contents()
    ensures key { IsEquality ⟦<PublicKey as PartialEq>⟧.eq }
    ensures borrowed { IsEqualityOf key_shown ⟦<PublicKeyRef<'static> as PartialEq>⟧.eq }
    ensures private_key { IsEquality ⟦<PrivateKey as PartialEq>⟧.eq }
    ensures issuer { IsEquality ⟦<Issuer as PartialEq>⟧.eq }
    ensures digest { IsEquality ⟦<HashAlgorithm as PartialEq>⟧.eq }
    ensures signature { IsEquality ⟦<SignatureAlgorithm as PartialEq>⟧.eq }
    ensures curve { IsEquality ⟦<EcCurve as PartialEq>⟧.eq }
    ensures algorithm { IsEquality ⟦<EdAlgorithm as PartialEq>⟧.eq }
    ensures kind { IsEquality ⟦<KeyKind as PartialEq>⟧.eq }
{}
