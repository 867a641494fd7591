//! The laws of this crate, each as the contract of a function that does nothing.

ghost use Rattle.std.specs.Prelude.{◌≡◌, ◌↔◌, ℕ, List, Some};
ghost use Rattle.picky_keys.specs.declared.kind.KeyKind.{KeyKind as Kind};
ghost use Rattle.picky_wire_base.specs.Numbers.{IsBytes};
ghost use Rattle.picky_wire_base.specs.Equality.{IsEquality};
ghost use Rattle.picky_cert_blob.specs.Subject.{subject_kind};
ghost use Rattle.picky_request.specs.Builder.{type_for};
ghost use Rattle.picky_request.specs.Names.{principals_in, ArePrincipals};
ghost use Rattle.picky_request.specs.Request.{request_in, IsRequestLine};
ghost use Rattle.picky_request.specs.declared.request.CertRequestLine.{CertRequestLine as Request};

use crate::request::CertRequestLine;

/// A line is read as a request exactly where it is one; so it is one.
pub fn line_is_one_request()
    ensures { (line : List ℕ) (r : Request) → IsBytes line → (request_in line ≡ Some r) ↔ IsRequestLine line r }
{}

/// A word says principals exactly where it is a dash for none, or names of one byte or more parted by commas.
pub fn principals_are_named_once()
    ensures { (text : List ℕ) (names : List (List ℕ)) → (principals_in text ≡ Some names) ↔ ArePrincipals text names }
{}

/// The type for a kind of key is one for that kind.
pub fn type_is_for_its_kind()
    ensures { (kind : Kind) → subject_kind (type_for kind) ≡ Some kind }
{}

/// Two values are equal exactly where their contents are.
pub fn equality_is_of_contents()
    ensures { IsEquality ⟦<CertRequestLine as PartialEq>⟧.eq }
{}
