//! The laws of this crate, each as the contract of a function that does nothing else.

ghost use Rattle.std.specs.Prelude.{◌≡◌, ◌↔◌, ◌++◌, List, ℕ, Some, Ok, take, true};
ghost use Rattle.picky_wire_base.specs.Numbers.{IsBytes};
ghost use Rattle.picky_wire_base.specs.Row.{read_all};
ghost use Rattle.picky_wire_base.specs.Equality.{IsEquality, IsEqualityOf};
ghost use Rattle.picky_wire.specs.Principals.{principal};
ghost use Rattle.picky_wire_base.specs.declared.view.Part.{Part};
ghost use Rattle.picky_keys.specs.Key.{kind_of};
ghost use Rattle.picky_keys.specs.declared.key.SshBasePublicKey.{SshBasePublicKey};
ghost use Rattle.picky_cert_parts.specs.declared.cert_key_type.SshCertKeyType.{SshCertKeyType};
ghost use Rattle.picky_cert_parts.specs.CriticalOption.{critical_option};
ghost use Rattle.picky_cert_parts.specs.Extension.{extension};
ghost use Rattle.picky_cert_blob.specs.Items.{principal_item, option_item, extension_item};
ghost use Rattle.picky_cert_blob.specs.Keeps.{FitsSubject, IsBody, IsWellFormedBody};
ghost use Rattle.picky_cert_blob.specs.Layout.{Body, body};
ghost use Rattle.picky_wire_base.specs.View.{stopped_shown};
ghost use Rattle.picky_cert_blob.specs.Shown.{body_shown, grants_shown, head_shown, signature_shown, terms_shown};
ghost use Rattle.picky_cert_blob.specs.Spelled.{body_spelled};
ghost use Rattle.picky_cert_blob.specs.Subject.{fits_subject, subject_kind};
ghost use Rattle.picky_cert_blob.specs.View.{AreItems, values_in};

use crate::body::BodyView;
use crate::grants::GrantsView;
use crate::head::HeadView;
use crate::part::CertPart;
use crate::signature::SignatureView;
use crate::terms::TermsView;
use picky_wire::Stopped;

/// A block that is items is read as the list of its elements.
#[tactic(auto, using(crate::proofs::ListLaws::list_laws))]
pub fn blocks_are_read_as_lists()
    ensures principals { (block : Part) → AreItems principal_item block
        → read_all principal block.bytes.now ≡ Ok (values_in principal_item block) }
    ensures options { (block : Part) → AreItems option_item block
        → read_all critical_option block.bytes.now ≡ Ok (values_in option_item block) }
    ensures extensions { (block : Part) → AreItems extension_item block
        → read_all extension block.bytes.now ≡ Ok (values_in extension_item block) }
{}

/// What is read keeps the ranges of its parts, and its type is for the kind of its subject's key.
#[tactic(auto, using(crate::proofs::KeepLaws::keeping_laws))]
pub fn what_is_read_is_valid()
    ensures piece { (b : Body) (bytes : List ℕ) → IsBytes bytes → body.piece b bytes → IsBody b × FitsSubject b.head }
    ensures read { (bytes : List ℕ) (b : Body) (rest : List ℕ) → IsBytes bytes → body.read bytes ≡ Ok (b, rest)
        → IsBody b × FitsSubject b.head }
{}

/// A key fits a type of certificates exactly where the type is for the key's kind.
#[tactic(auto, using(crate::proofs::SubjectLaws::fits_where_kind))]
pub fn a_key_fits_by_its_kind()
    ensures { (t : SshCertKeyType) (key : SshBasePublicKey) → (fits_subject t key ≡ true) ↔ (subject_kind t ≡ Some (kind_of key)) }
{}

/// The one spelling that is written is a piece, and is read back whatever follows it.
#[tactic(auto, using(crate::proofs::SpellLaws::spelling_laws))]
pub fn what_is_written_is_read_back()
    ensures piece { (b : Body) → IsBody b → IsWellFormedBody b → body.piece b (body_spelled b) }
    ensures read { (b : Body) (rest : List ℕ) → IsBody b → IsWellFormedBody b → body.read (body_spelled b ++ rest) ≡ Ok (b, rest) }
{}

/// The bytes before a signature are the front of others only where both say the same, over all types: of what is read, in
/// whatever spelling it was, and of what is written.
#[tactic(auto, using(crate::proofs::SignedLaws::binding_laws))]
pub fn signed_bytes_bind_what_is_said()
    ensures read { (x y : List ℕ) (b d : Body) (r s more : List ℕ) → body.read x ≡ Ok (b, r) → body.read y ≡ Ok (d, s)
        → take (body.used y) y ≡ take (body.used x) x ++ more → b ≡ d }
    ensures written { (b d : Body) (more : List ℕ) → IsBody b → IsBody d → IsWellFormedBody b → IsWellFormedBody d
        → body_spelled d ≡ body_spelled b ++ more → b ≡ d }
{}

/// Two values are equal exactly where their contents are; of views these are their values and where their parts stand.
pub fn equality_is_of_contents()
    ensures part { IsEquality ⟦<CertPart as PartialEq>⟧.eq }
    ensures stopped { IsEqualityOf stopped_shown ⟦<Stopped<'static, CertPart> as PartialEq>⟧.eq }
    ensures head { IsEqualityOf head_shown ⟦<HeadView<'static> as PartialEq>⟧.eq }
    ensures terms { IsEqualityOf terms_shown ⟦<TermsView<'static> as PartialEq>⟧.eq }
    ensures grants { IsEqualityOf grants_shown ⟦<GrantsView<'static> as PartialEq>⟧.eq }
    ensures body { IsEqualityOf body_shown ⟦<BodyView<'static> as PartialEq>⟧.eq }
    ensures signature { IsEqualityOf signature_shown ⟦<SignatureView<'static> as PartialEq>⟧.eq }
{}
