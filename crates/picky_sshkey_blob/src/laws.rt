//! The laws of this crate, each as the contract of a function that does no more than it says.

ghost use Rattle.std.specs.Prelude.{◌≡◌, ◌++◌, List, ℕ, Some, Result, Ok, Err, drop};
ghost use Rattle.picky_wire_base.specs.Flaw.{Why};
ghost use Rattle.picky_wire_base.specs.Outcome.{map_err};
ghost use Rattle.picky_wire_base.specs.Numbers.{IsBytes};
ghost use Rattle.picky_wire_base.specs.Grammar.{Fits};
ghost use Rattle.picky_wire_base.specs.View.{Sees, why_in};
ghost use Rattle.picky_wire_base.specs.Equality.{IsEquality, IsEqualityOf};
ghost use Rattle.picky_keys.specs.Key.{IsKey};
ghost use Rattle.picky_sshkey_blob.specs.declared.key.SshBasePrivateKey.{SshBasePrivateKey as BaseKey};
ghost use Rattle.picky_sshkey_blob.specs.declared.view.PrivateView.{PrivateView as View};
ghost use Rattle.picky_wire_base.specs.declared.stopped.Stopped.{Stopped as Stop};
ghost use Rattle.picky_sshkey_blob.specs.Key.{IsPrivateKey, public_part};
ghost use Rattle.picky_sshkey_blob.specs.Blob.{secret, secret_of};
ghost use Rattle.picky_sshkey_blob.specs.BlobRefusal.{private_error, read_secret, refused_place};
ghost use Rattle.picky_sshkey_blob.specs.SecretSpelled.{SecretSpelled};
ghost use Rattle.picky_wire_base.specs.View.{SeesAt, stopped_shown};
ghost use Rattle.picky_sshkey_blob.specs.View.{private_key_seen, private_view_shown, answer_of};

use crate::error::SshPrivateKeyError;
use crate::key::SshBasePrivateKey;
use crate::view::PrivateView;
use picky_wire::Stopped;

/// A blob that is written is read back, and exactly what follows it is left.
#[tactic(auto, using(crate::proofs::LawLemmas::secret_laws))]
pub fn secret_is_read_back()
    ensures { (key : BaseKey) (rest : List ℕ) → IsPrivateKey key → read_secret (secret_of key ++ rest) ≡ Ok (key, rest) }
{}

/// A key is read exactly where its spelling stands in front, and only these bytes are its spellings.
#[tactic(auto, using(crate::proofs::LawLemmas::secret_laws))]
pub fn secret_is_read_where_it_is_spelled()
    ensures read { (bytes : List ℕ) (key : BaseKey) (rest : List ℕ) → read_secret bytes ≡ Ok (key, rest) → Fits secret.piece key bytes rest }
    ensures fits { (key : BaseKey) (front rest : List ℕ) → secret.piece key front → read_secret (front ++ rest) ≡ Ok (key, rest) }
    ensures exact { (key : BaseKey) (bytes : List ℕ) → IsBytes bytes → secret.piece key bytes → SecretSpelled key bytes }
    ensures canonical { (key : BaseKey) → IsPrivateKey key → secret.piece key (secret_of key) }
    ensures is_key { (bytes : List ℕ) (key : BaseKey) (rest : List ℕ) → IsBytes bytes → read_secret bytes ≡ Ok (key, rest) → IsPrivateKey key }
{}

/// What a view answers is what the reader answers: the same key and rest, or the error of the same reason.
///
/// `at` is of `private_at`; `read` of `PrivateView::read`, and with `stuck_at` `stuck`.
#[tactic(auto, using(crate::proofs::LawLemmas::secret_laws))]
pub fn view_is_the_reader()
    ensures at { (bytes : List ℕ) (from : ℕ) (r : Result (View × ℕ) (Stop ℕ))
        → SeesAt private_key_seen secret bytes from r → read_secret (drop from bytes) ≡ answer_of bytes r }
    ensures read { (bytes : List ℕ) (view : View) (next : ℕ)
        → Sees private_key_seen why_in secret bytes 0 (Ok (view, next)) → read_secret bytes ≡ Ok (private_key_seen view, drop next bytes) }
    ensures stuck { (bytes : List ℕ) (stuck : Why) (field : ℕ) → map_err why_in (secret.read bytes) ≡ Err stuck
        → refused_place (secret.read bytes) ≡ Some field → read_secret bytes ≡ Err (private_error (field, stuck)) }
{}

/// The public key in a private key is one.
#[tactic(auto, using(crate::proofs::LawLemmas::secret_laws))]
pub fn public_part_is_key()
    ensures { (key : BaseKey) → IsPrivateKey key → IsKey (public_part key) }
{}

/// Two keys are equal exactly where their contents are, and so are refusals, views and stops.
pub fn equality_is_of_contents()
    ensures key { IsEquality ⟦<SshBasePrivateKey as PartialEq>⟧.eq }
    ensures error { IsEquality ⟦<SshPrivateKeyError as PartialEq>⟧.eq }
    ensures view { IsEqualityOf private_view_shown ⟦<PrivateView<'static> as PartialEq>⟧.eq }
    ensures stopped { IsEqualityOf stopped_shown ⟦<Stopped<'static, usize> as PartialEq>⟧.eq }
{}
