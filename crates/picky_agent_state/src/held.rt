//! Which identity has a key.

ghost use Rattle.std.specs.Prelude.{◌≡◌, true, false, Some, slice_get, MatchBool, MatchOption};
ghost use Rattle.picky_keys.specs.View.{key_seen};
ghost use Rattle.picky_sshkey_blob.specs.Key.{public_part};
ghost use Rattle.picky_sshkey_blob.specs.View.{private_key_seen};
ghost use Rattle.picky_agent_state.specs.Held.{HasKey, HasNone, IsAt};

use crate::identity::Identity;
use picky_keys::PublicView;
use picky_sshkey_blob::{PrivateView, SshBasePrivateKey};

/// The place of the first identity that has the key, where one has.
pub(crate) fn place_of(identities: &[Identity], key: &PublicView<'_>) -> Option<usize>
    ensures { MatchOption result (HasNone (key_seen key.now) identities.now) (λ place. IsAt (key_seen key.now) identities.now place) }
{
    for (place, identity) in identities.iter().enumerate() {
        if has_key(&identity.key, key) {
            return Some(place);
        }
    }
    None
}

/// The view of the public key in a private one.
pub(crate) fn public_of<'a>(key: &PrivateView<'a>) -> PublicView<'a>
    ensures { key_seen result ≡ public_part (private_key_seen key.now) }
{
    match key {
        PrivateView::Rsa { n, e, .. } => PublicView::Rsa { e: *e, n: *n },
        PrivateView::Ec { curve, point, .. } => PublicView::Ec {
            curve: *curve,
            point: *point,
        },
        PrivateView::Ed { public, .. } => PublicView::Ed { key: *public },
        PrivateView::SkEcdsaSha2NistP256 {
            point,
            application,
            ..
        } => PublicView::SkEcdsaSha2NistP256 {
            point: *point,
            application: *application,
        },
        PrivateView::SkEd25519 {
            key,
            application,
            ..
        } => PublicView::SkEd25519 {
            key: *key,
            application: *application,
        },
    }
}

/// Whether this is the public part of the private key.
fn has_key(held: &SshBasePrivateKey, key: &PublicView<'_>) -> bool
    ensures yes { result ≡ true → public_part held.now ≡ key_seen key.now }
    ensures no { result ≡ false → public_part held.now ≡ key_seen key.now → ⊥ }
{
    match (held, key) {
        (
            SshBasePrivateKey::Rsa { n, e, .. },
            PublicView::Rsa {
                e: other_e,
                n: other_n,
            },
        ) => { e.bytes() == other_e.bytes && n.bytes() == other_n.bytes }
        (
            SshBasePrivateKey::Ec { curve, point, .. },
            PublicView::Ec {
                curve: other_curve,
                point: other_point,
            },
        ) => *curve == *other_curve && point.as_slice() == other_point.bytes,
        (SshBasePrivateKey::Ed { public, .. }, PublicView::Ed { key }) => {
            public.as_slice() == key.bytes
        }
        (
            SshBasePrivateKey::SkEcdsaSha2NistP256 {
                point,
                application,
                ..
            },
            PublicView::SkEcdsaSha2NistP256 {
                point: other_point,
                application: other_application,
            },
        ) => {
            point.as_slice() == other_point.bytes
                && application.as_str().as_bytes() == other_application.bytes
        }
        (
            SshBasePrivateKey::SkEd25519 {
                key,
                application,
                ..
            },
            PublicView::SkEd25519 {
                key: other_key,
                application: other_application,
            },
        ) => {
            key.as_slice() == other_key.bytes
                && application.as_str().as_bytes() == other_application.bytes
        }
        _ => false,
    }
}
