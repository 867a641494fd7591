//! The first line that is for a key.

ghost use Rattle.std.specs.Prelude.{◌≡◌, true, false};
ghost use Rattle.std.specs.Option.{option_map};
ghost use Rattle.picky_keys.specs.Key.{IsKey};
ghost use Rattle.picky_policy.specs.Decided.{is_authority as is_authority_line, is_for as is_for_key};
ghost use Rattle.picky_policy.specs.Decided.{is_key as is_key_of, is_of_sort as is_of_sort_of};
ghost use Rattle.picky_policy.specs.Decided.{line_for as line_for_key, options_of as options_of_content};
ghost use Rattle.picky_policy.specs.inner.Shown.{line_shown};

use picky_authorized::{AuthContent, AuthEntry, AuthOption, CERT_AUTHORITY};
use picky_keys::{SshBasePublicKey, pieces_behind};
use picky_wire::Piece;

/// A line's number, and the options before its key.
#[derive(Clone, Copy)]
pub struct KeyLine<'a> {
    pub number: usize,
    pub options: &'a [AuthOption],
}

/// The first entry that has the key, on an authority's line or on any other.
#[tactic(auto, unfolding(crate::specs::Decided::line_for))]
pub fn line_for<'a>(
    authority: bool,
    key: &SshBasePublicKey,
    entries: &'a [AuthEntry],
) -> Option<KeyLine<'a>>
    ensures { option_map line_shown result ≡ line_for_key authority key.now entries.now }
{
    let mut rest = entries;
    'entries: while let [entry, more @ ..] = rest {
        if is_for(authority, key, &entry.content) {
            return Some(KeyLine {
                number: entry.line,
                options: options_of(&entry.content),
            });
        }
        rest = more;
    }
    None
}

/// The entry is a line of this sort for the key.
fn is_for(authority: bool, key: &SshBasePublicKey, content: &AuthContent) -> bool
    ensures { result ≡ is_for_key authority key.now content.now }
{
    match content {
        AuthContent::Key {
            options,
            key: other,
        } => {
            if !is_of_sort(authority, options.as_slice()) {
                return false;
            }
            is_key(key, &other.inner_key)
        }
        AuthContent::BadOptions | AuthContent::Unread(_) => false,
    }
}

/// The options of an entry that has some.
fn options_of(content: &AuthContent) -> &[AuthOption]
    ensures { result.now ≡ options_of_content content.now }
{
    match content {
        AuthContent::Key { options, .. } => options.as_slice(),
        AuthContent::BadOptions | AuthContent::Unread(_) => &[],
    }
}

/// The options are those of an authority's line, or of any other.
fn is_of_sort(authority: bool, options: &[AuthOption]) -> bool
    ensures { result ≡ is_of_sort_of authority options.now }
{
    if authority {
        return is_authority(options);
    }
    !is_authority(options)
}

/// The key is an authority's.
#[tactic(auto, unfolding(picky_authorized::specs::KnownOptions::cert_authority))]
fn is_authority(options: &[AuthOption]) -> bool
    ensures { result ≡ is_authority_line options.now }
{
    let mut rest = options;
    'options: while let [option, more @ ..] = rest {
        if option.is_named(CERT_AUTHORITY) {
            return true;
        }
        rest = more;
    }
    false
}

/// Two keys are one.
fn is_key(key: &SshBasePublicKey, other: &SshBasePublicKey) -> bool
    ensures { result ≡ is_key_of key.now other.now }
{
    key_keeps(key);
    key_keeps(other);
    is_same(key, other)
}

/// Two keys have the same contents.
fn is_same(key: &SshBasePublicKey, other: &SshBasePublicKey) -> bool
    ensures same { result ≡ true → key.now ≡ other.now }
    ensures other { result ≡ false → key.now ≡ other.now → ⊥ }
{
    key == other
}

/// Does nothing: a public key has the ranges of its type.
fn key_keeps(key: &SshBasePublicKey)
    ensures { IsKey key.now }
{
    let _ = pieces_behind(Piece::none(), key);
}
