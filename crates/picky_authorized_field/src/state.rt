//! What an entry is, in a word.

ghost use Rattle.std.specs.Prelude.{◌≡◌, ◌^◌, ◌<◌, length};
ghost use Rattle.picky_authorized_field.specs.State.{refusal_name as refusal_name_of, state_name as state_name_of};

use picky_authorized::AuthContent;
use picky_keys::SshPublicKeyError;

/// `key`; `bad-options`; or the name of why the public key line is refused.
pub fn state_name(content: &AuthContent) -> &'static str
    ensures name { result.now ≡ state_name_of content.now }
    ensures short { length result.now < 2 ^ 32 }
{
    match content {
        AuthContent::Key { .. } => "key",
        AuthContent::BadOptions => "bad-options",
        AuthContent::Unread(e) => refusal_name(e),
    }
}

/// The name of why a public key line is refused, as it is displayed.
fn refusal_name(e: &SshPublicKeyError) -> &'static str
    ensures name { result.now ≡ refusal_name_of e.now }
    ensures short { length result.now < 2 ^ 32 }
{
    match e {
        SshPublicKeyError::IoError(_) => "IoError",
        SshPublicKeyError::InvalidUtf8 => "InvalidUtf8",
        SshPublicKeyError::Base64DecodeError => "Base64DecodeError",
        SshPublicKeyError::UnknownKeyType => "UnknownKeyType",
        SshPublicKeyError::KeyError => "KeyError",
        SshPublicKeyError::TooLong => "TooLong",
        SshPublicKeyError::NoMemory => "NoMemory",
    }
}
