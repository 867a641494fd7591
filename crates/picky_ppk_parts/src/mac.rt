//! The MAC of a PuTTY private key file.

ghost use Rattle.std.specs.Prelude.{◌≡◌, ◌≤◌, length};
ghost use Rattle.picky_wire_base.specs.Gives.{Gives};
ghost use Rattle.picky_ppk_parts.specs.Mac.{input_bytes, mac_of, mac_bytes};
ghost use Rattle.picky_ppk_parts.specs.Mac.{mac_key_v2 as mac_key_v2_of, plain_mac_key as plain_mac_key_of};

use crate::error::PuttyError;
use crate::joined::joined_pieces;
use crate::names::PpkVersion;
use picky_suite::Suite;
use picky_wire::{MAX_LEN, Piece};
use sha1::Sha1;
use std::alloc::Global;

/// What stands before the passphrase in the MAC key of version 2.
const MAC_KEY_LABEL: &str = "putty-private-key-file-mac-key";

/// How many bytes the MAC of a version 3 file has.
pub const MAC_SIZE_V3: usize = 32;

/// A MAC of one of the two versions.
#[derive(Clone, Copy)]
pub enum Mac {
    V2([u8; 20]),
    V3([u8; MAC_SIZE_V3]),
}

impl Mac {
    /// The MAC of an input under a key: HMAC-SHA-1 in version 2, HMAC-SHA-256 in version 3.
    pub fn compute<S: Suite>(suite: &S, version: PpkVersion, key: &[u8], input: &[u8]) -> Mac
        ensures { mac_bytes result ≡ mac_of (S.meanings suite.now) version key.now input.now }
    {
        match version {
            PpkVersion::V2 => Mac::V2(suite.hmac_sha1(key, input)),
            PpkVersion::V3 => Mac::V3(suite.hmac_sha256(key, input)),
        }
    }

    /// The MAC of an input in a file that isn't sealed.
    #[tactic(auto, unfolding(crate::specs::Mac::plain_mac_key))]
    pub fn of_plain<S: Suite>(suite: &S, version: PpkVersion, input: &[u8]) -> Mac
        ensures { mac_bytes result ≡ mac_of (S.meanings suite.now) version (plain_mac_key_of version) input.now }
    {
        match version {
            PpkVersion::V2 => Mac::compute(suite, version, &mac_key_v2(""), input),
            PpkVersion::V3 => Mac::compute(suite, version, &[], input),
        }
    }

    /// Its bytes.
    pub fn as_slice(&self) -> &[u8]
        ensures bytes { result.now ≡ mac_bytes self.now }
        ensures short { length result.now ≤ 32 }
    {
        match self {
            Mac::V2(bytes) => bytes,
            Mac::V3(bytes) => bytes,
        }
    }
}

/// What the MAC covers: the five fields, each as a string of RFC 4251.
///
/// The private bytes are those that aren't sealed, with their padding. Refuses, in order: `TooLong`, where a field has
/// 2^32 bytes or more.
#[tactic(auto, unfolding(crate::specs::Mac::input_bytes, crate::specs::Mac::mac_input))]
pub fn mac_input(
    alloc: Global,
    algorithm: &str,
    encryption: &str,
    comment: &str,
    public: &[u8],
    private: &[u8],
) -> Result<Vec<u8>, PuttyError>
    ensures { Gives PuttyError.NoMemory (λ input. input.items) result
        (input_bytes algorithm.now encryption.now comment.now public.now private.now) }
{
    if algorithm.len() > MAX_LEN
        || encryption.len() > MAX_LEN
        || comment.len() > MAX_LEN
        || public.len() > MAX_LEN
        || private.len() > MAX_LEN
    {
        return Err(PuttyError::TooLong);
    }
    let fields = [
        Piece::string(algorithm.as_bytes()),
        Piece::string(encryption.as_bytes()),
        Piece::string(comment.as_bytes()),
        Piece::string(public),
        Piece::string(private),
    ];
    Ok(joined_pieces(alloc, &fields)?)
}

/// The MAC key of version 2: SHA-1 of a label and the passphrase, which is empty where the file isn't sealed.
#[tactic(auto, unfolding(crate::specs::Mac::mac_key_v2, crate::specs::Mac::mac_key_label))]
pub fn mac_key_v2(passphrase: &str) -> [u8; 20]
    ensures { result ≡ mac_key_v2_of passphrase.now }
{
    let mut hasher = Sha1::new();
    hasher.update(MAC_KEY_LABEL.as_bytes());
    hasher.update(passphrase.as_bytes());
    hasher.finalize()
}
