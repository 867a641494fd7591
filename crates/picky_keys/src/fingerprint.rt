//! The fingerprints of a public key: digests of its blob.

ghost use Rattle.std.specs.Prelude.{◌≡◌, ◌++◌, List, ℕ};
ghost use Rattle.std.specs.List.{concat};
ghost use Rattle.md5.specs.Md5.{md5, Holds as HoldsMd5};
ghost use Rattle.sha1.specs.Sha1.{sha1, Holds as HoldsSha1};
ghost use Rattle.sha2.specs.Sha256.{sha256};
ghost use Rattle.sha2.specs.Hashers.{Holds256};
ghost use Rattle.picky_keys.specs.Blob.{blob_of};

use crate::blob::pieces;
use crate::key::{SshBasePublicKey, SshPublicKey};
use md5::{Digest as Md5Digest, Md5};
use picky_wire::Piece;
use sha1::Sha1;
use sha2::{Digest as Sha2Digest, Sha256};

/// A hasher that is fed a message piece by piece.
trait Hasher {
    // the hasher was fed this message so far
    ghost held: { Self → List ℕ → Type 0 };

    /// Feeds one more piece.
    fn feed(&mut self, piece: &[u8])
        ensures { (m : List ℕ) → held self.old m → held self.new (m ++ piece.now) };
}

impl Hasher for Md5 {
    ghost held = { HoldsMd5 };

    fn feed(&mut self, piece: &[u8]) {
        self.update(piece);
    }
}

impl Hasher for Sha1 {
    ghost held = { HoldsSha1 };

    fn feed(&mut self, piece: &[u8]) {
        self.update(piece);
    }
}

impl Hasher for Sha256 {
    ghost held = { Holds256 };

    fn feed(&mut self, piece: &[u8]) {
        self.update(piece);
    }
}

impl SshPublicKey {
    /// The MD5 digest of the key's blob (RFC 4716, section 4). The comment says nothing to it.
    pub fn fingerprint_md5(&self) -> [u8; 16]
        ensures { result ≡ md5 (blob_of self.now.inner_key) }
    {
        let mut hasher = Md5::new();
        feed_blob(&mut hasher, &self.inner_key);
        hasher.finalize()
    }

    /// The SHA-1 digest of the key's blob.
    pub fn fingerprint_sha1(&self) -> [u8; 20]
        ensures { result ≡ sha1 (blob_of self.now.inner_key) }
    {
        let mut hasher = Sha1::new();
        feed_blob(&mut hasher, &self.inner_key);
        hasher.finalize()
    }

    /// The SHA-256 digest of the key's blob, as OpenSSH shows it in base64.
    pub fn fingerprint_sha256(&self) -> [u8; 32]
        ensures { result ≡ sha256 (blob_of self.now.inner_key) }
    {
        let mut hasher = Sha256::new();
        feed_blob(&mut hasher, &self.inner_key);
        hasher.finalize()
    }
}

/// Feeds the blob of a key.
fn feed_blob<H: Hasher>(hasher: &mut H, key: &SshBasePublicKey)
    ensures { (m : List ℕ) → H.held hasher.old m → H.held hasher.new (m ++ blob_of key.now) }
{
    feed_pieces(hasher, &pieces(key));
}

/// Feeds one piece after another.
fn feed_pieces<H: Hasher>(hasher: &mut H, pieces: &[Piece<'_>])
    ensures { (m : List ℕ) → H.held hasher.old m → H.held hasher.new (m ++ concat pieces.now) }
{
    'pieces: for piece in pieces {
        let (head, body) = piece.parts();
        hasher.feed(head);
        hasher.feed(body);
    }
}
