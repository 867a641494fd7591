//! What a key text is encrypted by, as it stands open in it.

ghost use Rattle.std.specs.Prelude.{◌≡◌};

use picky_ppk::PpkEncryptionConfig;
use picky_wire::Text;

/// What a key text is encrypted by.
#[derive(Debug, Drop, PartialEq, Eq)]
pub enum ShownSealing {
    /// By nothing.
    Unsealed,
    /// As an OpenSSH private key: the names of its cipher and its derivation as they stand there, known here or not, and
    /// the rounds where the derivation is `bcrypt`.
    OpenSsh {
        cipher: Text,
        kdf: Text,
        rounds: Option<u32>,
    },
    /// As a PuTTY private key file of version 2.
    PpkV2,
    /// As one of version 3: what Argon2 is run with, and how many bytes its salt has.
    PpkV3(PpkEncryptionConfig),
}

impl ShownSealing {
    ghost use Rattle.picky_shown.specs.Shown.{is_encrypted};

    /// Whether the text is encrypted.
    pub fn is_encrypted(&self) -> bool
        ensures { result ≡ is_encrypted self.now }
    {
        match self {
            ShownSealing::Unsealed => false,
            ShownSealing::OpenSsh { .. } | ShownSealing::PpkV2 | ShownSealing::PpkV3(_) => true,
        }
    }
}
