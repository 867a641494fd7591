//! OpenSSH private keys, of a text and of zeros.

use picky_sshkey::{SshBasePrivateKey, SshPrivateKey};
use picky_suite::PlainSuite;
use std::alloc::Global;
use std::test::Fail;

/// The key of an unsealed text. No call of a suite is needed, and this one has none.
pub fn unsealed(alloc: Global, text: &str) -> Result<SshPrivateKey, Fail> {
    let mut suite = PlainSuite::new();
    Ok(SshPrivateKey::from_pem_str(alloc, &mut suite, text, None)?)
}

/// The key of `ZERO_KEY`, or the same with a passphrase.
pub fn zero_key(alloc: Global, pass: Option<&str>) -> Result<SshPrivateKey, Fail> {
    let base = SshBasePrivateKey::Ed {
        secret: [0; 32],
        public: [0; 32],
    };
    let salt = b"saltsaltsaltsalt";
    Ok(SshPrivateKey::from_base(alloc, base, pass, "hello", salt)?)
}
