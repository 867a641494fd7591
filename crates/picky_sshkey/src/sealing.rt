//! A block, opened and sealed in place under a passphrase.

ghost use Rattle.std.specs.Prelude.{◌≡◌, ◌+◌, length, take, drop, true, if◌then◌else◌};
ghost use Rattle.picky_suite.specs.Asked.{IsAskedAtMost};
ghost use Rattle.picky_suite.specs.Ranges.{BcryptOk, IsCipherKey, IsWhole};
ghost use Rattle.picky_suite.specs.Fills.{Fills};
ghost use Rattle.picky_sshkey.specs.Cipher.{key_len, is_cbc};
ghost use Rattle.picky_sshkey.specs.Opened.{opened};

use crate::cipher::Cipher;
use picky_suite::Suite;
use picky_wire::Failed;

/// Opens a block, and seals one in counter mode. Refuses: `Failed`.
#[tactic(auto, unfolding(crate::specs::Opened::opened))]
pub fn open<S: Suite>(
    suite: &mut S,
    cipher: Cipher,
    pass: &str,
    salt: &[u8],
    rounds: u32,
    block: &mut [u8],
) -> Result<(), Failed>
    requires range { BcryptOk (length pass.now) (length salt.now) rounds }
    requires whole { is_cbc cipher ≡ true → IsWhole block.old }
    ensures fills { Fills S.meanings S.faults
        (opened (S.meanings suite.old) (record { cipher = cipher; pass = pass.now }) (record { salt = salt.now; rounds = rounds }) block.old)
        result block.old block.new suite.old suite.new }
    ensures asked { IsAskedAtMost 2 S.calls suite.old suite.new }
{
    match cipher {
        Cipher::Aes128Cbc | Cipher::Aes128Ctr => {
            let mut derived = [0; 32];
            suite.bcrypt(pass.as_bytes(), salt, rounds, &mut derived)?;
            run_cipher(suite, cipher, &derived, block)
        }
        Cipher::Aes256Cbc | Cipher::Aes256Ctr => {
            let mut derived = [0; 48];
            suite.bcrypt(pass.as_bytes(), salt, rounds, &mut derived)?;
            run_cipher(suite, cipher, &derived, block)
        }
    }
}

/// Runs the cipher over a block, under the key and the iv that were derived.
fn run_cipher<S: Suite>(
    suite: &mut S,
    cipher: Cipher,
    derived: &[u8],
    block: &mut [u8],
) -> Result<(), Failed>
    requires len { length derived.now ≡ key_len cipher + 16 }
    requires whole { is_cbc cipher ≡ true → IsWhole block.old }
    ensures fills { Fills S.meanings S.faults
        (if is_cbc cipher then (S.meanings suite.old).cbc_open (take (key_len cipher) derived.now) (drop (key_len cipher) derived.now) block.old
        else (S.meanings suite.old).ctr (take (key_len cipher) derived.now) (drop (key_len cipher) derived.now) block.old)
        result block.old block.new suite.old suite.new }
    ensures asked { IsAskedAtMost 1 S.calls suite.old suite.new }
{
    let (key, behind) = derived.split_at(cipher.key_len());
    let mut iv = [0; 16];
    iv.copy_from_slice(behind);
    if cipher.is_cbc() {
        suite.cbc_open(key, &iv, block)
    } else {
        suite.ctr(key, &iv, block)
    }
}
