//! AES-256-CBC over the private bytes, in place.

ghost use Rattle.std.specs.Prelude.{◌≡◌, Err};
ghost use Rattle.picky_wire.specs.Count.{Rose};
ghost use Rattle.picky_suite.specs.Asked.{IsAskedAtMost, LeavesSuite};
ghost use Rattle.picky_ppk_parts.specs.Asked.{GivesUnlessFault};
ghost use Rattle.picky_ppk_parts.specs.Aes.{is_aligned, sealed_message, opened_message};

use crate::error::PuttyError;
use picky_suite::Suite;
use picky_wire::Failed;

/// How many bytes a key has.
pub const KEY_SIZE: usize = 32;

/// How many bytes a block has.
pub const BLOCK_SIZE: usize = 16;

/// Seals the message. Refuses, in order: `Aes`, where its length isn't a multiple of 16, which leaves the message;
/// `SuiteFault`, after which what it holds is open.
#[tactic(auto, unfolding(crate::specs::Aes::sealed_message))]
pub fn encrypt<S: Suite>(
    suite: &mut S,
    message: &mut [u8],
    key: &[u8; KEY_SIZE],
    iv: &[u8; BLOCK_SIZE],
) -> Result<(), PuttyError>
    ensures gives { GivesUnlessFault PuttyError.SuiteFault (λ _. message.new) result
        (sealed_message (S.meanings suite.old) key.now iv.now message.old) (is_aligned message.old)
        (Rose (S.faults suite.old) (S.faults suite.new)) }
    ensures suite { LeavesSuite S.meanings S.faults PuttyError.SuiteFault (is_aligned message.old) result suite.old suite.new }
    ensures unchanged { result ≡ Err PuttyError.Aes → message.new ≡ message.old }
    ensures asked { IsAskedAtMost 1 S.calls suite.old suite.new }
{
    if message.len() % BLOCK_SIZE != 0 {
        return Err(PuttyError::Aes);
    }
    match suite.cbc_seal(key, iv, message) {
        Ok(()) => Ok(()),
        Err(Failed) => Err(PuttyError::SuiteFault),
    }
}

/// Opens the message. Refuses as `encrypt`.
#[tactic(auto, unfolding(crate::specs::Aes::opened_message))]
pub fn decrypt<S: Suite>(
    suite: &mut S,
    message: &mut [u8],
    key: &[u8; KEY_SIZE],
    iv: &[u8; BLOCK_SIZE],
) -> Result<(), PuttyError>
    ensures gives { GivesUnlessFault PuttyError.SuiteFault (λ _. message.new) result
        (opened_message (S.meanings suite.old) key.now iv.now message.old) (is_aligned message.old)
        (Rose (S.faults suite.old) (S.faults suite.new)) }
    ensures suite { LeavesSuite S.meanings S.faults PuttyError.SuiteFault (is_aligned message.old) result suite.old suite.new }
    ensures unchanged { result ≡ Err PuttyError.Aes → message.new ≡ message.old }
    ensures asked { IsAskedAtMost 1 S.calls suite.old suite.new }
{
    if message.len() % BLOCK_SIZE != 0 {
        return Err(PuttyError::Aes);
    }
    match suite.cbc_open(key, iv, message) {
        Ok(()) => Ok(()),
        Err(Failed) => Err(PuttyError::SuiteFault),
    }
}
