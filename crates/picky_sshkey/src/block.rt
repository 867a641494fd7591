//! The block of a private key, seen where it was opened.

ghost use Rattle.std.specs.Prelude.{◌≡◌, ◌^◌, ◌<◌, Ok, Err, drop, length, IfOk, IfErr};
ghost use Rattle.picky_wire_base.specs.Flaw.{Flaw, Flawed};
ghost use Rattle.picky_wire_base.specs.Front.{read_front};
ghost use Rattle.picky_wire_base.specs.Gives.{Gives};
ghost use Rattle.picky_wire_base.specs.View.{why_of};
ghost use Rattle.picky_sshkey_blob.specs.Key.{IsPrivateKey};
ghost use Rattle.picky_sshkey_blob.specs.View.{private_key_seen};
ghost use Rattle.picky_sshkey.specs.PrivateBlock.{check_numbers, flaw_error, private_block};
ghost use Rattle.picky_sshkey.specs.View.{block_seen};

use picky_sshkey_blob::{PrivateView, SshPrivateKeyError, private_at, private_view_refusal};
use picky_wire::{IoKind, Stuck, uint32_at, word_at};
use std::alloc::Global;

/// A block whose parts are slices of it.
#[derive(Clone, Copy)]
pub struct BlockView<'a> {
    pub check: u32,
    pub key: PrivateView<'a>,
    pub comment: &'a str,
}

/// What the block begins with; what follows the comment is padding.
///
/// OpenSSH's PROTOCOL.key, section 3. Refuses, in order: `IoError(UnexpectedEnd)` where there are fewer than eight
/// bytes, `InvalidCheckNumbers`, and by field of the key and the comment `IoError(UnexpectedEnd)`, `FromUtf8Error`,
/// `UnsupportedKeyType`, `KeyError`, `InvalidKeyFormat`.
#[tactic(auto, unfolding(crate::specs::PrivateBlock::private_block))]
pub fn block_in(alloc: Global, block: &[u8]) -> Result<BlockView<'_>, SshPrivateKeyError>
    requires { length block.now < 2 ^ 32 }
    ensures gives { Gives SshPrivateKeyError.NoMemory block_seen result (read_front private_block block.now) }
    ensures is_key { IfOk result (λ seen. IsPrivateKey (private_key_seen seen.key)) }
    ensures short { IfOk result (λ seen. length seen.comment.now < 2 ^ 32) }
{
    let (check, next) = match check_at(block) {
        Ok(found) => found,
        Err(e) => return Err(e),
    };
    let (key, next) = match private_at(block, next) {
        Ok(found) => found,
        Err(stopped) => return Err(private_view_refusal(alloc, &stopped)),
    };
    match word_at(block, next) {
        Ok((comment, _)) => Ok(BlockView {
            check,
            key,
            comment: comment.text,
        }),
        Err(stuck) => Err(field_refusal(stuck)),
    }
}

/// The check number, and the place after it and its like.
#[tactic(auto, unfolding(crate::specs::PrivateBlock::check_numbers))]
fn check_at(block: &[u8]) -> Result<(u32, usize), SshPrivateKeyError>
    ensures ok { IfOk result (λ found. check_numbers.read block.now ≡ Ok (found.0, drop found.1 block.now)) }
    ensures err { IfErr result (λ e. check_numbers.read block.now ≡ Err e) }
{
    let (check, next) = match uint32_at(block, 0) {
        Ok(found) => found,
        Err(stuck) => return Err(field_refusal(stuck)),
    };
    let (again, next) = match uint32_at(block, next) {
        Ok(found) => found,
        Err(stuck) => return Err(field_refusal(stuck)),
    };
    if again != check {
        return Err(SshPrivateKeyError::InvalidCheckNumbers(check, again));
    }
    Ok((check, next))
}

/// The error for a number or a text that is stuck.
fn field_refusal(stuck: Stuck<'_>) -> SshPrivateKeyError
    ensures { (flaw : Flaw) → why_of stuck.entry ≡ Flawed flaw → result ≡ flaw_error flaw }
{
    match stuck {
        Stuck::NotUtf8 => SshPrivateKeyError::FromUtf8Error,
        Stuck::Short | Stuck::Name(_) | Stuck::Length | Stuck::Number(_) => {
            SshPrivateKeyError::IoError(IoKind::UnexpectedEnd)
        }
    }
}
