//! The options of a key derivation, as an element of the wire.

ghost use Rattle.std.specs.Prelude.{◌≡◌, ◌≢◌, ◌^◌, ◌<◌, length, IfErr};
ghost use Rattle.picky_wire_base.specs.Gives.{Gives};
ghost use Rattle.picky_wire_base.specs.Flaw.{Flaw, Flawed};
ghost use Rattle.picky_wire_base.specs.Wire.{string};
ghost use Rattle.picky_wire.specs.Flaws.{wire_error};
ghost use Rattle.picky_wire_base.specs.View.{why_of};
ghost use Rattle.picky_sshkey.specs.Kdf.{kdf_option_of};
ghost use Rattle.picky_sshkey.specs.KdfLayout.{IsKdfOption, kdf_layout, option_said as option_said_of, read_option};
ghost use Rattle.picky_sshkey.specs.KdfLayout.{unwritten};
ghost use Rattle.picky_sshkey.specs.carried.Kdf.{option_own, option_reads_layout, option_used, option_solid};
ghost use Rattle.picky_sshkey.specs.carried.Kdf.{option_spells, unwritten_for_length};

use crate::kdf::{KdfOption, is_no_option, kdf_pieces, option_in, option_of};
use picky_wire::{
    NoMemory, Sink, Source, SshComplexTypeDecode, SshComplexTypeEncode, SshElement, SshLayout,
    SshReadExt, Stuck, WireError, write_pieces,
};
use std::alloc::Global;

/// How long a salt may be that leaves room for its length and the rounds in one string.
const SALT_ROOM: usize = (1 << 32) - 8;

impl SshComplexTypeEncode for KdfOption {
    type Error = WireError;

    ghost spelling = { kdf_option_of };

    ghost write_reason = { unwritten };

    ghost keeps = { IsKdfOption };

    ghost reason_is_no_want = { unwritten_for_length };

    /// Writes a string of the salt and the rounds, which is empty where there is no salt and 0 rounds.
    ///
    /// OpenSSH's PROTOCOL.key, section 2. Refuses, in order: `TooLong`, where the salt has 2^32 - 8 bytes or more;
    /// `WriteFault`.
    fn encode<S: Sink>(&self, stream: &mut S) -> Result<(), WireError> {
        if self.salt.as_slice().len() >= SALT_ROOM {
            return Err(WireError::TooLong);
        }
        write_pieces(stream, &kdf_pieces(self))
    }

    #[tactic(auto, using(crate::proofs::KdfLemmas::no_option_len, crate::proofs::KdfLemmas::option_len))]
    fn spelling_len(&self) -> u64 {
        let salt_len = salt_len(self);
        if is_no_option(self) {
            return 4;
        }
        salt_len as u64 + 12
    }
}

impl SshComplexTypeDecode for KdfOption {
    type Error = WireError;

    ghost reads = { read_option };

    ghost used = { string.used };

    ghost own = { option_own };

    /// The salt and the rounds that a string begins with; no salt and 0 rounds, where it is empty.
    ///
    /// OpenSSH's PROTOCOL.key, section 2. Refuses, in order: `ReadFault`; `UnexpectedEnd`, where the string or a field in
    /// it is cut.
    #[tactic(auto, unfolding(crate::specs::KdfLayout::read_option))]
    fn decode<S: Source>(alloc: Global, stream: &mut S) -> Result<KdfOption, WireError> {
        match stream.read_ssh_bytes(alloc) {
            Ok(block) => option_said(alloc, block.as_slice()),
            Err(e) => Err(e),
        }
    }
}

impl SshLayout for KdfOption {
    ghost layout = { kdf_layout };

    ghost reads_layout = { option_reads_layout };

    ghost used_layout = { option_used };

    ghost solid = { option_solid };

    fn refusal(error: WireError) -> WireError {
        error
    }
}

impl SshElement for KdfOption {
    ghost spelled = { option_spells };
}

/// How many bytes the salt has.
fn salt_len(option: &KdfOption) -> usize
    ensures len { result ≡ length option.now.salt }
    ensures keeps { IsKdfOption option.now }
{
    let _rounds = option.rounds;
    let salt = option.salt.as_slice();
    salt.len()
}

/// What the bytes of the string say.
fn option_said(alloc: Global, block: &[u8]) -> Result<KdfOption, WireError>
    requires { length block.now < 2 ^ 32 }
    ensures gives { Gives WireError.NoMemory (λ option. option) result (option_said_of block.now) }
    ensures no_fault { IfErr result (λ e. e ≢ WireError.ReadFault) }
{
    match option_in(block) {
        Ok(seen) => match option_of(alloc, seen.salt, seen.rounds) {
            Ok(option) => Ok(option),
            Err(NoMemory) => Err(WireError::NoMemory),
        },
        Err(stuck) => Err(kdf_option_refusal(stuck)),
    }
}

/// The error for a string or a number that is stuck.
fn kdf_option_refusal(stuck: Stuck<'_>) -> WireError
    ensures says { (flaw : Flaw) → why_of stuck.entry ≡ Flawed flaw → result ≡ wire_error flaw }
    ensures no_fault { result ≢ WireError.ReadFault }
{
    match stuck {
        Stuck::NotUtf8 => WireError::InvalidUtf8,
        Stuck::Short | Stuck::Name(_) | Stuck::Length | Stuck::Number(_) =>
            WireError::UnexpectedEnd,
    }
}
