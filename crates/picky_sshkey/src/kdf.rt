//! What is given to a key derivation beside the passphrase.

ghost use Rattle.std.specs.Prelude.{◌≡◌, ◌^◌, ◌<◌, Ok, Err, IfOk, IfErr, length};
ghost use Rattle.std.specs.List.{concat};
ghost use Rattle.picky_wire_base.specs.Flaw.{Flawed};
ghost use Rattle.picky_wire_base.specs.Front.{read_front};
ghost use Rattle.picky_wire_base.specs.Outcome.{map_err};
ghost use Rattle.picky_wire_base.specs.View.{why_of};
ghost use Rattle.picky_sshkey.specs.Kdf.{HasSaltRoom, bcrypt, is_no_option as is_no_option_of, kdf_fields};
ghost use Rattle.picky_sshkey.specs.Kdf.{kdf_option_of, no_option, none, option_inside};
ghost use Rattle.picky_sshkey.specs.View.{kdf_option_seen};

use crate::kept::name_text;
use picky_wire::{Bytes, NoMemory, Piece, Stuck, Text, TryClone, string_at, uint32_at};
use std::alloc::Global;

/// The name of no derivation, and of no cipher.
pub const NONE: &str = "none";

/// The name of the one derivation.
pub const BCRYPT: &str = "bcrypt";

/// The rounds of bcrypt for a key that is made.
const ROUNDS: u32 = 16;

/// A salt and a number of rounds; no salt and 0 rounds where nothing is derived.
#[derive(Debug, Drop, PartialEq, Eq)]
pub struct KdfOption {
    pub salt: Bytes,
    pub rounds: u32,
}

impl TryClone for KdfOption {
    fn try_clone(&self, alloc: Global) -> Result<KdfOption, NoMemory> {
        let salt = self.salt.try_clone(alloc)?;
        Ok(KdfOption {
            salt,
            rounds: self.rounds,
        })
    }
}

/// A key derivation by its name, with what it is given.
#[derive(Debug, Drop, PartialEq, Eq)]
pub struct Kdf {
    pub name: Text,
    pub option: KdfOption,
}

impl TryClone for Kdf {
    fn try_clone(&self, alloc: Global) -> Result<Kdf, NoMemory> {
        let name = self.name.try_clone(alloc)?;
        let option = self.option.try_clone(alloc)?;
        Ok(Kdf { name, option })
    }
}

impl Kdf {
    /// No derivation: the name `none`, no salt and 0 rounds. Refuses: `NoMemory`.
    #[tactic(auto, unfolding(crate::specs::Kdf::none))]
    pub fn plain(alloc: Global) -> Result<Kdf, NoMemory>
        ensures { IfOk result (λ kdf. kdf ≡ record { name = none; option = no_option }) }
    {
        let name = name_text(alloc, NONE)?;
        let option = option_of(alloc, &[], 0)?;
        Ok(Kdf { name, option })
    }
}

/// The one derivation, with this salt and 16 rounds. Refuses: `NoMemory`.
#[tactic(auto, unfolding(crate::specs::Kdf::bcrypt))]
pub fn bcrypt_kdf(alloc: Global, salt: &[u8; 16]) -> Result<Kdf, NoMemory>
    ensures { IfOk result (λ kdf. kdf ≡ record { name = bcrypt; option = record { salt = salt.now; rounds = 16 } }) }
{
    let name = name_text(alloc, BCRYPT)?;
    let option = option_of(alloc, salt, ROUNDS)?;
    Ok(Kdf { name, option })
}

/// The salt and the rounds as a value. Refuses: `NoMemory`.
pub fn option_of(alloc: Global, salt: &[u8], rounds: u32) -> Result<KdfOption, NoMemory>
    requires { length salt.now < 2 ^ 32 }
    ensures { IfOk result (λ option. option ≡ record { salt = salt.now; rounds = rounds }) }
{
    match Bytes::new(alloc, salt) {
        Ok(salt) => Ok(KdfOption { salt, rounds }),
        Err(_) => Err(NoMemory),
    }
}

/// A salt and a number of rounds, seen in the string that has them.
#[derive(Clone, Copy)]
pub struct OptionView<'a> {
    pub salt: &'a [u8],
    pub rounds: u32,
}

/// What the bytes of such a string say. Refuses, in order: `Short`.
pub fn option_in(block: &[u8]) -> Result<OptionView<'_>, Stuck<'_>>
    requires { length block.now < 2 ^ 32 }
    ensures ok { IfOk result (λ seen. option_inside.decide block.now ≡ Ok (kdf_option_seen seen)) }
    ensures err { IfErr result (λ stuck. map_err Flawed (option_inside.decide block.now) ≡ Err (why_of stuck)) }
    ensures short { IfOk result (λ seen. length seen.salt.now < 2 ^ 32) }
{
    if block.is_empty() {
        return Ok(OptionView {
            salt: &[],
            rounds: 0,
        });
    }
    fields_in(block)
}

/// The salt and the rounds that the bytes begin with.
#[tactic(auto, unfolding(crate::specs::Kdf::kdf_fields))]
fn fields_in(block: &[u8]) -> Result<OptionView<'_>, Stuck<'_>>
    requires { length block.now < 2 ^ 32 }
    ensures ok { IfOk result (λ seen. read_front kdf_fields block.now ≡ Ok (kdf_option_seen seen)) }
    ensures err { IfErr result (λ stuck. map_err Flawed (read_front kdf_fields block.now) ≡ Err (why_of stuck)) }
    ensures short { IfOk result (λ seen. length seen.salt.now < 2 ^ 32) }
{
    let (salt, next) = match string_at(block, 0) {
        Ok(found) => found,
        Err(stuck) => return Err(stuck),
    };
    match uint32_at(block, next) {
        Ok((rounds, _)) => Ok(OptionView {
            salt: salt.bytes,
            rounds,
        }),
        Err(stuck) => Err(stuck),
    }
}

/// The pieces of the options' one spelling.
#[tactic(auto, using(crate::proofs::KdfLemmas::no_option_spelled, crate::proofs::KdfLemmas::option_spelled))]
pub fn kdf_pieces(option: &KdfOption) -> [Piece<'_>; 3]
    requires { HasSaltRoom option.now }
    ensures { concat result ≡ kdf_option_of option.now }
{
    if is_no_option(option) {
        return [Piece::string(&[]), Piece::none(), Piece::none()];
    }
    let salt_len = option.salt.as_slice().len() as u32;
    [
        Piece::uint32(salt_len + 8),
        Piece::bytes(&option.salt),
        Piece::uint32(option.rounds),
    ]
}

/// Whether there are no salt and 0 rounds.
pub fn is_no_option(option: &KdfOption) -> bool
    ensures { result ≡ is_no_option_of option.now }
{
    option.salt.as_slice().len() == 0 && option.rounds == 0
}
