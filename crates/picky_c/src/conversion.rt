//! The conversion of a key text without answers: with a suite that has no ciphers.

ghost use Rattle.std.specs.Prelude.{[], IfOk};
ghost use Rattle.picky_wire_base.specs.Outcome.{map_ok};
ghost use Rattle.picky_suite.specs.Asked.{GivesAsked};
ghost use Rattle.picky_suite.specs.Meanings.{Meanings};
ghost use Rattle.picky_c.specs.Calls.{IsConverted, converted as converted_of, converting_is_asked, numbered_target};
ghost use Rattle.picky_c.specs.Given.{given};
ghost use Rattle.picky_c.specs.Round.{IsWithoutAnswers};

use crate::error::PickyError;
use crate::given::Given;
use crate::round::{Round, converted_by};
use crate::target::target_of;
use std::alloc::Global;

/// The text of the target for what a key text means, whatever ciphers and derivations `m` has: none is asked.
///
/// Refuses, in order: as `converted_by` by no answers, with `NoCipher` where that asks.
pub fn converted(
    alloc: Global,
    text: &[u8],
    target: u32,
    pass_in: &[u8],
    pass_out: &[u8],
    fresh: &[u8],
) -> Result<Vec<u8>, PickyError>
    ghost m: { Meanings }
    ensures gives { let all = given text.now pass_in.now pass_out.now fresh.now [] in
        GivesAsked PickyError.NoMemory PickyError.NoCipher (λ bytes. bytes.items) result
        (converted_of m (numbered_target target) all) (converting_is_asked m (numbered_target target) all) (Unit {0}) }
    ensures means { let all = given text.now pass_in.now pass_out.now fresh.now [] in
        IfOk result (λ bytes. IsConverted m (numbered_target target) all bytes.items) }
{
    let given = Given {
        text,
        pass_in,
        pass_out,
        fresh,
        answers: &[],
    };
    without_answers(converted_by(alloc, target_of(target), given))
}

/// A round by no answers, where what is asked is the want of a cipher.
fn without_answers(round: Result<Round, PickyError>) -> Result<Vec<u8>, PickyError>
    ensures { IsWithoutAnswers round (map_ok (λ bytes. bytes.items) result) }
{
    match round {
        Ok(Round::Text(bytes)) => Ok(bytes),
        Ok(Round::Question(bytes)) => {
            drop(bytes);
            Err(PickyError::NoCipher)
        }
        Err(PickyError::Answers(_)) => Err(PickyError::NoCipher),
        Err(e) => Err(e),
    }
}
