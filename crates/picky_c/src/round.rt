//! A round of a conversion: its text, or the question that the answers lack.

ghost use Rattle.std.specs.Prelude.{◌≡◌, List, Some, Err, map};
ghost use Rattle.picky_ask.specs.Question.{question_of};
ghost use Rattle.picky_ask.specs.declared.missing.Missing.TheVariants as missings;
ghost use Rattle.picky_ask.specs.declared.question.Entry.{Entry as AnEntry};
ghost use Rattle.picky_ask.specs.Known.{meant};
ghost use Rattle.picky_suite.specs.Meanings.{Meanings};
ghost use Rattle.picky_c.specs.Calls.{asks_under, converted as converted_of, converted_under, converting_is_asked, entries_of};
ghost use Rattle.picky_c.specs.Calls.{IsConverted};
ghost use Rattle.picky_c.specs.Given.{given_in};
ghost use Rattle.picky_c.specs.Round.{ConvertsRound, GivesRound, HandsRound, IfText, IsUnanswered, LeavesQuestion, IsTextUnder};

use crate::answer::{PickyAnswer, hand_out, refuse};
use crate::error::{AnswersError, PickyError, refusal, table_refusal};
use crate::given::{Given, as_pass};
use picky_ask::{AnsweredSuite, Known, Missing, Question, Table};
use picky_conversion::{ConversionGiven, convert_key_text};
use picky_target::KeyTarget;
use picky_utf8::as_text;
use picky_wire::SizeError;
use std::alloc::Global;
use std::marker::Brand;

/// What a round comes to.
#[derive(Drop)]
pub enum Round {
    /// The text.
    Text(Vec<u8>),
    /// The question that the answers lack, as bytes.
    Question(Vec<u8>),
}

/// Hands out what a round comes to.
pub fn hand_round(round: Result<Round, PickyError>, out: &mut [u8]) -> PickyAnswer
    ensures { HandsRound round result out.old out.new }
{
    match round {
        Ok(Round::Text(bytes)) => hand_out(0, bytes.as_slice(), out),
        Ok(Round::Question(bytes)) => hand_out(13, bytes.as_slice(), out),
        Err(e) => refuse(e),
    }
}

/// The text of a target for what a key text means, or the question that the answers lack.
///
/// Refuses, in order: as the target; `Answers` as `picky_ask::Table::read`; `TextNotUtf8`; `PassNotUtf8`; as
/// `picky_conversion::convert_key_text`, with `Answers` for one of the answers in place of the suite's fault.
pub fn converted_by(
    alloc: Global,
    target: Result<KeyTarget, PickyError>,
    given: Given<'_>,
) -> Result<Round, PickyError>
    ghost m: { Meanings }
    ensures gives { GivesRound (converted_of m target (given_in given.entry)) (converting_is_asked m target (given_in given.entry))
        (entries_of (given_in given.entry)) result }
    ensures means { IfText result (IsConverted m target (given_in given.entry)) }
{
    match target {
        Ok(target) => match Table::read(alloc, given.answers) {
            Ok(table) => {
                let round = round_by::<Brand>(alloc, target, given, &table);
                drop(table);
                round
            }
            Err(e) => Err(table_refusal(e)),
        },
        Err(e) => Err(e),
    }
}

/// The same over a table.
fn round_by<K: Known>(
    alloc: Global,
    target: KeyTarget,
    given: Given<'_>,
    table: &Table,
) -> Result<Round, PickyError>
    requires all { K.table ≡ Some table.now }
    ensures gives { GivesRound (converted_under (meant K.known table.now) target (given_in given.entry))
        (asks_under (meant K.known table.now) target (given_in given.entry)) table.now result }
    ensures means { IfText result (IsTextUnder (meant K.known table.now) target (given_in given.entry)) }
{
    let text = match as_text(given.text) {
        Some(text) => text,
        None => return Err(PickyError::TextNotUtf8),
    };
    let pass_in = match as_pass(given.pass_in) {
        Some(pass) => pass,
        None => return Err(PickyError::PassNotUtf8),
    };
    let pass_out = match as_pass(given.pass_out) {
        Some(pass) => pass,
        None => return Err(PickyError::PassNotUtf8),
    };
    let given = ConversionGiven {
        pass_in,
        pass_out,
        fresh: given.fresh,
    };
    round_of_text::<K>(alloc, text, target, given, table)
}

/// The same of what is UTF-8.
fn round_of_text<K: Known>(
    alloc: Global,
    text: &str,
    target: KeyTarget,
    given: ConversionGiven<'_>,
    table: &Table,
) -> Result<Round, PickyError>
    requires all { K.table ≡ Some table.now }
    ensures { ConvertsRound (meant K.known table.now) target given.entry text.now table.now result }
{
    let mut suite: AnsweredSuite<'_, K> = AnsweredSuite::new(alloc, table);
    match convert_key_text(alloc, &mut suite, text, target, given) {
        Ok(text) => {
            drop(suite);
            Ok(Round::Text(text.into_string().into_bytes()))
        }
        Err(e) => unanswered(alloc, refusal(e), suite.into_missing()),
    }
}

/// What a refusal comes to, by why the device has no answer.
fn unanswered(alloc: Global, e: PickyError, missing: Option<Missing>) -> Result<Round, PickyError>
    ensures is { IsUnanswered e missing result }
    ensures no_text { IfText result (λ bytes. ⊥) }
{
    match e {
        PickyError::NoCipher => match missing {
            Some(Missing::Asked(question)) => question_left(alloc, &question),
            Some(Missing::WrongLength) => Err(PickyError::Answers(AnswersError::WrongLength)),
            Some(Missing::Contradiction) => Err(PickyError::Answers(AnswersError::Contradiction)),
            Some(Missing::Misplaced) => Err(PickyError::Answers(AnswersError::Misplaced)),
            Some(Missing::TooLong) => Err(PickyError::Answers(AnswersError::TooLong)),
            Some(Missing::NoMemory) => Err(PickyError::NoMemory),
            None => Err(PickyError::NoCipher),
        },
        e => {
            drop(missing);
            Err(e)
        }
    }
}

/// The question's bytes.
fn question_left(alloc: Global, question: &Question) -> Result<Round, PickyError>
    ensures { LeavesQuestion question.now result }
{
    match question.to_bytes(alloc) {
        Ok(bytes) => Ok(Round::Question(bytes)),
        Err(SizeError::TooLong) => Err(PickyError::Answers(AnswersError::TooLong)),
        Err(SizeError::NoMemory) => Err(PickyError::NoMemory),
    }
}
