//! The laws of this crate, each as the contract of a function that does nothing.

ghost use Rattle.std.specs.Prelude.{◌≡◌, ◌≢◌, ◌↔◌, ◌<◌, ◌+◌, ◌++◌, ◌∷◌, ℕ, List, true, None, Some, Ok, Err, All, IfErr, OnOk, length, take};
ghost use Rattle.std.specs.List.{flat_map};
ghost use Rattle.picky_wire_base.specs.Equality.{IsEquality};
ghost use Rattle.picky_wire_base.specs.Row.{Row};
ghost use Rattle.picky_suite.specs.Asked.{IsAskedAtMost};
ghost use Rattle.picky_suite.specs.Meanings.{Meanings};
ghost use Rattle.picky_suite.specs.Ranges.{IsCipherKey, IsWhole};
ghost use Rattle.picky_ask.specs.declared.lookup.Mode.{Mode as AMode};
ghost use Rattle.picky_ask.specs.declared.missing.Missing.{Missing as AMissing};
ghost use Rattle.picky_ask.specs.declared.missing.Missing.TheVariants as missings;
ghost use Rattle.picky_ask.specs.declared.question.Entry.{Entry as AnEntry};
ghost use Rattle.picky_ask.specs.declared.question.Question.{Question as AQuestion};
ghost use Rattle.picky_ask.specs.Cause.{HasCause};
ghost use Rattle.picky_ask.specs.Known.{Agrees, agrees, meant, with_hmac};
ghost use Rattle.picky_ask.specs.Lookup.{answer_to, derivation, exchange, first_side, place_of};
ghost use Rattle.picky_ask.specs.Question.{IsEntry, IsQuestion, entry_of, question_of};
ghost use Rattle.picky_ask.specs.State.{IsState, State as AState, calls_made, fresh};
ghost use Rattle.picky_ask.specs.Table.{entry, table_of};

use crate::known::Known;
use crate::missing::Missing;
use crate::question::{Entry, Head, Question};
use crate::suite::AnsweredSuite;
use crate::table::{Table, TableError};
use picky_suite::Suite;
use picky_wire::Failed;
use std::alloc::Global;
use std::marker::Brand;

/// The same bytes are the same question, whatever follows them; and the same follows.
#[tactic(auto, using(crate::proofs::QuestionLaws::question_laws))]
pub fn the_same_bytes_are_the_same_question()
    ensures { (q r : AQuestion) (x y : List ℕ) → IsQuestion q → IsQuestion r
        → question_of q ++ x ≡ question_of r ++ y → (q ≡ r) × (x ≡ y) }
{}

/// A table that is written is read back; and bytes are read as a table exactly where they are its entries' spellings.
#[tactic(auto, using(crate::proofs::QuestionLaws::question_laws))]
pub fn a_table_is_read_back()
    ensures written { (entries : List AnEntry) → All IsEntry entries → table_of (flat_map entry_of entries) ≡ Ok entries }
    ensures read { (bytes : List ℕ) (entries : List AnEntry) → table_of bytes ≡ Ok entries → Row entry.piece entries bytes }
    ensures spelled { (bytes : List ℕ) (entries : List AnEntry) → Row entry.piece entries bytes → table_of bytes ≡ Ok entries }
{}

/// More answers behind a table change nothing that it answered.
#[tactic(auto, using(crate::proofs::TableLaws::more_laws))]
pub fn more_answers_change_nothing()
    ensures answer { (q : AQuestion) (entries more : List AnEntry) (a : List ℕ) → answer_to q entries ≡ Some a
        → answer_to q (entries ++ more) ≡ Some a }
    ensures placed { (q : AQuestion) (entries more : List AnEntry) (a : List ℕ) → answer_to q entries ≡ Some a
        → place_of q (entries ++ more) ≡ place_of q entries }
    ensures derived { (q : AQuestion) (n : ℕ) (entries more : List AnEntry) (a : List ℕ) → derivation q n entries ≡ Ok a
        → derivation q n (entries ++ more) ≡ Ok a }
    ensures exchanged { (mode : AMode) (key iv : List ℕ) (q : AQuestion) (entries more : List AnEntry) (a : List ℕ)
        → exchange mode key iv q entries ≡ Ok a → exchange mode key iv q (entries ++ more) ≡ Ok a }
{}

/// A call asks its own question, and exactly where the table doesn't answer it.
pub fn a_call_asks_where_the_table_has_no_answer()
    ensures derived { (q : AQuestion) (n : ℕ) (entries : List AnEntry) → answer_to q entries ≡ None
        → derivation q n entries ≡ Err (missings.Asked q) }
    ensures derived_only { (q r : AQuestion) (n : ℕ) (entries : List AnEntry) → derivation q n entries ≡ Err (missings.Asked r)
        → (q ≡ r) × (answer_to q entries ≡ None) }
    ensures exchanged { (mode : AMode) (key iv : List ℕ) (q : AQuestion) (entries : List AnEntry) → answer_to q entries ≡ None
        → exchange mode key iv q entries ≡ Err (missings.Asked q) }
    ensures exchanged_only { (mode : AMode) (key iv : List ℕ) (q r : AQuestion) (entries : List AnEntry)
        → exchange mode key iv q entries ≡ Err (missings.Asked r) → (q ≡ r) × (answer_to q entries ≡ None) }
{}

/// A question that was answered once is never asked again, and its first answer is the one that counts.
pub fn no_question_comes_twice()
    ensures once { (e : AnEntry) (entries more : List AnEntry) → answer_to e.question (entries ++ e ∷ more) ≡ None → ⊥ }
    ensures counts { (e : AnEntry) (entries more : List AnEntry) → answer_to e.question entries ≡ None
        → answer_to e.question (entries ++ e ∷ more) ≡ Some e.answer }
{}

/// Under a table each of whose answers some meanings give, the suite means what they do, but for the MACs, which are
/// its own.
#[tactic(auto, using(crate::proofs::TableLaws::agree_laws))]
pub fn a_table_that_agrees_means_the_same()
    ensures meant { (m : Meanings) (entries : List AnEntry) → Agrees m entries → meant m entries ≡ with_hmac m }
    ensures test { (m : Meanings) (entries : List AnEntry) → (agrees m entries ≡ true) ↔ Agrees m entries }
{}

/// An answer is refused for its length only where that is another; for a contradiction only where it isn't both: what the
/// first pair with the text has on the other side, and what has the text there; and as misplaced only where there is a next
/// entry, and neither it nor one before it answers the question.
pub fn an_answer_is_refused_for_its_reason()
    ensures length { (q : AQuestion) (n : ℕ) (entries : List AnEntry) → derivation q n entries ≡ Err missings.WrongLength
        → (a : List ℕ) × (answer_to q entries ≡ Some a) × (length a ≢ n) }
    ensures contradiction { (mode : AMode) (key iv : List ℕ) (q : AQuestion) (entries : List AnEntry)
        → exchange mode key iv q entries ≡ Err missings.Contradiction
        → (a : List ℕ) × (answer_to q entries ≡ Some a)
        × (first_side mode key iv q.text entries ≡ Some a → first_side mode key iv a entries ≡ Some q.text → ⊥) }
    ensures misplaced { (q : AQuestion) (used : ℕ) (entries : List AnEntry) → used < place_of q entries
        → (used < length entries) × (answer_to q (take (used + 1) entries) ≡ None) }
{}

/// A call that asks at most n times leaves no question under a table of n entries. So what asks at most four times ends after
/// four answers, in the fifth round.
#[tactic(auto, using(crate::proofs::TurnLemmas::enough_answers))]
pub fn enough_answers_leave_no_question()
    ensures { (n : ℕ) (entries : List AnEntry) (q : AQuestion) (new : AState) → IsState (Some entries) new
        → IsAskedAtMost n calls_made (fresh entries) new → new.missing ≡ Some (missings.Asked q) → length entries < n }
{}

/// Where each answer of the table is what some meanings give, what is sealed by the table is what they seal; and one entry is
/// enough. Whoever hands the suite to a longer call says the same of it so: the call is generic over `Known`, and its caller
/// picks the meanings. Refuses: why there is no answer.
pub fn what_answers_seal_is_what_was_answered(
    alloc: Global,
    table: &Table,
    key: &[u8],
    iv: &[u8; 16],
    block: &mut [u8],
) -> Result<(), Option<Missing>>
    ghost m: { Meanings }
    requires key { IsCipherKey key.now }
    requires whole { IsWhole block.old }
    ensures sealed { Agrees m table.now → OnOk result (block.new ≡ m.cbc_seal key.now iv.now block.old) }
    ensures refused { IfErr result (λ why. (reason : AMissing) × (why ≡ Some reason) × HasCause reason table.now) }
    ensures enough { (q : AQuestion) → result ≡ Err (Some (missings.Asked q)) → length table.now < 1 }
{
    seal_by::<Brand>(alloc, table, key, iv, block)
}

// Seals by the table's answers.
fn seal_by<K: Known>(
    alloc: Global,
    table: &Table,
    key: &[u8],
    iv: &[u8; 16],
    block: &mut [u8],
) -> Result<(), Option<Missing>>
    requires told { K.table ≡ Some table.now }
    requires key { IsCipherKey key.now }
    requires whole { IsWhole block.old }
    ensures sealed { OnOk result (block.new ≡ (meant K.known table.now).cbc_seal key.now iv.now block.old) }
    ensures refused { IfErr result (λ why. (reason : AMissing) × (why ≡ Some reason) × HasCause reason table.now) }
    ensures enough { (q : AQuestion) → result ≡ Err (Some (missings.Asked q)) → length table.now < 1 }
{
    let mut suite: AnsweredSuite<'_, K> = AnsweredSuite::new(alloc, table);
    match suite.cbc_seal(key, iv, block) {
        Ok(()) => Ok(()),
        Err(Failed) => Err(suite.into_missing()),
    }
}

/// Two heads, questions, entries and reasons are equal exactly where their contents are.
pub fn equality_is_of_contents()
    ensures head { IsEquality ⟦<Head as PartialEq>⟧.eq }
    ensures question { IsEquality ⟦<Question as PartialEq>⟧.eq }
    ensures entry { IsEquality ⟦<Entry as PartialEq>⟧.eq }
    ensures missing { IsEquality ⟦<Missing as PartialEq>⟧.eq }
    ensures table_error { IsEquality ⟦<TableError as PartialEq>⟧.eq }
{}
