//! The laws of this crate, each as the contract of a function that does nothing.

ghost use Rattle.std.specs.Prelude.{◌≡◌, ◌≢◌, ◌<◌, ◌≤◌, ◌^◌, ◌++◌, ◌∷◌, ◌↔◌, ℕ, List, length, Ok, Err, Some};
ghost use Rattle.std.specs.Str.{IsUtf8};
ghost use Rattle.picky_keys.specs.declared.key.SshBasePublicKey.{SshBasePublicKey as IssuerKey};
ghost use Rattle.picky_keys.specs.declared.error.SshPublicKeyError.{SshPublicKeyError as KeyRefusal};
ghost use Rattle.picky_keys.specs.FromWire.{public_key_error};
ghost use Rattle.picky_wire.specs.OfWire.{IsErrorOfBytes};
ghost use Rattle.picky_wire_base.specs.Equality.{IsEquality};
ghost use Rattle.picky_cert_builder.specs.declared.error.SshCertificateGenerationError.{SshCertificateGenerationError as Refusal};
ghost use Rattle.picky_cert_builder.specs.declared.error.SshCertificateGenerationError.TheVariants as refusals;
ghost use Rattle.picky_issuing.specs.Parts.{cut};
ghost use Rattle.picky_input.specs.Input.{input_limit};
ghost use Rattle.picky_ledger.specs.Apply.{judged_request_line, IssuerTerms};
ghost use Rattle.picky_ledger.specs.LedgerText.{ledger_in, ledger_text, IsFirstBadLine};
ghost use Rattle.picky_ledger.specs.Replies.{replies_text};
ghost use Rattle.picky_ledger.specs.Run.{asked, IsAnswerTo};
ghost use Rattle.picky_ledger.specs.Runs.{IsAfter, Runs};
ghost use Rattle.picky_ledger.specs.State.{IsLedger, State};
ghost use Rattle.picky_ledger.specs.declared.entry.Entry.{Entry as AnEntry};
ghost use Rattle.picky_ledger.specs.declared.reply.Reply.{Reply as AReply};
ghost use Rattle.picky_ledger.specs.declared.reply.Reply.TheVariants as replies;
ghost use Rattle.picky_ledger.specs.declared.status.LedgerStatus.{LedgerStatus as Status};

use crate::apply::LedgerError;
use crate::entry::Entry;
use crate::ledger::{Ledger, LedgerTextError};
use crate::reply::Reply;
use crate::status::LedgerStatus;
use picky_suite::Signer;

/// A ledger's text is read as that ledger, and only a ledger's text is read.
pub fn text_is_read_back()
    ensures back { (l : State) → IsLedger l → length (ledger_text l) < 2 ^ 32 → ledger_in (ledger_text l) ≡ Ok l }
    ensures only { (text : List ℕ) (l : State) → IsUtf8 text → length text < 2 ^ 32 → ledger_in text ≡ Ok l
        → IsLedger l × (text ≡ ledger_text l) }
{}

/// A text that is no ledger's is refused by the number of its first bad line: a ledger's text has the lines before it, and none
/// has this one behind them.
pub fn text_is_refused_at_its_first_bad_line()
    ensures { (text : List ℕ) (n : ℕ) → IsUtf8 text → length text < 2 ^ 32 → (ledger_in text ≡ Err n) ↔ IsFirstBadLine n text }
{}

/// What a run writes is, cut at its first line `%%`, the new ledger's text and the replies.
pub fn output_is_cut_at_its_first_mark<G: Signer>(_signer: &G)
    ensures { (fresh input text : List ℕ) (answer : IsAnswerTo (G.signs _signer.now) fresh input text)
        → cut text ≡ Some (ledger_text answer.new, replies_text answer.given.requests answer.replies) }
{}

/// What requests leave: the entries that a ledger had stay in front, each behind them is the certificate of a request, signed by
/// the device, and a line that has its entry is answered with the serial of that.
pub fn requests_leave_a_ledger<G: Signer>(_signer: &G)
    ensures { (issuer : IssuerKey) (old new : State) (fresh : List ℕ) (lines : List (List ℕ)) (rs : List AReply) → IsLedger old
        → Runs (G.signs _signer.now) issuer old fresh lines new rs → IsAfter (G.signs _signer.now) issuer old lines new rs }
{}

/// A line that a ledger has is answered with its serial again, whoever issues and whatever the nonce.
pub fn kept_line_is_answered_again()
    ensures { (t : IssuerTerms) (l : State) (front more : List AnEntry) (e : AnEntry) → IsLedger l → l.entries ≡ front ++ e ∷ more
        → judged_request_line t l e.request ≡ Err (replies.Again e.serial) }
{}

/// Bytes are refused as too many, or as no text, exactly where they are that.
pub fn bytes_are_refused_for_what_they_are()
    ensures too_long { (fresh input : List ℕ) → (asked fresh input ≡ Err LedgerStatus.InputTooLong) ↔ (input_limit < length input) }
    ensures not_utf8 { (fresh input : List ℕ) → (asked fresh input ≡ Err LedgerStatus.InputNotUtf8)
        ↔ ((length input ≤ input_limit) × (IsUtf8 input → ⊥)) }
{}

/// No bytes, no issuer's line and no request are refused for a fault of a source or a device, or for want of memory.
pub fn bytes_are_refused_for_themselves()
    ensures source { (fresh input : List ℕ) (status : Status) → asked fresh input ≡ Err status
        → (status ≢ LedgerStatus.ReadFault) × (status ≢ LedgerStatus.OutsideFault) × (status ≢ LedgerStatus.NoMemory) }
    ensures issuer { (fresh input : List ℕ) (e : KeyRefusal) → asked fresh input ≡ Err (LedgerStatus.BadIssuer e)
        → IsErrorOfBytes public_key_error e }
    ensures request { (t : IssuerTerms) (l : State) (line : List ℕ) (e : Refusal)
        → judged_request_line t l line ≡ Err (replies.Refused e) → (e ≢ refusals.NoMemory) × (e ≢ refusals.SignatureError) }
{}

/// Two values are equal exactly where their contents are.
pub fn equality_is_of_contents()
    ensures entry { IsEquality ⟦<Entry as PartialEq>⟧.eq }
    ensures reply { IsEquality ⟦<Reply as PartialEq>⟧.eq }
    ensures error { IsEquality ⟦<LedgerError as PartialEq>⟧.eq }
    ensures text { IsEquality ⟦<LedgerTextError as PartialEq>⟧.eq }
    ensures status { IsEquality ⟦<LedgerStatus as PartialEq>⟧.eq }
{}
