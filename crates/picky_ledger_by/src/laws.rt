//! The laws of requests by question and answer, each as the contract of a function that does nothing.

ghost use Rattle.std.specs.Prelude.{◌≡◌, ◌++◌, List, [], ℕ, IsSome};
ghost use Rattle.std.specs.List.{AllByRecursion};
ghost use Rattle.picky_ask.specs.Lookup.{answer_to};
ghost use Rattle.picky_ask.specs.Signing.{SignsByTable, fresh_signer};
ghost use Rattle.picky_ask.specs.declared.question.Entry.{Entry as AnEntry};
ghost use Rattle.picky_ask.specs.declared.question.Question.{Question as AQuestion};
ghost use Rattle.picky_keys.specs.declared.key.SshBasePublicKey.{SshBasePublicKey as IssuerKey};
ghost use Rattle.picky_ledger.specs.Apply.{IssuerTerms, judged_request_line};
ghost use Rattle.picky_ledger.specs.Runs.{Runs};
ghost use Rattle.picky_ledger.specs.State.{State};
ghost use Rattle.picky_ledger.specs.declared.reply.Reply.{Reply as AReply};
ghost use Rattle.picky_ledger_by.specs.Applied.{AreAlike, AreGood};
ghost use Rattle.picky_ledger_by.specs.Lacked.{asked_questions, lacked};

use picky_suite::Signer;

/// Where each answer of a table is a good signature, what is signed as the table says is well signed.
pub fn good_answers_make_a_good_run<G: Signer>(_signer: &G)
    ensures { (entries : List AnEntry) (issuer : IssuerKey) (old new : State) (fresh : List ℕ) (lines : List (List ℕ))
        (replies : List AReply) → AreGood (G.signs _signer.now) entries
        → Runs (SignsByTable (fresh_signer entries)) issuer old fresh lines new replies
        → Runs (G.signs _signer.now) issuer old fresh lines new replies }
{}

/// What a request line asks for doesn't depend on the certificates that a ledger has: only on the serial that is next, and on the
/// ids, serials and lines of its entries.
pub fn what_is_asked_depends_on_no_signature()
    ensures { (t : IssuerTerms) (a b : State) (line : List ℕ) → AreAlike a b
        → judged_request_line t a line ≡ judged_request_line t b line }
{}

/// Requests have the same questions whatever is answered. Who answers each that is lacked, behind the answers that there were, is
/// asked no more.
pub fn two_calls_are_enough()
    ensures same { (entries others : List AnEntry) (issuer : IssuerKey) (l : State) (fresh : List ℕ) (lines : List (List ℕ))
        → asked_questions entries issuer l fresh lines ≡ asked_questions others issuer l fresh lines }
    ensures enough { (entries more : List AnEntry) (qs : List AQuestion)
        → AllByRecursion (λ q. IsSome (answer_to q (entries ++ more))) (lacked entries qs) → lacked (entries ++ more) qs ≡ [] }
{}
