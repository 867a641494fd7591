//! What a proof knows of a round: which signatures are good, and its table.

ghost use Rattle.std.specs.Prelude.{List, Option, None};
ghost use Rattle.picky_ask.specs.declared.question.Entry.{Entry as AnEntry};
ghost use Rattle.picky_ask_verifier.specs.Verdicts.{SignatureTest, nothing_good};

use std::marker::Brand;

/// The test for good signatures of the cryptography that answered a table, and the table, where it is told. A call at `Brand`
/// picks both in its proof: no code reads them.
pub trait KnownVerdicts {
    ghost test: { SignatureTest };

    ghost table: { Option (List AnEntry) };
}

impl KnownVerdicts for Brand {
    ghost test = { nothing_good };

    ghost table = { None };
}
