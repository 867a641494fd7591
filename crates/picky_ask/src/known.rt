//! What a proof knows of a round: its caller's cryptography, and its table.

ghost use Rattle.std.specs.Prelude.{List, Option, None};
ghost use Rattle.picky_suite.specs.Meanings.{Meanings, plain};
ghost use Rattle.picky_ask.specs.declared.question.Entry.{Entry as AnEntry};

use std::marker::Brand;

/// The meanings of the cryptography that answered a table, and the table, where it is told. A call at `Brand` picks both in
/// its proof: no code reads them.
pub trait Known {
    ghost known: { Meanings };

    ghost table: { Option (List AnEntry) };
}

impl Known for Brand {
    ghost known = { plain };

    ghost table = { None };
}
