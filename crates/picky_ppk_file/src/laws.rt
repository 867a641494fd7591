//! The laws of this crate, each as the contract of a function that does nothing.

ghost use Rattle.std.specs.Prelude.{◌≡◌, ◌++◌, List, ℕ, Ok};
ghost use Rattle.picky_wire_base.specs.Numbers.{IsBytes};
ghost use Rattle.picky_text.specs.Lines.{IsLine};
ghost use Rattle.picky_wire_base.specs.Equality.{IsEquality};
ghost use Rattle.picky_ppk_file.specs.declared.file.PpkFile.{PpkFile as File};
ghost use Rattle.picky_ppk_file.specs.File.{IsFile, version_of};
ghost use Rattle.picky_ppk_file.specs.FileText.{SaysFile};
ghost use Rattle.picky_ppk_file.specs.FileRefusal.{file_meaning};
ghost use Rattle.picky_ppk_file.specs.Written.{line_end_of, file_spelled};

use crate::file::{PpkFile, PpkSealing};

/// A text means a file exactly where its lines say it, and they say one.
pub fn text_means_what_it_says()
    ensures says { (text : List ℕ) (f : File) → file_meaning text ≡ Ok f → SaysFile text f }
    ensures means { (text : List ℕ) (f : File) → SaysFile text f → file_meaning text ≡ Ok f }
    ensures one { (text : List ℕ) (f g : File) → SaysFile text f → SaysFile text g → f ≡ g }
{}

/// What is written of a file is read back, whatever follows it, where the comment has no LF, and in version 3 no CR at its
/// end.
pub fn file_is_read_back()
    ensures { (f : File) (text more : List ℕ) → IsFile f → IsLine (line_end_of (version_of f.sealing)) f.comment
        → file_spelled f ≡ Ok text → file_meaning (text ++ more) ≡ Ok f }
{}

/// The fields that a text of bytes has are in their ranges.
pub fn fields_are_in_their_ranges()
    ensures { (text : List ℕ) (f : File) → IsBytes text → file_meaning text ≡ Ok f → IsFile f }
{}

/// Two files are equal exactly where their fields are, and so is what seals them.
pub fn equality_is_of_contents()
    ensures file { IsEquality ⟦<PpkFile as PartialEq>⟧.eq }
    ensures sealing { IsEquality ⟦<PpkSealing as PartialEq>⟧.eq }
{}
