//! The laws of this crate, each as the contract of a function that does nothing.

ghost use Rattle.std.specs.Prelude.{◌≡◌, ◌^◌, ◌<◌, ◌≤◌, ℕ, List, Ok, Some, length, slice_get};
ghost use Rattle.picky_wire_base.specs.Equality.{IsEquality};
ghost use Rattle.picky_keys.specs.LineRefusal.{line_meaning};
ghost use Rattle.picky_keys.specs.declared.key.SshPublicKey.{SshPublicKey as Key};
ghost use Rattle.picky_authorized.specs.Entries.{entries_in};
ghost use Rattle.picky_authorized.specs.declared.auth_option.AuthOption.{AuthOption as AnOption};
ghost use Rattle.picky_authorized.specs.declared.entry.AuthContent.TheVariants as contents;
ghost use Rattle.picky_authorized.specs.declared.entry.AuthEntry.{AuthEntry as Entry};
ghost use Rattle.picky_authorized_field.specs.Call.{entries_of, field_in};
ghost use Rattle.picky_authorized_field.specs.Key.{key_line};
ghost use Rattle.picky_authorized_field.specs.declared.field.AuthField.TheVariants as fields;
ghost use Rattle.picky_authorized_field.specs.declared.field.EntryField.TheVariants as entry_fields;
ghost use Rattle.picky_authorized_field.specs.declared.field.KeyField.TheVariants as key_fields;

use crate::error::AuthFieldError;

/// A later entry is of a later line. Lines count from 1, and a text has no more of them than bytes.
pub fn entries_are_in_the_order_of_lines()
    ensures order { (text : List ℕ) (i j : ℕ) (a b : Entry) → i < j → slice_get (entries_in text) i ≡ Some a
        → slice_get (entries_in text) j ≡ Some b → a.line < b.line }
    ensures within { (text : List ℕ) (place : ℕ) (e : Entry) → slice_get (entries_in text) place ≡ Some e
        → (1 ≤ e.line) × (e.line ≤ length text) }
{}

/// The key line of an entry is read as its key and its comment.
pub fn key_line_is_read_back()
    ensures says { (text : List ℕ) (entries : List Entry) (place item : ℕ) (e : Entry) (options : List AnOption) (key : Key)
        → entries_of text ≡ Ok entries → slice_get entries place ≡ Some e → e.content ≡ contents.Key options key
        → field_in (fields.OfEntry (entry_fields.OfKey key_fields.KeyLine)) place item text ≡ Ok (key_line key) }
    ensures read { (text : List ℕ) (entries : List Entry) (place : ℕ) (e : Entry) (options : List AnOption) (key : Key)
        → entries_of text ≡ Ok entries → slice_get entries place ≡ Some e → e.content ≡ contents.Key options key
        → length (key_line key) < 2 ^ 32 → line_meaning (key_line key) ≡ Ok key }
{}

/// Two refusals are equal exactly where they are the same.
pub fn equality_is_of_contents()
    ensures { IsEquality ⟦<AuthFieldError as PartialEq>⟧.eq }
{}
