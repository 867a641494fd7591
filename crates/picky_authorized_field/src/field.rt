//! The fields of authorized keys, and their numbers.

ghost use Rattle.std.specs.Prelude.{◌≡◌};
ghost use Rattle.picky_authorized_field.specs.Numbered.{field_numbered, of_key as of_key_field, of_option as of_option_field};

/// What is asked of authorized keys.
#[derive(Clone, Copy)]
pub enum AuthField {
    /// How many entries they have, in decimal.
    Entries,
    /// All entries at once.
    AllEntries,
    /// A field of one entry.
    OfEntry(EntryField),
}

/// A field of an entry.
#[derive(Clone, Copy)]
pub enum EntryField {
    /// The number of its line, in decimal.
    LineNumber,
    /// `key`; `bad-options`; or the name of why its public key line is refused.
    State,
    /// A field of its key.
    OfKey(KeyField),
}

/// A field of an entry's key.
#[derive(Clone, Copy)]
pub enum KeyField {
    /// The public key line, without an end.
    KeyLine,
    /// The name of its type.
    KeyType,
    /// Its blob.
    KeyBlob,
    /// The comment beside it.
    Comment,
    /// How many options stand before it, in decimal.
    Options,
    /// All of them at once.
    OptionList,
    /// A field of one option.
    OfOption(OptionField),
}

/// A field of an option.
#[derive(Clone, Copy)]
pub enum OptionField {
    /// Its name, in lower case.
    OptionName,
    /// Its value; no bytes where it has none.
    OptionValue,
    /// `1` where it has a value, and else `0`.
    OptionHasValue,
}

/// The field of a number.
pub fn field_by_number(number: u32) -> Option<AuthField>
    ensures { result ≡ field_numbered number }
{
    if number == 1 {
        return Some(AuthField::Entries);
    }
    if number == 2 {
        return Some(AuthField::OfEntry(EntryField::LineNumber));
    }
    if number == 3 {
        return Some(AuthField::OfEntry(EntryField::State));
    }
    if number == 4 {
        return of_key(KeyField::KeyLine);
    }
    if number == 5 {
        return of_key(KeyField::KeyType);
    }
    if number == 6 {
        return of_key(KeyField::KeyBlob);
    }
    if number == 7 {
        return of_key(KeyField::Comment);
    }
    if number == 8 {
        return of_key(KeyField::Options);
    }
    if number == 9 {
        return of_option(OptionField::OptionName);
    }
    if number == 10 {
        return of_option(OptionField::OptionValue);
    }
    if number == 11 {
        return of_option(OptionField::OptionHasValue);
    }
    if number == 12 {
        return of_key(KeyField::OptionList);
    }
    if number == 13 {
        return Some(AuthField::AllEntries);
    }
    None
}

/// The field of a key.
fn of_key(field: KeyField) -> Option<AuthField>
    ensures { result ≡ of_key_field field }
{
    Some(AuthField::OfEntry(EntryField::OfKey(field)))
}

/// The field of an option.
fn of_option(field: OptionField) -> Option<AuthField>
    ensures { result ≡ of_option_field field }
{
    of_key(KeyField::OfOption(field))
}
