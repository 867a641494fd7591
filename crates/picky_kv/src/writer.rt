//! Writes the lines of a PuTTY private key file.

ghost use Rattle.std.specs.Prelude.{◌≡◌, ◌^◌, ◌<◌, ◌++◌, [], ◌∷◌, length, nat_lt, OnErr};
ghost use Rattle.std.specs.Prelude.{string_bytes, string_len};
ghost use Rattle.std.specs.Str.{IsAscii};
ghost use Rattle.picky_wire_base.specs.Gives.{Gives};
ghost use Rattle.picky_kv.specs.Output.{line_end, pair_line as line_of, extended};
ghost use Rattle.picky_kv.specs.Output.{with_lines, with_block};

use crate::error::KvError;
use crate::lines::{MAX_LINE_COUNT, line_count, push_block, push_line};
use crate::pairs::{PpkKeyValue, PpkMultilineKeyValue};
use picky_kv_words::{PpkField, PpkLiteral, PpkSingle};
use picky_text::LineEnd;
use picky_wire_base::{SizeError, Text};
use std::alloc::Global;
use std::marker::Model;

/// The lines so far, as a text of fewer than 2^32 bytes.
#[derive(Drop)]
pub struct PuttyKvWriter {
    alloc: Global,
    text: String,
    end: LineEnd,
}

impl Model for PuttyKvWriter {
    ghost use Rattle.std.specs.Prelude.{◌^◌, ◌<◌, string_bytes, string_len};
    ghost use Rattle.picky_kv.specs.Output.{LinesOutput};

    ghost Value = { LinesOutput };

    ghost view = { λ w. record { end = w.end; text = string_bytes w.text } };

    ghost invariant = { λ w. string_len w.text < 2 ^ 32 };
}

impl PuttyKvWriter {
    /// An empty writer, whose lines end in CRLF or in LF.
    pub fn new(alloc: Global, crlf: bool) -> PuttyKvWriter
        ensures { result ≡ record { end = line_end crlf; text = [] } }
    {
        PuttyKvWriter {
            alloc,
            text: String::new(alloc),
            end: if crlf { LineEnd::CrLf } else { LineEnd::Lf },
        }
    }

    /// Appends the line of the key and the value.
    ///
    /// Refuses, in order: `TooLong`, where the text would have 2^32 bytes or more.
    pub fn write_key_value<T: PpkKeyValue>(
        &mut self,
        key: &T::Key,
        value: &T::Value,
    ) -> Result<(), KvError>
        ensures gives { Gives KvError.NoMemory (λ _. self.new) result
            (with_lines self.old
            (line_of (T.Key.literal key.now) (T.Value.field.spelling value.now) ∷ [])) }
        ensures unchanged { OnErr result (self.new ≡ self.old) }
        ensures fits { T.Value.field.fits value.now }
    {
        match value.write(self.alloc) {
            Ok(value) => {
                let mut line = String::new(self.alloc);
                match push_line(&mut line, key.as_static_str(), value.as_str(), self.end) {
                    Ok(()) => self.append(line.as_str()),
                    Err(_) => Err(KvError::NoMemory),
                }
            }
            Err(SizeError::TooLong) => Err(KvError::TooLong),
            Err(SizeError::NoMemory) => Err(KvError::NoMemory),
        }
    }

    /// The same with the key's one value. Refuses as `write_key_value`.
    pub fn write_value<T: PpkKeyValue>(&mut self, value: &T::Value) -> Result<(), KvError>
    where
        T::Key: PpkSingle,
        ensures gives { Gives KvError.NoMemory (λ _. self.new) result
            (with_lines self.old
            (line_of (T.Key.literal T.Key.one) (T.Value.field.spelling value.now) ∷ [])) }
        ensures unchanged { OnErr result (self.new ≡ self.old) }
        ensures fits { T.Value.field.fits value.now }
    {
        self.write_key_value::<T>(&T::Key::single(), value)
    }

    /// Appends a block: the line of the key and the count, and the value's text in lines of 64.
    ///
    /// Refuses, in order: `TooLong` as `write_key_value`, `TooManyLines`.
    pub fn write_multiline_key_value<T: PpkMultilineKeyValue>(
        &mut self,
        key: &T::Key,
        value: &T::Value,
    ) -> Result<(), KvError>
        ensures gives { Gives KvError.NoMemory (λ _. self.new) result
            (with_block self.old (T.Key.literal key.now) (T.Value.field.spelling value.now)) }
        ensures unchanged { OnErr result (self.new ≡ self.old) }
        ensures fits { T.Value.field.fits value.now }
    {
        match value.write(self.alloc) {
            Ok(text) => self.append_block(key.as_static_str(), text.as_str()),
            Err(SizeError::TooLong) => Err(KvError::TooLong),
            Err(SizeError::NoMemory) => Err(KvError::NoMemory),
        }
    }

    /// The same with the key's one value. Refuses as `write_multiline_key_value`.
    pub fn write_multiline_value<T: PpkMultilineKeyValue>(
        &mut self,
        value: &T::Value,
    ) -> Result<(), KvError>
    where
        T::Key: PpkSingle,
        ensures gives { Gives KvError.NoMemory (λ _. self.new) result
            (with_block self.old (T.Key.literal T.Key.one) (T.Value.field.spelling value.now)) }
        ensures unchanged { OnErr result (self.new ≡ self.old) }
        ensures fits { T.Value.field.fits value.now }
    {
        self.write_multiline_key_value::<T>(&T::Key::single(), value)
    }

    /// The text of all lines.
    pub fn finish(self) -> Text
        ensures { result ≡ self.text }
    {
        Text::from_string(self.text)
    }

    fn append_block(&mut self, key: &str, text: &str) -> Result<(), KvError>
        requires { IsAscii text.now }
        ensures gives { Gives KvError.NoMemory (λ _. self.new) result (with_block self.old key.now text.now) }
        ensures unchanged { OnErr result (self.new ≡ self.old) }
    {
        let mut block = String::new(self.alloc);
        match push_block(self.alloc, &mut block, key, text, self.end) {
            Ok(()) => {
                if self.has_room(block.as_str()) && line_count(text) > MAX_LINE_COUNT {
                    return Err(KvError::TooManyLines);
                }
                self.append(block.as_str())
            }
            Err(_) => Err(KvError::NoMemory),
        }
    }

    fn append(&mut self, piece: &str) -> Result<(), KvError>
        ensures gives { Gives KvError.NoMemory (λ _. self.new) result (extended self.old piece.now) }
        ensures unchanged { OnErr result (self.new ≡ self.old) }
    {
        if !self.has_room(piece) {
            return Err(KvError::TooLong);
        }
        match self.text.push_str(piece) {
            Ok(()) => Ok(()),
            Err(_) => Err(KvError::NoMemory),
        }
    }

    fn has_room(&self, piece: &str) -> bool
        ensures { result ≡ nat_lt (length (self.now.text ++ piece.now)) (2 ^ 32) }
    {
        piece.len() < (1 << 32) - self.text.len()
    }
}
