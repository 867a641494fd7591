//! Reads the lines of a PuTTY private key file, typed.

ghost use Rattle.std.specs.Prelude.{◌≡◌, ℕ, List, [], IfNone, IfSome, OnErr};
ghost use Rattle.picky_text.specs.Lines.{lines};
ghost use Rattle.picky_wire_base.specs.Gives.{Gives};
ghost use Rattle.picky_kv_words.specs.Field.{field_value};
ghost use Rattle.picky_kv.specs.Lines.{next_pair, next_block, value_alone};
ghost use Rattle.picky_kv.specs.Lines.{key_and_value as cut};
ghost use Rattle.picky_kv.specs.Context.{in_context};

use crate::counted::{block_value, take_counted};
use crate::error::KvError;
use crate::literals::SEPARATOR;
use crate::numbers::LineCount;
use crate::pairs::{PpkKeyValue, PpkMultilineKeyValue};
use picky_kv_words::{PpkBlock, PpkField, PpkLiteral, PpkValueError};
use picky_text::LineReader;
use picky_wire_base::Text;
use std::alloc::Global;
use std::marker::Model;

/// The lines that are left. After a refused read there are none.
#[derive(Drop)]
pub struct PuttyKvReader<'a> {
    lines: LineReader<'a>,
}

impl<'a> Model for PuttyKvReader<'a> {
    ghost Value = { List (List ℕ) };

    ghost view = { λ r. r.lines };
}

impl<'a> PuttyKvReader<'a> {
    /// A reader at the first line of the text.
    pub fn from_str(text: &'a str) -> PuttyKvReader<'a>
        ensures { result ≡ lines text.now }
    {
        PuttyKvReader {
            lines: LineReader::new(text),
        }
    }

    /// The key and the value of the next line, split at its first `: `.
    ///
    /// Refuses, in order: `EndOfInput`, `InvalidKeyValueFormat`, `InvalidInput` for the key and
    /// then for the value, `TooLong`; and then `EndOfInput` for ever.
    pub fn next_key_value<T: PpkKeyValue>(
        &mut self,
        alloc: Global,
    ) -> Result<(T::Key, T::Value), KvError>
        ensures gives { Gives KvError.NoMemory (λ pair. (pair, self.new)) result
            (next_pair T.Key.field T.Value.field T.Key.name self.old) }
        ensures ended { OnErr result (self.new ≡ []) }
    {
        match read_pair::<T::Key, T::Value>(&mut self.lines, alloc) {
            Ok(pair) => Ok(pair),
            Err(e) => {
                self.fail();
                Err(e)
            }
        }
    }

    /// The value of the next line. Refuses as `next_key_value`.
    pub fn next_value<T: PpkKeyValue>(&mut self, alloc: Global) -> Result<T::Value, KvError>
        ensures gives { Gives KvError.NoMemory (λ value. (value, self.new)) result
            (value_alone (next_pair T.Key.field T.Value.field T.Key.name self.old)) }
        ensures ended { OnErr result (self.new ≡ []) }
    {
        let (_, value) = self.next_key_value::<T>(alloc)?;
        Ok(value)
    }

    /// The key of the next line, and the value of as many lines after it as that line says.
    ///
    /// Refuses, in order: what `next_key_value` does, with `InvalidInput` for the count,
    /// `EndOfInput`, `InvalidInput` for the joined lines, `TooLong`; and then `EndOfInput` for
    /// ever.
    pub fn next_multiline_key_value<T: PpkMultilineKeyValue>(
        &mut self,
        alloc: Global,
    ) -> Result<(T::Key, T::Value), KvError>
        ensures gives { Gives KvError.NoMemory (λ pair. (pair, self.new)) result
            (next_block T.Key.field T.Value.field T.Key.name self.old) }
        ensures ended { OnErr result (self.new ≡ []) }
    {
        match read_block::<T::Key, T::Value>(&mut self.lines, alloc) {
            Ok(pair) => Ok(pair),
            Err(e) => {
                self.fail();
                Err(e)
            }
        }
    }

    /// The value of the next block. Refuses as `next_multiline_key_value`.
    pub fn next_multiline_value<T: PpkMultilineKeyValue>(
        &mut self,
        alloc: Global,
    ) -> Result<T::Value, KvError>
        ensures gives { Gives KvError.NoMemory (λ value. (value, self.new)) result
            (value_alone (next_block T.Key.field T.Value.field T.Key.name self.old)) }
        ensures ended { OnErr result (self.new ≡ []) }
    {
        let (_, value) = self.next_multiline_key_value::<T>(alloc)?;
        Ok(value)
    }

    fn fail(&mut self)
        ensures { self.new ≡ [] }
    {
        self.lines = LineReader::new("");
    }
}

fn read_pair<K: PpkField + PpkLiteral, V: PpkField>(
    lines: &mut LineReader<'_>,
    alloc: Global,
) -> Result<(K, V), KvError>
    ensures { Gives KvError.NoMemory (λ pair. (pair, lines.new)) result (next_pair K.field V.field K.name lines.old) }
{
    match lines.next_line() {
        Some(line) => match key_and_value(line) {
            Some((key, value)) => {
                let key = read_in::<K, K>(alloc, key)?;
                let value = read_in::<K, V>(alloc, value)?;
                Ok((key, value))
            }
            None => Err(KvError::InvalidKeyValueFormat),
        },
        None => Err(KvError::EndOfInput),
    }
}

fn read_block<K: PpkField + PpkLiteral, V: PpkBlock>(
    lines: &mut LineReader<'_>,
    alloc: Global,
) -> Result<(K, V), KvError>
    ensures { Gives KvError.NoMemory (λ pair. (pair, lines.new)) result (next_block K.field V.field K.name lines.old) }
{
    let (key, count) = read_pair::<K, LineCount>(lines, alloc)?;
    let block = take_counted(lines, alloc, count.number())?;
    let value = block_value::<K, V>(alloc, block)?;
    Ok((key, value))
}

fn key_and_value(line: &str) -> Option<(&str, &str)>
    ensures none { IfNone result (cut line.now ≡ None) }
    ensures parts { IfSome result (λ p. cut line.now ≡ Some (p.0.now, p.1.now)) }
{
    line.split_once(SEPARATOR)
}

/// The value of a text in a line whose key is of type `K`. Refuses, in order: `InvalidInput`, `TooLong`.
pub(crate) fn read_in<K: PpkLiteral, V: PpkField>(alloc: Global, text: &str) -> Result<V, KvError>
    ensures { Gives KvError.NoMemory (λ value. value) result (in_context K.name (field_value V.field text.now)) }
{
    match V::read(alloc, text) {
        Ok(value) => Ok(value),
        Err(e) => match e {
            PpkValueError::Parsing(e) => match Text::new(alloc, K::context()) {
                Ok(context) => Err(KvError::InvalidInput {
                    context,
                    expected: e.expected,
                    actual: e.actual,
                }),
                Err(_) => {
                    drop(e);
                    Err(KvError::NoMemory)
                }
            },
            PpkValueError::TooLong => {
                drop(e);
                Err(KvError::TooLong)
            }
            PpkValueError::NoMemory => {
                drop(e);
                Err(KvError::NoMemory)
            }
        },
    }
}
