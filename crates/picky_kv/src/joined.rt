//! Lines that are joined whatever they are.

ghost use Rattle.std.specs.Prelude.{◌≡◌, ◌++◌, ◌^◌, ◌<◌, [], length, true, false, OnOk, OnErr, IfOk, IfErr};
ghost use Rattle.std.specs.Prelude.{string_bytes};
ghost use Rattle.picky_wire_base.specs.Numbers.{IsBytes};
ghost use Rattle.picky_text.specs.Base64.{base64_of};
ghost use Rattle.picky_kv.specs.Joined.{joined_text, is_whole};

use crate::block::BlockDecoder;
use crate::block_error::BlockError;
use picky_wire_base::{Bytes, NoMemory};
use std::alloc::Global;

/// The lines so far, decoded; or, once one is refused, their text.
#[derive(Drop)]
pub enum JoinedLines {
    Decoded(BlockDecoder),
    Refused(String),
}

impl JoinedLines {
    /// No line yet. It takes no memory.
    pub fn new(alloc: Global) -> JoinedLines
        ensures { result ≡ JoinedLines.Decoded [] }
    {
        JoinedLines::Decoded(BlockDecoder::new(alloc))
    }

    /// Appends a line of any length. The first one that the decoder refuses turns what was decoded back into its text.
    /// Refuses: `NoMemory`.
    pub fn push(&mut self, line: &str) -> Result<(), NoMemory>
        ensures behind { OnOk result (joined_text self.new ≡ joined_text self.old ++ line.now) }
        ensures kept { OnErr result (joined_text self.new ≡ joined_text self.old) }
    {
        match self {
            JoinedLines::Decoded(decoder) => match decoder.push(line) {
                Ok(()) => Ok(()),
                Err(BlockError::NoMemory) => Err(NoMemory),
                Err(BlockError::BadBase64 | BlockError::TooLong) => {
                    let text = with_line(decoder.to_text()?, line)?;
                    *self = JoinedLines::Refused(text);
                    Ok(())
                }
            },
            JoinedLines::Refused(text) => match text.push_str(line) {
                Ok(()) => Ok(()),
                Err(_) => Err(NoMemory),
            },
        }
    }

    /// The bytes whose base64 the lines are, joined; or, where a line was refused or characters are pending, the lines,
    /// joined. Refuses: `NoMemory`.
    pub fn finish(self) -> Result<Result<Bytes, String>, NoMemory>
        ensures bytes { IfOk result (λ done. IfOk done (λ bytes. joined_text self ≡ base64_of bytes)) }
        ensures small { IfOk result (λ done. IfOk done (λ bytes. IsBytes bytes)) }
        ensures short { IfOk result (λ done. IfOk done (λ bytes. length bytes < 2 ^ 32)) }
        ensures whole { IfOk result (λ done. OnOk done (is_whole self ≡ true)) }
        ensures text { IfOk result (λ done. IfErr done (λ text. joined_text self ≡ string_bytes text)) }
        ensures refused { IfOk result (λ done. OnErr done (is_whole self ≡ false)) }
    {
        match self {
            JoinedLines::Decoded(decoder) => {
                if decoder.pending() == 0 {
                    match decoder.finish() {
                        Ok(bytes) => Ok(Ok(bytes)),
                        Err(_) => unreachable!(),
                    }
                } else {
                    match decoder.to_text() {
                        Ok(text) => Ok(Err(text)),
                        Err(NoMemory) => Err(NoMemory),
                    }
                }
            }
            JoinedLines::Refused(text) => Ok(Err(text)),
        }
    }
}

/// A text, and a line behind it.
fn with_line(text: String, line: &str) -> Result<String, NoMemory>
    ensures { IfOk result (λ new. string_bytes new ≡ string_bytes text ++ line.now) }
{
    let mut text = text;
    match text.push_str(line) {
        Ok(()) => Ok(text),
        Err(_) => Err(NoMemory),
    }
}
