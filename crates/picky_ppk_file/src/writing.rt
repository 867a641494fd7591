//! A PuTTY private key file written.

ghost use Rattle.std.specs.Prelude.{◌≡◌, ◌&&◌, ◌++◌, ◌+◌, ◌*◌, ◌^◌, ◌<◌, ◌≤◌, [], ◌∷◌, List, ℕ, IfOk, OnOk, Ok};
ghost use Rattle.std.specs.Prelude.{string_bytes};
ghost use Rattle.std.specs.Fmt.{decimal};
ghost use Rattle.hex.specs.Hex.{encode_lower};
ghost use Rattle.picky_wire_base.specs.Numbers.{IsBytes};
ghost use Rattle.picky_text.specs.Appended.{AppendsAll};
ghost use Rattle.picky_text.specs.Base64.{base64_of};
ghost use Rattle.picky_text.specs.Lines.{IsLine, text_of};
ghost use Rattle.picky_wire_base.specs.Gives.{Gives};
ghost use Rattle.picky_kv.specs.Output.{pair_line, block_lines};
ghost use Rattle.picky_ppk_file.specs.File.{version_of};
ghost use Rattle.picky_ppk_file.specs.File.{AreParams, IsSealing, IsFile};
ghost use Rattle.picky_ppk_file.specs.FileRefusal.{file_meaning};
ghost use Rattle.picky_ppk_file.specs.Written.{line_end_of as end_of_version, file_text, argon2_lines};
ghost use Rattle.picky_ppk_file.specs.Written.{sealing_lines, fits_block, file_spelled};

use crate::file::{PpkFile, PpkSealing};
use picky_kv::PpkLiteral;
use picky_kv::lines::{MAX_LINE_COUNT, push_block, push_line};
use picky_kv::literals::{
    ARGON2_MEMORY, ARGON2_PARALLELISM, ARGON2_PASSES, ARGON2_SALT, COMMENT, ENCRYPTION,
    KEY_DERIVATION, PRIVATE_LINES, PRIVATE_MAC, PUBLIC_LINES,
};
use picky_ppk_parts::{Argon2Params, PpkVersion, PuttyError};
use picky_text::{LINE_LEN, LineEnd, encode};
use picky_wire::{MAX_LEN, Text};
use std::alloc::{AllocError, Global};

/// How many bytes a block holds at most: three in four characters of base64.
pub const MAX_BLOCK_LEN: usize = MAX_LINE_COUNT * LINE_LEN / 4 * 3;

/// How many bytes the lines have without the comment and what is written of bytes, or more.
const LINES_ROOM: usize = 512;

impl PpkFile {
    /// The text, with CR LF in version 2 and LF in version 3.
    ///
    /// Refuses, in order: `TooLong`, where it has 2^32 bytes or more; `TooManyLines`, where the blob or the private bytes
    /// have more than 3,145,680 bytes.
    #[tactic(auto, unfolding(crate::specs::Written::file_spelled), using(crate::proofs::ReadBackLaws::written_texts))]
    pub fn to_string(&self, alloc: Global) -> Result<Text, PuttyError>
        ensures gives { Gives PuttyError.NoMemory (λ text. text) result (file_spelled self.now) }

        // A text is read back, whatever follows it, unless its comment breaks the line.
        ensures read_back { IsLine (end_of_version (version_of self.now.sealing)) self.now.comment
            → IfOk result (λ text. (more : List ℕ) → file_meaning (text ++ more) ≡ Ok self.now) }
    {
        match text_string(alloc, self) {
            Ok(text) => {
                if text.len() > MAX_LEN {
                    return Err(PuttyError::TooLong);
                }
                if !blocks_fit(self) {
                    return Err(PuttyError::TooManyLines);
                }
                Ok(Text::from_string(text))
            }
            Err(_) => Err(PuttyError::NoMemory),
        }
    }
}

/// The text of a file, however long.
#[tactic(auto, unfolding(crate::specs::Written::file_text, crate::specs::Written::file_lines))]
fn text_string(alloc: Global, file: &PpkFile) -> Result<String, AllocError>
    ensures text { IfOk result (λ text. string_bytes text ≡ file_text file.now) }
    ensures ranges { OnOk result (IsFile file.now) }
{
    let version = file.sealing.version();
    let end = end_of(version);
    let encryption = file.sealing.encryption();
    let mut text = String::with_capacity(alloc, text_room(file))?;
    push_line(
        &mut text,
        version.as_static_str(),
        file.algorithm.as_static_str(),
        end,
    )?;
    push_line(&mut text, ENCRYPTION, encryption.as_static_str(), end)?;
    push_line(&mut text, COMMENT, file.comment.as_str(), end)?;
    push_base64(
        alloc,
        &mut text,
        PUBLIC_LINES,
        file.public_key.as_slice(),
        end,
    )?;
    push_sealing(alloc, &mut text, &file.sealing, end)?;
    push_base64(
        alloc,
        &mut text,
        PRIVATE_LINES,
        file.private_bytes.as_slice(),
        end,
    )?;
    push_hex(alloc, &mut text, PRIVATE_MAC, file.mac.as_slice(), end)?;
    Ok(text)
}

/// Appends the lines of what seals a file.
fn push_sealing(
    alloc: Global,
    text: &mut String,
    sealing: &PpkSealing,
    end: LineEnd,
) -> Result<(), AllocError>
    ensures ok { OnOk result (AppendsAll text.old text.new (text_of end (sealing_lines sealing.now))) }
    ensures ranges { OnOk result (IsSealing sealing.now) }
{
    match sealing {
        PpkSealing::Unsealed(_) | PpkSealing::SealedV2 => Ok(()),
        PpkSealing::SealedV3(params) => push_argon2(alloc, text, params, end),
    }
}

/// Appends the lines of a derivation by Argon2.
#[tactic(auto, unfolding(crate::specs::Written::argon2_lines))]
fn push_argon2(
    alloc: Global,
    text: &mut String,
    params: &Argon2Params,
    end: LineEnd,
) -> Result<(), AllocError>
    ensures ok { OnOk result (AppendsAll text.old text.new (text_of end (argon2_lines params.now))) }
    ensures ranges { OnOk result (AreParams params.now) }
{
    push_line(text, KEY_DERIVATION, params.flavor.as_static_str(), end)?;
    push_number(alloc, text, ARGON2_MEMORY, params.memory, end)?;
    push_number(alloc, text, ARGON2_PASSES, params.passes, end)?;
    push_number(alloc, text, ARGON2_PARALLELISM, params.parallelism, end)?;
    push_hex(alloc, text, ARGON2_SALT, params.salt.as_slice(), end)?;
    Ok(())
}

/// Appends the block of the bytes in base64.
fn push_base64(
    alloc: Global,
    text: &mut String,
    key: &str,
    bytes: &[u8],
    end: LineEnd,
) -> Result<(), AllocError>
    ensures ok { OnOk result (AppendsAll text.old text.new (text_of end (block_lines key.now (base64_of bytes.now)))) }
    ensures bytes { IsBytes bytes.now }
{
    let body = encode(alloc, bytes)?;
    push_block(alloc, text, key, body.as_str(), end)
}

/// Appends the line of the bytes in hex.
fn push_hex(
    alloc: Global,
    text: &mut String,
    key: &str,
    bytes: &[u8],
    end: LineEnd,
) -> Result<(), AllocError>
    ensures ok { OnOk result (AppendsAll text.old text.new (text_of end (pair_line key.now (encode_lower bytes.now) ∷ []))) }
    ensures bytes { IsBytes bytes.now }
{
    let digits = hex::encode(alloc, bytes)?;
    push_line(text, key, digits.as_str(), end)
}

/// Appends the line of the number in decimal.
fn push_number(
    alloc: Global,
    text: &mut String,
    key: &str,
    number: u32,
    end: LineEnd,
) -> Result<(), AllocError>
    ensures ok { OnOk result (AppendsAll text.old text.new (text_of end (pair_line key.now (decimal number) ∷ []))) }
    ensures range { number < 2 ^ 32 }
{
    let digits = format!(in alloc; "{}", number)?;
    push_line(text, key, digits.as_str(), end)
}

/// What ends the lines of a version.
pub fn end_of(version: PpkVersion) -> LineEnd
    ensures { result ≡ end_of_version version }
{
    match version {
        PpkVersion::V2 => LineEnd::CrLf,
        PpkVersion::V3 => LineEnd::Lf,
    }
}

/// Whether each block has room for its bytes.
fn blocks_fit(file: &PpkFile) -> bool
    ensures { result ≡ (fits_block file.now.public_key && fits_block file.now.private_bytes) }
{
    file.public_key.as_slice().len() <= MAX_BLOCK_LEN
        && file.private_bytes.as_slice().len() <= MAX_BLOCK_LEN
}

/// Room for a file's text, so that it doesn't grow while it is written.
fn text_room(file: &PpkFile) -> usize
    ensures { result < 2 ^ 36 }
{
    let salt_len = match file.sealing.argon2_params() {
        Some(params) => params.salt.as_slice().len(),
        None => 0,
    };
    LINES_ROOM
        .saturating_add(file.comment.as_str().len())
        .saturating_add(block_room(file.public_key.as_slice().len()))
        .saturating_add(salt_len.saturating_mul(2))
        .saturating_add(block_room(file.private_bytes.as_slice().len()))
        .saturating_add(file.mac.as_slice().len().saturating_mul(2))
}

/// Room for the rows of so many bytes in base64.
fn block_room(len: usize) -> usize
    ensures { result ≤ 2 * len + 8 }
{
    let base64_len = (len / 3).saturating_add(1).saturating_mul(4);
    (base64_len / 32).saturating_add(base64_len)
}
