//! How long the text of a PuTTY private key file is, by arithmetic.

ghost use Rattle.std.specs.Prelude.{◌≡◌, ◌<◌, ◌≤◌, ◌^◌, ◌+◌, length};
ghost use Rattle.std.specs.Fmt.{decimal};
ghost use Rattle.picky_text.specs.Lines.{text_of};
ghost use Rattle.picky_kv.specs.declared.PpkVersionKey.TheVariants.{V3};
ghost use Rattle.picky_ppk_file.specs.File.{version_of};
ghost use Rattle.picky_ppk_file.specs.Written.{file_text, sealing_lines};
ghost use Rattle.picky_ppk.specs.Sealed.{sealing_under};
ghost use Rattle.picky_target.specs.Judged.{mac_len as mac_len_of};
ghost use Rattle.picky_target.specs.inner.File.{draft_of};
ghost use Rattle.picky_target.specs.inner.Lengths.{block_len as block_len_of, line_len as line_len_of};

use picky_kv::literals::{
    ARGON2_MEMORY, ARGON2_PARALLELISM, ARGON2_PASSES, ARGON2_SALT, COMMENT, ENCRYPTION,
    KEY_DERIVATION, PRIVATE_LINES, PRIVATE_MAC, PUBLIC_LINES, SEPARATOR,
};
use picky_kv::{PpkEncryptionValue, PpkLiteral};
use picky_ppk::{PpkEncryptionConfig, PpkFile, PpkVersion};
use picky_ppk_file::end_of;
use picky_text::{LINE_LEN, LineEnd};

/// How many bytes the text of a file has once it is sealed by the configuration, the salt and the padding.
#[tactic(auto, using(crate::proofs::LengthLemmas::sealed_lengths))]
pub fn sealed_text_len(
    file: &PpkFile,
    config: PpkEncryptionConfig,
    salt: &[u8],
    padding: &[u8],
) -> usize
    requires salt { version_of file.now.sealing ≡ V3 → length salt.now ≡ config.argon2_salt_size }
    requires padding { length padding.now < 16 }
    ensures { result ≡ length (file_text (draft_of config salt.now padding.now file.now)) }
{
    let version = file.sealing.version();
    let end = end_of(version);
    let algorithm_len = file.algorithm.as_static_str().len();
    let encryption_len = PpkEncryptionValue::Aes256Cbc.as_static_str().len();
    let private_len = file.private_bytes.as_slice().len() + padding.len();
    line_len(version.as_static_str(), algorithm_len, end)
        + line_len(ENCRYPTION, encryption_len, end)
        + line_len(COMMENT, file.comment.as_str().len(), end)
        + block_len(PUBLIC_LINES, file.public_key.as_slice().len(), end)
        + sealing_len(version, config, salt, end)
        + block_len(PRIVATE_LINES, private_len, end)
        + line_len(PRIVATE_MAC, 2 * mac_len(version), end)
}

/// How many bytes the lines of what seals a file have.
#[tactic(auto, using(crate::proofs::LengthLemmas::sealing_lengths))]
fn sealing_len(version: PpkVersion, config: PpkEncryptionConfig, salt: &[u8], end: LineEnd) -> usize
    requires { version ≡ V3 → length salt.now ≡ config.argon2_salt_size }
    ensures lines { result ≡ length (text_of end (sealing_lines (sealing_under version config salt.now))) }
    ensures short { result < 2 ^ 34 }
{
    match version {
        PpkVersion::V2 => 0,
        PpkVersion::V3 => {
            let flavour_len = config.argon2_flavour.as_static_str().len();
            let memory_len = decimal_len(config.argon2_memory as usize);
            let passes_len = decimal_len(config.argon2_passes as usize);
            let parallelism_len = decimal_len(config.argon2_parallelism as usize);
            line_len(KEY_DERIVATION, flavour_len, end)
                + line_len(ARGON2_MEMORY, memory_len, end)
                + line_len(ARGON2_PASSES, passes_len, end)
                + line_len(ARGON2_PARALLELISM, parallelism_len, end)
                + line_len(ARGON2_SALT, 2 * salt.len(), end)
        }
    }
}

/// How many bytes the block of a key has, for a value of so many.
#[tactic(auto, using(crate::proofs::LengthLemmas::end_short))]
fn block_len(key: &str, bytes_len: usize, end: LineEnd) -> usize
    requires key { length key.now ≤ 32 }
    requires bytes { bytes_len < 2 ^ 33 }
    ensures len { result ≡ block_len_of end key.now bytes_len }
    ensures short { result < 2 ^ 36 }
{
    let base64_len = bytes_len.div_ceil(3) * 4;
    let line_count = base64_len.div_ceil(LINE_LEN);
    line_len(key, decimal_len(line_count), end) + base64_len + line_count * end.as_str().len()
}

/// How many bytes the line of a key has, for a value of so many.
#[tactic(auto, using(crate::proofs::LengthLemmas::end_short))]
fn line_len(key: &str, value_len: usize, end: LineEnd) -> usize
    requires key { length key.now ≤ 32 }
    requires value { value_len < 2 ^ 40 }
    ensures len { result ≡ line_len_of end key.now value_len }
    ensures short { result ≤ value_len + 36 }
{
    key.len() + SEPARATOR.len() + value_len + end.as_str().len()
}

/// How many digits a number has in decimal.
#[tactic(auto, using(crate::proofs::LengthLemmas::digit_counts))]
fn decimal_len(number: usize) -> usize
    ensures len { result ≡ length (decimal number) }
    ensures few { result ≤ 20 }
{
    let mut rest = number;
    let mut len = 1;
    while rest >= 10 {
        rest /= 10;
        len += 1;
    }
    len
}

/// How many bytes the MAC of a version has.
fn mac_len(version: PpkVersion) -> usize
    ensures len { result ≡ mac_len_of version }
    ensures short { result ≤ 32 }
{
    match version {
        PpkVersion::V2 => 20,
        PpkVersion::V3 => 32,
    }
}
