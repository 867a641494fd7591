//! Base64 blocks of PuTTY's private key files, decoded as their lines come.

use picky_kv::{BlockDecoder, BlockError, JoinedLines};
use picky_wire::{Bytes, NoMemory};
use std::alloc::Global;
use std::test::Fail;

// printf 'AAAAC3Nz' | base64 -d | xxd -p; printf 'AA==' | base64 -d | xxd -p
#[test]
fn joins_lines_of_any_length(rt: HostRuntime) -> Result<(), Fail> {
    let mut decoder = BlockDecoder::new(rt.alloc());
    decoder.push("AAAAC")?;
    assert!(rt; decoder.pending() == 1);
    decoder.push("3Nz")?;
    decoder.push("")?;
    assert!(rt; decoder.pending() == 0);
    let bytes = decoder.finish()?;
    assert!(rt; bytes.as_slice() == [0, 0, 0, 0x0B, 0x73, 0x73].as_slice());
    Ok(())
}

#[test]
fn ends_at_padding(rt: HostRuntime) -> Result<(), Fail> {
    let mut decoder = BlockDecoder::new(rt.alloc());
    decoder.push("AA==")?;
    assert!(rt; decoder.push("A") == Err(BlockError::BadBase64));
    let text = decoder.to_text()?;
    assert!(rt; text.as_str() == "AA==");
    let bytes = decoder.finish()?;
    assert!(rt; bytes.as_slice() == [0].as_slice());
    Ok(())
}

#[test]
fn keeps_what_is_pending(rt: HostRuntime) -> Result<(), Fail> {
    let mut decoder = BlockDecoder::new(rt.alloc());
    decoder.push("AAAAA")?;
    assert!(rt; decoder.push("AA") == Ok(()));
    assert!(rt; decoder.push("*") == Err(BlockError::BadBase64));
    let text = decoder.to_text()?;
    assert!(rt; text.as_str() == "AAAAAAA");
    assert!(rt; decoder.finish() == Err(BlockError::BadBase64));
    Ok(())
}

/// What the lines give, joined.
fn joined(alloc: Global, lines: &[&str]) -> Result<Result<Bytes, String>, NoMemory> {
    let mut joined = JoinedLines::new(alloc);
    for line in lines {
        joined.push(line)?;
    }
    joined.finish()
}

fn are_bytes(alloc: Global, lines: &[&str], bytes: &[u8]) -> Result<bool, Fail> {
    match joined(alloc, lines)? {
        Ok(found) => Ok(found.as_slice() == bytes),
        Err(_) => Ok(false),
    }
}

fn are_text(alloc: Global, lines: &[&str], text: &str) -> Result<bool, Fail> {
    match joined(alloc, lines)? {
        Ok(_) => Ok(false),
        Err(found) => Ok(found.as_str() == text),
    }
}

#[test]
fn joins_lines_whatever_they_are(rt: HostRuntime) -> Result<(), Fail> {
    assert!(rt; are_bytes(rt.alloc(), &["AAAAC", "3Nz"], &[0, 0, 0, 0x0B, 0x73, 0x73])?);
    assert!(rt; are_text(rt.alloc(), &["AAAAA", "*", "AA"], "AAAAA*AA")?);
    assert!(rt; are_text(rt.alloc(), &["AA==", "A"], "AA==A")?);
    assert!(rt; are_text(rt.alloc(), &["AAAAA"], "AAAAA")?);
    Ok(())
}
