//! Comments of PuTTY's private key files: changed as PuTTYgen does, taken along with the public key, and with CR at the end.

use crate::answers::{is_text, kept, refuses};
use crate::ppk_and_openssh::{p256_ppk, ppk_of};
use picky_key_rows::{ENDS_IN_CR, P256_BODY, PUBLIC, text_with_macs};
use picky_ppk::{Ppk, PpkVersion, PuttyError};
use picky_suite::PlainSuite;
use std::alloc::Global;
use std::mem::ManuallyDrop;
use std::test::Fail;

// puttygen p256.ppk -C another -O private -o other.ppk --ppk-param version=3; tail -1 other.ppk; and with version=2
const OTHER_MAC_V2: &str = "b95d5aced85c411eb4da23f1c7e55e3c17ebcd6c";

const OTHER_MAC_V3: &str = "ec32bd0c93548590a2d4e01e5b718226f3b6d4bee2d8821b7e30de25800fb254";

/// The file with the comment `another` is written as PuTTYgen's.
fn is_commented_as_by_puttygen(alloc: Global, version: PpkVersion) -> Result<bool, Fail> {
    let body = kept(P256_BODY.replace(alloc, "a comment", "another"))?;
    let text = kept(text_with_macs(alloc, body.as_str(), version, OTHER_MAC_V2, OTHER_MAC_V3))?;
    let ppk = p256_ppk(alloc, version)?;
    let commented = kept(ppk.with_comment(alloc, &PlainSuite::new(), "another"))?;
    is_text(commented.to_string(alloc), text.as_str())
}

#[test]
fn changes_the_comment_as_puttygen_does(rt: HostRuntime) -> Result<(), Fail> {
    for version in [PpkVersion::V2, PpkVersion::V3] {
        assert!(rt;
            is_commented_as_by_puttygen(rt.alloc(), version)?,
            "{version:?}"
        );
    }
    Ok(())
}

fn is_row_public(alloc: Global) -> Result<bool, Fail> {
    let ppk = p256_ppk(alloc, PpkVersion::V3)?;
    let public = kept(ppk.extract_putty_public_key(alloc))?;
    is_text(public.to_string(alloc), PUBLIC)
}

#[test]
fn takes_the_public_key_out_as_puttygen_does(rt: HostRuntime) -> Result<(), Fail> {
    assert!(rt; is_row_public(rt.alloc())?);
    Ok(())
}

/// The comment of version 3 is read without its CR, and the MAC tells it.
fn is_told_in_version_3(alloc: Global, ppk: &Ppk) -> Result<bool, Fail> {
    let changed = kept(ppk.to_version(alloc, &PlainSuite::new(), PpkVersion::V3))?;
    let text = kept(changed.to_string(alloc))?;
    let wanted = ManuallyDrop::new(PuttyError::MacValidation);
    Ok(refuses(ppk_of(alloc, text.as_str()), &*wanted))
}

#[test]
fn keeps_a_cr_in_version_2_alone(rt: HostRuntime) -> Result<(), Fail> {
    let ppk = kept(ppk_of(rt.alloc(), ENDS_IN_CR))?;
    assert!(rt; ppk.comment() == "x\r");
    assert!(rt; is_text(ppk.to_string(rt.alloc()), ENDS_IN_CR)?);
    assert!(rt; is_told_in_version_3(rt.alloc(), &ppk)?);
    Ok(())
}
