//! Why PuTTY's private key files aren't sealed or opened, and what a sealed one doesn't give: of two faults the one that
//! is tried first, and whether the suite was asked.

use crate::answers::{kept, refuses};
use crate::ppk_and_openssh::{p256_ppk, ppk_of};
use crate::reading::is_named;
use crate::sealing_and_opening::{PADDING, SALT};
use picky_key_rows::{CONFIG, PASS, SEALED_V2, SEALED_V3, TOY_V2, TOY_V3};
use picky_ppk::{Ppk, PpkEncryptionConfig, PpkVersion, PuttyError};
use picky_suite::{MemorySuite, PlainSuite};
use rand_pcg::Pcg32;
use std::alloc::{AllocError, Global};
use std::mem::ManuallyDrop;
use std::test::Fail;

/// A file that is sealed doesn't give its key, and isn't changed.
fn is_closed(alloc: Global, ppk: &Ppk) -> bool {
    let suite = PlainSuite::new();
    let wanted = ManuallyDrop::new(PuttyError::Encrypted);
    refuses(ppk.private_key(alloc), &*wanted)
        && refuses(ppk.to_openssh_private_key(alloc, None, &[0; 16]), &*wanted)
        && refuses(ppk.with_comment(alloc, &suite, "another"), &*wanted)
        && refuses(ppk.to_version(alloc, &suite, ppk.version()), &*wanted)
}

/// Numbers with which Argon2 can't be run.
const NO_MEMORY: PpkEncryptionConfig = PpkEncryptionConfig {
    argon2_memory: 7,
    ..CONFIG
};

fn resealed(alloc: Global, suite: &mut PlainSuite, ppk: &Ppk) -> Result<Ppk, PuttyError> {
    let padding = &PADDING[..ppk.padding_len()];
    ppk.encrypt(alloc, suite, PASS, NO_MEMORY, SALT, padding)
}

fn resealed_by_rng(alloc: Global, suite: &mut PlainSuite, ppk: &Ppk) -> Result<Ppk, PuttyError> {
    let mut rng = Pcg32::new(42, 54);
    ppk.encrypt_with_rng(alloc, suite, PASS, NO_MEMORY, &mut rng)
}

/// The file isn't sealed for this reason, whatever the suite and the numbers are, and no suite is asked.
fn is_unsealable(alloc: Global, ppk: &Ppk, wanted: PuttyError) -> bool {
    let wanted = ManuallyDrop::new(wanted);
    let mut suite = PlainSuite::new();
    refuses(resealed(alloc, &mut suite, ppk), &*wanted)
        && refuses(resealed_by_rng(alloc, &mut suite, ppk), &*wanted)
        && suite == PlainSuite::new()
}

/// So it is with the text's file, which isn't sealed again.
fn keeps(alloc: Global, text: &str) -> Result<bool, Fail> {
    let ppk = kept(ppk_of(alloc, text))?;
    Ok(is_closed(alloc, &ppk) && is_unsealable(alloc, &ppk, PuttyError::AlreadyEncrypted))
}

#[test]
fn keeps_what_is_sealed(rt: HostRuntime) -> Result<(), Fail> {
    assert!(rt; keeps(rt.alloc(), SEALED_V3)?);
    assert!(rt; keeps(rt.alloc(), SEALED_V2)?);
    Ok(())
}

/// A sealed file, in place of lines of `TOY_V3`, and why it isn't opened by the suite for tests or by one that has no call.
struct SealedRow {
    name: &'static str,
    memory: &'static str,
    private: &'static str,
    mac: &'static str,
    is_plain: bool,
    wanted: &'static str,
}

// The 48 sealed bytes of TOY_V3, its first 17, and its first 16, which say that 32 bytes follow: base64 -d | head -c
const WHOLE: &str = "6oyHO9HyHO8Ldw4UYJtkSG5IE709yF+OR9h799vSztcUR+aLOm79o/FzFwbR6cGG";

const CUT: &str = "6oyHO9HyHO8Ldw4UYJtkSG4=";

const ONE_BLOCK: &str = "6oyHO9HyHO8Ldw4UYJtkSA==";

// TOY_V3's, and that of its first 16 bytes: as in picky_key_rows::ppk_texts, with PLAIN[:16]
const MAC: &str = "5d4d6b8bedb04c671bc6ed16e387244d3334c5a28247e32dfd2d41ec9f258c34";

const MAC_OF_BLOCK: &str = "f48b9b1dd255fcc7542587b5a5eb3af22312168bbe620e132b53e6e90db3f6c1";

static SEALED_ROWS: [SealedRow; 7] = [
    SealedRow {
        name: "all is good",
        memory: "Memory: 8",
        private: WHOLE,
        mac: MAC,
        is_plain: false,
        wanted: "",
    },
    SealedRow {
        name: "too little memory, and a block that isn't whole",
        memory: "Memory: 7",
        private: CUT,
        mac: MAC,
        is_plain: true,
        wanted: "Argon2",
    },
    SealedRow {
        name: "a block that isn't whole, and a suite that fails",
        memory: "Memory: 8",
        private: CUT,
        mac: MAC,
        is_plain: true,
        wanted: "Aes",
    },
    SealedRow {
        name: "a suite that fails, and another MAC",
        memory: "Memory: 8",
        private: WHOLE,
        mac: MAC_OF_BLOCK,
        is_plain: true,
        wanted: "SuiteFault",
    },
    SealedRow {
        name: "another MAC",
        memory: "Memory: 8",
        private: WHOLE,
        mac: MAC_OF_BLOCK,
        is_plain: false,
        wanted: "MacValidation",
    },
    SealedRow {
        name: "another MAC, and a string that is cut",
        memory: "Memory: 8",
        private: ONE_BLOCK,
        mac: MAC,
        is_plain: false,
        wanted: "MacValidation",
    },
    SealedRow {
        name: "a string that is cut",
        memory: "Memory: 8",
        private: ONE_BLOCK,
        mac: MAC_OF_BLOCK,
        is_plain: false,
        wanted: "IoError(UnexpectedEnd)",
    },
];

/// The row's file.
fn sealed_text(alloc: Global, row: &SealedRow) -> Result<String, AllocError> {
    let text = ManuallyDrop::new(TOY_V3.replace(alloc, "Memory: 8", row.memory)?);
    let text = ManuallyDrop::new(text.replace(alloc, WHOLE, row.private)?);
    text.replace(alloc, MAC, row.mac)
}

/// For this the file isn't opened by the suite for tests.
fn is_held_by_memory(alloc: Global, ppk: &Ppk, pass: &str, wanted: &str) -> Result<bool, Fail> {
    let mut suite = kept(MemorySuite::new(alloc, &[]))?;
    is_named(alloc, ppk.decrypt(alloc, &mut *suite, pass), wanted)
}

/// For this it isn't opened by a suite that has no call.
fn is_held_by_plain(alloc: Global, ppk: &Ppk, wanted: &str) -> Result<bool, Fail> {
    let mut suite = PlainSuite::new();
    is_named(alloc, ppk.decrypt(alloc, &mut suite, PASS), wanted)
}

/// The row's file isn't opened for what the row says, and is opened where it says nothing.
fn is_row_held(alloc: Global, row: &SealedRow) -> Result<bool, Fail> {
    let text = kept(sealed_text(alloc, row))?;
    let ppk = kept(ppk_of(alloc, text.as_str()))?;
    if row.is_plain {
        is_held_by_plain(alloc, &ppk, row.wanted)
    } else {
        is_held_by_memory(alloc, &ppk, PASS, row.wanted)
    }
}

#[test]
fn refuses_to_open_in_order(rt: HostRuntime) -> Result<(), Fail> {
    for row in &SEALED_ROWS {
        assert!(rt; is_row_held(rt.alloc(), row)?, "{}", row.name);
    }
    Ok(())
}

/// The text's file isn't opened under another passphrase, nor by a suite that fails.
fn is_held(alloc: Global, text: &str) -> Result<bool, Fail> {
    let ppk = kept(ppk_of(alloc, text))?;
    Ok(
        is_held_by_memory(alloc, &ppk, "Password", "MacValidation")?
            && is_held_by_plain(alloc, &ppk, "SuiteFault")?,
    )
}

#[test]
fn opens_under_the_passphrase_alone(rt: HostRuntime) -> Result<(), Fail> {
    assert!(rt; is_held(rt.alloc(), TOY_V3)?);
    assert!(rt; is_held(rt.alloc(), TOY_V2)?);
    Ok(())
}

/// An open file, whose 36 private bytes are no whole blocks, isn't opened, and no suite is asked.
fn is_open(alloc: Global, ppk: &Ppk) -> bool {
    let mut suite = PlainSuite::new();
    let wanted = ManuallyDrop::new(PuttyError::AlreadyDecrypted);
    refuses(ppk.decrypt(alloc, &mut suite, PASS), &*wanted) && suite == PlainSuite::new()
}

/// It isn't sealed by a suite that fails.
fn is_faulty(alloc: Global, ppk: &Ppk) -> bool {
    let mut suite = PlainSuite::new();
    let wanted = ManuallyDrop::new(PuttyError::SuiteFault);
    let padding = &PADDING[..ppk.padding_len()];
    refuses(
        ppk.encrypt(alloc, &mut suite, PASS, CONFIG, SALT, padding),
        &*wanted,
    )
}

/// Nor where Argon2 can't be run.
fn stays_open(alloc: Global) -> Result<bool, Fail> {
    let ppk = p256_ppk(alloc, PpkVersion::V3)?;
    Ok(
        is_open(alloc, &ppk)
            && is_unsealable(alloc, &ppk, PuttyError::Argon2)
            && is_faulty(alloc, &ppk),
    )
}

#[test]
fn refuses_to_seal_in_order(rt: HostRuntime) -> Result<(), Fail> {
    assert!(rt; stays_open(rt.alloc())?);
    Ok(())
}
