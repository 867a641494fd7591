//! Which part of a text is refused, counted from 0 with the blank ones, and why.

use crate::runs::{LIST, refuses_row};
use picky_inventory::InventoryStatus;
use picky_key_text::ReadError;
use picky_keys::SshPublicKeyError;
use picky_ppk_parts::PuttyError;
use picky_wire::IoKind;
use std::mem::ManuallyDrop;
use std::test::Fail;

const UNKNOWN: ReadError = ReadError::Public(SshPublicKeyError::UnknownKeyType);

const NO_BASE64: ReadError = ReadError::Public(SshPublicKeyError::Base64DecodeError);

const CUT: ReadError = ReadError::Public(SshPublicKeyError::IoError(IoKind::UnexpectedEnd));

const CUT_FILE: ReadError = ReadError::Putty(PuttyError::EndOfInput);

// A name, a text, and how its run ends: docs/FORMATS.md, "Public key line" and "PuTTY private key file".
const REFUSALS: [(&str, &str, InventoryStatus); 11] = [
    (
        "behind two blank parts",
        "%%\n \n%%\nssh-dss k\n",
        InventoryStatus::Refused(2, UNKNOWN),
    ),
    (
        "the first part",
        "ssh-ed25519 !!!! k\n%%\nE0",
        InventoryStatus::Refused(0, NO_BASE64),
    ),
    (
        "the last part",
        "E0%%\nE0%%\r\nE0%%\nssh-ed25519",
        InventoryStatus::Refused(3, CUT),
    ),
    (
        "the first of two",
        "E0%%\nssh-dss\n%%\nssh-ed25519 !!!!\n",
        InventoryStatus::Refused(1, UNKNOWN),
    ),
    (
        "the other one first",
        "E0%%\nssh-ed25519 !!!!\n%%\nssh-dss\n",
        InventoryStatus::Refused(1, NO_BASE64),
    ),
    (
        "a space behind percent signs",
        "%%\n%% \n%%\n",
        InventoryStatus::Refused(1, UNKNOWN),
    ),
    (
        "a CR behind percent signs at the end",
        "%%\n%%\r",
        InventoryStatus::Refused(1, UNKNOWN),
    ),
    (
        "a space of no width, which is no white space",
        "%%\n%%\n\u{200b}\n",
        InventoryStatus::Refused(2, UNKNOWN),
    ),
    (
        "a blank line before a key",
        "E0%%\n\nssh-ed25519 B0 k\n",
        InventoryStatus::Refused(1, UNKNOWN),
    ),
    (
        "a file that is cut",
        "E0%%\nPuTTY-User-Key-File-3: ssh-ed25519\n",
        InventoryStatus::Refused(1, CUT_FILE),
    ),
    (
        "an inventory",
        "public B0 aw==\n",
        InventoryStatus::Refused(0, UNKNOWN),
    ),
];

#[test]
fn says_which_part_is_refused(rt: HostRuntime) -> Result<(), Fail> {
    let rows = ManuallyDrop::new(REFUSALS);
    for (name, text, status) in rows.as_slice() {
        assert!(rt; refuses_row(rt.alloc(), LIST, text, status)?, "{name}");
    }
    Ok(())
}
