//! The texts of rows, in which `B0` stands for the blob of the key of 32 zero bytes, and `E0` for the private key of zeros.

use picky_key_rows::ZERO_KEY;
use std::alloc::Global;
use std::mem::ManuallyDrop;
use std::test::Fail;

// base64.b64encode(s(b"ssh-ed25519") + s(bytes(32))), with s = lambda b: len(b).to_bytes(4, "big") + b of python3. So are the
// blobs of rows, of the bytes beside them.
const B0: &str = "AAAAC3NzaC1lZDI1NTE5AAAAIAAAAAAAAAAAAAAAAAAAAAAAAAAAAAAAAAAAAAAAAAAA";

/// Its line, which `B0` stands in, and what is listed of it: `public`, the blob, and `printf k | base64`.
pub const LINE: &str =
    "ssh-ed25519 AAAAC3NzaC1lZDI1NTE5AAAAIAAAAAAAAAAAAAAAAAAAAAAAAAAAAAAAAAAAAAAAAAAA k\n";

pub const PUBLIC_K: &str =
    "public AAAAC3NzaC1lZDI1NTE5AAAAIAAAAAAAAAAAAAAAAAAAAAAAAAAAAAAAAAAAAAAAAAAA aw==\n";

/// The text of a row. The comment of `E0` is `hello`, and it ends in LF.
pub fn row_text(alloc: Global, row: &str) -> Result<String, Fail> {
    let text = ManuallyDrop::new(row.replace(alloc, "B0", B0)?);
    Ok(text.as_str().replace(alloc, "E0", ZERO_KEY)?)
}
