//! The texts of rows, in which words stand for keys and certificates: `B0` for the blob of the key of 32 zero bytes, `<zero>` for a
//! certificate of zeros, and the others in pointed brackets for what `ssh-keygen` made.

use picky_cert_rows::ZERO_LINE;
use std::alloc::Global;
use std::mem::ManuallyDrop;
use std::test::Fail;

// base64.b64encode(s(b"ssh-ed25519") + s(bytes(32))), with s = lambda b: len(b).to_bytes(4, "big") + b of python3. So are the
// blobs of rows, of the bytes beside them.
const B0: &str = "AAAAC3NzaC1lZDI1NTE5AAAAIAAAAAAAAAAAAAAAAAAAAAAAAAAAAAAAAAAAAAAAAAAA";

// ssh-keygen -q -t ed25519 -N '' -C ca -f ca; cut -d' ' -f1,2 ca.pub; and so of user
const CA: &str = "ssh-ed25519 AAAAC3NzaC1lZDI1NTE5AAAAIJvoS+3KnEVF1dFE78TgYu2sHOrEc4ZPWpAzYbIJm4Af";

const USER: &str =
    "ssh-ed25519 AAAAC3NzaC1lZDI1NTE5AAAAIKmS7z7QxxfVr6TT4lNL6yveP7STMZcCJGeGi6UeLe6j";

// ssh-keygen -q -s ca -I me -n me,root -V 0x5:0xa -O clear user.pub; cat user-cert.pub
pub const PLAIN: &str =
    "ssh-ed25519-cert-v01@openssh.com AAAAIHNzaC1lZDI1NTE5LWNlcnQtdjAxQG9wZW5zc2guY29tAAAAIPgfSuY1N1kjx/Bs7nsgru3y0Pj67vdbf4MrotGDlPS3AAAAIKmS7z7QxxfVr6TT4lNL6yveP7STMZcCJGeGi6UeLe6jAAAAAAAAAAAAAAABAAAAAm1lAAAADgAAAAJtZQAAAARyb290AAAAAAAAAAUAAAAAAAAACgAAAAAAAAAAAAAAAAAAADMAAAALc3NoLWVkMjU1MTkAAAAgm+hL7cqcRUXV0UTvxOBi7awc6sRzhk9akDNhsgmbgB8AAABTAAAAC3NzaC1lZDI1NTE5AAAAQJIh+TtjLbWIN8fpLT84a4vGDgnpNmvuwa7nBIyRr6Ytg+cBYDrCnJZa4yBEJMMZegGWYeFUEqTIHkWzzV0Zogs= user";

// The bytes before the last string of the blob, by python3.
pub const PLAIN_SIGNED: &str =
    "000000207373682d656432353531392d636572742d763031406f70656e7373682e636f6d00000020f81f4ae635375923c7f06cee7b20aeedf2d0f8faeef75b7f832ba2d18394f4b700000020a992ef3ed0c717d5afa4d3e2534beb2bde3fb4933197022467868ba51e2deea3000000000000000000000001000000026d650000000e000000026d6500000004726f6f740000000000000005000000000000000a000000000000000000000000000000330000000b7373682d65643235353139000000209be84bedca9c4545d5d144efc4e062edac1ceac473864f5a903361b2099b801f";

// ssh-keygen -q -s ca -I any -V 0x5:0xa -O clear -O force-command='ls -l' -O source-address=10.0.0.0/8,2001:db8::/32
// -O verify-required user.pub
const ANYONE: &str =
    "ssh-ed25519-cert-v01@openssh.com AAAAIHNzaC1lZDI1NTE5LWNlcnQtdjAxQG9wZW5zc2guY29tAAAAIARXNbG4WI6CSla2VIG4A2eZWVETmuEt6DveVVCwr3x7AAAAIKmS7z7QxxfVr6TT4lNL6yveP7STMZcCJGeGi6UeLe6jAAAAAAAAAAAAAAABAAAAA2FueQAAAAAAAAAAAAAABQAAAAAAAAAKAAAAZwAAAA1mb3JjZS1jb21tYW5kAAAACQAAAAVscyAtbAAAAA5zb3VyY2UtYWRkcmVzcwAAABwAAAAYMTAuMC4wLjAvOCwyMDAxOmRiODo6LzMyAAAAD3ZlcmlmeS1yZXF1aXJlZAAAAAAAAAAAAAAAAAAAADMAAAALc3NoLWVkMjU1MTkAAAAgm+hL7cqcRUXV0UTvxOBi7awc6sRzhk9akDNhsgmbgB8AAABTAAAAC3NzaC1lZDI1NTE5AAAAQDvuFl3mv9xnOvZHlbPMPNzE8ciXb7aC/Dcufr3Jj/NH5a//fOL2wwvcfVu+jG0upRL+HTIN1SCQKPGnvBYlVAQ= user";

// ssh-keygen -q -s ca -h -I host -n me -V 0x5:0xa user.pub
const HOST: &str =
    "ssh-ed25519-cert-v01@openssh.com AAAAIHNzaC1lZDI1NTE5LWNlcnQtdjAxQG9wZW5zc2guY29tAAAAICxxYbUZHvtD2KqHqB48f1L6MhTASomiQRGiUzQ1I/voAAAAIKmS7z7QxxfVr6TT4lNL6yveP7STMZcCJGeGi6UeLe6jAAAAAAAAAAAAAAACAAAABGhvc3QAAAAGAAAAAm1lAAAAAAAAAAUAAAAAAAAACgAAAAAAAAAAAAAAAAAAADMAAAALc3NoLWVkMjU1MTkAAAAgm+hL7cqcRUXV0UTvxOBi7awc6sRzhk9akDNhsgmbgB8AAABTAAAAC3NzaC1lZDI1NTE5AAAAQGNF8xYxajiNwb7XdWGcMglOMYN8eoe44XYc+ecl2lpshWhtJfiCqF4jslTJLlrGVdkXasaSHe14CCgWO9UxvgI= user";

// Each word of a row, and what it stands for.
static WORDS: [(&str, &str); 7] = [
    ("B0", B0),
    ("<ca>", CA),
    ("<user>", USER),
    ("<plain>", PLAIN),
    ("<anyone>", ANYONE),
    ("<host>", HOST),
    ("<zero>", ZERO_LINE),
];

/// The text of a row. No text that a word stands for has a pointed bracket.
pub fn row_text(alloc: Global, row: &str) -> Result<String, Fail> {
    let mut text = ManuallyDrop::new(String::from_str(alloc, row)?);
    for (word, stands_for) in &WORDS {
        text = ManuallyDrop::new(text.as_str().replace(alloc, word, stands_for)?);
    }
    Ok(ManuallyDrop::into_inner(text))
}
