//! A key of each type, as ssh-keygen writes it.

use picky_keys::{SshBasePublicKey, SshPublicKey, SshPublicKeyError};
use std::alloc::Global;

/// A key's line without its end.
pub struct KeyRow {
    pub name: &'static str,
    pub line: &'static str,
}

// ssh-keygen -q -t ecdsa -b 256 -N '' -C ecdsa-256@example.com -f key; cat key.pub; and so on.
// Those of devices are made of such keys by hand, as OpenSSH's PROTOCOL.u2f lays them out.
pub static KEY_ROWS: [KeyRow; 7] = [
    KeyRow {
        name: "RSA",
        line: "ssh-rsa AAAAB3NzaC1yc2EAAAADAQABAAAAgQDcf41PtsYT9ZSJFgc9TX8y9h6fFhWpO0kVKpjaEVFjYBfFipCxW0AWdSVVimlMZX4CiSct7PLusctngTme4kQsVOS+/OtbsxQlJ+sdxCIdlkAt3DC5ymLCosyMe9wJ321ySvZ1Y7Pz9ZI9jjP5pl5T22HEsvpEkQ38/kHab00qZw== rsa-1024@example.com",
    },
    KeyRow {
        name: "NIST P-256",
        line: "ecdsa-sha2-nistp256 AAAAE2VjZHNhLXNoYTItbmlzdHAyNTYAAAAIbmlzdHAyNTYAAABBBIqLFdWu7d2oNPPi7tV1tTBGfkXtI1ztJtiMJRkPOWNo693lLixqbKjIz3UB86Gau6JAMpHsD4NGeZr3nWQ8rJw= ecdsa-256@example.com",
    },
    KeyRow {
        name: "NIST P-384",
        line: "ecdsa-sha2-nistp384 AAAAE2VjZHNhLXNoYTItbmlzdHAzODQAAAAIbmlzdHAzODQAAABhBInoQe6mYfkw6inK9QorZPsxxtEa78x/eSAQmv5k0Xw423U/6crJ1ch6klExqmapfF22uaiuUEcPWEWDq8WGdKV5NqL1DXK6HWJRcRHRHWpYqjkp7gqQiswUZOysIjzzsA== ecdsa-384@example.com",
    },
    KeyRow {
        name: "NIST P-521",
        line: "ecdsa-sha2-nistp521 AAAAE2VjZHNhLXNoYTItbmlzdHA1MjEAAAAIbmlzdHA1MjEAAACFBAHMbr/DiBojsks6eywY+dYrLRdK5WsoCPGR1J1Y4Htm/Kew6NsvR/EqRhu5uYGLG3u7FoRql1RfVa6GsFhsOSAbggB+6nOxYW6GnWB/EPpNpPVA8Ake+GgtKmon2OYTLSqIZut9vUo0p74jxo7Zc1tZ++If2IJYyRV4tMHZ9ERQvCIQ6w== ecdsa-521@example.com",
    },
    KeyRow {
        name: "Ed25519",
        line: "ssh-ed25519 AAAAC3NzaC1lZDI1NTE5AAAAIIW5ErFsW9CIpb/ceM1WtA5ZFaU4t08o4uVN3ER9qDA9 ed25519@example.com",
    },
    KeyRow {
        name: "NIST P-256 on a device",
        line: "sk-ecdsa-sha2-nistp256@openssh.com AAAAInNrLWVjZHNhLXNoYTItbmlzdHAyNTZAb3BlbnNzaC5jb20AAAAIbmlzdHAyNTYAAABBBIqLFdWu7d2oNPPi7tV1tTBGfkXtI1ztJtiMJRkPOWNo693lLixqbKjIz3UB86Gau6JAMpHsD4NGeZr3nWQ8rJwAAAAEc3NoOg== token",
    },
    KeyRow {
        name: "Ed25519 on a device",
        line: "sk-ssh-ed25519@openssh.com AAAAGnNrLXNzaC1lZDI1NTE5QG9wZW5zc2guY29tAAAAIIW5ErFsW9CIpb/ceM1WtA5ZFaU4t08o4uVN3ER9qDA9AAAACnNzaDpsYXB0b3A= token",
    },
];

/// The key of a line, without its comment.
pub fn key_of(alloc: Global, line: &str) -> Result<SshBasePublicKey, SshPublicKeyError> {
    Ok(SshPublicKey::from_str(alloc, line)?.inner_key)
}
