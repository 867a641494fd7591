//! The blobs of keys of ssh-keygen and of devices, public and private.

use picky_text::decode;
use std::alloc::Global;
use std::mem::ManuallyDrop;
use std::test::Fail;

/// A key's blobs in base64, and the format of what it signs without flags: none of a device's key.
pub struct KeyRow {
    pub name: &'static str,
    pub public: &'static str,
    pub private: &'static str,
    pub format: Option<&'static str>,
}

// ssh-keygen -q -t rsa -b 1024 -N '' -C c -f key; cut -d ' ' -f 2 key.pub; and so on with -t ecdsa -b 256, 384 and 521 and with
// -t ed25519. OpenSSH's release is 9.2. The private blob stands in the file, between the second mention of the type and the comment;
// by python3, with s = lambda b: len(b).to_bytes(4, "big") + b and the type's name:
// raw = base64.b64decode("".join(open("key").read().split("\n")[1:-2]))
// base64.b64encode(raw[raw.rindex(s(NAME)):raw.rindex(s(b"c"))])
// Those of devices are made of the keys above by hand, as OpenSSH's PROTOCOL.u2f lays them out: s(NAME) + s(b"nistp256") + s(point)
// + s(b"ssh:"), or s(NAME) + s(key) + s(b"ssh:"), and in the private blob b"\1" + s(b"handle") + s(b"") behind that.
pub static KEYS: [KeyRow; 7] = [
    KeyRow {
        name: "RSA",
        public: "AAAAB3NzaC1yc2EAAAADAQABAAAAgQDDDHYpROrWjvzM9Hi1s7hezxwnd/y9vqDnCkH+08c+PG7s7hFZ8hF1wyCA2OrLyDszq4+exut9jskbfInSR4l8reAQDRzoudJUNki4Q7PNkNZyGkUjhxcuEexUdXzeATrcB1lkwtqZBvyNRGLVp+MfKizJHVc0Wi0HDzBD93IKCw==",
        private: "AAAAB3NzaC1yc2EAAACBAMMMdilE6taO/Mz0eLWzuF7PHCd3/L2+oOcKQf7Txz48buzuEVnyEXXDIIDY6svIOzOrj57G632OyRt8idJHiXyt4BANHOi50lQ2SLhDs82Q1nIaRSOHFy4R7FR1fN4BOtwHWWTC2pkG/I1EYtWn4x8qLMkdVzRaLQcPMEP3cgoLAAAAAwEAAQAAAIBRNSEFMbJsvn+2fZq8XCVJJAXe0PAjt/iZ+QVdKaNs4BB3CO+keUqXszQXMTkguy8a5jUXsE5fqlFE5mcja7Frw1/xwl0BYga9mquNSscmhy06Nctc8BvE5srECeDdeefpjpxdcMfpHgyMgHY9UQYH9fJ3UUP+t1oauflOCU2WYQAAAEEAq3vB2HZGGLtrQF+I91JqxkLTFXD1j9fMiP8l0a/gmV/eZqsfbA8T/cjuOj1YCMcXQlBGcudB1CnuYAjqMJaRFwAAAEEA6Yv1+PYemO1RC5BxQkDTta0i8g5ujyxn59p1uuiD2WoR/KpDwlDu/So7vHqcnF6G6Nf4KdleJdhhK8x//uUQCQAAAEEA1cz9LdBTldnGrTbJNRWEnUKz8uPMv2SGh5f9HuwGSoQuFmmWmvkkrnsFsfz/M63xGpkWV/r049fiU7ZAunamcw==",
        format: Some("ssh-rsa"),
    },
    KeyRow {
        name: "NIST P-256",
        public: "AAAAE2VjZHNhLXNoYTItbmlzdHAyNTYAAAAIbmlzdHAyNTYAAABBBGn+vMgiYnJQ7KDYDDU8a5RyB9/2iOBYyZOG+I05aSiIrK+91HU0uORXWGxyq+gM1K3V+qmNPsUQEMvvpaQg9Jw=",
        private: "AAAAE2VjZHNhLXNoYTItbmlzdHAyNTYAAAAIbmlzdHAyNTYAAABBBGn+vMgiYnJQ7KDYDDU8a5RyB9/2iOBYyZOG+I05aSiIrK+91HU0uORXWGxyq+gM1K3V+qmNPsUQEMvvpaQg9JwAAAAgeQS5/1D0/EVH9yqJJOF+TZXCliKgMtOZb6FmrrHAzhk=",
        format: Some("ecdsa-sha2-nistp256"),
    },
    KeyRow {
        name: "NIST P-384",
        public: "AAAAE2VjZHNhLXNoYTItbmlzdHAzODQAAAAIbmlzdHAzODQAAABhBCKwUwpBnFRL0cfP1BRrlxs5eHHSmN/4F75MPMqVIGfe2TjTnES/lu0WKyA16+R3A3EXCFDwxhiKBKUqz5U9eEn9uzmQa4mTt7MLsWNSBKYIs22b3W4wTMfqTiFtcm9GrA==",
        private: "AAAAE2VjZHNhLXNoYTItbmlzdHAzODQAAAAIbmlzdHAzODQAAABhBCKwUwpBnFRL0cfP1BRrlxs5eHHSmN/4F75MPMqVIGfe2TjTnES/lu0WKyA16+R3A3EXCFDwxhiKBKUqz5U9eEn9uzmQa4mTt7MLsWNSBKYIs22b3W4wTMfqTiFtcm9GrAAAADBXXIhD+rBgkBGgIjW46SGfkfJ7WnZjFWsIP10y1ciNlc7fVqo1dq9lvjG8J9zl+10=",
        format: Some("ecdsa-sha2-nistp384"),
    },
    KeyRow {
        name: "NIST P-521",
        public: "AAAAE2VjZHNhLXNoYTItbmlzdHA1MjEAAAAIbmlzdHA1MjEAAACFBAAwgAX1VeTa2/eBk/jFiIj8RZ6EZ7tprbZNupN8NPp4dADNGJVygyAnVLdbN8osaQWRKL/mKO+lg3WQuwP6Pznu7gESUwFhB736R3uT0QoxvSIOfXevIj9n+K6yRcPo1DQz34dxITMxQyYxVpp1D4upADP0krfS5QfPQnN6fABEqkMaow==",
        private: "AAAAE2VjZHNhLXNoYTItbmlzdHA1MjEAAAAIbmlzdHA1MjEAAACFBAAwgAX1VeTa2/eBk/jFiIj8RZ6EZ7tprbZNupN8NPp4dADNGJVygyAnVLdbN8osaQWRKL/mKO+lg3WQuwP6Pznu7gESUwFhB736R3uT0QoxvSIOfXevIj9n+K6yRcPo1DQz34dxITMxQyYxVpp1D4upADP0krfS5QfPQnN6fABEqkMaowAAAEIAweBkT6S2Dgpy76wAOLSG4OF5J8rwz8MUseygEyr+GzIwF0fXKKXBcJ524rslApb+SMCdvTkWrv+ggjxQvTFt2HQ=",
        format: Some("ecdsa-sha2-nistp521"),
    },
    KeyRow {
        name: "Ed25519",
        public: "AAAAC3NzaC1lZDI1NTE5AAAAIJmNHITF0HFu8MrY21QKaUSpA+/6Zz9AvoqOGJy/0YIp",
        private: "AAAAC3NzaC1lZDI1NTE5AAAAIJmNHITF0HFu8MrY21QKaUSpA+/6Zz9AvoqOGJy/0YIpAAAAQMaNZ0K9CjS55G4IA84yIcFSkPSjDo4oLoXgEKetbhwTmY0chMXQcW7wytjbVAppRKkD7/pnP0C+io4YnL/Rgik=",
        format: Some("ssh-ed25519"),
    },
    KeyRow {
        name: "NIST P-256 on a device",
        public: "AAAAInNrLWVjZHNhLXNoYTItbmlzdHAyNTZAb3BlbnNzaC5jb20AAAAIbmlzdHAyNTYAAABBBGn+vMgiYnJQ7KDYDDU8a5RyB9/2iOBYyZOG+I05aSiIrK+91HU0uORXWGxyq+gM1K3V+qmNPsUQEMvvpaQg9JwAAAAEc3NoOg==",
        private: "AAAAInNrLWVjZHNhLXNoYTItbmlzdHAyNTZAb3BlbnNzaC5jb20AAAAIbmlzdHAyNTYAAABBBGn+vMgiYnJQ7KDYDDU8a5RyB9/2iOBYyZOG+I05aSiIrK+91HU0uORXWGxyq+gM1K3V+qmNPsUQEMvvpaQg9JwAAAAEc3NoOgEAAAAGaGFuZGxlAAAAAA==",
        format: None,
    },
    KeyRow {
        name: "Ed25519 on a device",
        public: "AAAAGnNrLXNzaC1lZDI1NTE5QG9wZW5zc2guY29tAAAAIJmNHITF0HFu8MrY21QKaUSpA+/6Zz9AvoqOGJy/0YIpAAAABHNzaDo=",
        private: "AAAAGnNrLXNzaC1lZDI1NTE5QG9wZW5zc2guY29tAAAAIJmNHITF0HFu8MrY21QKaUSpA+/6Zz9AvoqOGJy/0YIpAAAABHNzaDoBAAAABmhhbmRsZQAAAAA=",
        format: None,
    },
];

/// A key's blobs.
#[derive(Drop)]
pub struct Key {
    pub public: Vec<u8>,
    pub private: Vec<u8>,
}

/// The blobs of the row.
pub fn key_of(alloc: Global, row: &KeyRow) -> Result<Key, Fail> {
    let public = ManuallyDrop::new(decode(alloc, row.public.as_bytes())?);
    let private = decode(alloc, row.private.as_bytes())?;
    Ok(Key {
        public: ManuallyDrop::into_inner(public),
        private,
    })
}

// s(b"ssh-ed25519"), and the length of a key of 32 bytes behind it.
const ED_NAME: &[u8] = b"\0\0\0\x0bssh-ed25519\0\0\0\x20";

/// An Ed25519 key by its number, which its last four public bytes say. Its other bytes are zeros.
pub fn numbered_key(alloc: Global, number: u32) -> Result<Key, Fail> {
    let mut public = ManuallyDrop::new(Vec::from_slice(alloc, ED_NAME)?);
    push_numbered(&mut *public, number)?;
    let mut private = ManuallyDrop::new(Vec::from_slice(alloc, public.as_slice())?);
    private.extend_from_slice(&[0, 0, 0, 64])?;
    private.extend_from_slice(&[0; 32])?;
    push_numbered(&mut *private, number)?;
    Ok(Key {
        public: ManuallyDrop::into_inner(public),
        private: ManuallyDrop::into_inner(private),
    })
}

fn push_numbered(bytes: &mut Vec<u8>, number: u32) -> Result<(), Fail> {
    bytes.extend_from_slice(&[0; 28])?;
    bytes.extend_from_slice(&number.to_be_bytes())?;
    Ok(())
}
