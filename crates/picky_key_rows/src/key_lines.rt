//! Keys of ssh-keygen, and what other programs make of them.

/// A key's line without its end, and what other programs make of the line.
pub struct KeyRow {
    pub name: &'static str,
    pub line: &'static str,
    /// PuTTYgen's text of the key; it reads no key of a device.
    pub putty: Option<&'static str>,
    /// The digests that `ssh-keygen -l` shows, MD5's without its colons.
    pub md5: &'static str,
    pub sha1: &'static str,
    pub sha256: &'static str,
}

// line: ssh-keygen -q -t ecdsa -b 256 -N '' -C ecdsa-256@example.com -f key; cat key.pub; and so on.
// Those of devices are made of such keys by hand, as OpenSSH's PROTOCOL.u2f lays them out.
// putty: puttygen key.pub -O public, of release 0.78, which ends lines by LF where there is no Windows;
// | sed 's/$/\r/'
// md5: ssh-keygen -l -E md5 -f key.pub | cut -d' ' -f2, without MD5 and colons; and so on.
//
// From "RSA of 2048 bits" on, -C p256@example.org and so on. Of these lines puttygen -L key.pub writes
// each again that is of no device, and their texts are puttygen -p key.pub | sed 's/$/\r/'.
pub static KEY_ROWS: [KeyRow; 14] = [
    KeyRow {
        name: "RSA",
        line: "ssh-rsa AAAAB3NzaC1yc2EAAAADAQABAAAAgQDcf41PtsYT9ZSJFgc9TX8y9h6fFhWpO0kVKpjaEVFjYBfFipCxW0AWdSVVimlMZX4CiSct7PLusctngTme4kQsVOS+/OtbsxQlJ+sdxCIdlkAt3DC5ymLCosyMe9wJ321ySvZ1Y7Pz9ZI9jjP5pl5T22HEsvpEkQ38/kHab00qZw== rsa-1024@example.com",
        putty: Some(
            "---- BEGIN SSH2 PUBLIC KEY ----\r
Comment: \"rsa-1024@example.com\"\r
AAAAB3NzaC1yc2EAAAADAQABAAAAgQDcf41PtsYT9ZSJFgc9TX8y9h6fFhWpO0kV\r
KpjaEVFjYBfFipCxW0AWdSVVimlMZX4CiSct7PLusctngTme4kQsVOS+/OtbsxQl\r
J+sdxCIdlkAt3DC5ymLCosyMe9wJ321ySvZ1Y7Pz9ZI9jjP5pl5T22HEsvpEkQ38\r
/kHab00qZw==\r
---- END SSH2 PUBLIC KEY ----\r
",
        ),
        md5: "ab749aab5a7f92d50c565bbc7d5083eb",
        sha1: "/qKDPgv8F4ViE4gP42BmaPskXPQ",
        sha256: "PQgRjAQFO2ToHoPZBv1VjqylrNPYt1QYUpm+pK6Ltug",
    },
    KeyRow {
        name: "NIST P-256",
        line: "ecdsa-sha2-nistp256 AAAAE2VjZHNhLXNoYTItbmlzdHAyNTYAAAAIbmlzdHAyNTYAAABBBIqLFdWu7d2oNPPi7tV1tTBGfkXtI1ztJtiMJRkPOWNo693lLixqbKjIz3UB86Gau6JAMpHsD4NGeZr3nWQ8rJw= ecdsa-256@example.com",
        putty: Some(
            "---- BEGIN SSH2 PUBLIC KEY ----\r
Comment: \"ecdsa-256@example.com\"\r
AAAAE2VjZHNhLXNoYTItbmlzdHAyNTYAAAAIbmlzdHAyNTYAAABBBIqLFdWu7d2o\r
NPPi7tV1tTBGfkXtI1ztJtiMJRkPOWNo693lLixqbKjIz3UB86Gau6JAMpHsD4NG\r
eZr3nWQ8rJw=\r
---- END SSH2 PUBLIC KEY ----\r
",
        ),
        md5: "b18f8b83dec408e1b35de701ead671a2",
        sha1: "Xp8paRQ4pQxeIZRwYbtzKmrZ6eI",
        sha256: "KzvNh7n6QtyINn8ZW9Iqzi+e9PYXnTE//ROYrBry/7c",
    },
    KeyRow {
        name: "NIST P-384",
        line: "ecdsa-sha2-nistp384 AAAAE2VjZHNhLXNoYTItbmlzdHAzODQAAAAIbmlzdHAzODQAAABhBInoQe6mYfkw6inK9QorZPsxxtEa78x/eSAQmv5k0Xw423U/6crJ1ch6klExqmapfF22uaiuUEcPWEWDq8WGdKV5NqL1DXK6HWJRcRHRHWpYqjkp7gqQiswUZOysIjzzsA== ecdsa-384@example.com",
        putty: Some(
            "---- BEGIN SSH2 PUBLIC KEY ----\r
Comment: \"ecdsa-384@example.com\"\r
AAAAE2VjZHNhLXNoYTItbmlzdHAzODQAAAAIbmlzdHAzODQAAABhBInoQe6mYfkw\r
6inK9QorZPsxxtEa78x/eSAQmv5k0Xw423U/6crJ1ch6klExqmapfF22uaiuUEcP\r
WEWDq8WGdKV5NqL1DXK6HWJRcRHRHWpYqjkp7gqQiswUZOysIjzzsA==\r
---- END SSH2 PUBLIC KEY ----\r
",
        ),
        md5: "2c97cbd81213ee5f1ebc2eecf8fd67d4",
        sha1: "BQwtt5ddkkSt35oD7+VqbZrU9Ag",
        sha256: "KnDCylbBFe+OgMl/1o55ZSiDbRZX7FbK11kheJy24iA",
    },
    KeyRow {
        name: "NIST P-521",
        line: "ecdsa-sha2-nistp521 AAAAE2VjZHNhLXNoYTItbmlzdHA1MjEAAAAIbmlzdHA1MjEAAACFBAHMbr/DiBojsks6eywY+dYrLRdK5WsoCPGR1J1Y4Htm/Kew6NsvR/EqRhu5uYGLG3u7FoRql1RfVa6GsFhsOSAbggB+6nOxYW6GnWB/EPpNpPVA8Ake+GgtKmon2OYTLSqIZut9vUo0p74jxo7Zc1tZ++If2IJYyRV4tMHZ9ERQvCIQ6w== ecdsa-521@example.com",
        putty: Some(
            "---- BEGIN SSH2 PUBLIC KEY ----\r
Comment: \"ecdsa-521@example.com\"\r
AAAAE2VjZHNhLXNoYTItbmlzdHA1MjEAAAAIbmlzdHA1MjEAAACFBAHMbr/DiBoj\r
sks6eywY+dYrLRdK5WsoCPGR1J1Y4Htm/Kew6NsvR/EqRhu5uYGLG3u7FoRql1Rf\r
Va6GsFhsOSAbggB+6nOxYW6GnWB/EPpNpPVA8Ake+GgtKmon2OYTLSqIZut9vUo0\r
p74jxo7Zc1tZ++If2IJYyRV4tMHZ9ERQvCIQ6w==\r
---- END SSH2 PUBLIC KEY ----\r
",
        ),
        md5: "24b490a713a060deed8bb00c9e4e2077",
        sha1: "ZN/133sOe4iof2qsSvhuolwLITg",
        sha256: "bqYn/9/aG0k1azc+W1/yWXsBDXRsx8J42jbwSewfTVQ",
    },
    KeyRow {
        name: "Ed25519",
        line: "ssh-ed25519 AAAAC3NzaC1lZDI1NTE5AAAAIIW5ErFsW9CIpb/ceM1WtA5ZFaU4t08o4uVN3ER9qDA9 ed25519@example.com",
        putty: Some(
            "---- BEGIN SSH2 PUBLIC KEY ----\r
Comment: \"ed25519@example.com\"\r
AAAAC3NzaC1lZDI1NTE5AAAAIIW5ErFsW9CIpb/ceM1WtA5ZFaU4t08o4uVN3ER9\r
qDA9\r
---- END SSH2 PUBLIC KEY ----\r
",
        ),
        md5: "c89e363422aa0962f84ad3af298469ee",
        sha1: "Izu3NR7iLfMnl4pFrmA5SZ3Shso",
        sha256: "5ZGogCgruNX8khzsAybxwDMzJF2dJbd0sMipUgeNnI4",
    },
    KeyRow {
        name: "NIST P-256 on a device",
        line: "sk-ecdsa-sha2-nistp256@openssh.com AAAAInNrLWVjZHNhLXNoYTItbmlzdHAyNTZAb3BlbnNzaC5jb20AAAAIbmlzdHAyNTYAAABBBIqLFdWu7d2oNPPi7tV1tTBGfkXtI1ztJtiMJRkPOWNo693lLixqbKjIz3UB86Gau6JAMpHsD4NGeZr3nWQ8rJwAAAAEc3NoOg== token",
        putty: None,
        md5: "8b1b8f33b76c1bda4f81e7695c0341c8",
        sha1: "XO2QZlRYL3PYpXtGE4Sjuf4xTok",
        sha256: "nEwBTdYReevD7+fqdyAWb7EI+IBQXOxbjETm0NCrOm8",
    },
    KeyRow {
        name: "Ed25519 on a device",
        line: "sk-ssh-ed25519@openssh.com AAAAGnNrLXNzaC1lZDI1NTE5QG9wZW5zc2guY29tAAAAIIW5ErFsW9CIpb/ceM1WtA5ZFaU4t08o4uVN3ER9qDA9AAAACnNzaDpsYXB0b3A= token",
        putty: None,
        md5: "c5811b4d6c00e4c74fae2bd19e55b08a",
        sha1: "IPiu/JTnHNoccoAxJUJC4qK+8ic",
        sha256: "sO6PdwfYmpwCjDgXFzUA0C1WCcvD1aDzjbKPxO0RWXg",
    },
    KeyRow {
        name: "RSA of 2048 bits",
        line: "ssh-rsa AAAAB3NzaC1yc2EAAAADAQABAAABAQDI9ht2g2qOPgSG5huVYjFUouyaw59/6QuQqUVGwgnITlhRbM+bkvJQfcuiqcv+vD9/86Dfugk79sSfg/aVK+V/plqAAZoujz/wALDjEphSxAUcAR+t4i2F39Pa71MSc37I9L30z31tcba1X7od7hzrVMl9iurkOyBC4xcIWa1H8h0mDyoXyWPTqoTONDUe9dB1eu6GbixCfUcxvdVt0pAVJTdOmbNXKwRo5WXfMrsqKsFT2Acg4Vm4TfLShSSUW4rqM6GOBCfF6jnxFvTSDentH5hykjWL3lMCghD+1hJyOdnMHJC/5qTUGOB86MxsR4RCXqS+LZrGpMScVyDQge7r test2@picky.com",
        putty: Some(
            "---- BEGIN SSH2 PUBLIC KEY ----\r
Comment: \"test2@picky.com\"\r
AAAAB3NzaC1yc2EAAAADAQABAAABAQDI9ht2g2qOPgSG5huVYjFUouyaw59/6QuQ\r
qUVGwgnITlhRbM+bkvJQfcuiqcv+vD9/86Dfugk79sSfg/aVK+V/plqAAZoujz/w\r
ALDjEphSxAUcAR+t4i2F39Pa71MSc37I9L30z31tcba1X7od7hzrVMl9iurkOyBC\r
4xcIWa1H8h0mDyoXyWPTqoTONDUe9dB1eu6GbixCfUcxvdVt0pAVJTdOmbNXKwRo\r
5WXfMrsqKsFT2Acg4Vm4TfLShSSUW4rqM6GOBCfF6jnxFvTSDentH5hykjWL3lMC\r
ghD+1hJyOdnMHJC/5qTUGOB86MxsR4RCXqS+LZrGpMScVyDQge7r\r
---- END SSH2 PUBLIC KEY ----\r
",
        ),
        md5: "7b6b9cc2e44452aec58c3a0a31d6258d",
        sha1: "ezHoULh4V/R9NybfxCW2pL9ADcU",
        sha256: "cTXkM4frGl07u46Bhzy+YMOS01lX51oE2j6STi7g568",
    },
    KeyRow {
        name: "another NIST P-256",
        line: "ecdsa-sha2-nistp256 AAAAE2VjZHNhLXNoYTItbmlzdHAyNTYAAAAIbmlzdHAyNTYAAABBBBvR5+rmst1fSjKzVl6DBdGSvtZhrkkp2EuK8LezWUE09hPbtjYxqFuSGeFWit4CvDdUoFycCeXcqRzUpzWU7/c= p256@example.org",
        putty: Some(
            "---- BEGIN SSH2 PUBLIC KEY ----\r
Comment: \"p256@example.org\"\r
AAAAE2VjZHNhLXNoYTItbmlzdHAyNTYAAAAIbmlzdHAyNTYAAABBBBvR5+rmst1f\r
SjKzVl6DBdGSvtZhrkkp2EuK8LezWUE09hPbtjYxqFuSGeFWit4CvDdUoFycCeXc\r
qRzUpzWU7/c=\r
---- END SSH2 PUBLIC KEY ----\r
",
        ),
        md5: "72fac42a8b8957ed161c5ed37c8ea66a",
        sha1: "F2SOTeH1wQn4jORtRnJPEngCpQ0",
        sha256: "tvMYa/Z1NjdKS4O+ACOcpLVWgQFc43btJyuBaJQ8Hso",
    },
    KeyRow {
        name: "another NIST P-384",
        line: "ecdsa-sha2-nistp384 AAAAE2VjZHNhLXNoYTItbmlzdHAzODQAAAAIbmlzdHAzODQAAABhBGiWQa7mhYGdIVLKsqEHsxUhzLzul8zrzHrDqgAuPyZn/VzmiJkNFfftmBvuHDZys1dzetcmUWrGW7WYXdmnBxfKV21AQbQ7KLiAlATsiyRLXMFhm5Wb11dvqU0CizBPsg== p384@example.org",
        putty: Some(
            "---- BEGIN SSH2 PUBLIC KEY ----\r
Comment: \"p384@example.org\"\r
AAAAE2VjZHNhLXNoYTItbmlzdHAzODQAAAAIbmlzdHAzODQAAABhBGiWQa7mhYGd\r
IVLKsqEHsxUhzLzul8zrzHrDqgAuPyZn/VzmiJkNFfftmBvuHDZys1dzetcmUWrG\r
W7WYXdmnBxfKV21AQbQ7KLiAlATsiyRLXMFhm5Wb11dvqU0CizBPsg==\r
---- END SSH2 PUBLIC KEY ----\r
",
        ),
        md5: "33363d627ffc168bb7634e95d9d77664",
        sha1: "lRWQlbOm3Wn1aNKiR3HNHDmFiio",
        sha256: "0co1KVzOz7BNoLSNE7zQugB0FZEBL9JBlT8YWIFUBTc",
    },
    KeyRow {
        name: "another NIST P-521",
        line: "ecdsa-sha2-nistp521 AAAAE2VjZHNhLXNoYTItbmlzdHA1MjEAAAAIbmlzdHA1MjEAAACFBAH8INIWhuCMbEDFBplQ9xcKrqwy2HPcGftXDweF6WLJkLq/IeHSv/3SP1nl7R5jVYX25efpQ2bBqAzhXT4+8Y0Y0gGHFbNPdTlxW4U9bUUP/CS/R2pJCPKWC1NgI9YfN6ZJ6X+w6J1reYht4MrdPh72ZtsaalrbnLkeiS2wmN/5n62wWQ== p521@example.org",
        putty: Some(
            "---- BEGIN SSH2 PUBLIC KEY ----\r
Comment: \"p521@example.org\"\r
AAAAE2VjZHNhLXNoYTItbmlzdHA1MjEAAAAIbmlzdHA1MjEAAACFBAH8INIWhuCM\r
bEDFBplQ9xcKrqwy2HPcGftXDweF6WLJkLq/IeHSv/3SP1nl7R5jVYX25efpQ2bB\r
qAzhXT4+8Y0Y0gGHFbNPdTlxW4U9bUUP/CS/R2pJCPKWC1NgI9YfN6ZJ6X+w6J1r\r
eYht4MrdPh72ZtsaalrbnLkeiS2wmN/5n62wWQ==\r
---- END SSH2 PUBLIC KEY ----\r
",
        ),
        md5: "03cf8155e0f894b4ffcf0cb9e1f1db45",
        sha1: "x4H7UZZG89Tz07SJ0L4eE/6SPTQ",
        sha256: "ZaQHnt0f6bbVhnSlR9Sc+LUwjhdG6N6mitKo2dWmW1M",
    },
    KeyRow {
        name: "another Ed25519",
        line: "ssh-ed25519 AAAAC3NzaC1lZDI1NTE5AAAAIDshZ4NbWge6nF1hBlL271KRtC58zOpjvBSbWH73aaXR ed25519@example.org",
        putty: Some(
            "---- BEGIN SSH2 PUBLIC KEY ----\r
Comment: \"ed25519@example.org\"\r
AAAAC3NzaC1lZDI1NTE5AAAAIDshZ4NbWge6nF1hBlL271KRtC58zOpjvBSbWH73\r
aaXR\r
---- END SSH2 PUBLIC KEY ----\r
",
        ),
        md5: "a91b3f8c4cd5a6b4d3c1cb1e4ce20a5f",
        sha1: "8JkrSoZs2ZHr7hiwqD6Png/P8PY",
        sha256: "GpZHBlswNwKy/VHD8The7sTPirIXMdomrVQmAHpi/nQ",
    },
    KeyRow {
        name: "another NIST P-256 on a device",
        line: "sk-ecdsa-sha2-nistp256@openssh.com AAAAInNrLWVjZHNhLXNoYTItbmlzdHAyNTZAb3BlbnNzaC5jb20AAAAIbmlzdHAyNTYAAABBBBvR5+rmst1fSjKzVl6DBdGSvtZhrkkp2EuK8LezWUE09hPbtjYxqFuSGeFWit4CvDdUoFycCeXcqRzUpzWU7/cAAAAEc3NoOg== token@example.org",
        putty: None,
        md5: "a9e4965eccf8cad8b1e13804c594e234",
        sha1: "LbdLxeZ0u8hO1+FV6jhyt2HowQY",
        sha256: "wEejb0dhZ67dNu6x2GsIGIFQ8PhtOi0qyXCznnpbYcA",
    },
    KeyRow {
        name: "another Ed25519 on a device",
        line: "sk-ssh-ed25519@openssh.com AAAAGnNrLXNzaC1lZDI1NTE5QG9wZW5zc2guY29tAAAAIDshZ4NbWge6nF1hBlL271KRtC58zOpjvBSbWH73aaXRAAAACnNzaDpsYXB0b3A= token@example.org",
        putty: None,
        md5: "9a3e3cbe5d13e992e585136f7f881341",
        sha1: "P2l/vDMjc5+T3BgsAuraqnHcTe4",
        sha256: "AplHUwUprIT3F6oKIueixbrL2MY/jY9wWO0QlTOMVkI",
    },
];
