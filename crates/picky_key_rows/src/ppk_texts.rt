//! Texts of PuTTY private key files that PuTTYgen wrote or reads, and what it says of them.

use picky_ppk_parts::{Argon2Flavour, PpkEncryptionConfig, PpkKeyAlgorithm, PpkVersion};
use std::alloc::{AllocError, Global};

pub const VERSIONS: [PpkVersion; 2] = [PpkVersion::V2, PpkVersion::V3];

// What the sealed files are sealed by.
pub const PASS: &str = "password";

pub const CONFIG: PpkEncryptionConfig = PpkEncryptionConfig {
    argon2_flavour: Argon2Flavour::Argon2id,
    argon2_memory: 8,
    argon2_passes: 1,
    argon2_parallelism: 1,
    argon2_salt_size: 16,
};

/// A key's file that isn't sealed, in both versions, and what PuTTYgen says of it.
pub struct PpkRow {
    /// That of its key in `PRIVATE_ROWS`.
    pub name: &'static str,
    /// What stands between the first line's version and the MAC, the same in both versions.
    pub body: &'static str,
    pub mac_v2: &'static str,
    pub mac_v3: &'static str,
    pub algorithm: PpkKeyAlgorithm,
    pub comment: &'static str,
    /// How many bytes lack to whole blocks of 16.
    pub padding_len: usize,
}

/// The row's text, with CR LF in version 2 (docs/FORMATS.md), where PuTTYgen wrote LF. Refuses: want of memory.
pub fn text_of(alloc: Global, row: &PpkRow, version: PpkVersion) -> Result<String, AllocError> {
    text_with_macs(alloc, row.body, version, row.mac_v2, row.mac_v3)
}

/// The text of a body and the MACs of its versions. Refuses: want of memory.
pub fn text_with_macs(
    alloc: Global,
    body: &str,
    version: PpkVersion,
    mac_v2: &str,
    mac_v3: &str,
) -> Result<String, AllocError> {
    match version {
        PpkVersion::V2 => v2_text(alloc, body, mac_v2),
        PpkVersion::V3 => format!(in alloc; "PuTTY-User-Key-File-3{body}Private-MAC: {mac_v3}\n"),
    }
}

fn v2_text(alloc: Global, body: &str, mac: &str) -> Result<String, AllocError> {
    let text = format!(in alloc; "PuTTY-User-Key-File-2{body}Private-MAC: {mac}\n")?;
    text.replace(alloc, "\n", "\r\n")
}

// Of the second row below.
pub const P256_BODY: &str = ": ecdsa-sha2-nistp256\n\
    Encryption: none\n\
    Comment: a comment\n\
    Public-Lines: 3\n\
    AAAAE2VjZHNhLXNoYTItbmlzdHAyNTYAAAAIbmlzdHAyNTYAAABBBEnNK8hhGGvZ\n\
    jrP1wGQ9f9R5lpHKWcdWam3ehifGfqZu+aesi+nkcfRccckMkFl/OAhENMIgzOi3\n\
    EeFITf5XxLQ=\n\
    Private-Lines: 1\n\
    AAAAIBeWzmcT4sZT7jGSuNSu36Of64QgjGE5cMgGwL0qZb4T\n";

// puttygen 0.78, of the keys in `PRIVATE_ROWS`: puttygen key -O private -o key.ppk --ppk-param version=3; cat key.ppk
// and so on with version=2. The texts of the two versions differ in the first line's version and the MAC alone.
// padding_len, by Python of the private lines: -len(base64.b64decode(private)) % 16
pub static PPK_ROWS: [PpkRow; 5] = [
    PpkRow {
        name: "RSA",
        body: ": ssh-rsa\n\
            Encryption: none\n\
            Comment: a comment\n\
            Public-Lines: 4\n\
            AAAAB3NzaC1yc2EAAAADAQABAAAAgQDUorNg/bZD2IVO/guI8gVs3YlMx/gMR073\n\
            1Iu2CkiOyN1zN2ARmV+WD+9bFIXUyxM3Hx4nITnuZ93+aZEFCTy1NUfRHzqn/5df\n\
            fMaUObx2HIgTXM3IifEtIFC6OT0rE3LXN8medlLpEvVbv3Azu69VymHa77Zt36N4\n\
            wi98vbgvjQ==\n\
            Private-Lines: 8\n\
            AAAAgAfp0jEu4ASgXz20WKuNDkSh7gUsf/+8+6RfhZ+NvGuL8Cnkiq+8/ICyMR87\n\
            oUttD1cC0nV0WBqWRP294gbE9DxcwaSjYMnXwk6L84ai7fqI3x+bPATk9QrbLDXA\n\
            xpqWp6ysDvUCDVLpvz50jJ+8a7bckL8ZgS9/EUSiE+7ZibAFAAAAQQD/2ovILrCm\n\
            hqtc9Yn0yzXTLSvMOt9RjczVIHqh2cKuEV/TJ1gqumh0aMefg2S8hf+ZmtSv9A2o\n\
            96fnhzjwcrkPAAAAQQDUwdP62J339egNi7RCJhpObdoydo7Z7gyd/uyscrGhtKqJ\n\
            g552LNDoNx58LW9EflNTxUZ1eCsTo44q5KADX/WjAAAAQQCTj8NInai2z/e2vEDC\n\
            bEi72rkKOVc69E++CxdVLd50+6GubRcKo6b5oxmED+MS4kFcc67EkmzjhUQSRhRz\n\
            6lJz\n",
        mac_v2: "30966397cb33cd363ec51ab63c74e43422f344f8",
        mac_v3: "307021fd39757f39e9a0d135a5c253a9033e14d0f374beb76574d0926f604430",
        algorithm: PpkKeyAlgorithm::Rsa,
        comment: "a comment",
        padding_len: 13,
    },
    PpkRow {
        name: "NIST P-256",
        body: P256_BODY,
        mac_v2: "6b3af4487f9623a2315e09fb6ca3abb7169424c9",
        mac_v3: "6a5f1dbe46110b3433339875a7f673ba47965c317a5edaa31b2b8563949511cc",
        algorithm: PpkKeyAlgorithm::EcdsaSha2Nistp256,
        comment: "a comment",
        padding_len: 12,
    },
    PpkRow {
        name: "NIST P-384",
        body: ": ecdsa-sha2-nistp384\n\
            Encryption: none\n\
            Comment: a comment\n\
            Public-Lines: 3\n\
            AAAAE2VjZHNhLXNoYTItbmlzdHAzODQAAAAIbmlzdHAzODQAAABhBHe4i5nVwlSA\n\
            RHJym1Dk5+Ib6eRmBEU99qFc9+ZGYUiw6V1mO7Wu62snKloLZhq5zhZlqyyXpB6f\n\
            kW/RZItXjY6R26q97FLxHurd3PI6hMqgMl4oYekNFgruHnYrDbv2Qg==\n\
            Private-Lines: 2\n\
            AAAAMQC0FOOFqCMVlLW2E6H8V/cKEB9eEbOX9E0ZktFcV5aCm1By8xEGIyeLw3yr\n\
            KSv/Phg=\n",
        mac_v2: "a94db82c992a6805c7d14c29861fec472bef71e8",
        mac_v3: "06f5235d0fdb506108e2d19329d9700a9f32d1cbbe0e0a2bac7605e75266852a",
        algorithm: PpkKeyAlgorithm::EcdsaSha2Nistp384,
        comment: "a comment",
        padding_len: 11,
    },
    PpkRow {
        name: "NIST P-521",
        body: ": ecdsa-sha2-nistp521\n\
            Encryption: none\n\
            Comment: a comment\n\
            Public-Lines: 4\n\
            AAAAE2VjZHNhLXNoYTItbmlzdHA1MjEAAAAIbmlzdHA1MjEAAACFBAEmR8kfLd8T\n\
            iMiQk+kJML2f5sjEJOZxZr6phuOVynOAtf3c9H9QgKEP7AYJSsWsIDpJ8vBcCLVx\n\
            TwEFrdM28lG/hAFIx7jH4s7stKzkXsLIy9ixUBquTZG1jM+Yb1Gb3tWzs8HAsnlr\n\
            afwxugfQTJVtwN/5ZD5TAh+X73Uo32X6qzAy/A==\n\
            Private-Lines: 2\n\
            AAAAQgFsyiVQHOsvgAyK+7zyCjCr9dop6YbP1azEV9t0kz6REHgGcwhCKxUmm/m2\n\
            tSP5h/SFGyOk+sj7DEHtG42gdAi39g==\n",
        mac_v2: "dc17141d09a4fb92f91bf1f9c17106eb1f21ab12",
        mac_v3: "279478dcb4477090b00d4d198c32a83bcb3703cef002e20e8db4076774cdb9cf",
        algorithm: PpkKeyAlgorithm::EcdsaSha2Nistp521,
        comment: "a comment",
        padding_len: 10,
    },
    PpkRow {
        name: "Ed25519",
        body: ": ssh-ed25519\n\
            Encryption: none\n\
            Comment: \n\
            Public-Lines: 2\n\
            AAAAC3NzaC1lZDI1NTE5AAAAILcAklWWI9+GWtIxMvTJTpJX7N/oCsY2wTesKA37\n\
            AlTY\n\
            Private-Lines: 1\n\
            AAAAIE39joiZVZpxQJkqeXVxT+00UmECcnEZEzvlmmBfxx9l\n",
        mac_v2: "fb5e07b4dad5f6f58bd53cebb74ae49385046a84",
        mac_v3: "919b0a050e6e54e62c598b54d228caca9d41e56df300662a614f02741c555650",
        algorithm: PpkKeyAlgorithm::Ed25519,
        comment: "",
        padding_len: 12,
    },
];

// PuTTYgen 0.78's file of the P-256 key under the passphrase `pass`, which is in the file pw. It opens it:
// puttygen sealed.ppk --old-passphrase pw -O private-openssh-new --new-passphrase /dev/null -o key; ssh-keygen -y -f key
pub const SEALED_V3: &str = "PuTTY-User-Key-File-3: ecdsa-sha2-nistp256\n\
    Encryption: aes256-cbc\n\
    Comment: a comment\n\
    Public-Lines: 3\n\
    AAAAE2VjZHNhLXNoYTItbmlzdHAyNTYAAAAIbmlzdHAyNTYAAABBBEnNK8hhGGvZ\n\
    jrP1wGQ9f9R5lpHKWcdWam3ehifGfqZu+aesi+nkcfRccckMkFl/OAhENMIgzOi3\n\
    EeFITf5XxLQ=\n\
    Key-Derivation: Argon2id\n\
    Argon2-Memory: 8\n\
    Argon2-Passes: 1\n\
    Argon2-Parallelism: 1\n\
    Argon2-Salt: c5639f04b9abb449979fef76433ed2c8\n\
    Private-Lines: 1\n\
    fofdUJ72CGlReiAgbifvDEt/hpnAUL5n2DS13DFcWcQQTjr/w9XvcXA+uqB4FtHL\n\
    Private-MAC: b1fd97ed7729b8859f0e488c9fe68d3c1c89726e3cbb34e617eab9cdd55b20a5\n";

// The same in version 2, as PuTTYgen wrote it, with LF.
pub const SEALED_V2: &str = "PuTTY-User-Key-File-2: ecdsa-sha2-nistp256\n\
    Encryption: aes256-cbc\n\
    Comment: a comment\n\
    Public-Lines: 3\n\
    AAAAE2VjZHNhLXNoYTItbmlzdHAyNTYAAAAIbmlzdHAyNTYAAABBBEnNK8hhGGvZ\n\
    jrP1wGQ9f9R5lpHKWcdWam3ehifGfqZu+aesi+nkcfRccckMkFl/OAhENMIgzOi3\n\
    EeFITf5XxLQ=\n\
    Private-Lines: 1\n\
    giYT6Q9tmZuu2cDm1ANSpm5/hnsTVplQd9wMli9dFoY3s/anmbXJ8Vilr7bjPNjh\n\
    Private-MAC: 1438b68ceecee9a73e1af138f4cd7f39bb70856f\n";

// The P-256 key sealed by the suite for tests: private and blob are the bytes of its body's blocks.
// import hmac
// from hashlib import sha1, sha512
// n32 = lambda n: n.to_bytes(4, "big")
// s = lambda b: n32(len(b)) + b
// xor = lambda a, b: bytes(x ^ y for x, y in zip(a, b))
// PASS, SALT, PLAIN = b"password", b"saltsaltsaltsalt", private + b"twelve bytes"
// D = b"".join(sha512(s(PASS) + s(SALT) + b"".join(map(n32, (2, 8, 1, 1))) + bytes([i])).digest() for i in (0, 1))
// def seal(key, iv):
//     out = iv
//     for i in range(0, len(PLAIN), 16):
//         out += xor(xor(PLAIN[i:i + 16], out[-16:]), key)
//     return out[16:]
// covered = b"".join(map(s, (b"ecdsa-sha2-nistp256", b"aes256-cbc", b"a comment", blob, PLAIN)))
// print(seal(D[:32], D[32:48]), hmac.new(D[48:80], covered, "sha256").hexdigest())
pub const TOY_V3: &str = "PuTTY-User-Key-File-3: ecdsa-sha2-nistp256\n\
    Encryption: aes256-cbc\n\
    Comment: a comment\n\
    Public-Lines: 3\n\
    AAAAE2VjZHNhLXNoYTItbmlzdHAyNTYAAAAIbmlzdHAyNTYAAABBBEnNK8hhGGvZ\n\
    jrP1wGQ9f9R5lpHKWcdWam3ehifGfqZu+aesi+nkcfRccckMkFl/OAhENMIgzOi3\n\
    EeFITf5XxLQ=\n\
    Key-Derivation: Argon2id\n\
    Argon2-Memory: 8\n\
    Argon2-Passes: 1\n\
    Argon2-Parallelism: 1\n\
    Argon2-Salt: 73616c7473616c7473616c7473616c74\n\
    Private-Lines: 1\n\
    6oyHO9HyHO8Ldw4UYJtkSG5IE709yF+OR9h799vSztcUR+aLOm79o/FzFwbR6cGG\n\
    Private-MAC: 5d4d6b8bedb04c671bc6ed16e387244d3334c5a28247e32dfd2d41ec9f258c34\n";

// K = b"".join(sha1(n32(i) + PASS).digest() for i in (0, 1))[:32]
// M = sha1(b"putty-private-key-file-mac-key" + PASS).digest()
// print(seal(K, bytes(16)), hmac.new(M, covered, "sha1").hexdigest())
pub const TOY_V2: &str = "PuTTY-User-Key-File-2: ecdsa-sha2-nistp256\n\
    Encryption: aes256-cbc\n\
    Comment: a comment\n\
    Public-Lines: 3\n\
    AAAAE2VjZHNhLXNoYTItbmlzdHAyNTYAAAAIbmlzdHAyNTYAAABBBEnNK8hhGGvZ\n\
    jrP1wGQ9f9R5lpHKWcdWam3ehifGfqZu+aesi+nkcfRccckMkFl/OAhENMIgzOi3\n\
    EeFITf5XxLQ=\n\
    Private-Lines: 1\n\
    r66uf9D313zwGwidscriBNSu34OIfUpHn4P/IyY3UgVRZc/PO2s2MAofEY8AuEfK\n\
    Private-MAC: 5f51099c27afdac5453da46f3dc84e4c0433df6d\n";

// puttygen p256.ppk -O public, with CR LF
pub const PUBLIC: &str = "---- BEGIN SSH2 PUBLIC KEY ----\r\n\
    Comment: \"a comment\"\r\n\
    AAAAE2VjZHNhLXNoYTItbmlzdHAyNTYAAAAIbmlzdHAyNTYAAABBBEnNK8hhGGvZ\r\n\
    jrP1wGQ9f9R5lpHKWcdWam3ehifGfqZu+aesi+nkcfRccckMkFl/OAhENMIgzOi3\r\n\
    EeFITf5XxLQ=\r\n\
    ---- END SSH2 PUBLIC KEY ----\r\n";
