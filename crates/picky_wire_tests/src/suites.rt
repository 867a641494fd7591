//! What the suite and the signers for tests answer, against values of Python's hashlib, and calls that fail by their
//! number.

use crate::fakes::is_hex;
use picky_keys::{Issuer, PublicKey, SignatureAlgorithm};
use picky_suite::laws::{
    a_tested_range_is_asked, the_counter_cipher_undoes_itself, two_signatures_are_good,
    what_is_sealed_is_opened, what_is_sealed_under_a_passphrase_is_opened,
};
use picky_suite::{
    Flavour, HandedSigner, MemorySigner, MemorySuite, PlainSuite, SignError, Signer, Suite,
    argon2_ok, bcrypt_ok,
};
use picky_wire::{Bytes, Failed};
use std::alloc::Global;
use std::mem::ManuallyDrop;
use std::test::Fail;

const PASS: &[u8] = b"password";

const SALT: &[u8] = b"saltsalt";

// bytes(range(32))
static KEY: [u8; 32] = [
    0, 1, 2, 3, 4, 5, 6, 7, 8, 9, 10, 11, 12, 13, 14, 15, 16, 17, 18, 19, 20, 21, 22, 23, 24, 25,
    26, 27, 28, 29, 30, 31,
];

// bytes(range(100, 116))
static IV: [u8; 16] = [
    100, 101, 102, 103, 104, 105, 106, 107, 108, 109, 110, 111, 112, 113, 114, 115,
];

// bytes(range(150, 183))
static TEXT: [u8; 33] = [
    150, 151, 152, 153, 154, 155, 156, 157, 158, 159, 160, 161, 162, 163, 164, 165, 166, 167, 168,
    169, 170, 171, 172, 173, 174, 175, 176, 177, 178, 179, 180, 181, 182,
];

// from hashlib import sha512
// n32 = lambda n: n.to_bytes(4, "big")
// s = lambda b: n32(len(b)) + b
// d = lambda ns: b"".join(sha512(s(b"password") + s(b"saltsalt") + b"".join(map(n32, ns)) + bytes([i])).digest()
//                         for i in (0, 1))
// print(d([16])[:32].hex(), d([16])[:48].hex())
fn gives_digests(alloc: Global, suite: &mut MemorySuite) -> Result<bool, Fail> {
    let mut short = [0; 32];
    suite.bcrypt(PASS, SALT, 16, &mut short)?;
    let mut long = [0; 48];
    suite.bcrypt(PASS, SALT, 16, &mut long)?;
    let wanted_short = "537431a36b9dc5b8428688a838cb14c687b81a6cfec04be28524f258a632567c";
    let wanted_long =
        "537431a36b9dc5b8428688a838cb14c687b81a6cfec04be28524f258a632567c86f7dd556e333b02cbfa1dd8bc2b17d3";
    Ok(is_hex(alloc, &short, wanted_short)? && is_hex(alloc, &long, wanted_long)?)
}

#[test]
fn bcrypt_gives_the_digests_of_python(rt: HostRuntime) -> Result<(), Fail> {
    let mut suite = ManuallyDrop::new(MemorySuite::new(rt.alloc(), &[])?);
    assert!(rt; gives_digests(rt.alloc(), &mut suite)?);
    Ok(())
}

// A flavour, and what is derived.
struct Derived {
    flavour: Flavour,
    wanted: &'static str,
}

// print(*[d([y, 8192, 21, 1])[:80].hex() for y in (0, 1, 2)]), with d as for bcrypt
static DERIVED: [Derived; 3] = [
    Derived {
        flavour: Flavour::Argon2d,
        wanted: "2b772b88dd0767ac92a30f119206f5fa523be2e2fc8ecac58f7264cdf3ad8baf58ce52ca9db477cd\
                9b0b04803a3f5b93de0ec5a9492894d2541108c837ea3b26c71063c86958dd0c15705816b113db56",
    },
    Derived {
        flavour: Flavour::Argon2i,
        wanted: "537ba0ee31f3c4e46ef7d09320815a8da88a259acb3ea9705d0d946e562d127db23dee1756780517\
                242b939d499377dd2cf52344a7c08b7a790ea22fd3664e30dada557e6937a2303fa1d954f92a4384",
    },
    Derived {
        flavour: Flavour::Argon2id,
        wanted: "362604bed7e8ab4a5ce03512c80e275b278c634269b37467ef78a39097055feb9c4276bc270f3311\
                a0cbb4d1137218513e1152f6974211c735e9c28163dd2ee150ae2625fc219910cc923a76eb251535",
    },
];

/// The suite derives what the row says.
fn derives(alloc: Global, suite: &mut MemorySuite, row: &Derived) -> Result<bool, Fail> {
    let mut out = [0; 80];
    suite.argon2(row.flavour, 8192, 21, 1, PASS, SALT, &mut out)?;
    Ok(is_hex(alloc, &out, row.wanted)?)
}

#[test]
fn argon2_gives_the_digests_of_python(rt: HostRuntime) -> Result<(), Fail> {
    let mut suite = ManuallyDrop::new(MemorySuite::new(rt.alloc(), &[])?);
    for row in &DERIVED {
        assert!(rt; derives(rt.alloc(), &mut suite, row)?, "{:?}", row.flavour);
    }
    Ok(())
}

// xor = lambda a, b: bytes(x ^ y for x, y in zip(a, b))
// key, iv, text = bytes(range(32)), bytes(range(100, 116)), bytes(range(150, 183))
// one = xor(xor(text[:16], iv), key)
// print((one + xor(xor(text[16:32], one), key)).hex())
/// Two blocks are sealed as this, and come back.
fn is_chained(alloc: Global, suite: &mut MemorySuite, wanted: &str) -> Result<bool, Fail> {
    let mut block = [0; 32];
    block.copy_from_slice(&TEXT[..32]);
    suite.cbc_seal(&KEY, &IV, &mut block)?;
    let is_sealed = is_hex(alloc, &block, wanted)?;
    suite.cbc_open(&KEY, &IV, &mut block)?;
    Ok(is_sealed && block.as_slice() == &TEXT[..32])
}

#[test]
fn two_blocks_are_sealed_in_a_chain(rt: HostRuntime) -> Result<(), Fail> {
    let mut suite = ManuallyDrop::new(MemorySuite::new(rt.alloc(), &[])?);
    let wanted = "f2f3fcfdf6f7f0f1fafbc4c5dedfd8d95455565758595a5b5c5d7e7f60616263";
    assert!(rt; is_chained(rt.alloc(), &mut suite, wanted)?);
    Ok(())
}

// print(b"".join(xor(xor(text[i:i + 16], key), iv) for i in (0, 16, 32)).hex()), with the words as for sealing
#[test]
fn a_cut_block_is_xored_too(rt: HostRuntime) -> Result<(), Fail> {
    let mut suite = ManuallyDrop::new(MemorySuite::new(rt.alloc(), &[])?);
    let mut block = TEXT;
    suite.ctr(&KEY, &IV, &mut block)?;
    let wanted = "f2f3fcfdf6f7f0f1fafbc4c5dedfd8d9c2c3cccdc6c7c0c1cacbd4d5cecfc8c9d2";
    assert!(rt; is_hex(rt.alloc(), &block, wanted)?);
    Ok(())
}

/// What the suite seals comes back: by a key, under a passphrase, and by the counter.
fn comes_back(suite: &mut MemorySuite) -> Result<bool, Failed> {
    let mut block = KEY;
    what_is_sealed_is_opened(suite, &KEY, &IV, &mut block)?;
    let by_key = block == KEY;
    what_is_sealed_under_a_passphrase_is_opened(suite, PASS, SALT, 16, &mut block)?;
    let under_pass = block == KEY;
    let mut text = TEXT;
    the_counter_cipher_undoes_itself(suite, &KEY, &IV, &mut text)?;
    Ok(by_key && under_pass && text == TEXT)
}

#[test]
fn what_is_sealed_comes_back(rt: HostRuntime) -> Result<(), Fail> {
    let mut suite = ManuallyDrop::new(MemorySuite::new(rt.alloc(), &[])?);
    assert!(rt; comes_back(&mut suite)?);
    Ok(())
}

// One call of each kind that can fail, by a number.
fn nth_call<S: Suite>(suite: &mut S, n: u64) -> Result<(), Failed> {
    let mut block = [0; 32];
    match n {
        0 => suite.bcrypt(PASS, SALT, 16, &mut block),
        1 => suite.argon2(Flavour::Argon2id, 8, 1, 1, PASS, SALT, &mut [0; 80]),
        2 => suite.cbc_seal(&KEY, &IV, &mut block),
        3 => suite.cbc_open(&KEY, &IV, &mut block),
        _ => suite.ctr(&KEY, &IV, &mut block),
    }
}

/// Of seven calls the suite fails the listed one alone.
fn fails_the_listed(suite: &mut MemorySuite, listed: u64) -> bool {
    for call in 0..7 {
        if nth_call(suite, call).is_err() != (call == listed) {
            return false;
        }
    }
    true
}

#[test]
fn a_suite_fails_the_listed_call(rt: HostRuntime) -> Result<(), Fail> {
    for listed in 0..5 {
        let mut suite = ManuallyDrop::new(MemorySuite::new(rt.alloc(), &[listed])?);
        assert!(rt; fails_the_listed(&mut suite, listed), "call {listed}");
    }
    Ok(())
}

/// The plain suite fails the call, and counts it.
fn is_failed_and_counted(call: u64) -> bool {
    let mut suite = ManuallyDrop::new(PlainSuite::new());
    nth_call(&mut *suite, call) == Err(Failed) && *suite != PlainSuite::new()
}

#[test]
fn the_plain_suite_fails_each_call_and_counts_it(rt: HostRuntime) -> Result<(), Fail> {
    for call in 0..5 {
        assert!(rt; is_failed_and_counted(call), "call {call}");
    }
    Ok(())
}

// Whose key is on another device.
fn issuer() -> Issuer {
    Issuer::Public(PublicKey::Ed { key: [7; 32] })
}

fn sign<G: Signer>(alloc: Global, signer: &mut G, message: &[u8]) -> Result<Bytes, SignError> {
    let issuer = ManuallyDrop::new(issuer());
    signer.sign(alloc, &issuer, SignatureAlgorithm::Ed25519, message)
}

// python3 -c 'import hashlib; print(hashlib.sha256(b"message").hexdigest())'
const DIGEST: &str = "ab530a13e45914982b79f9b7e3fba994cfd1f3fb22f71cea1afbf02b460c6d1d";

/// The signer signs by the digest, or fails where it has to.
fn signs_unless(alloc: Global, signer: &mut MemorySigner, fails: bool) -> Result<bool, Fail> {
    match sign(alloc, signer, b"message") {
        Ok(signature) => Ok(!fails && is_hex(alloc, signature.as_slice(), DIGEST)?),
        Err(error) => Ok(fails && error == SignError::Failed),
    }
}

/// Of five calls the listed one fails.
fn fails_once(alloc: Global, listed: u64) -> Result<bool, Fail> {
    let mut signer = MemorySigner::new(alloc, &[listed])?;
    for call in 0..5 {
        if !signs_unless(alloc, &mut signer, call == listed)? {
            return Ok(false);
        }
    }
    Ok(true)
}

fn signs_alike(alloc: Global) -> Result<bool, Fail> {
    let mut signer = ManuallyDrop::new(MemorySigner::new(alloc, &[])?);
    let issuer = ManuallyDrop::new(issuer());
    let algorithm = SignatureAlgorithm::Ed25519;
    let signatures = ManuallyDrop::new(two_signatures_are_good(
        &mut *signer,
        alloc,
        &issuer,
        algorithm,
        b"message",
    )?);
    Ok(signatures.0 == signatures.1)
}

#[test]
fn a_signer_signs_by_the_digest_and_fails_the_listed_call(rt: HostRuntime) -> Result<(), Fail> {
    for listed in 0..3 {
        assert!(rt; fails_once(rt.alloc(), listed)?, "{listed}");
    }
    assert!(rt; signs_alike(rt.alloc())?);
    Ok(())
}

fn signs_as_handed(alloc: Global, signer: &mut HandedSigner) -> Result<bool, SignError> {
    Ok(sign(alloc, signer, b"message")?.as_slice() == b"signature".as_slice())
}

fn signs_never(alloc: Global) -> bool {
    let mut signer = ManuallyDrop::new(HandedSigner::new(None));
    sign(alloc, &mut *signer, b"message") == Err(SignError::Failed)
        && sign(alloc, &mut *signer, b"message") == Err(SignError::Failed)
}

#[test]
fn a_handed_signature_is_answered_each_time(rt: HostRuntime) -> Result<(), Fail> {
    let signature = Bytes::new(rt.alloc(), b"signature")?;
    let mut signer = ManuallyDrop::new(HandedSigner::new(Some(signature)));
    for _ in 0..2 {
        assert!(rt; signs_as_handed(rt.alloc(), &mut signer)?);
    }
    assert!(rt; signs_never(rt.alloc()));
    Ok(())
}

#[test]
fn the_ranges_hold_their_ends(rt: HostRuntime) -> Result<(), Fail> {
    // RFC 9106, section 3.1: 1 to 2^24 - 1 lanes, 8 KiB a lane, a pass, lengths below 2^32; a salt of 8 bytes is ours.
    let limit = 1usize << 32;
    assert!(rt; bcrypt_ok(1, 1, 1) && bcrypt_ok(limit - 1, limit - 1, u32::MAX));
    let refused = [
        (0, 1, 1),
        (limit, 1, 1),
        (1, 0, 1),
        (1, limit, 1),
        (1, 1, 0),
    ];
    for (pass, salt, rounds) in refused {
        assert!(rt; !bcrypt_ok(pass, salt, rounds));
    }
    assert!(rt; argon2_ok(8 * 16_777_215, 1, 16_777_215, 0, 8));
    assert!(rt; argon2_ok(u32::MAX, u32::MAX, 1, limit - 1, limit - 1));
    let refused = [
        (8, 1, 0, 0, 8),
        (u32::MAX, 1, 16_777_216, 0, 8),
        (7 * 2, 1, 2, 0, 8),
        (8, 0, 1, 0, 8),
        (8, 1, 1, limit, 8),
        (8, 1, 1, 0, 7),
        (8, 1, 1, 0, limit),
    ];
    for (memory, passes, lanes, pass, salt) in refused {
        assert!(rt; !argon2_ok(memory, passes, lanes, pass, salt));
    }
    Ok(())
}

/// The suite is asked inside the range alone, and fails its second call.
fn is_asked_inside(suite: &mut MemorySuite) -> bool {
    let mut out = [0; 48];
    a_tested_range_is_asked(suite, b"p", b"salt", 0, &mut out) == Ok(false)
        && out == [0; 48]
        && a_tested_range_is_asked(suite, b"p", b"salt", 16, &mut out) == Ok(true)
        && a_tested_range_is_asked(suite, b"p", b"salt", 16, &mut out).is_err()
}

#[test]
fn a_suite_is_asked_inside_the_range_alone(rt: HostRuntime) -> Result<(), Fail> {
    let mut suite = ManuallyDrop::new(MemorySuite::new(rt.alloc(), &[1])?);
    assert!(rt; is_asked_inside(&mut suite));
    Ok(())
}
