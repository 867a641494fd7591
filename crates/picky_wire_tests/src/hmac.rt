//! HMAC-SHA-1 and HMAC-SHA-256 of published keys and messages, which show that the definition is the
//! standard's.

use crate::fakes::{hex_of, is_hex};
use picky_suite::{MemorySuite, PlainSuite, Suite, hmac_sha1, hmac_sha256};
use std::alloc::{AllocError, Global};
use std::mem::ManuallyDrop;
use std::test::Fail;

// A key and a message, and their two MACs in hex.
struct Row {
    name: &'static str,
    key: &'static [u8],
    message: &'static [u8],
    sha1: &'static str,
    sha256: &'static str,
}

// RFC 2202 has SHA-1's values of its cases, and RFC 4231 SHA-256's, of case 5 the first 16 bytes.
// All others are Python's, as of the key of 63 bytes:
// python3 -c 'import hmac; print(hmac.new(b"K" * 63, b"message", "sha256").hexdigest())'
static ROWS: [Row; 14] = [
    Row {
        name: "RFC 2202 and RFC 4231, case 1",
        key: &[0x0b; 20],
        message: b"Hi There",
        sha1: "b617318655057264e28bc0b6fb378c8ef146be00",
        sha256: "b0344c61d8db38535ca8afceaf0bf12b881dc200c9833da726e9376c2e32cff7",
    },
    Row {
        name: "RFC 2202 and RFC 4231, case 2",
        key: b"Jefe",
        message: b"what do ya want for nothing?",
        sha1: "effcdf6ae5eb2fa2d27416d5f184df9c259a7c79",
        sha256: "5bdcc146bf60754e6a042426089575c75a003f089d2739839dec58b964ec3843",
    },
    Row {
        name: "RFC 2202 and RFC 4231, case 3",
        key: &[0xaa; 20],
        message: &[0xdd; 50],
        sha1: "125d7342b9ac11cd91a39af48aa17b4f63f175d3",
        sha256: "773ea91e36800e46854db8ebd09181a72959098b3ef8c122d9635514ced565fe",
    },
    Row {
        name: "RFC 2202 and RFC 4231, case 4",
        key: &[
            1, 2, 3, 4, 5, 6, 7, 8, 9, 10, 11, 12, 13, 14, 15, 16, 17, 18, 19, 20, 21, 22, 23, 24,
            25,
        ],
        message: &[0xcd; 50],
        sha1: "4c9007f4026250c6bc8414f9bf50c86c2d7235da",
        sha256: "82558a389a443c0ea4cc819899f2083a85f0faa3e578f8077a2e3ff46729665b",
    },
    Row {
        name: "RFC 2202 and RFC 4231, case 5",
        key: &[0x0c; 20],
        message: b"Test With Truncation",
        sha1: "4c1a03424b55e07fe7f27be1d58bb9324a9a5a04",
        sha256: "a3b6167473100ee06e0c796c2955552b",
    },
    Row {
        name: "RFC 2202, case 6",
        key: &[0xaa; 80],
        message: b"Test Using Larger Than Block-Size Key - Hash Key First",
        sha1: "aa4ae5e15272d00e95705637ce8a3b55ed402112",
        sha256: "6953025ed96f0c09f80a96f78e6538dbe2e7b820e3dd970e7ddd39091b32352f",
    },
    Row {
        name: "RFC 2202, case 7",
        key: &[0xaa; 80],
        message: b"Test Using Larger Than Block-Size Key and Larger Than One Block-Size Data",
        sha1: "e8e99d0f45237d786d6bbaa7965c7808bbff1a91",
        sha256: "6355ac22e890d0a3c8481a5ca4825bc884d3e7a1ff98a2fc2ac7d8e064c3b2e6",
    },
    Row {
        name: "RFC 4231, case 6",
        key: &[0xaa; 131],
        message: b"Test Using Larger Than Block-Size Key - Hash Key First",
        sha1: "90d0dace1c1bdc957339307803160335bde6df2b",
        sha256: "60e431591ee0b67f0d8a26aacbf5b77f8e0bc6213728c5140546040f0ee37f54",
    },
    Row {
        name: "RFC 4231, case 7",
        key: &[0xaa; 131],
        message: b"This is a test using a larger than block-size key and a larger than \
                block-size data. The key needs to be hashed before being used by the HMAC \
                algorithm.",
        sha1: "217e44bb08b6e06a2d6c30f3cb9f537f97c63356",
        sha256: "9b09ffa71b942fcb27635fbcd5b0e944bfdc63644f0713938a7f51535c3a35e2",
    },
    Row {
        name: "a key of 0 bytes",
        key: &[],
        message: b"message",
        sha1: "d5d1ed05121417247616cfc8378f360a39da7cfa",
        sha256: "eb08c1f56d5ddee07f7bdf80468083da06b64cf4fac64fe3a90883df5feacae4",
    },
    Row {
        name: "a key of 63 bytes",
        key: &[0x4b; 63],
        message: b"message",
        sha1: "a14e85e925c79aed6417d440d6076ec344b04ef4",
        sha256: "6d385cc19d1ad09a87c67adb6f2ab7b615b5ad1b0e2d6b3a3a81978fe77e358f",
    },
    Row {
        name: "a key of 64 bytes",
        key: &[0x4b; 64],
        message: b"message",
        sha1: "b93510716e0bcb86c93882ca7777f7ea9d5b636d",
        sha256: "75aee2933fc51ce6263375aa2c28cd48e3e1be0efefd4c922a1c5b62fb5fa0fd",
    },
    Row {
        name: "a key of 65 bytes",
        key: &[0x4b; 65],
        message: b"message",
        sha1: "4c69eb8df1d5889f4f99b68425852010a43a315c",
        sha256: "f9f904da10675692da4c64ba1f660ec845fbcfb21add3076f4fb9e462023d549",
    },
    Row {
        name: "a key of 131 bytes",
        key: &[0x4b; 131],
        message: b"message",
        sha1: "3d5ef21f6bb25dd06aa1b68344e585cc60ba9784",
        sha256: "a54ba5833b38d1fb136ea2fd0bbe1e0f902ee2b77b230bb2f2866c21260f9d4c",
    },
];

// Both MACs, as a caller asks any suite for them.
fn macs_of<S: Suite>(suite: &S, key: &[u8], message: &[u8]) -> ([u8; 20], [u8; 32]) {
    (
        suite.hmac_sha1(key, message),
        suite.hmac_sha256(key, message),
    )
}

/// The functions give the row's values, and both suites give what the functions do.
fn is_given(alloc: Global, tested: &MemorySuite, row: &Row) -> Result<bool, AllocError> {
    let plain = ManuallyDrop::new(PlainSuite::new());
    let macs = (
        hmac_sha1(row.key, row.message),
        hmac_sha256(row.key, row.message),
    );
    Ok(
        is_hex(alloc, &macs.0, row.sha1)?
            && hex_of(alloc, &macs.1)?.starts_with(row.sha256)
            && macs_of(&*plain, row.key, row.message) == macs
            && macs_of(tested, row.key, row.message) == macs,
    )
}

#[test]
fn gives_the_published_values(rt: HostRuntime) -> Result<(), Fail> {
    let tested = ManuallyDrop::new(MemorySuite::new(rt.alloc(), &[])?);
    for row in &ROWS {
        assert!(rt; is_given(rt.alloc(), &tested, row)?, "{}", row.name);
    }
    Ok(())
}
