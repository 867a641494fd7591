//! Rows of the standard: bytes, and what is read of them or written as them.

/// What a row's bytes are read or written as.
#[derive(Clone, Copy)]
pub enum Kind {
    Text,
    Bytes,
    Mpint,
    Moments,
    Principals,
}

/// What is read of some bytes: the value's bytes, or the number of the error; how many bytes a slice
/// has left then, and how many a source took that doesn't know what it has left.
pub struct ReadRow {
    pub name: &'static str,
    pub kind: Kind,
    pub bytes: &'static [u8],
    pub wanted: Result<&'static [u8], u8>,
    pub left: usize,
    pub taken: u64,
}

// RFC 4251, section 5, has the fields' forms, and of mpints the second and third row's; the lists are
// `valid principals` of PROTOCOL.certkeys, and moments of eight bytes, written out by hand.
pub static READ_ROWS: [ReadRow; 17] = [
    ReadRow {
        name: "a text and more",
        kind: Kind::Text,
        bytes: b"\0\0\0\x07testing!!",
        wanted: Ok(b"testing"),
        left: 2,
        taken: 11,
    },
    ReadRow {
        name: "no text",
        kind: Kind::Text,
        bytes: b"\0\0\0\0",
        wanted: Ok(b""),
        left: 0,
        taken: 4,
    },
    ReadRow {
        name: "no UTF-8",
        kind: Kind::Text,
        bytes: b"\0\0\0\x02\xc3\x28!",
        wanted: Err(4),
        left: 1,
        taken: 6,
    },
    ReadRow {
        name: "bytes",
        kind: Kind::Bytes,
        bytes: b"\0\0\0\x06\x01\x02\x03\x04\x05\x06",
        wanted: Ok(b"\x01\x02\x03\x04\x05\x06"),
        left: 0,
        taken: 10,
    },
    ReadRow {
        name: "bytes that are cut",
        kind: Kind::Bytes,
        bytes: b"\0\0\0\x05\x01\x02",
        wanted: Err(1),
        left: 2,
        taken: 6,
    },
    ReadRow {
        name: "a length that is cut",
        kind: Kind::Bytes,
        bytes: b"\0\0\0",
        wanted: Err(1),
        left: 0,
        taken: 3,
    },
    ReadRow {
        name: "2^32 - 1 bytes of which three come",
        kind: Kind::Bytes,
        bytes: b"\xff\xff\xff\xff\x01\x02\x03",
        wanted: Err(1),
        left: 3,
        taken: 7,
    },
    ReadRow {
        name: "zero",
        kind: Kind::Mpint,
        bytes: b"\0\0\0\0",
        wanted: Ok(b""),
        left: 0,
        taken: 4,
    },
    ReadRow {
        name: "a number",
        kind: Kind::Mpint,
        bytes: b"\0\0\0\x08\x09\xa3\x78\xf9\xb2\xe3\x32\xa7",
        wanted: Ok(b"\x09\xa3\x78\xf9\xb2\xe3\x32\xa7"),
        left: 0,
        taken: 12,
    },
    ReadRow {
        name: "a number with its sign",
        kind: Kind::Mpint,
        bytes: b"\0\0\0\x02\0\x80",
        wanted: Ok(b"\x80"),
        left: 0,
        taken: 6,
    },
    ReadRow {
        name: "a number with two zeros",
        kind: Kind::Mpint,
        bytes: b"\0\0\0\x03\0\0\x80",
        wanted: Ok(b"\x80"),
        left: 0,
        taken: 7,
    },
    ReadRow {
        name: "a zero byte",
        kind: Kind::Mpint,
        bytes: b"\0\0\0\x01\0",
        wanted: Ok(b""),
        left: 0,
        taken: 5,
    },
    ReadRow {
        name: "a number without its sign",
        kind: Kind::Mpint,
        bytes: b"\0\0\0\x02\xed\xcc",
        wanted: Ok(b"\xed\xcc"),
        left: 0,
        taken: 6,
    },
    ReadRow {
        name: "no moments",
        kind: Kind::Moments,
        bytes: b"\0\0\0\0",
        wanted: Ok(b""),
        left: 0,
        taken: 4,
    },
    ReadRow {
        name: "a moment and a half",
        kind: Kind::Moments,
        bytes: b"\0\0\0\x0c\0\0\0\0\0\0\x01\x02\0\0\0\0",
        wanted: Err(1),
        left: 0,
        taken: 16,
    },
    ReadRow {
        name: "two principals",
        kind: Kind::Principals,
        bytes: b"\0\0\0\x0a\0\0\0\x01a\0\0\0\x01b",
        wanted: Ok(b"a;b;"),
        left: 0,
        taken: 14,
    },
    ReadRow {
        name: "a principal that is cut, and a byte after the list",
        kind: Kind::Principals,
        bytes: b"\0\0\0\x09\0\0\0\x01a\0\0\0\x01b",
        wanted: Err(1),
        left: 1,
        taken: 13,
    },
];

/// What is written of a value's bytes.
pub struct WriteRow {
    pub name: &'static str,
    pub kind: Kind,
    pub value: &'static [u8],
    pub wanted: &'static [u8],
}

// As above. The values of moments and principals are lists' fields, which are read first.
pub static WRITE_ROWS: [WriteRow; 9] = [
    WriteRow {
        name: "a text",
        kind: Kind::Text,
        value: b"picky",
        wanted: b"\0\0\0\x05\x70\x69\x63\x6b\x79",
    },
    WriteRow {
        name: "no text",
        kind: Kind::Text,
        value: b"",
        wanted: b"\0\0\0\0",
    },
    WriteRow {
        name: "bytes",
        kind: Kind::Bytes,
        value: b"\x01\x02\x03\x04\x05\x06",
        wanted: b"\0\0\0\x06\x01\x02\x03\x04\x05\x06",
    },
    WriteRow {
        name: "zero",
        kind: Kind::Mpint,
        value: b"",
        wanted: b"\0\0\0\0",
    },
    WriteRow {
        name: "a number with its sign",
        kind: Kind::Mpint,
        value: b"\0\x80",
        wanted: b"\0\0\0\x02\0\x80",
    },
    WriteRow {
        name: "a number",
        kind: Kind::Mpint,
        value: b"\x09\xa3\x78\xf9\xb2\xe3\x32\xa7",
        wanted: b"\0\0\0\x08\x09\xa3\x78\xf9\xb2\xe3\x32\xa7",
    },
    WriteRow {
        name: "no moments",
        kind: Kind::Moments,
        value: b"\0\0\0\0",
        wanted: b"\0\0\0\0",
    },
    WriteRow {
        name: "two moments",
        kind: Kind::Moments,
        value: b"\0\0\0\x10\0\0\0\0\0\0\x01\x02\xff\xff\xff\xff\xff\xff\xff\xff",
        wanted: b"\0\0\0\x10\0\0\0\0\0\0\x01\x02\xff\xff\xff\xff\xff\xff\xff\xff",
    },
    WriteRow {
        name: "two principals",
        kind: Kind::Principals,
        value: b"\0\0\0\x0a\0\0\0\x01a\0\0\0\x01b",
        wanted: b"\0\0\0\x0a\0\0\0\x01a\0\0\0\x01b",
    },
];
