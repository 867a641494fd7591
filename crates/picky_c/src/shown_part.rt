//! The parts of what a key text shows without a passphrase, by number.

ghost use Rattle.std.specs.Prelude.{◌≡◌};
ghost use Rattle.picky_c.specs.Shown.{shown_part_numbered};

/// A part of what a key text shows.
#[derive(Clone, Copy)]
pub enum ShownPart {
    /// The name of the key's type.
    TypeName,
    /// The public key's blob.
    Blob,
    /// The comment, where it stands open.
    Comment,
    /// The public key line.
    Line,
    /// The SHA-256 fingerprint.
    Fingerprint,
    /// How many bits the key has.
    Bits,
    /// Whether the text is encrypted.
    Encrypted,
    /// The cipher.
    Cipher,
    /// The key derivation.
    Derivation,
    /// Its rounds.
    Rounds,
    /// Argon2's memory in KiB.
    Memory,
    /// Its passes.
    Passes,
    /// Its lanes.
    Lanes,
    /// How many bytes its salt has.
    SaltLen,
}

/// The part of a number.
pub fn shown_part_by_number(number: u32) -> Option<ShownPart>
    ensures { result ≡ shown_part_numbered number }
{
    if number == 1 {
        return Some(ShownPart::TypeName);
    }
    if number == 2 {
        return Some(ShownPart::Blob);
    }
    if number == 3 {
        return Some(ShownPart::Comment);
    }
    if number == 4 {
        return Some(ShownPart::Line);
    }
    if number == 5 {
        return Some(ShownPart::Fingerprint);
    }
    if number == 6 {
        return Some(ShownPart::Bits);
    }
    if number == 7 {
        return Some(ShownPart::Encrypted);
    }
    if number == 8 {
        return Some(ShownPart::Cipher);
    }
    if number == 9 {
        return Some(ShownPart::Derivation);
    }
    if number == 10 {
        return Some(ShownPart::Rounds);
    }
    if number == 11 {
        return Some(ShownPart::Memory);
    }
    if number == 12 {
        return Some(ShownPart::Passes);
    }
    if number == 13 {
        return Some(ShownPart::Lanes);
    }
    if number == 14 {
        return Some(ShownPart::SaltLen);
    }
    None
}
