//! What a conversion is given beside its key text.

/// The passphrases, and the fresh bytes.
#[derive(Clone, Copy)]
pub struct ConversionGiven<'a> {
    /// The passphrase that key texts are read under.
    pub pass_in: Option<&'a str>,
    /// The passphrase that what is written is sealed under.
    pub pass_out: Option<&'a str>,
    pub fresh: &'a [u8],
}
