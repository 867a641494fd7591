//! What a key text means in each of its forms, its conversion to a target, certificates issued from one source, and the run of
//! the program.

pub mod laws;

// Reading and writing.
pub use picky_changed::with_comment;
pub use picky_key_text::{Form, Key, Meaning, ReadError, form_of, public_key, read_text};
pub use picky_shown::{Shown, ShownSealing, key_bits, show_text};
pub use picky_target::{ConvertError, DEFAULT_ROUNDS, KeyTarget, carries_comment, write_text};

// The conversion, and certificates.
pub use picky_conversion::{
    CertRequest, ConversionGiven, Target, bytes_to_sign, convert, convert_key_text, convert_owned,
    issue, print_signed, write_certificate, write_signed_bytes,
};
pub use picky_issuing::{CertOptions, Parts, cert_type_of, number_of, options_of, parts_of};

// The program, and a source that is read to its end.
pub use picky_convert::{Status, StatusWord, run, sample, word};
pub use picky_input::{InputError, SourceError, as_text, read_input, take_text};
