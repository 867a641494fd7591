//! Where the reader of a layout stops, whatever the layer.

use crate::error::WireError;

/// Why a layout is not read. Each layer makes its own error of it.
#[derive(Clone, Copy, Debug, PartialEq, Eq)]
pub enum Stop {
    /// The source failed.
    Fault,
    /// Memory ran out.
    NoMemory,
    /// The bytes end inside the field.
    Short,
    /// A string that must be UTF-8 isn't.
    NotUtf8,
    /// A number has more bytes than a length of the wire can say.
    TooLong,
    /// A string has a length that the layout forbids.
    Length,
    /// Bytes differ from those that the layout fixes.
    Magic,
    /// A name is outside its table.
    Name,
    /// A number is one that the layout forbids.
    Number,
}

impl From<WireError> for Stop {
    ghost use Rattle.std.specs.Prelude.{◌≡◌};
    ghost use Rattle.picky_wire.specs.Flaws.{wire_stop};

    ghost from_gives = { λ e result. result ≡ wire_stop e };

    fn from(e: WireError) -> Stop {
        match e {
            WireError::UnexpectedEnd => Stop::Short,
            WireError::ReadFault | WireError::WriteFault => Stop::Fault,
            WireError::InvalidUtf8 => Stop::NotUtf8,
            WireError::TooLong => Stop::TooLong,
            WireError::NoMemory => Stop::NoMemory,
        }
    }
}
