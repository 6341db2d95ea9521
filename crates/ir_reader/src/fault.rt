//! Why a text is no program.
ghost use Rattle.std.specs.Prelude.{Some};
ghost use Rattle.ir_reader.specs.FaultTexts.{fault_text};

use std::fmt;

/// Why a text is not read as a program, and where: the place of a byte, or of a token's first byte, or the text's
/// length.
///
/// A text of too many bytes is refused first, and then a bad byte, wherever it is. Else the tokens are read from
/// left to right, and the refusal is that of the least place.
#[derive(Clone, Copy, Debug, PartialEq, Eq)]
pub enum ReadFault {
    /// The text has more than 1,048,576 bytes, and the place is that number. Or a function, an instruction or a
    /// register definition is one past the most that a program or a function may have.
    TooLarge { at: u32 },
    /// The first byte outside a comment that neither is a blank nor begins a token.
    BadByte { at: u32 },
    /// The word `inttoptr` where an operation is expected, after a register and `=`.
    IntToPtr { at: u32 },
    /// The first token with which the tokens so far begin no program, or the text's end, where it comes too early.
    Unexpected { at: u32 },
    /// A number above the greatest of its place.
    NumberTooLarge { at: u32 },
    /// Out of memory.
    NoMemory,
}

/// The name and the place, as in `Unexpected at 17`.
impl fmt::Display for ReadFault {
    ghost output = { λ fault. Some (fault_text fault) };

    fn fmt<W: fmt::Write>(&self, f: &mut fmt::Formatter<W>) -> fmt::Result {
        match *self {
            ReadFault::TooLarge { at } => write!(f, "TooLarge at {at}"),
            ReadFault::BadByte { at } => write!(f, "BadByte at {at}"),
            ReadFault::IntToPtr { at } => write!(f, "IntToPtr at {at}"),
            ReadFault::Unexpected { at } => write!(f, "Unexpected at {at}"),
            ReadFault::NumberTooLarge { at } => write!(f, "NumberTooLarge at {at}"),
            ReadFault::NoMemory => write!(f, "NoMemory"),
        }
    }
}
