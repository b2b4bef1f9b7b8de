//! Why a text is not taken.

/// Why a line is no line of an assembler.
#[derive(Clone, Copy, Debug, PartialEq, Eq)]
pub enum Reason {
    /// A word stands where the name of an opcode has to, and is none; or there is no word.
    UnknownName,
    /// The opcode wants a whole number in decimal digits, and there is none, or one of more than 64 bits.
    NoNumber,
    /// The number does not fit into the bytes that the opcode has for it.
    NumberTooLarge,
    /// The opcode wants a text in quotes, and there is none, or it has an escape that is none, or it does not end.
    NoText,
    /// The opcode cannot say how long a text of so many bytes is.
    TextTooLong,
    /// The opcode wants a number, or `f8:` and hexadecimal digits, and neither is there.
    NoFloat,
    /// A word is no pairs of hexadecimal digits.
    NoHex,
    /// The bytes that the line gives are no argument of the opcode.
    BadArgument,
    /// Something follows that is no note and no comment.
    ExtraText,
    /// The line says that the listing does not show all bytes of its pickle.
    LeftOut,
}

/// Why a line gives no bytes.
#[derive(Clone, Copy, Debug, PartialEq, Eq)]
pub(crate) enum Fault {
    /// It is no line of an assembler.
    Wrong(Reason),
    /// There was no memory for its bytes.
    Memory,
}

/// Why a text gives no bytes.
#[derive(Clone, Copy, Debug, PartialEq, Eq)]
pub enum Refusal {
    /// The first line that is no line of an assembler: its number, from 1, and why.
    Line(u64, Reason),
    /// There was no memory for the bytes.
    Memory,
}
