//! Plain values, which the source has as literals: which kinds of objects they are, and which lines and texts a loader reads as one.

ghost use Rattle.std.specs.Prelude.{◌≡◌, ◌&&◌, length, nat_le};
ghost use Rattle.std.specs.List.{fold};
ghost use Rattle.pickle_names.specs.Value.{decode_all};
ghost use Rattle.pickle_source.specs.Value.{after_digit, after_minus, after_plus, after_point, after_e, after_l, after_byte, is_whole_end, is_long_end, is_float_end, numeral_of, is_whole, is_long, is_float, is_value, is_over, is_long_value, is_short_value};

use pickle_calls::inner;
use pickle_names::{Coding, read};
use pickle_ops::Kind;

/// How far a line is read as a number.
#[derive(Clone, Copy, Debug, PartialEq, Eq)]
pub enum Numeral {
    /// Nothing was read.
    Start,
    /// A minus.
    Sign,
    /// The digit 0, alone.
    Zero,
    /// A minus, and the digit 0.
    Minus,
    /// Digits, of which the first is not 0.
    Digits,
    /// A point after them.
    Point,
    /// Digits after the point.
    Fraction,
    /// The letter before an exponent.
    Letter,
    /// The sign of an exponent.
    Exponent,
    /// A digit of an exponent.
    Power,
    /// Two digits of it.
    Powers,
    /// The letter L after digits.
    Long,
    /// It is none of these numbers.
    Bad,
}

/// After a digit more, which is 0 or another.
fn after_digit(read: Numeral, zero: bool) -> Numeral
    ensures { result ≡ after_digit read zero }
{
    match read {
        Numeral::Start => { if zero { Numeral::Zero } else { Numeral::Digits } }
        Numeral::Sign => {
            if zero {
                Numeral::Minus
            } else {
                Numeral::Digits
            }
        }
        Numeral::Digits => Numeral::Digits,
        Numeral::Point | Numeral::Fraction => Numeral::Fraction,
        Numeral::Letter | Numeral::Exponent => Numeral::Power,
        Numeral::Power => Numeral::Powers,
        _ => Numeral::Bad,
    }
}

/// After a minus.
fn after_minus(read: Numeral) -> Numeral
    ensures { result ≡ after_minus read }
{
    match read {
        Numeral::Start => Numeral::Sign,
        Numeral::Letter => Numeral::Exponent,
        _ => Numeral::Bad,
    }
}

/// After a plus.
fn after_plus(read: Numeral) -> Numeral
    ensures { result ≡ after_plus read }
{
    match read {
        Numeral::Letter => Numeral::Exponent,
        _ => Numeral::Bad,
    }
}

/// After a point.
fn after_point(read: Numeral) -> Numeral
    ensures { result ≡ after_point read }
{
    match read {
        Numeral::Zero | Numeral::Minus | Numeral::Digits => Numeral::Point,
        _ => Numeral::Bad,
    }
}

/// After the letter before an exponent.
fn after_e(read: Numeral) -> Numeral
    ensures { result ≡ after_e read }
{
    match read {
        Numeral::Zero | Numeral::Minus | Numeral::Digits | Numeral::Fraction => Numeral::Letter,
        _ => Numeral::Bad,
    }
}

/// After the letter L.
fn after_l(read: Numeral) -> Numeral
    ensures { result ≡ after_l read }
{
    match read {
        Numeral::Zero | Numeral::Minus | Numeral::Digits => Numeral::Long,
        _ => Numeral::Bad,
    }
}

/// After a byte more.
fn after_byte(read: Numeral, byte: u8) -> Numeral
    ensures { result ≡ after_byte read byte }
{
    match byte {
        b'0'..=b'9' => after_digit(read, byte == b'0'),
        b'-' => after_minus(read),
        b'+' => after_plus(read),
        b'.' => after_point(read),
        b'e' => after_e(read),
        b'L' => after_l(read),
        _ => Numeral::Bad,
    }
}

/// As what a line is read.
fn numeral_of(line: &[u8]) -> Numeral
    ensures { result ≡ numeral_of line.now }
{
    let mut read = Numeral::Start;
    for byte in line {
        read = after_byte(read, *byte);
    }
    read
}

/// Whether the line of INT is a decimal number that stands for itself in Python, and is not too long for it. INT makes False of `-0`.
fn is_whole(line: &[u8]) -> bool
    ensures { result ≡ is_whole line.now }
{
    line.len() <= 4300 && matches!(numeral_of(line), Numeral::Zero | Numeral::Digits)
}

/// The same of the line of LONG, which may end in L.
fn is_long(line: &[u8]) -> bool
    ensures { result ≡ is_long line.now }
{
    line.len() <= 4300
        && matches!(
            numeral_of(line),
            Numeral::Zero | Numeral::Minus | Numeral::Digits | Numeral::Long
        )
}

/// Whether the line of FLOAT is a decimal number with a point or an exponent that stands for itself in Python, and is not too great.
fn is_float(line: &[u8]) -> bool
    ensures { result ≡ is_float line.now }
{
    line.len() <= 40
        && matches!(
            numeral_of(line),
            Numeral::Fraction | Numeral::Power | Numeral::Powers
        )
}

/// Whether a text can be read.
fn is_good(coding: Coding, bytes: &[u8]) -> bool
    ensures { result ≡ (decode_all coding bytes.now).good }
{
    read(coding, bytes.len(), bytes).good
}

/// Whether an object of this kind is a plain value, for which the source has a literal: it holds no other object, nothing can be done to it,
/// and a loader reads its bytes as the literal says.
pub fn is_value(kind: &Kind) -> bool
    ensures { result ≡ is_value kind.now }
{
    match kind {
        Kind::None | Kind::True | Kind::False | Kind::Int(_) | Kind::Long(_) => true,
        Kind::Float(_) | Kind::Bytes(_) => true,
        Kind::IntLine(line) => is_whole(line.as_slice()),
        Kind::LongLine(line) => is_long(line.as_slice()),
        Kind::FloatLine(line) => is_float(line.as_slice()),
        Kind::LegacyString(bytes) => is_good(Coding::Ascii, bytes.as_slice()),
        Kind::LegacyLine(line) => is_good(Coding::StringEscape, inner(line.as_slice())),
        Kind::Text(bytes) => is_good(Coding::AnyUtf8, bytes.as_slice()),
        Kind::TextLine(line) => is_good(Coding::RawEscape, line.as_slice()),
        _ => false,
    }
}

/// How many bytes a value may have that is written wherever it is used.
const MOST_SHORT: usize = 80;

/// Whether there are more bytes than are written more than once.
fn is_over(bytes: &[u8]) -> bool
    ensures { result ≡ is_over bytes.now }
{
    bytes.len() > MOST_SHORT
}

/// Whether a value has many bytes.
fn is_long_value(kind: &Kind) -> bool
    ensures { result ≡ is_long_value kind.now }
{
    match kind {
        Kind::Long(bytes) => is_over(bytes.as_slice()),
        Kind::Bytes(bytes) => is_over(bytes.as_slice()),
        Kind::IntLine(line) => is_over(line.as_slice()),
        Kind::LongLine(line) => is_over(line.as_slice()),
        Kind::LegacyString(bytes) => is_over(bytes.as_slice()),
        Kind::LegacyLine(line) => is_over(line.as_slice()),
        Kind::Text(bytes) => is_over(bytes.as_slice()),
        Kind::TextLine(line) => is_over(line.as_slice()),
        _ => false,
    }
}

/// Whether an object of this kind is a plain value that stands where it is used, however often that is.
pub(crate) fn is_short_value(kind: &Kind) -> bool
    ensures { result ≡ is_short_value kind.now }
{
    is_value(kind) && !is_long_value(kind)
}
