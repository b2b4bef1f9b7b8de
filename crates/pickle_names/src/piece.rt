//! What is at the front of a text.

ghost use Rattle.std.specs.Prelude.{◌≡◌, ◌≤◌, ◌<◌, ◌-◌, ◌&&◌, ◌∷◌, length, Some, IfSome};
ghost use Rattle.std.specs.List.{list_all};
ghost use Rattle.pickle_names.specs.Coding.{within, ascii_char, ascii_front, tail_count, second_low, second_high, is_second, is_tail, are_tails, goes_with, utf8_front, hex_digit, hex_after, hex_number, numbered, raw_escape, raw_front, is_plain, is_octal, octal_last, octal_next, byte_of, named_escape, named_or_backslash, string_escape, string_front, front_of};

use crate::coding::{Coding, Piece};

/// Whether a byte is in a range.
fn is_within(low: u8, high: u8, byte: u8) -> bool
    ensures { result ≡ within low high byte }
{
    low <= byte && byte <= high
}

/// A character that was spelled by some bytes, if it is one of ASCII.
fn ascii_char(number: u32, size: usize) -> Option<Piece>
    ensures { result ≡ ascii_char number size }
{
    if number < 128 {
        Some(Piece::Char(number, size))
    } else {
        None
    }
}

/// A byte of ASCII.
fn ascii_front(byte: u8) -> Option<Piece>
    ensures { result ≡ ascii_front byte }
{
    if byte < 128 {
        Some(Piece::Spelled(1))
    } else {
        None
    }
}

/// How many bytes come after the first byte of a character in UTF-8.
fn tail_count(byte: u8) -> usize
    ensures { result ≡ tail_count byte }
{
    if byte < 224 {
        1
    } else if byte < 240 {
        2
    } else {
        3
    }
}

/// The least byte that may come after this first one.
fn second_low(byte: u8) -> u8
    ensures { result ≡ second_low byte }
{
    if byte == 224 {
        160
    } else if byte == 240 {
        144
    } else {
        128
    }
}

/// The greatest byte that may come after this first one, where surrogates pass or not.
fn second_high(pass: bool, byte: u8) -> u8
    ensures { result ≡ second_high pass byte }
{
    if byte == 237 && !pass {
        159
    } else if byte == 244 {
        143
    } else {
        191
    }
}

/// Whether all bytes may come third or fourth.
fn all_tails(bytes: &[u8]) -> bool
    ensures { result ≡ list_all is_tail bytes.now }
{
    for byte in bytes {
        if !is_within(128, 191, *byte) {
            return false;
        }
    }
    true
}

/// Whether there are so many bytes that may come third or fourth.
fn are_tails(count: usize, rest: &[u8]) -> bool
    ensures { result ≡ are_tails count rest.now }
{
    count <= rest.len() && all_tails(&rest[..count])
}

/// Whether the bytes after the first one make a character with it.
fn goes_with(pass: bool, byte: u8, rest: &[u8]) -> bool
    ensures { result ≡ goes_with pass byte rest.now }
{
    match rest.split_first() {
        None => false,
        Some((second, more)) => {
            is_within(second_low(byte), second_high(pass, byte), *second)
                && are_tails(tail_count(byte) - 1, more)
        }
    }
}

/// Whether a byte and those after it are a character of more than one byte.
fn is_long_char(pass: bool, byte: u8, rest: &[u8]) -> bool
    ensures { result ≡ (within 194 244 byte && goes_with pass byte rest.now) }
{
    is_within(194, 244, byte) && goes_with(pass, byte, rest)
}

/// A character in UTF-8.
#[tactic(auto, unfolding(crate::specs::Coding::utf8_front))]
fn utf8_front(pass: bool, byte: u8, rest: &[u8]) -> Option<Piece>
    ensures { result ≡ utf8_front pass byte rest.now }
{
    if byte < 128 {
        Some(Piece::Spelled(1))
    } else if is_long_char(pass, byte, rest) {
        Some(Piece::Spelled(tail_count(byte) + 1))
    } else {
        None
    }
}

/// The number of a hexadecimal digit.
fn hex_digit(byte: u8) -> Option<u8>
    ensures value { result ≡ hex_digit byte }
    ensures small { IfSome result (λ digit. digit < 16) }
{
    if is_within(b'0', b'9', byte) {
        Some(byte - 48)
    } else if is_within(b'a', b'f', byte) {
        Some(byte - 87)
    } else if is_within(b'A', b'F', byte) {
        Some(byte - 55)
    } else {
        None
    }
}

/// The number of at most eight hexadecimal digits.
#[tactic(auto, using(crate::proofs::Numbers::number_steps))]
fn hex_of(digits: &[u8]) -> Option<u32>
    requires { length digits.now ≤ 8 }
    ensures { result ≡ hex_after (Some 0) digits.now }
{
    let mut number = 0;
    for byte in digits {
        match hex_digit(*byte) {
            None => return None,
            Some(digit) => number = 16 * number + u32::from(digit),
        }
    }
    Some(number)
}

/// The number of the first digits, if so many are there.
#[tactic(auto, unfolding(crate::specs::Coding::hex_number))]
fn hex_number(count: usize, bytes: &[u8]) -> Option<u32>
    requires { count ≤ 8 }
    ensures { result ≡ hex_number count bytes.now }
{
    if count <= bytes.len() {
        hex_of(&bytes[..count])
    } else {
        None
    }
}

/// A character by its number, which digits gave.
fn numbered(size: usize, number: Option<u32>) -> Option<Piece>
    ensures { result ≡ numbered size number }
{
    match number {
        None => None,
        Some(n) => {
            if n <= 0x10_ffff {
                Some(Piece::Char(n, size))
            } else {
                None
            }
        }
    }
}

/// What a backslash and this byte after it are.
#[tactic(auto, unfolding(crate::specs::Coding::raw_escape))]
fn raw_escaped(byte: u8, rest: &[u8]) -> Option<Piece>
    ensures { result ≡ raw_escape (byte ∷ rest.now) }
{
    if byte == b'u' {
        numbered(6, hex_number(4, rest))
    } else if byte == b'U' {
        numbered(10, hex_number(8, rest))
    } else if byte == b'\\' {
        Some(Piece::Spelled(2))
    } else {
        Some(Piece::Spelled(1))
    }
}

/// What a backslash and the bytes after it begin with.
#[tactic(auto, unfolding(crate::specs::Coding::raw_escape))]
fn raw_escape(rest: &[u8]) -> Option<Piece>
    ensures { result ≡ raw_escape rest.now }
{
    match rest.split_first() {
        None => Some(Piece::Spelled(1)),
        Some((byte, more)) => raw_escaped(*byte, more),
    }
}

/// A character of `raw_unicode_escape`.
fn raw_front(byte: u8, rest: &[u8]) -> Option<Piece>
    ensures { result ≡ raw_front byte rest.now }
{
    if byte == b'\\' {
        raw_escape(rest)
    } else if byte < 128 {
        Some(Piece::Spelled(1))
    } else {
        Some(Piece::Char(u32::from(byte), 1))
    }
}

/// Whether a byte is an octal digit.
fn is_octal(byte: u8) -> bool
    ensures { result ≡ is_octal byte }
{
    is_within(b'0', b'7', byte)
}

/// A character of two octal digits, or of three.
fn octal_last(number: u32, size: usize, rest: &[u8]) -> Option<Piece>
    requires value { number < 64 }
    requires small { size ≤ 3 }
    ensures { result ≡ octal_last number size rest.now }
{
    match rest.split_first() {
        None => ascii_char(number % 256, size),
        Some((digit, _)) => {
            if is_octal(*digit) {
                ascii_char((8 * number + u32::from(*digit - 48)) % 256, size + 1)
            } else {
                ascii_char(number % 256, size)
            }
        }
    }
}

/// A character of one octal digit or more.
fn octal_next(number: u32, rest: &[u8]) -> Option<Piece>
    requires { number < 8 }
    ensures { result ≡ octal_next number rest.now }
{
    match rest.split_first() {
        None => ascii_char(number, 2),
        Some((digit, more)) => {
            if is_octal(*digit) {
                octal_last(8 * number + u32::from(*digit - 48), 3, more)
            } else {
                ascii_char(number, 2)
            }
        }
    }
}

/// A character of two hexadecimal digits.
fn byte_of(number: Option<u32>) -> Option<Piece>
    ensures { result ≡ byte_of number }
{
    match number {
        None => None,
        Some(n) => ascii_char(n, 4),
    }
}

/// What a letter stands for after a backslash.
fn named_escape(byte: u8) -> Option<u32>
    ensures { result ≡ named_escape byte }
{
    if byte == b'\\' {
        Some(92)
    } else if byte == b'\'' {
        Some(39)
    } else if byte == b'"' {
        Some(34)
    } else if byte == b'b' {
        Some(8)
    } else if byte == b'f' {
        Some(12)
    } else if byte == b't' {
        Some(9)
    } else if byte == b'n' {
        Some(10)
    } else if byte == b'r' {
        Some(13)
    } else if byte == b'v' {
        Some(11)
    } else if byte == b'a' {
        Some(7)
    } else {
        None
    }
}

/// What a letter stands for after a backslash, or that backslash.
fn named_or_backslash(number: Option<u32>) -> Option<Piece>
    ensures { result ≡ named_or_backslash number }
{
    match number {
        Some(n) => Some(Piece::Char(n, 2)),
        None => Some(Piece::Spelled(1)),
    }
}

/// What a backslash and this byte after it are in a string.
#[tactic(auto, unfolding(crate::specs::Coding::string_escape))]
fn string_escaped(byte: u8, rest: &[u8]) -> Option<Piece>
    ensures { result ≡ string_escape (byte ∷ rest.now) }
{
    if is_octal(byte) {
        octal_next(u32::from(byte - 48), rest)
    } else if byte == b'x' {
        byte_of(hex_number(2, rest))
    } else {
        named_or_backslash(named_escape(byte))
    }
}

/// What a backslash and the bytes after it begin with in a string.
#[tactic(auto, unfolding(crate::specs::Coding::string_escape))]
fn string_escape(rest: &[u8]) -> Option<Piece>
    ensures { result ≡ string_escape rest.now }
{
    match rest.split_first() {
        None => None,
        Some((byte, more)) => string_escaped(*byte, more),
    }
}

/// A character of a string with escapes.
fn string_front(byte: u8, rest: &[u8]) -> Option<Piece>
    ensures { result ≡ string_front byte rest.now }
{
    if byte == b'\\' {
        string_escape(rest)
    } else {
        ascii_front(byte)
    }
}

/// Whether a byte stands for itself, however the bytes of a text are read: most do.
#[inline(always)]
pub(crate) fn is_plain(byte: u8) -> bool
    ensures { result ≡ is_plain byte }
{
    byte < 128 && byte != b'\\'
}

/// What a byte that may be more than a character of its own and those after it begin with, if they can be read.
#[tactic(auto, unfolding(crate::specs::Coding::front_of))]
#[inline(never)]
fn front_by(coding: Coding, byte: u8, rest: &[u8]) -> Option<Piece>
    ensures { result ≡ front_of coding byte rest.now }
{
    match coding {
        Coding::Ascii => ascii_front(byte),
        Coding::Utf8 => utf8_front(false, byte, rest),
        Coding::AnyUtf8 => utf8_front(true, byte, rest),
        Coding::RawEscape => raw_front(byte, rest),
        Coding::StringEscape => string_front(byte, rest),
    }
}

/// What a byte and those after it begin with, if they can be read.
#[tactic(auto, using(crate::proofs::Plain::plain_front))]
#[inline(always)]
pub(crate) fn front_of(coding: Coding, byte: u8, rest: &[u8]) -> Option<Piece>
    ensures { result ≡ front_of coding byte rest.now }
{
    if is_plain(byte) {
        Some(Piece::Spelled(1))
    } else {
        front_by(coding, byte, rest)
    }
}
