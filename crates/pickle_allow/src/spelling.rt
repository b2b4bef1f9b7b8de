//! Which bytes are a name, a pattern, or a word for what is no import.

ghost use Rattle.std.specs.Prelude.{◌≡◌, codes};
ghost use Rattle.std.specs.List.{list_all, list_any, slice_split};
ghost use Rattle.std.specs.Str.{bytes_eq};
ghost use Rattle.pickle_allow.specs.Allow.{is_nothing, is_star, is_point};
ghost use Rattle.pickle_allow.specs.Grammar.{is_digit, is_letter, is_name_byte, is_part_byte, begins_word, is_part, has_two_stars, is_name, is_code, is_extension, is_word};

use crate::cut::{Separator, cut};
use crate::pattern::{begins_with_star, has_point, is_one_star, is_star};

/// Whether a byte is a digit.
fn is_digit(byte: u8) -> bool
    ensures { result ≡ is_digit byte }
{
    byte >= b'0' && byte <= b'9'
}

/// Whether a byte is a letter.
fn is_letter(byte: u8) -> bool
    ensures { result ≡ is_letter byte }
{
    (byte >= b'A' && byte <= b'Z') || (byte >= b'a' && byte <= b'z')
}

/// Whether a byte may stand in a name.
pub(crate) fn is_name_byte(byte: u8) -> bool
    ensures { result ≡ is_name_byte byte }
{
    is_letter(byte) || is_digit(byte) || byte == b'_' || byte >= 128
}

/// Whether a byte may stand in a part of a name or pattern.
fn is_part_byte(byte: u8) -> bool
    ensures { result ≡ is_part_byte byte }
{
    is_star(byte) || is_name_byte(byte)
}

/// Whether a part begins as a word does.
fn begins_word(part: &[u8]) -> bool
    ensures { result ≡ begins_word part.now }
{
    match part.split_first() {
        Some((byte, _)) => !is_digit(*byte),
        None => false,
    }
}

/// Whether all bytes may stand in a part of a name or pattern.
fn are_part_bytes(part: &[u8]) -> bool
    ensures { result ≡ list_all is_part_byte part.now }
{
    part.iter().all(|byte| is_part_byte(*byte))
}

/// Whether there is a star.
pub(crate) fn has_star(part: &[u8]) -> bool
    ensures { result ≡ list_any is_star part.now }
{
    part.iter().any(|byte| is_star(*byte))
}

/// Whether bytes are a part of a name or pattern.
fn is_part(part: &[u8]) -> bool
    ensures { result ≡ is_part part.now }
{
    are_part_bytes(part) && (has_star(part) || begins_word(part))
}

/// Whether bytes are parts with points between them.
fn are_parts(bytes: &[u8]) -> bool
    ensures { result ≡ list_all is_part (slice_split is_point bytes.now) }
{
    let mut rest = Some(bytes);
    while let Some(left) = rest {
        let piece = cut(left, Separator::Point);
        if !is_part(piece.front) {
            return false;
        }
        rest = piece.rest;
    }
    true
}

/// Whether two stars stand side by side.
fn has_two_stars(bytes: &[u8]) -> bool
    ensures { result ≡ has_two_stars bytes.now }
{
    for i in 0..bytes.len() {
        if is_star(bytes[i]) && begins_with_star(&bytes[i + 1..]) {
            return true;
        }
    }
    false
}

/// Whether bytes are the name of an import or a pattern of names.
pub(crate) fn is_name(bytes: &[u8]) -> bool
    ensures { result ≡ is_name bytes.now }
{
    are_parts(bytes) && (has_point(bytes) || has_two_stars(bytes) || is_one_star(bytes))
}

/// Whether all bytes are digits.
pub(crate) fn are_digits(bytes: &[u8]) -> bool
    ensures { result ≡ list_all is_digit bytes.now }
{
    bytes.iter().all(|byte| is_digit(*byte))
}

/// Whether there is no byte.
pub(crate) fn is_nothing(bytes: &[u8]) -> bool
    ensures { result ≡ is_nothing bytes.now }
{
    match bytes.split_first() {
        Some((_, _)) => false,
        None => true,
    }
}

/// Whether bytes are the code of an extension, or a star.
fn is_code(bytes: &[u8]) -> bool
    ensures { result ≡ is_code bytes.now }
{
    is_one_star(bytes) || (are_digits(bytes) && !is_nothing(bytes))
}

/// Whether bytes are `ext`, one blank, and a code.
fn is_extension(bytes: &[u8]) -> bool
    ensures { result ≡ is_extension bytes.now }
{
    match bytes.strip_prefix(b"ext ".as_slice()) {
        Some(code) => is_code(code),
        None => false,
    }
}

/// Whether bytes are a word for what is no import.
pub(crate) fn is_word(bytes: &[u8]) -> bool
    ensures { result ≡ is_word bytes.now }
{
    bytes == b"persistent".as_slice() || bytes == b"buffer".as_slice() || is_extension(bytes)
}
