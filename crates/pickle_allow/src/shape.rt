//! Which bytes are a shape: what the arguments of a call may be.

ghost use Rattle.std.specs.Prelude.{◌≡◌};
ghost use Rattle.std.specs.Option.{option_map};
ghost use Rattle.std.specs.List.{list_all, slice_split};
ghost use Rattle.pickle_allow.specs.Grammar.{is_bar, is_text_byte, is_last, quoted, is_quoted, are_some_digits, is_whole, is_import, is_kind, is_item, is_shape};

use crate::cut::{Separator, cut};
use crate::sort::sort_of;
use crate::spelling::{are_digits, has_star, is_name, is_name_byte, is_nothing};

/// Whether a byte may stand between quotes.
fn is_text_byte(byte: u8) -> bool
    ensures { result ≡ is_text_byte byte }
{
    is_name_byte(byte) || byte == b'.' || byte == b'+' || byte == b'-'
}

/// Whether all bytes may.
fn are_text_bytes(text: &[u8]) -> bool
    ensures { result ≡ list_all is_text_byte text.now }
{
    text.iter().all(|byte| is_text_byte(*byte))
}

/// Whether a quote, behind which this stands, ends bytes.
fn is_last(rest: Option<&[u8]>) -> bool
    ensures { result ≡ is_last (option_map (λ r. r.now) rest.entry) }
{
    match rest {
        Some(rest) => is_nothing(rest),
        None => false,
    }
}

/// What stands between quotes, if these are the first and the last byte.
pub(crate) fn quoted(word: &[u8]) -> Option<&[u8]>
    ensures { option_map (λ t. t.now) result ≡ quoted word.now }
{
    let Some((first, rest)) = word.split_first() else {
        return None;
    };
    let piece = cut(rest, Separator::Quote);
    if *first == b'\'' && is_last(piece.rest) {
        Some(piece.front)
    } else {
        None
    }
}

/// Whether bytes are a text in quotes.
fn is_quoted(word: &[u8]) -> bool
    ensures { result ≡ is_quoted word.now }
{
    match quoted(word) {
        Some(text) => are_text_bytes(text) && !is_nothing(text),
        None => false,
    }
}

/// Whether bytes are digits, one at least.
pub(crate) fn are_some_digits(bytes: &[u8]) -> bool
    ensures { result ≡ are_some_digits bytes.now }
{
    are_digits(bytes) && !is_nothing(bytes)
}

/// Whether bytes are a whole number.
pub(crate) fn is_whole(word: &[u8]) -> bool
    ensures { result ≡ is_whole word.now }
{
    match word.split_first() {
        Some((first, rest)) => {
            if *first == b'-' {
                are_some_digits(rest)
            } else {
                are_some_digits(word)
            }
        }
        None => false,
    }
}

/// Whether bytes are the name of an import, and no pattern.
fn is_import(word: &[u8]) -> bool
    ensures { result ≡ is_import word.now }
{
    is_name(word) && !has_star(word)
}

/// Whether bytes are what an argument may be.
fn is_kind(word: &[u8]) -> bool
    ensures { result ≡ is_kind word.now }
{
    sort_of(word).is_some() || is_quoted(word) || is_whole(word) || is_import(word)
}

/// Whether bytes are alternatives for an argument.
fn are_kinds(item: &[u8]) -> bool
    ensures { result ≡ list_all is_kind (slice_split is_bar item.now) }
{
    let mut rest = Some(item);
    while let Some(left) = rest {
        let piece = cut(left, Separator::Bar);
        if !is_kind(piece.front) {
            return false;
        }
        rest = piece.rest;
    }
    true
}

/// Whether what stands between two blanks is nothing, or alternatives for an argument.
fn is_item(item: &[u8]) -> bool
    ensures { result ≡ is_item item.now }
{
    is_nothing(item) || are_kinds(item)
}

/// Whether bytes are a shape.
pub(crate) fn is_shape(text: &[u8]) -> bool
    ensures { result ≡ is_shape text.now }
{
    let mut rest = Some(text);
    while let Some(left) = rest {
        let piece = cut(left, Separator::Blank);
        if !is_item(piece.front) {
            return false;
        }
        rest = piece.rest;
    }
    true
}
