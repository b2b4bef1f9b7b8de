//! A file with an array.

ghost use Rattle.std.specs.Prelude.{◌≡◌, ◌<◌, ◌≤◌, ◌+◌, ◌*◌, ◌-◌, ◌==◌, length, take, drop, get_or, eqb, IfOk};
ghost use Rattle.std.specs.List.{list_all};
ghost use Rattle.npy_form.specs.Text.{most};
ghost use Rattle.npy_form.specs.Npy.{begins_as_array, is_version, text_start, header_size, front_word, order_word, true_word, false_word, shape_word, back_word, flag_at, quote_at, items_at, literal, literal_at, header_end, is_padded, behind_header, content, read_array};

use crate::item::{Item, item_at};
use crate::reason::{Reason, Refusal};
use crate::shape::{shape_at, times};
use crate::text::{byte_at, refused, word_at};

/// What an `.npy` file begins with.
const ARRAY: &[u8] = b"\x93NUMPY";

/// What the literal in a header says, and the place behind it.
#[derive(Clone, Copy)]
pub(crate) struct Literal {
    pub(crate) item: Item,
    pub(crate) count: u64,
    pub(crate) end: usize,
}

/// What is behind a header.
#[derive(Clone, Copy, Debug, PartialEq, Eq)]
pub enum Held {
    /// Raw numbers, as many as the header tells.
    Numbers,
    /// A pickle of objects.
    Pickle,
}

/// Whether bytes begin as an `.npy` file does.
pub fn begins_as_array(bytes: &[u8]) -> bool
    ensures { result ≡ begins_as_array bytes.now }
{
    bytes.starts_with(ARRAY)
}

/// Whether there is such a version.
fn is_version(major: u8, minor: u8) -> bool
    ensures { result ≡ is_version major minor }
{
    (major == 1 || (major == 2 || major == 3)) && minor == 0
}

/// Where the literal begins.
fn text_start(bytes: &[u8]) -> usize
    ensures value { result ≡ text_start bytes.now }
    ensures small { result ≤ 12 }
{
    if byte_at(bytes, 6) == 1 { 10 } else { 12 }
}

/// The byte at a place, or 0, as a number.
fn number_in(bytes: &[u8], place: usize) -> usize
    ensures value { result ≡ get_or bytes.now place 0 }
    ensures small { result < 256 }
{
    usize::from(byte_at(bytes, place))
}

/// How many bytes the header has, and what is before it.
fn header_size(bytes: &[u8]) -> usize
    ensures { result ≡ header_size bytes.now }
{
    let low = number_in(bytes, 8) + 256 * number_in(bytes, 9);
    if byte_at(bytes, 6) == 1 {
        return 10 + low;
    }
    12 + (low + (65_536 * number_in(bytes, 10) + 16_777_216 * number_in(bytes, 11)))
}

/// The place behind the word that tells in which order items stand.
fn flag_at(bytes: &[u8], at: usize) -> Result<usize, Refusal>
    requires { at ≤ length bytes.now }
    ensures value { result ≡ flag_at bytes.now at }
    ensures inside { IfOk result (λ end. end ≤ length bytes.now) }
{
    if bytes[at..].starts_with(b"True") {
        Ok(at + 4)
    } else {
        word_at(bytes, at, b"False")
    }
}

/// The place behind the quote in front of the items.
fn quote_at(bytes: &[u8], at: usize) -> Result<usize, Refusal>
    requires { at ≤ length bytes.now }
    ensures value { result ≡ quote_at bytes.now at }
    ensures inside { IfOk result (λ end. end ≤ length bytes.now) }
{
    if bytes.get(at) == Some(&39) {
        Ok(at + 1)
    } else {
        Err(refused(Reason::Item, at))
    }
}

/// The place behind the items, which are told in quotes.
fn items_at(bytes: &[u8], at: usize) -> Result<Item, Refusal>
    requires { at ≤ length bytes.now }
    ensures value { result ≡ items_at bytes.now at }
    ensures small { IfOk result (λ i. (i.size ≤ most) × (i.end ≤ length bytes.now)) }
{
    let front = word_at(bytes, at, b"{'descr': ")?;
    let quote = quote_at(bytes, front)?;
    let item = item_at(bytes, quote)?;
    let end = word_at(bytes, item.end, b"', 'fortran_order': ")?;
    Ok(Item {
        size: item.size,
        is_object: item.is_object,
        end,
    })
}

/// What the literal says.
#[tactic(auto, unfolding(crate::specs::Npy::literal_at))]
fn literal_at(bytes: &[u8], at: usize) -> Result<Literal, Refusal>
    requires { at ≤ length bytes.now }
    ensures value { result ≡ literal_at bytes.now at }
    ensures small { IfOk result (λ l. (l.item.size ≤ most) × ((l.count ≤ most) × (l.end ≤ length bytes.now))) }
{
    let item = items_at(bytes, at)?;
    let flag = flag_at(bytes, item.end)?;
    let shape = word_at(bytes, flag, b", 'shape': (")?;
    let count = shape_at(bytes, shape)?;
    let end = word_at(bytes, count.end, b", }")?;
    Ok(Literal {
        item,
        count: count.value,
        end,
    })
}

/// The place behind the header.
#[tactic(auto, unfolding(crate::specs::Npy::header_end))]
fn header_end(bytes: &[u8]) -> Result<usize, Refusal>
    ensures value { result ≡ header_end bytes.now }
    ensures inside { IfOk result (λ end. (end ≤ length bytes.now) × (12 ≤ length bytes.now)) }
{
    if bytes.len() < 12 {
        return Err(refused(Reason::Cut, bytes.len()));
    }
    if !(begins_as_array(bytes) && is_version(byte_at(bytes, 6), byte_at(bytes, 7))) {
        return Err(refused(Reason::Version, 6));
    }
    let end = header_size(bytes);
    if bytes.len() < end {
        return Err(refused(Reason::Cut, bytes.len()));
    }
    if end % 16 == 0 {
        Ok(end)
    } else {
        Err(refused(Reason::Length, 8))
    }
}

/// Whether bytes are blanks.
fn are_blanks(bytes: &[u8]) -> bool
    ensures { result ≡ list_all (eqb 32) bytes.now }
{
    for byte in bytes {
        if *byte != 32 {
            return false;
        }
    }
    true
}

/// Whether blanks and a newline are between two places.
fn is_padded(bytes: &[u8], at: usize, end: usize) -> bool
    requires { (at ≤ length bytes.now) × (end ≤ length bytes.now) }
    ensures { result ≡ is_padded bytes.now at end }
{
    if end <= at {
        return false;
    }
    byte_at(bytes, end - 1) == 10 && are_blanks(&bytes[at..end - 1])
}

/// What is behind a header.
pub fn behind_header(bytes: &[u8]) -> &[u8]
    ensures { result.now ≡ behind_header bytes.now }
{
    bytes.get(header_size(bytes)..).unwrap_or_default()
}

/// Whether it is what the literal tells.
fn content(bytes: &[u8], literal: Literal, end: usize) -> Result<Held, Refusal>
    requires { end ≤ length bytes.now }
    ensures { result ≡ content bytes.now literal end }
{
    if literal.item.is_object {
        return Ok(Held::Pickle);
    }
    let size = times(literal.count, literal.item.size, end)?;
    if (bytes.len() - end) as u64 == size {
        Ok(Held::Numbers)
    } else {
        Err(refused(Reason::Size, end))
    }
}

/// What the array that bytes are has behind its header, or the first rule that they break.
#[tactic(auto, unfolding(crate::specs::Npy::read_array))]
pub fn read_array(bytes: &[u8]) -> Result<Held, Refusal>
    ensures { result ≡ read_array bytes.now }
{
    let end = header_end(bytes)?;
    let literal = literal_at(bytes, text_start(bytes))?;
    if is_padded(bytes, literal.end, end) {
        content(bytes, literal, end)
    } else {
        Err(refused(Reason::Text, literal.end))
    }
}
