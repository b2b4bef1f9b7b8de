//! What the items of an array are.

ghost use Rattle.std.specs.Prelude.{◌≡◌, ◌<◌, ◌≤◌, ◌+◌, ◌*◌, ◌==◌, length, drop, get_or, IfOk};
ghost use Rattle.npy_form.specs.Text.{most};
ghost use Rattle.npy_form.specs.Item.{is_order, is_plain, is_time, is_word, unit_end, behind_unit, sized, timed, plain_item, item_at};

use crate::reason::{Reason, Refusal};
use crate::text::{MOST, Number, byte_at, is_digit, number_at, refused};

/// How many bytes an item has, or that it is an object; and the place behind what tells it.
#[derive(Clone, Copy)]
pub(crate) struct Item {
    pub(crate) size: u64,
    pub(crate) is_object: bool,
    pub(crate) end: usize,
}

/// Whether a byte tells in which order bytes stand.
fn is_order(byte: u8) -> bool
    ensures { result ≡ is_order byte }
{
    byte == b'<' || byte == b'>' || byte == b'|'
}

/// Whether a byte tells numbers or bytes, whose size is told in bytes.
fn is_plain(kind: u8) -> bool
    ensures { result ≡ is_plain kind }
{
    (kind == b'b' || kind == b'c' || kind == b'f')
        || ((kind == b'i' || kind == b'u') || (kind == b'S' || kind == b'V'))
}

/// Whether a byte tells times.
fn is_time(kind: u8) -> bool
    ensures { result ≡ is_time kind }
{
    kind == b'm' || kind == b'M'
}

/// Whether a byte is a letter or a digit.
fn is_word(byte: u8) -> bool
    ensures { result ≡ is_word byte }
{
    is_digit(byte) || ((65 <= byte && byte <= 90) || (97 <= byte && byte <= 122))
}

/// The place behind the bracket that ends a unit.
#[tactic(auto, unfolding(crate::specs::Item::unit_end))]
fn unit_end(bytes: &[u8], at: usize) -> Result<usize, Refusal>
    requires { at ≤ length bytes.now }
    ensures value { result ≡ unit_end (drop at bytes.now) at }
    ensures inside { IfOk result (λ end. end ≤ length bytes.now) }
{
    for place in at..bytes.len() {
        let byte = bytes[place];
        if byte == b']' {
            return Ok(place + 1);
        }
        if !is_word(byte) {
            return Err(refused(Reason::Item, place));
        }
    }
    Err(refused(Reason::Item, bytes.len()))
}

/// The place behind the unit of times, if they have one.
fn behind_unit(bytes: &[u8], at: usize) -> Result<usize, Refusal>
    requires { at ≤ length bytes.now }
    ensures value { result ≡ behind_unit bytes.now at }
    ensures inside { IfOk result (λ end. end ≤ length bytes.now) }
{
    if bytes.get(at) == Some(&b'[') {
        unit_end(bytes, at + 1)
    } else {
        Ok(at)
    }
}

/// Items of this size.
fn sized(kind: u8, n: Number) -> Result<Item, Refusal>
    requires { n.value ≤ most }
    ensures value { result ≡ sized kind n }
    ensures small { IfOk result (λ i. (i.size ≤ most) × (i.end ≡ n.end)) }
{
    if kind != b'U' {
        return Ok(Item {
            size: n.value,
            is_object: false,
            end: n.end,
        });
    }
    let size = n.value * 4;
    if size > MOST {
        return Err(refused(Reason::Number, n.end));
    }
    Ok(Item {
        size,
        is_object: false,
        end: n.end,
    })
}

/// Times of this size.
fn timed(bytes: &[u8], n: Number) -> Result<Item, Refusal>
    requires end { n.end ≤ length bytes.now }
    requires small { n.value ≤ most }
    ensures value { result ≡ timed bytes.now n }
    ensures small { IfOk result (λ i. (i.size ≤ most) × (i.end ≤ length bytes.now)) }
{
    let end = behind_unit(bytes, n.end)?;
    Ok(Item {
        size: n.value,
        is_object: false,
        end,
    })
}

/// Items that are no objects.
#[tactic(auto, unfolding(crate::specs::Item::plain_item))]
fn plain_item(bytes: &[u8], at: usize) -> Result<Item, Refusal>
    requires { at + 2 ≤ length bytes.now }
    ensures value { result ≡ plain_item bytes.now at }
    ensures small { IfOk result (λ i. (i.size ≤ most) × (i.end ≤ length bytes.now)) }
{
    let kind = byte_at(bytes, at + 1);
    if !(is_order(byte_at(bytes, at)) && (is_plain(kind) || (kind == b'U' || is_time(kind)))) {
        return Err(refused(Reason::Item, at));
    }
    let n = number_at(bytes, at + 2)?;
    if is_time(kind) {
        timed(bytes, n)
    } else {
        sized(kind, n)
    }
}

/// What is told at a place.
#[tactic(auto, unfolding(crate::specs::Item::item_at))]
pub(crate) fn item_at(bytes: &[u8], at: usize) -> Result<Item, Refusal>
    requires { at ≤ length bytes.now }
    ensures value { result ≡ item_at bytes.now at }
    ensures small { IfOk result (λ i. (i.size ≤ most) × (i.end ≤ length bytes.now)) }
{
    if bytes.len() - at < 3 {
        return Err(refused(Reason::Item, at));
    }
    if byte_at(bytes, at) == b'|' && byte_at(bytes, at + 1) == b'O' {
        Ok(Item {
            size: 0,
            is_object: true,
            end: at + 2,
        })
    } else {
        plain_item(bytes, at)
    }
}
