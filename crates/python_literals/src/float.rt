//! Floats. The kit's `ryu` finds the shortest digits, in a layout that differs from Python's where the number is far from 1. So its text is spelled
//! anew, and the new text is written where it is read as the same float, which is tested.

ghost use Rattle.std.specs.Prelude.{◌≡◌, ℕ, ◌<◌, ◌≤◌, ◌==◌, ◌||◌, nat_lt, if◌then◌else◌, List, length, codes, OnOk, IfSome, true, from_bits};
ghost use Rattle.std.specs.List.{list_any, position};
ghost use Rattle.std.specs.Float.{binary64, float_is_finite};
ghost use Rattle.std.specs.Float.Parse.{parse_float, completes_number, float_scan_step};
ghost use Rattle.pickle_io.specs.Device.{Writes};
ghost use Rattle.python_literals.specs.Grammar.{is_mark, has_minus, unsigned, is_float_literal, reads_float};
ghost use Rattle.python_literals.specs.Floats.{is_negative, is_infinite, infinity_text, nan_text, word_text, bits_of, IsDoubleText, WritesDouble, WritesFloat};

use arrayvec::ArrayVec;
use byteorder::{BigEndian, ByteOrder};
use pickle_io::{Failed, Page};
use ryu::Buffer;
use std::num::{f64_from_bits_with_nan, f64_to_bits_with_nan};

/// How `ryu` begins a number whose first digit is in the fifth place behind the point: Python writes an exponent there.
const FIFTH_PLACE: &[u8] = b"0.0000";

// ---- another spelling, of which nothing is known before it is read

/// Puts a byte, if there is room.
fn put(byte: u8, out: &mut ArrayVec<u8, 40>) {
    if !out.is_full() {
        out.push(byte);
    }
}

/// Puts bytes, as many as there is room for.
fn put_all(bytes: &[u8], out: &mut ArrayVec<u8, 40>) {
    for byte in bytes {
        put(*byte, out);
    }
}

/// Puts a number by its digits, of which the first is in the fifth place behind the point.
fn put_small(digits: &[u8], out: &mut ArrayVec<u8, 40>) {
    let Some((first, rest)) = digits.split_first() else {
        return;
    };
    put(*first, out);
    if !rest.is_empty() {
        put(b'.', out);
        put_all(rest, out);
    }
    put_all(b"e-05", out);
}

/// Puts the digits of an exponent, at least two.
fn put_exponent(digits: &[u8], out: &mut ArrayVec<u8, 40>) {
    if digits.len() < 2 {
        put(b'0', out);
    }
    put_all(digits, out);
}

/// Puts a number by what is before the letter `e`, and what is behind it.
fn put_power(front: &[u8], exponent: &[u8], out: &mut ArrayVec<u8, 40>) {
    put_all(front, out);
    put(b'e', out);
    match exponent.strip_prefix(b"-".as_slice()) {
        Some(digits) => {
            put(b'-', out);
            put_exponent(digits, out);
        }
        None => {
            put(b'+', out);
            put_exponent(exponent, out);
        }
    }
}

/// Where the first `e` is.
fn letter_e(text: &[u8]) -> Option<usize>
    ensures { IfSome result (λ n. n < length text.now) }
{
    text.iter().position(|b| *b == b'e')
}

/// Puts a number without a sign as Python spells it.
fn put_number(text: &[u8], out: &mut ArrayVec<u8, 40>) {
    if let Some(digits) = text.strip_prefix(FIFTH_PLACE) {
        put_small(digits, out);
        return;
    }
    match letter_e(text) {
        Some(at) => put_power(&text[..at], &text[at + 1..], out),
        None => put_all(text, out),
    }
}

/// A number as Python spells it.
fn respelled(text: &[u8]) -> ArrayVec<u8, 40> {
    let mut out = ArrayVec::new();
    match text.strip_prefix(b"-".as_slice()) {
        Some(size) => {
            put(b'-', &mut out);
            put_number(size, &mut out);
        }
        None => put_number(text, &mut out),
    }
    out
}

// ---- what a text is read as

/// Where a reader of a number is behind a digit more.
fn after_digit(state: u32) -> u32
    ensures { result ≡ (if nat_lt state 2 then 1 else if nat_lt state 4 then 3 else if nat_lt state 7 then 6 else 7) }
{
    if state < 2 {
        1
    } else if state < 4 {
        3
    } else if state < 7 {
        6
    } else {
        7
    }
}

/// Behind a point.
fn after_point(state: u32) -> u32
    ensures { result ≡ (if nat_lt state 2 then (if state == 0 then 2 else 3) else 7) }
{
    if state == 0 {
        2
    } else if state < 2 {
        3
    } else {
        7
    }
}

/// Behind the letter of an exponent.
fn after_letter(state: u32) -> u32
    ensures { result ≡ (if state == 1 || state == 3 then 4 else 7) }
{
    if state == 1 || state == 3 { 4 } else { 7 }
}

/// Behind a sign.
fn after_sign(state: u32) -> u32
    ensures { result ≡ (if state == 4 then 5 else 7) }
{
    if state == 4 { 5 } else { 7 }
}

/// Where a reader of a number is behind one byte more.
fn scan_step(state: u32, byte: u8) -> u32
    ensures { result ≡ float_scan_step state byte }
{
    if byte >= b'0' && byte <= b'9' {
        after_digit(state)
    } else if byte == b'.' {
        after_point(state)
    } else if byte == b'e' || byte == b'E' {
        after_letter(state)
    } else if byte == b'+' || byte == b'-' {
        after_sign(state)
    } else {
        7
    }
}

/// Whether a text is a number in decimal digits.
fn is_number(text: &[u8]) -> bool
    ensures { result ≡ completes_number 0 text.now }
{
    let mut state = 0;
    for byte in text {
        state = scan_step(state, *byte);
    }
    (state == 1 || state == 3) || state == 6
}

/// Whether a text has a point or an exponent.
fn has_mark(text: &[u8]) -> bool
    ensures { result ≡ list_any is_mark text.now }
{
    for byte in text {
        if *byte == b'.' || (*byte == b'e' || *byte == b'E') {
            return true;
        }
    }
    false
}

/// Whether a text is a literal of a float.
fn is_float_literal(text: &[u8]) -> bool
    ensures { result ≡ is_float_literal text.now }
{
    is_number(text) && has_mark(text)
}

/// A text without the minus in front.
fn unsigned(text: &[u8]) -> &[u8]
    ensures { result.now ≡ unsigned text.now }
{
    if !text.is_empty() && text[0] == b'-' {
        &text[1..]
    } else {
        text
    }
}

/// Whether a float has these bits.
fn has_bits(number: f64, bits: u64) -> bool
    ensures { result ≡ true → number ≡ from_bits binary64 bits }
{
    f64_to_bits_with_nan(number) == bits
}

/// Whether a text in decimal digits is read as the float of these bits.
fn is_nearest(text: &[u8], bits: u64) -> bool
    ensures { result ≡ true → parse_float binary64 text.now ≡ Some (from_bits binary64 bits) }
{
    match fast_float::parse::<f64, _>(text) {
        Ok(number) => has_bits(number, bits),
        Err(_) => false,
    }
}

/// Whether a text is a literal of the float of these bits.
#[tactic(auto, unfolding(crate::specs::Grammar::reads_float))]
fn is_literal_of(text: &[u8], bits: u64) -> bool
    ensures { result ≡ true → reads_float text.now ≡ Some (from_bits binary64 bits) }
{
    is_float_literal(unsigned(text)) && is_nearest(text, bits)
}

// ---- writers

/// Whether `ryu` spells a number as Python does.
fn is_own(text: &[u8]) -> bool {
    !unsigned(text).starts_with(FIFTH_PLACE) && letter_e(text).is_none()
}

/// A short text, kept.
fn kept(text: &[u8]) -> ArrayVec<u8, 40>
    requires { length text.now ≤ 40 }
    ensures { result.items ≡ text.now }
{
    let mut out = ArrayVec::new();
    match out.try_extend_from_slice(text) {
        Ok(()) => out,
        Err(_) => out,
    }
}

/// A literal of a float as Python spells it, where that is one, and else as `ryu` does.
fn spelled(shown: &[u8], bits: u64) -> ArrayVec<u8, 40>
    requires read { reads_float shown.now ≡ Some (from_bits binary64 bits) }
    requires short { length shown.now ≤ 25 }
    ensures { reads_float result.items ≡ Some (from_bits binary64 bits) }
{
    let python = respelled(shown);
    if is_literal_of(python.as_slice(), bits) {
        python
    } else {
        kept(shown)
    }
}

/// A literal of a finite float.
fn finite_text(bits: u64) -> ArrayVec<u8, 40>
    requires { float_is_finite (from_bits binary64 bits) ≡ true }
    ensures { reads_float result.items ≡ Some (from_bits binary64 bits) }
{
    let mut buffer = Buffer::new();
    let shown = buffer
        .format_finite(f64_from_bits_with_nan(bits))
        .as_bytes();
    if is_own(shown) {
        kept(shown)
    } else {
        spelled(shown, bits)
    }
}

/// The text of an infinity.
fn infinity_text(negative: bool) -> &'static [u8]
    ensures text { result.now ≡ infinity_text negative }
    ensures short { length result.now ≤ 40 }
{
    if negative {
        b"float('-inf')"
    } else {
        b"float('inf')"
    }
}

/// The text of what is no number.
fn nan_text(negative: bool) -> &'static [u8]
    ensures text { result.now ≡ nan_text negative }
    ensures short { length result.now ≤ 40 }
{
    if negative {
        b"-float('nan')"
    } else {
        b"float('nan')"
    }
}

/// The text of a float that is not finite.
#[tactic(auto, unfolding(crate::specs::Floats::word_text))]
fn word_text(bits: u64) -> &'static [u8]
    ensures text { result.now ≡ word_text bits }
    ensures short { length result.now ≤ 40 }
{
    let negative = bits > 0x7fff_ffff_ffff_ffff;
    if bits % 0x10_0000_0000_0000 == 0 {
        infinity_text(negative)
    } else {
        nan_text(negative)
    }
}

/// The text of a float by its 64 bits: a literal, or `float('inf')`, `float('-inf')`, `float('nan')` or `-float('nan')`.
pub fn float_text(bits: u64) -> ArrayVec<u8, 40>
    ensures { IsDoubleText bits result.items }
{
    if f64_from_bits_with_nan(bits).is_finite() {
        finite_text(bits)
    } else {
        kept(word_text(bits))
    }
}

/// Writes a short text.
#[tactic(auto, using(pickle_io::proofs::Devices::page_steps))]
fn write_short<P: Page>(text: &[u8], page: &mut P) -> Result<(), Failed>
    requires { length text.now ≤ 40 }
    ensures text { Writes (P.told page.old) (P.told page.new) result text.now }
    ensures room { OnOk result (60 ≤ P.room page.new) }
{
    page.make_room()?;
    page.push_text(text);
    Ok(())
}

/// Writes a float by its 64 bits, as `float_text` spells it. `Failed` where the sink fails; a beginning of the text was written then.
pub fn write_double<P: Page>(bits: u64, page: &mut P) -> Result<(), Failed>
    ensures text { WritesDouble (P.told page.old) (P.told page.new) result bits }
    ensures room { OnOk result (60 ≤ P.room page.new) }
{
    let text = float_text(bits);
    write_short(text.as_slice(), page)
}

/// The bits of a float by its bytes, the highest first; other than eight bytes are no number.
#[tactic(auto, unfolding(crate::specs::Floats::bits_of))]
pub fn bits_of(bytes: &[u8]) -> u64
    ensures { result ≡ bits_of bytes.now }
{
    if bytes.len() == 8 {
        BigEndian::read_u64(bytes)
    } else {
        0x7ff8_0000_0000_0000
    }
}

/// Writes a float by its eight bytes, the highest first, as `write_double` does; other than eight bytes are no number. `Failed` where the sink fails; a
/// beginning of the text was written then.
pub fn write_float<P: Page>(bytes: &[u8], page: &mut P) -> Result<(), Failed>
    ensures text { WritesFloat (P.told page.old) (P.told page.new) result bytes.now }
    ensures room { OnOk result (60 ≤ P.room page.new) }
{
    write_double(bits_of(bytes), page)
}
