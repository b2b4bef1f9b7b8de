//! Whole numbers.

ghost use Rattle.std.specs.Prelude.{◌≡◌, ◌≤◌, IfOk, IfErr, MatchResult, Ok, Err};
ghost use Rattle.byteorder.specs.Endian.{little_bytes};
ghost use Rattle.opcode_assembler.specs.declared.fault.Fault.TheVariants.{Memory};
ghost use Rattle.opcode_assembler.specs.Numbers.{width_of, most_of, fixed_first, line_first, has_minus, unsigned, wide_of};
ghost use Rattle.opcode_assembler.specs.Reading.{Fails};

use crate::buffer::{copied, push};
use crate::fault::{Fault, Reason};
use crate::words::cut;
use pickle_ops::{Form, decimal_of};
use std::alloc::Global;

/// The lowest bytes of a number, the lowest first.
pub(crate) fn little_bytes(alloc: Global, width: usize, number: u64) -> Result<Vec<u8>, Fault>
    requires { width ≤ 8 }
    ensures ok { IfOk result (λ v. v.items ≡ little_bytes width number) }
    ensures err { IfErr result (λ f. f ≡ Memory) }
{
    let bytes = number.to_le_bytes();
    copied(alloc, &bytes[..width])
}

/// How many bytes a number of this form has, or the count of a text.
pub(crate) fn width_of(form: Form) -> usize
    ensures value { result ≡ width_of form }
    ensures within { result ≤ 8 }
{
    match form {
        Form::Uint1 => 1,
        Form::Uint2 => 2,
        Form::Uint4 => 4,
        Form::Bytes1 => 1,
        Form::Bytes4 => 4,
        Form::String4 => 4,
        _ => 8,
    }
}

/// The greatest number that they say.
pub(crate) fn most_of(form: Form) -> u64
    ensures { result ≡ most_of form }
{
    match form {
        Form::Uint1 => 0xff,
        Form::Uint2 => 0xffff,
        Form::Uint4 => 0xffff_ffff,
        Form::Bytes1 => 0xff,
        Form::Bytes4 => 0xffff_ffff,
        Form::String4 => 0x7fff_ffff,
        _ => 0xffff_ffff_ffff_ffff,
    }
}

/// A number without a sign in front, in the bytes of this form, and what comes after it.
pub(crate) fn fixed_first(alloc: Global, form: Form, text: &[u8]) -> Result<(Vec<u8>, &[u8]), Fault>
    ensures { MatchResult result (λ p. fixed_first form text.now ≡ Ok (p.0.items, p.1.now)) (λ f. Fails (fixed_first form text.now) f) }
{
    let first = cut(text);
    let Some(number) = decimal_of(first.word) else {
        return Err(Fault::Wrong(Reason::NoNumber));
    };
    if number > most_of(form) {
        return Err(Fault::Wrong(Reason::NumberTooLarge));
    }
    let bytes = little_bytes(alloc, width_of(form), number)?;
    Ok((bytes, first.rest))
}

/// A line of the digits in front, as they are written, and what comes after them.
pub(crate) fn line_first(alloc: Global, text: &[u8]) -> Result<(Vec<u8>, &[u8]), Fault>
    ensures { MatchResult result (λ p. line_first text.now ≡ Ok (p.0.items, p.1.now)) (λ f. Fails (line_first text.now) f) }
{
    let first = cut(text);
    if decimal_of(first.word).is_none() {
        return Err(Fault::Wrong(Reason::NoNumber));
    }
    let mut bytes = copied(alloc, first.word)?;
    push(&mut bytes, b'\n')?;
    Ok((bytes, first.rest))
}

/// Whether a word is a number below 0.
pub(crate) fn has_minus(word: &[u8]) -> bool
    ensures { result ≡ has_minus word.now }
{
    !word.is_empty() && word[0] == b'-'
}

/// The digits of a number.
pub(crate) fn unsigned(word: &[u8]) -> &[u8]
    ensures { result.now ≡ unsigned word.now }
{
    if has_minus(word) { &word[1..] } else { word }
}

/// The number of a text of one or more ASCII digits, any zeros in front; none where the text is no such digits, or their number has more
/// than 128 bits.
pub(crate) fn wide_of(text: &[u8]) -> Option<u128>
    ensures { result ≡ wide_of text.now }
{
    if text.is_empty() {
        return None;
    }
    let mut value: u128 = 0;
    for b in text {
        if *b < b'0' || *b > b'9' {
            return None;
        }
        let Some(ten) = value.checked_mul(10) else {
            return None;
        };
        let Some(next) = ten.checked_add((*b - b'0') as u128) else {
            return None;
        };
        value = next;
    }
    Some(value)
}
