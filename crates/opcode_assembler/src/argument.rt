//! The bytes of arguments.

ghost use Rattle.std.specs.Prelude.{◌≡◌, MatchResult, Ok};
ghost use Rattle.std.specs.List.{prefix_len};
ghost use Rattle.pickle_ops.specs.Text.{is_long};
ghost use Rattle.opcode_assembler.specs.Quotes.{text_first};
ghost use Rattle.opcode_assembler.specs.Arguments.{and_then, counted, lined, second_line, nearest_first, float_first, long_first, form_first, is_numeral, has_text, is_number, is_numeral_byte, numeral_first, is_bare, spelled_first, argument_first};
ghost use Rattle.opcode_assembler.specs.Reading.{Fails};

use crate::buffer::{append, copied, push};
use crate::digits::hex_first;
use crate::fault::{Fault, Reason};
use crate::long::{long_first, signed_first};
use crate::number::{fixed_first, line_first, little_bytes, most_of, width_of};
use crate::text::{is_quote, text_first};
use crate::words::{behind, cut, trimmed};
use pickle_ops::{Form, Opcode};
use std::alloc::Global;
use std::num::f64_to_bits_with_nan;

/// Bytes behind their count.
fn counted<'a>(
    alloc: Global,
    form: Form,
    bytes: &[u8],
    rest: &'a [u8],
) -> Result<(Vec<u8>, &'a [u8]), Fault>
    ensures { MatchResult result (λ p. counted form bytes.now rest.now ≡ Ok (p.0.items, p.1.now)) (λ f. Fails (counted form bytes.now rest.now) f) }
{
    let count = bytes.len() as u64;
    if count > most_of(form) {
        return Err(Fault::Wrong(Reason::TextTooLong));
    }
    let mut argument = little_bytes(alloc, width_of(form), count)?;
    append(&mut argument, bytes)?;
    Ok((argument, rest))
}

/// The text in front behind its count.
fn counted_first(alloc: Global, form: Form, text: &[u8]) -> Result<(Vec<u8>, &[u8]), Fault>
    ensures { MatchResult result (λ p. and_then (text_first text.now) (counted form) ≡ Ok (p.0.items, p.1.now)) (λ f. Fails (and_then (text_first text.now) (counted form)) f) }
{
    let (bytes, rest) = text_first(alloc, text)?;
    counted(alloc, form, bytes.as_slice(), rest)
}

/// The long number in front behind the count of its bytes.
fn counted_long(alloc: Global, form: Form, text: &[u8]) -> Result<(Vec<u8>, &[u8]), Fault>
    ensures { MatchResult result (λ p. and_then (long_first text.now) (counted form) ≡ Ok (p.0.items, p.1.now)) (λ f. Fails (and_then (long_first text.now) (counted form)) f) }
{
    let (bytes, rest) = long_first(alloc, text)?;
    counted(alloc, form, bytes.as_slice(), rest)
}

/// The text in front as a line.
fn lined_first(alloc: Global, text: &[u8]) -> Result<(Vec<u8>, &[u8]), Fault>
    ensures { MatchResult result (λ p. and_then (text_first text.now) lined ≡ Ok (p.0.items, p.1.now)) (λ f. Fails (and_then (text_first text.now) lined) f) }
{
    let (mut bytes, rest) = text_first(alloc, text)?;
    push(&mut bytes, b'\n')?;
    Ok((bytes, rest))
}

/// A first line, and the text in front as a second one.
fn second_line<'a>(
    alloc: Global,
    first: Vec<u8>,
    text: &'a [u8],
) -> Result<(Vec<u8>, &'a [u8]), Fault>
    ensures { MatchResult result (λ p. second_line first.items text.now ≡ Ok (p.0.items, p.1.now)) (λ f. Fails (second_line first.items text.now) f) }
{
    let (second, rest) = text_first(alloc, text)?;
    let mut lines = first;
    push(&mut lines, b'\n')?;
    append(&mut lines, second.as_slice())?;
    push(&mut lines, b'\n')?;
    Ok((lines, rest))
}

/// The two texts in front as two lines.
fn two_first(alloc: Global, text: &[u8]) -> Result<(Vec<u8>, &[u8]), Fault>
    ensures { MatchResult result (λ p. and_then (text_first text.now) second_line ≡ Ok (p.0.items, p.1.now)) (λ f. Fails (and_then (text_first text.now) second_line) f) }
{
    let (first, rest) = text_first(alloc, text)?;
    second_line(alloc, first, rest)
}

/// The bytes of the double that is nearest to the number in front.
fn nearest_first(alloc: Global, text: &[u8]) -> Result<(Vec<u8>, &[u8]), Fault>
    ensures { MatchResult result (λ p. nearest_first text.now ≡ Ok (p.0.items, p.1.now)) (λ f. Fails (nearest_first text.now) f) }
{
    let first = cut(text);
    match fast_float::parse::<f64, _>(first.word) {
        Ok(number) => {
            let bits = f64_to_bits_with_nan(number);
            Ok((copied(alloc, &bits.to_be_bytes())?, first.rest))
        }
        Err(_) => Err(Fault::Wrong(Reason::NoFloat)),
    }
}

/// The bytes of the float in front.
fn float_first(alloc: Global, text: &[u8]) -> Result<(Vec<u8>, &[u8]), Fault>
    ensures { MatchResult result (λ p. float_first text.now ≡ Ok (p.0.items, p.1.now)) (λ f. Fails (float_first text.now) f) }
{
    match behind(b"f8:", trimmed(text)) {
        Some(digits) => hex_first(alloc, digits),
        None => nearest_first(alloc, text),
    }
}

/// The argument of a form, as a listing spells it, and what comes after it.
fn form_first(alloc: Global, form: Form, text: &[u8]) -> Result<(Vec<u8>, &[u8]), Fault>
    ensures { MatchResult result (λ p. form_first form text.now ≡ Ok (p.0.items, p.1.now)) (λ f. Fails (form_first form text.now) f) }
{
    match form {
        Form::Empty => Ok((Vec::new(alloc), text)),
        Form::Uint1 => fixed_first(alloc, Form::Uint1, text),
        Form::Uint2 => fixed_first(alloc, Form::Uint2, text),
        Form::Uint4 => fixed_first(alloc, Form::Uint4, text),
        Form::Uint8 => fixed_first(alloc, Form::Uint8, text),
        Form::Int4 => signed_first(alloc, text),
        Form::Float8 => float_first(alloc, text),
        Form::Line => lined_first(alloc, text),
        Form::Quoted => lined_first(alloc, text),
        Form::Decimal => line_first(alloc, text),
        Form::Two => two_first(alloc, text),
        Form::Bytes1 => counted_first(alloc, Form::Bytes1, text),
        Form::Bytes4 => counted_first(alloc, Form::Bytes4, text),
        Form::Bytes8 => counted_first(alloc, Form::Bytes8, text),
        Form::String4 => counted_first(alloc, Form::String4, text),
    }
}

/// Whether the argument of an opcode is a long number.
fn is_long(opcode: Opcode) -> bool
    ensures { result ≡ is_long opcode }
{
    matches!(opcode, Opcode::Long1 | Opcode::Long4)
}

/// Whether the line of an opcode is a number.
fn is_numeral(opcode: Opcode) -> bool
    ensures { result ≡ is_numeral opcode }
{
    matches!(opcode, Opcode::Int | Opcode::Long | Opcode::Float)
}

/// Whether a text is in front.
fn has_text(text: &[u8]) -> bool
    ensures { result ≡ has_text text.now }
{
    match text.first() {
        Some(byte) => is_quote(*byte) || *byte == b'b',
        None => false,
    }
}

/// Whether a byte may stand in a number that is written without quotes.
fn is_numeral_byte(byte: u8) -> bool
    ensures { result ≡ is_numeral_byte byte }
{
    (byte >= b'0' && byte <= b'9')
        || byte == b'+'
        || byte == b'-'
        || byte == b'.'
        || byte == b'e'
        || byte == b'E'
        || byte == b'L'
}

/// How many bytes are before the first that may not.
fn numeral_len(word: &[u8]) -> usize
    ensures { result ≡ prefix_len is_numeral_byte word.now }
{
    word.iter()
        .take_while(|byte| is_numeral_byte(**byte))
        .count()
}

/// Whether a word is such a number.
fn is_number(word: &[u8]) -> bool
    ensures { result ≡ is_number word.now }
{
    !word.is_empty() && numeral_len(word) == word.len()
}

/// A line of the number in front, as it is written, and what comes after it.
fn numeral_first(alloc: Global, text: &[u8]) -> Result<(Vec<u8>, &[u8]), Fault>
    ensures { MatchResult result (λ p. numeral_first text.now ≡ Ok (p.0.items, p.1.now)) (λ f. Fails (numeral_first text.now) f) }
{
    let first = cut(text);
    if !is_number(first.word) {
        return Err(Fault::Wrong(Reason::NoText));
    }
    let mut bytes = copied(alloc, first.word)?;
    push(&mut bytes, b'\n')?;
    Ok((bytes, first.rest))
}

/// Whether a number without quotes may be in front, and no text is.
fn is_bare(opcode: Opcode, text: &[u8]) -> bool
    ensures { result ≡ is_bare opcode text.now }
{
    is_numeral(opcode) && !has_text(trimmed(text))
}

/// The argument of an opcode, as a listing spells it, and what comes after it.
fn spelled_first(alloc: Global, opcode: Opcode, text: &[u8]) -> Result<(Vec<u8>, &[u8]), Fault>
    ensures { MatchResult result (λ p. spelled_first opcode text.now ≡ Ok (p.0.items, p.1.now)) (λ f. Fails (spelled_first opcode text.now) f) }
{
    if is_long(opcode) {
        counted_long(alloc, opcode.form(), text)
    } else if is_bare(opcode, text) {
        numeral_first(alloc, text)
    } else {
        form_first(alloc, opcode.form(), text)
    }
}

/// The bytes of an opcode's argument, and what comes after it.
pub(crate) fn argument_first(
    alloc: Global,
    opcode: Opcode,
    text: &[u8],
) -> Result<(Vec<u8>, &[u8]), Fault>
    ensures { MatchResult result (λ p. argument_first opcode text.now ≡ Ok (p.0.items, p.1.now)) (λ f. Fails (argument_first opcode text.now) f) }
{
    match behind(b"hex:", trimmed(text)) {
        Some(digits) => hex_first(alloc, digits),
        None => spelled_first(alloc, opcode, text),
    }
}
