//! Texts in quotes.

ghost use Rattle.std.specs.Prelude.{◌≡◌, MatchResult, Ok};
ghost use Rattle.opcode_assembler.specs.Quotes.{Steps, scanned, is_quote, unquoted, unprefixed, text_first};
ghost use Rattle.opcode_assembler.specs.Reading.{Fails};

use crate::buffer::push;
use crate::fault::{Fault, Reason};
use crate::scan::{Mode, Step, step_of};
use crate::words::trimmed;
use std::alloc::Global;

/// Takes a step. Answers where the next byte stands, unless the text ended.
fn put_step(bytes: &mut Vec<u8>, step: Step) -> Result<Option<Mode>, Fault>
    ensures { Steps step bytes.old.items bytes.new.items result }
{
    match step {
        Step::End => Ok(None),
        Step::Wrong => Err(Fault::Wrong(Reason::NoText)),
        Step::Goes(mode) => Ok(Some(mode)),
        Step::Byte(byte) => {
            push(bytes, byte)?;
            Ok(Some(Mode::Plain))
        }
    }
}

/// A text whose first quote was read, up to this quote, which ends it, and what is left behind that.
fn scanned(alloc: Global, quote: u8, text: &[u8]) -> Result<(Vec<u8>, &[u8]), Fault>
    ensures { MatchResult result (λ p. scanned quote Mode.Plain text.now ≡ Ok (p.0.items, p.1.now)) (λ f. Fails (scanned quote Mode.Plain text.now) f) }
{
    let mut bytes = Vec::new(alloc);
    let mut mode = Mode::Plain;
    let mut rest = text;
    while let Some((byte, left)) = rest.split_first() {
        let stepped = match put_step(&mut bytes, step_of(quote, mode, *byte)) {
            Ok(stepped) => stepped,
            Err(fault) => return Err(fault),
        };
        let Some(next) = stepped else {
            return Ok((bytes, left));
        };
        mode = next;
        rest = left;
    }
    Err(Fault::Wrong(Reason::NoText))
}

/// Whether a byte begins a text.
pub(crate) fn is_quote(byte: u8) -> bool
    ensures { result ≡ is_quote byte }
{
    byte == b'\'' || byte == b'"'
}

/// A text in quotes, and what is left behind it.
fn unquoted(alloc: Global, text: &[u8]) -> Result<(Vec<u8>, &[u8]), Fault>
    ensures { MatchResult result (λ p. unquoted text.now ≡ Ok (p.0.items, p.1.now)) (λ f. Fails (unquoted text.now) f) }
{
    let Some((quote, rest)) = text.split_first() else {
        return Err(Fault::Wrong(Reason::NoText));
    };
    if !is_quote(*quote) {
        return Err(Fault::Wrong(Reason::NoText));
    }
    scanned(alloc, *quote, rest)
}

/// A text without the `b` in front.
fn unprefixed(text: &[u8]) -> &[u8]
    ensures { result.now ≡ unprefixed text.now }
{
    match text.split_first() {
        Some((b'b', rest)) => rest,
        _ => text,
    }
}

/// The text in quotes in front, without its quotes and escapes, and what is left behind it.
pub(crate) fn text_first(alloc: Global, text: &[u8]) -> Result<(Vec<u8>, &[u8]), Fault>
    ensures { MatchResult result (λ p. text_first text.now ≡ Ok (p.0.items, p.1.now)) (λ f. Fails (text_first text.now) f) }
{
    unquoted(alloc, unprefixed(trimmed(text)))
}
