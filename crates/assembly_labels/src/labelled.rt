//! The bytes of a text with labels.

ghost use Rattle.std.specs.Prelude.{◌≡◌, map, IfOk, IfErr};
ghost use Rattle.std.specs.Option.{option_map};
ghost use Rattle.std.specs.Prelude.{suc};
ghost use Rattle.std.specs.List.{position};
ghost use Rattle.opcode_assembler.specs.Assembly.{Assembles};
ghost use Rattle.assembly_labels.specs.Labels.{is_counting};
ghost use Rattle.assembly_labels.specs.Labelled.{lines_of, AssemblesLabelled, RefusesLabelled, RefusesPlain};

use crate::digits::digits_text;
use crate::line::is_counting;
use crate::numbers::{numbers_of, places_of};
use crate::refusal::LabelRefusal;
use opcode_assembler::{Refusal, assemble};
use std::alloc::{AllocError, Global};

/// The lines of a text.
fn lines_of(alloc: Global, text: &[u8]) -> Result<Vec<&[u8]>, AllocError>
    ensures { IfOk result (λ lines. map (λ line. line.now) lines.items ≡ lines_of text.now) }
{
    text.split(|byte| *byte == b'\n').collect(alloc)
}

/// The number of the first line that is MEMOIZE, from 1.
fn counting_line(lines: &[&[u8]]) -> Option<u64>
    ensures { result ≡ option_map suc (position is_counting (map (λ line. line.now) lines.now)) }
{
    for (place, line) in lines.iter().enumerate() {
        if is_counting(*line) {
            return Some(place as u64 + 1);
        }
    }
    None
}

/// The bytes of a text without labels.
fn assembled(alloc: Global, text: &[u8]) -> Result<Vec<u8>, LabelRefusal>
    ensures ok { IfOk result (λ bytes. Assembles text.now bytes.items) }
    ensures err { IfErr result (RefusesPlain text.now) }
{
    match assemble(alloc, text) {
        Ok(bytes) => Ok(bytes),
        Err(Refusal::Line(number, reason)) => Err(LabelRefusal::Line(number, reason)),
        Err(Refusal::Memory) => Err(LabelRefusal::Memory),
    }
}

/// The bytes of the opcodes that stand in a text, a line for each, as `assemble` reads them; but behind GET, BINGET, LONG_BINGET, PUT, BINPUT
/// and LONG_BINPUT a label may stand in place of the key in digits: a word of letters, digits and `_` that begins with no digit. Equal
/// labels are one key. The labels get keys that count up, in the order in which they come first, from the least key on that is above all
/// keys in digits.
///
/// `LabelRefusal::Counting` where a text with labels has MEMOIZE; it comes before all else. `LabelRefusal::Line` where a line is none of an
/// assembler, also since a label's key does not fit into its opcode's bytes.
pub fn assemble_labelled(alloc: Global, text: &[u8]) -> Result<Vec<u8>, LabelRefusal>
    ensures ok { IfOk result (λ bytes. AssemblesLabelled text.now bytes.items) }
    ensures err { IfErr result (RefusesLabelled text.now) }
{
    let Ok(lines) = lines_of(alloc, text) else {
        return Err(LabelRefusal::Memory);
    };
    let Ok(places) = places_of(alloc, lines.as_slice()) else {
        return Err(LabelRefusal::Memory);
    };
    if places.len() == 0 {
        return assembled(alloc, text);
    }
    if let Some(number) = counting_line(lines.as_slice()) {
        return Err(LabelRefusal::Counting(number));
    }
    let numbers = numbers_of(places, lines.as_slice());
    match digits_text(alloc, &numbers, lines.as_slice()) {
        Ok(digits) => assembled(alloc, digits.as_slice()),
        Err(_) => Err(LabelRefusal::Memory),
    }
}
