//! The bytes of a text.

ghost use Rattle.std.specs.Prelude.{◌≡◌, not, IfOk, IfErr};
ghost use Rattle.std.specs.Option.{option_map};
ghost use Rattle.std.specs.List.{prefix_len};
ghost use Rattle.opcode_assembler.specs.Assembly.{is_newline, AddsLine, Assembles, Refuses};
ghost use Rattle.opcode_assembler.specs.Cut.{before, behind};

use crate::fault::{Fault, Refusal};
use crate::line::put_line;
use std::alloc::Global;

/// The bytes before the first newline, and what stands behind it, if there is one.
#[derive(Clone, Copy)]
struct Piece<'a> {
    line: &'a [u8],
    rest: Option<&'a [u8]>,
}

/// How many bytes are before the first newline.
fn line_len(text: &[u8]) -> usize
    ensures { result ≡ prefix_len (λ c. not (is_newline c)) text.now }
{
    text.iter().take_while(|byte| **byte != b'\n').count()
}

/// Cuts a text once.
fn cut_line(text: &[u8]) -> Piece<'_>
    ensures line { result.line.now ≡ before is_newline text.now }
    ensures rest { option_map (λ r. r.now) result.rest ≡ behind is_newline text.now }
{
    let (line, back) = text.split_at(line_len(text));
    match back.split_first() {
        Some((_, rest)) => Piece {
            line,
            rest: Some(rest),
        },
        None => Piece { line, rest: None },
    }
}

/// Adds the bytes of a line of this number.
fn put_numbered(out: &mut Vec<u8>, alloc: Global, number: u64, line: &[u8]) -> Result<(), Refusal>
    ensures { AddsLine number line.now out.old.items out.new.items result }
{
    match put_line(out, alloc, line) {
        Ok(()) => Ok(()),
        Err(Fault::Wrong(reason)) => Err(Refusal::Line(number, reason)),
        Err(Fault::Memory) => Err(Refusal::Memory),
    }
}

/// The bytes of the opcodes that stand in a text, a line for each.
///
/// A line is what a listing prints: an offset, with a colon or without, and a code, which may both be left out and say nothing; the name of an
/// opcode; its argument, as a listing spells it, or `hex:` and the whole argument in hexadecimal digits; a note in parentheses, which says
/// nothing; and a comment behind `#`. `raw:` and hexadecimal digits stand for bytes as they are. The remarks of a listing on the whole
/// pickle say nothing; one that says that bytes are not shown is refused.
pub fn assemble(alloc: Global, text: &[u8]) -> Result<Vec<u8>, Refusal>
    ensures ok { IfOk result (λ bytes. Assembles text.now bytes.items) }
    ensures err { IfErr result (Refuses text.now) }
{
    let mut out = Vec::new(alloc);
    let mut rest = Some(text);
    let mut number = 0;
    while let Some(left) = rest {
        let piece = cut_line(left);
        number += 1;
        match put_numbered(&mut out, alloc, number, piece.line) {
            Ok(()) => rest = piece.rest,
            Err(refusal) => return Err(refusal),
        }
    }
    Ok(out)
}
