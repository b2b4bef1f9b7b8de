//! What a line says.

ghost use Rattle.std.specs.Prelude.{◌≡◌, Ok};
ghost use Rattle.opcode_assembler.specs.Assembly.{Adds, alone, operation, opcode_says, uncoded, unplaced, is_remark, is_gap, says_nothing, bytes_say, text_says, line_says, Raw};
ghost use Rattle.opcode_assembler.specs.Arguments.{argument_first};
ghost use Rattle.opcode_assembler.specs.Numbers.{hex_first};

use crate::argument::argument_first;
use crate::buffer::{append, push};
use crate::digits::hex_first;
use crate::fault::{Fault, Reason};
use crate::words::{after_note, behind, cut, is_over, is_place, trimmed, unnumbered};
use pickle_ops::{OpFault, Opcode, op_of};
use std::alloc::Global;

/// Adds the bytes of an opcode, if the argument is one of it.
fn put_op(out: &mut Vec<u8>, alloc: Global, opcode: Opcode, argument: &[u8]) -> Result<(), Fault>
    ensures { Adds (Ok (operation opcode argument.now)) out.old.items out.new.items result }
{
    match op_of(alloc, opcode, argument) {
        Ok(_) => {
            push(out, opcode.code())?;
            append(out, argument)?;
            Ok(())
        }
        Err(OpFault::Memory) => Err(Fault::Memory),
        Err(_) => Err(Fault::Wrong(Reason::BadArgument)),
    }
}

/// Adds the bytes of an opcode, whose argument and what follows it come next.
fn put_opcode(out: &mut Vec<u8>, alloc: Global, opcode: Opcode, text: &[u8]) -> Result<(), Fault>
    ensures { Adds (alone (operation opcode) (argument_first opcode text.now)) out.old.items out.new.items result }
{
    let (argument, rest) = argument_first(alloc, opcode, text)?;
    if !is_over(after_note(rest)) {
        return Err(Fault::Wrong(Reason::ExtraText));
    }
    put_op(out, alloc, opcode, argument.as_slice())
}

/// Adds the bytes of the opcode whose name comes next.
fn put_named(out: &mut Vec<u8>, alloc: Global, text: &[u8]) -> Result<(), Fault>
    ensures { Adds (opcode_says text.now) out.old.items out.new.items result }
{
    let first = cut(text);
    match Opcode::of_name(first.word) {
        Some(opcode) => put_opcode(out, alloc, opcode, first.rest),
        None => Err(Fault::Wrong(Reason::UnknownName)),
    }
}

/// What comes after the code in front, where it stands before the name.
fn uncoded(text: &[u8]) -> &[u8]
    ensures { result.now ≡ uncoded text.now }
{
    let first = cut(text);
    if Opcode::of_name(first.word).is_some() {
        text
    } else {
        first.rest
    }
}

/// What comes after the offset and the code in front, where there are these.
fn unplaced(text: &[u8]) -> &[u8]
    ensures { result.now ≡ unplaced text.now }
{
    let first = cut(text);
    if is_place(first.word) {
        uncoded(first.rest)
    } else {
        text
    }
}

/// Adds bytes as they are.
fn put_raw(out: &mut Vec<u8>, alloc: Global, text: &[u8]) -> Result<(), Fault>
    ensures { Adds (alone Raw (hex_first text.now)) out.old.items out.new.items result }
{
    let (bytes, rest) = hex_first(alloc, text)?;
    if !is_over(after_note(rest)) {
        return Err(Fault::Wrong(Reason::ExtraText));
    }
    append(out, bytes.as_slice())?;
    Ok(())
}

/// Whether a text is a remark of a listing on the whole pickle.
fn is_remark(text: &[u8]) -> bool
    ensures { result ≡ is_remark text.now }
{
    behind(b"left: ", text).is_some()
        || behind(b"highest protocol among opcodes = ", text).is_some()
}

/// Whether a listing says here that it does not show all bytes.
fn is_gap(text: &[u8]) -> bool
    ensures { result ≡ is_gap text.now }
{
    behind(b"kept: ", text).is_some()
        || behind(b"fault: ", text).is_some()
        || behind(b"refused: ", text).is_some()
}

/// Adds the bytes of an opcode, or bytes as they are.
fn put_bytes(out: &mut Vec<u8>, alloc: Global, text: &[u8]) -> Result<(), Fault>
    ensures { Adds (bytes_say text.now) out.old.items out.new.items result }
{
    match behind(b"raw:", text) {
        Some(digits) => put_raw(out, alloc, digits),
        None => put_named(out, alloc, unplaced(text)),
    }
}

/// Whether a line has no bytes: there is nothing in it but an offset and a comment, or a remark.
fn says_nothing(text: &[u8]) -> bool
    ensures { result ≡ says_nothing text.now }
{
    is_over(unnumbered(text)) || is_remark(text)
}

/// Adds the bytes of a line without blanks in front.
fn put_text(out: &mut Vec<u8>, alloc: Global, text: &[u8]) -> Result<(), Fault>
    ensures { Adds (text_says text.now) out.old.items out.new.items result }
{
    if says_nothing(text) {
        return Ok(());
    }
    if is_gap(text) {
        return Err(Fault::Wrong(Reason::LeftOut));
    }
    put_bytes(out, alloc, text)
}

/// Adds the bytes of a line.
#[tactic(auto, unfolding(crate::specs::Assembly::line_says))]
pub(crate) fn put_line(out: &mut Vec<u8>, alloc: Global, line: &[u8]) -> Result<(), Fault>
    ensures { Adds (line_says line.now) out.old.items out.new.items result }
{
    put_text(out, alloc, trimmed(line))
}
