//! The bytes of a text of opcodes, or why there are none.

ghost use Rattle.std.specs.Prelude.{◌≡◌};
ghost use Rattle.pickle_io.specs.Device.{Writes};
ghost use Rattle.assembler_script.specs.AssemblyText.{sentence_of, counting_words, line_words, refused_line, AnswersAssembly};

use assembly_labels::{LabelRefusal, assemble_labelled};
use opcode_assembler::Reason;
use pickle_io::{Failed, Page, write_all, write_decimal};
use pickle_script::Stop;
use std::alloc::Global;

/// The status where a line is refused.
const REFUSED: u8 = 1;

/// Why a line gives no bytes.
#[tactic(auto, unfolding(crate::specs::AssemblyText::sentence_of))]
fn sentence_of(reason: Reason) -> &'static str
    ensures { result.now ≡ sentence_of reason }
{
    match reason {
        Reason::UnknownName => "no opcode has this name",
        Reason::NoNumber => "the opcode wants a whole number",
        Reason::NumberTooLarge => "the number does not fit into the opcode's bytes",
        Reason::NoText => "the opcode wants a text in quotes",
        Reason::TextTooLong => "the text is too long for the opcode",
        Reason::NoFloat => "the opcode wants a number, or f8: and hexadecimal digits",
        Reason::NoHex => "these are no pairs of hexadecimal digits",
        Reason::BadArgument => "the bytes are no argument of the opcode",
        Reason::ExtraText => "the line goes on behind the argument",
        Reason::LeftOut => "the listing does not show all bytes of its pickle",
    }
}

/// Why MEMOIZE is refused.
#[tactic(auto, unfolding(crate::specs::AssemblyText::counting_words))]
fn counting_words() -> &'static str
    ensures { result.now ≡ counting_words }
{
    "MEMOIZE counts keys by itself, and the text has labels"
}

/// Words of a line.
#[tactic(auto, unfolding(crate::specs::AssemblyText::line_words))]
fn line_words() -> &'static str
    ensures { result.now ≡ line_words }
{
    "refused: line "
}

/// Writes the number of the first line that gives no bytes, and why.
fn write_refusal<S: Page>(number: u64, why: &str, page: &mut S) -> Result<(), Failed>
    ensures { Writes (S.told page.old) (S.told page.new) result (refused_line number why.now) }
{
    write_all(page, line_words().as_bytes())?;
    write_decimal(number, page)?;
    write_all(page, b": ")?;
    write_all(page, why.as_bytes())?;
    write_all(page, b"\n")
}

/// Writes the bytes that the text is assembled to, with labels or without, or the line of the first line that gives none. Answers the status:
/// 0 where they are the bytes, else 1.
///
/// `Stop::Memory` where there is no room for the bytes: nothing was written then. `Stop::Write` where the sink fails: what was written then
/// is a beginning of them. The sink is to be flushed as in `write_text`.
pub fn write_assembled<S: Page>(alloc: Global, text: &[u8], page: &mut S) -> Result<u8, Stop>
    ensures { AnswersAssembly text.now S.told page.old page.new result }
{
    match assemble_labelled(alloc, text) {
        Ok(bytes) => {
            write_all(page, bytes.as_slice())?;
            Ok(0)
        }
        Err(LabelRefusal::Line(number, reason)) => {
            write_refusal(number, sentence_of(reason), page)?;
            Ok(REFUSED)
        }
        Err(LabelRefusal::Counting(number)) => {
            write_refusal(number, counting_words(), page)?;
            Ok(REFUSED)
        }
        Err(LabelRefusal::Memory) => Err(Stop::Memory),
    }
}
