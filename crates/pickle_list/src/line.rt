//! The lines of a listing.

ghost use Rattle.std.specs.Prelude.{◌≡◌};
ghost use Rattle.pickle_io.specs.Device.{Writes};
ghost use Rattle.pickle_list.specs.Line.{refused_line, left_text, left_line, protocol_words, protocol_text, protocol_line};

use pickle_io::{Failed, Page, write_all, write_decimal};
use pickle_machine::Refusal;
use pickle_text::write_refusal;

/// Writes the line of a refused step.
pub fn write_refused<S: Page>(refusal: Refusal, page: &mut S) -> Result<(), Failed>
    ensures { Writes (S.told page.old) (S.told page.new) result (refused_line refusal) }
{
    write_all(page, b"refused: ")?;
    write_refusal(refusal, page)?;
    write_all(page, b"\n")
}

/// Writes how many objects and marks STOP left on the stack.
fn write_left_text<S: Page>(objects: usize, marks: usize, page: &mut S) -> Result<(), Failed>
    ensures { Writes (S.told page.old) (S.told page.new) result (left_text objects marks) }
{
    write_all(page, b"left: ")?;
    write_decimal(objects as u64, page)?;
    write_all(page, b" objects, ")?;
    write_decimal(marks as u64, page)?;
    write_all(page, b" marks")?;
    write_all(page, b"\n")
}

/// Writes what STOP left on the stack, if anything.
#[tactic(auto, using(pickle_io::proofs::Devices::text_steps), unfolding(crate::specs::Line::left_line))]
pub fn write_left_line<S: Page>(objects: usize, marks: usize, page: &mut S) -> Result<(), Failed>
    ensures { Writes (S.told page.old) (S.told page.new) result (left_line objects marks) }
{
    if objects == 0 && marks == 0 {
        Ok(())
    } else {
        write_left_text(objects, marks, page)
    }
}

/// Words of a line.
#[tactic(auto, unfolding(crate::specs::Line::protocol_words))]
fn words_of_protocol() -> &'static str
    ensures { result.now ≡ protocol_words }
{
    "highest protocol among opcodes = "
}

/// Writes the line of a protocol.
fn write_protocol_text<S: Page>(protocol: u32, page: &mut S) -> Result<(), Failed>
    ensures { Writes (S.told page.old) (S.told page.new) result (protocol_text protocol) }
{
    write_all(page, words_of_protocol().as_bytes())?;
    write_decimal(u64::from(protocol), page)?;
    write_all(page, b"\n")
}

/// Writes the greatest protocol of the items that were listed, if any was.
#[tactic(auto, using(pickle_io::proofs::Devices::text_steps), unfolding(crate::specs::Line::protocol_line))]
pub fn write_protocol<S: Page>(highest: Option<u32>, page: &mut S) -> Result<(), Failed>
    ensures { Writes (S.told page.old) (S.told page.new) result (protocol_line highest) }
{
    match highest {
        None => Ok(()),
        Some(protocol) => write_protocol_text(protocol, page),
    }
}
