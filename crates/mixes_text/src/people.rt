//! The lines for people. `Failed` where the sink fails; a beginning of the line was written then.

ghost use Rattle.std.specs.Prelude.{◌≡◌};
ghost use Rattle.pickle_io.specs.Device.{Writes};
ghost use Rattle.mixes_text.specs.MixText.{above_words, above_line, op_text, taken_line, below_line, many_words, many_line, mixes_for_people};

use crate::words::MixWorder;
use pickle_calls::ForPeople;
use pickle_io::{Failed, Page, write_all, write_decimal};
use pickle_ops::{Op, write_arg_text};
use pickle_text::write_right;

/// Words of a line.
#[tactic(auto, unfolding(crate::specs::MixText::above_words))]
fn above_words() -> &'static str
    ensures { result.now ≡ above_words }
{
    "a loader that mixes frames may take:"
}

/// Writes the line above the opcodes.
fn write_above_line<S: Page>(page: &mut S) -> Result<(), Failed>
    ensures { Writes (S.told page.old) (S.told page.new) result above_line }
{
    write_all(page, above_words().as_bytes())?;
    write_all(page, b"\n")
}

/// Writes the name of an opcode, and after a blank the text of its argument where there is one.
#[tactic(auto, using(pickle_io::proofs::Devices::text_steps, crate::proofs::Lines::name_steps), unfolding(crate::specs::MixText::op_text))]
fn write_op<S: Page>(op: &Op, page: &mut S) -> Result<(), Failed>
    ensures { Writes (S.told page.old) (S.told page.new) result (op_text op.now) }
{
    if op.has_arg_text() {
        write_all(page, op.opcode().name().as_bytes())?;
        write_all(page, b" ")?;
        write_arg_text(op, page)
    } else {
        write_all(page, op.opcode().name().as_bytes())
    }
}

/// Writes the line of an opcode.
fn write_taken_line<S: Page>(offset: u64, op: &Op, page: &mut S) -> Result<(), Failed>
    ensures { Writes (S.told page.old) (S.told page.new) result (taken_line offset op.now) }
{
    write_right(offset, page)?;
    write_all(page, b": ")?;
    write_op(op, page)?;
    write_all(page, b"\n")
}

/// Writes the line below so many opcodes.
fn write_below_line<S: Page>(count: u64, page: &mut S) -> Result<(), Failed>
    ensures { Writes (S.told page.old) (S.told page.new) result (below_line count) }
{
    write_decimal(count, page)?;
    write_all(page, b" opcodes")?;
    write_all(page, b"\n")
}

/// Words of a line.
#[tactic(auto, unfolding(crate::specs::MixText::many_words))]
fn many_words() -> &'static str
    ensures { result.now ≡ many_words }
{
    "too many ways to mix frames"
}

/// Writes that there are too many ways to read the bytes.
fn write_many_line<S: Page>(page: &mut S) -> Result<(), Failed>
    ensures { Writes (S.told page.old) (S.told page.new) result many_line }
{
    write_all(page, many_words().as_bytes())?;
    write_all(page, b"\n")
}

impl MixWorder for ForPeople {
    ghost mixes = { mixes_for_people };

    fn write_above<S: Page>(page: &mut S) -> Result<(), Failed> {
        write_above_line(page)
    }

    fn write_taken<S: Page>(offset: u64, op: &Op, page: &mut S) -> Result<(), Failed> {
        write_taken_line(offset, op, page)
    }

    fn write_below<S: Page>(count: u64, page: &mut S) -> Result<(), Failed> {
        write_below_line(count, page)
    }

    fn write_too_many<S: Page>(page: &mut S) -> Result<(), Failed> {
        write_many_line(page)
    }
}
