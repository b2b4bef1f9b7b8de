//! The lines of what loaders may take that mix frames. `Failed` where the sink fails; a beginning of the line was written then.

ghost use Rattle.std.specs.Prelude.{codes};
ghost use Rattle.json.specs.Json.{string};
ghost use Rattle.pickle_io.specs.Device.{Writes};
ghost use Rattle.json_lines.specs.Line.{field, ◌⊕◌, whole, fields_text};
ghost use Rattle.pickle_ops.specs.Table.{name_of};
ghost use Rattle.line_buffer.specs.Line.{line_text};
ghost use Rattle.mixes_text.specs.MixText.{above_line as above, taken_line as taken, below_line as below, many_line as many};
ghost use Rattle.pickle_json.specs.ShownFields.{shown_fields};
ghost use Rattle.calls_json.specs.MixFields.{above_line, taken_fields, taken_line, below_fields, below_line, many_line};

use json_lines::{begin_line, end_line, write_number_field, write_text_field};
use line_buffer::LineBuffer;
use mixes_text::MixWorder;
use pickle_calls::ForPeople;
use pickle_io::{Failed, Page};
use pickle_json::write_shown;
use pickle_ops::Op;

/// Writes the line above the opcodes, for people.
fn write_above_shown<P: Page>(page: &mut P) -> Result<(), Failed>
    ensures { Writes (P.told page.old) (P.told page.new) result (fields_text (shown_fields (line_text above))) }
{
    let mut line = LineBuffer::new();
    let _ = ForPeople::write_above(&mut line);
    write_shown(&line, page)
}

/// Writes the line of an opcode, for people.
fn write_taken_shown<P: Page>(offset: u64, op: &Op, page: &mut P) -> Result<(), Failed>
    ensures { Writes (P.told page.old) (P.told page.new) result (fields_text (shown_fields (line_text (taken offset op.now)))) }
{
    let mut line = LineBuffer::new();
    let _ = ForPeople::write_taken(offset, op, &mut line);
    write_shown(&line, page)
}

/// Writes the line below so many opcodes, for people.
fn write_below_shown<P: Page>(count: u64, page: &mut P) -> Result<(), Failed>
    ensures { Writes (P.told page.old) (P.told page.new) result (fields_text (shown_fields (line_text (below count)))) }
{
    let mut line = LineBuffer::new();
    let _ = ForPeople::write_below(count, &mut line);
    write_shown(&line, page)
}

/// Writes the line of too many ways, for people.
fn write_many_shown<P: Page>(page: &mut P) -> Result<(), Failed>
    ensures { Writes (P.told page.old) (P.told page.new) result (fields_text (shown_fields (line_text many))) }
{
    let mut line = LineBuffer::new();
    let _ = ForPeople::write_too_many(&mut line);
    write_shown(&line, page)
}

/// Writes the line above the opcodes.
pub fn write_above<P: Page>(page: &mut P) -> Result<(), Failed>
    ensures { Writes (P.told page.old) (P.told page.new) result above_line }
{
    begin_line("mixes", page)?;
    write_above_shown(page)?;
    end_line(page)
}

/// Writes where an opcode is, and its name.
fn write_opcode_fields<P: Page>(offset: u64, op: &Op, page: &mut P) -> Result<(), Failed>
    ensures { Writes (P.told page.old) (P.told page.new) result (fields_text (field (codes "offset") (whole offset) ⊕ field (codes "opcode") (string (name_of op.now.opcode)))) }
{
    write_number_field("offset", offset, page)?;
    write_text_field("opcode", op.opcode().name(), page)
}

/// Writes where an opcode is, its name, and its line.
fn write_taken_fields<P: Page>(offset: u64, op: &Op, page: &mut P) -> Result<(), Failed>
    ensures { Writes (P.told page.old) (P.told page.new) result (fields_text (taken_fields offset op.now)) }
{
    write_opcode_fields(offset, op, page)?;
    write_taken_shown(offset, op, page)
}

/// Writes the line of an opcode.
pub fn write_taken<P: Page>(offset: u64, op: &Op, page: &mut P) -> Result<(), Failed>
    ensures { Writes (P.told page.old) (P.told page.new) result (taken_line offset op.now) }
{
    begin_line("taken", page)?;
    write_taken_fields(offset, op, page)?;
    end_line(page)
}

/// Writes how many opcodes there are.
fn write_below_fields<P: Page>(count: u64, page: &mut P) -> Result<(), Failed>
    ensures { Writes (P.told page.old) (P.told page.new) result (fields_text (below_fields count)) }
{
    write_number_field("count", count, page)?;
    write_below_shown(count, page)
}

/// Writes the line below so many opcodes.
pub fn write_below<P: Page>(count: u64, page: &mut P) -> Result<(), Failed>
    ensures { Writes (P.told page.old) (P.told page.new) result (below_line count) }
{
    begin_line("opcodes", page)?;
    write_below_fields(count, page)?;
    end_line(page)
}

/// Writes that there are too many ways to read the bytes.
pub fn write_too_many<P: Page>(page: &mut P) -> Result<(), Failed>
    ensures { Writes (P.told page.old) (P.told page.new) result many_line }
{
    begin_line("too_many_ways", page)?;
    write_many_shown(page)?;
    end_line(page)
}
