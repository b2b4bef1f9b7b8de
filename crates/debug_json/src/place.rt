//! The line of where a session is. `Failed` where the sink fails; a beginning of the text was written then.

ghost use Rattle.pickle_io.specs.Device.{Writes};
ghost use Rattle.json_lines.specs.Line.{fields_text};
ghost use Rattle.debug_json.specs.WhereFields.{cursor_fields, count_fields, reached_fields, where_fields, where_line};

use crate::refused::{write_end, write_place};
use json_lines::{begin_line, end_line, write_number_field, write_numbers_field};
use pickle_io::{Failed, Page};
use pickle_machine::Machine;
use pickle_session::{Past, Session};

/// Writes a place, how many items there are, and where the place begins.
fn write_cursor<P: Page>(place: usize, len: usize, offset: u64, page: &mut P) -> Result<(), Failed>
    ensures { Writes (P.told page.old) (P.told page.new) result (fields_text (cursor_fields place len offset)) }
{
    write_place(place, page)?;
    write_number_field("length", len as u64, page)?;
    write_number_field("offset", offset, page)
}

/// Writes how much a machine holds.
fn write_counts<P: Page>(machine: &Machine, page: &mut P) -> Result<(), Failed>
    ensures { Writes (P.told page.old) (P.told page.new) result (fields_text (count_fields machine.now.state)) }
{
    write_number_field("objects", machine.objects() as u64, page)?;
    write_number_field("stack_size", machine.stack_len() as u64, page)?;
    write_number_field("marks", machine.marks_len() as u64, page)?;
    write_number_field("memo_size", machine.memo_len() as u64, page)
}

/// Writes the count of buffers and the results of a machine.
pub(crate) fn write_reached<P: Page>(machine: &Machine, page: &mut P) -> Result<(), Failed>
    ensures { Writes (P.told page.old) (P.told page.new) result (fields_text (reached_fields machine.now.state)) }
{
    write_number_field("buffers", machine.buffers(), page)?;
    write_numbers_field("results", machine.results(), page)
}

/// Writes where a session is.
fn write_where_fields<A: Past, P: Page>(session: &Session<A>, page: &mut P) -> Result<(), Failed>
    ensures { Writes (P.told page.old) (P.told page.new) result (fields_text (where_fields session.now.session session.now.machine.state)) }
{
    write_cursor(
        session.cursor(),
        session.document().len(),
        session.offset(),
        page,
    )?;
    write_counts(session.machine(), page)?;
    write_reached(session.machine(), page)?;
    write_end(session.document().end(), page)
}

/// Writes the line of where a session is: the cursor, how many items there are, the offset of the cursor, how much the machine holds, and
/// why the document ends.
pub(crate) fn write_where<A: Past, P: Page>(
    session: &Session<A>,
    page: &mut P,
) -> Result<(), Failed>
    ensures { Writes (P.told page.old) (P.told page.new) result (where_line session.now.session session.now.machine.state) }
{
    begin_line("where", page)?;
    write_where_fields(session, page)?;
    end_line(page)
}
