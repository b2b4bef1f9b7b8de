//! Where a session is.

ghost use Rattle.pickle_io.specs.Device.{Writes};
ghost use Rattle.pickle_script.specs.PlaceText.{cursor_text, offset_text, some_results, results_text, reached_text, ending_text, where_text};

use crate::conversation::fault_text::write_end;
use object_texts::write_all_next;
use pickle_doc::End;
use pickle_io::{Failed, Page, write_all, write_decimal};
use pickle_machine::Machine;
use pickle_ops::ObjId;
use pickle_session::{Past, Session};
use pickle_text::write_id;

/// Writes a place, and how many items there are.
fn write_cursor<S: Page>(place: usize, len: usize, page: &mut S) -> Result<(), Failed>
    ensures { Writes (S.told page.old) (S.told page.new) result (cursor_text place len) }
{
    write_all(page, b"at ")?;
    write_decimal(place as u64, page)?;
    write_all(page, b" of ")?;
    write_decimal(len as u64, page)
}

/// Writes an offset.
fn write_offset<S: Page>(offset: u64, page: &mut S) -> Result<(), Failed>
    ensures { Writes (S.told page.old) (S.told page.new) result (offset_text offset) }
{
    write_all(page, b", offset ")?;
    write_decimal(offset, page)
}

/// Writes results, of which there is one at least.
fn write_some_results<S: Page>(first: ObjId, rest: &[ObjId], page: &mut S) -> Result<(), Failed>
    ensures { Writes (S.told page.old) (S.told page.new) result (some_results first rest.now) }
{
    write_id(u64::from(first), page)?;
    write_all_next(rest, page)
}

/// Writes the results, or that there is none.
#[tactic(auto, using(pickle_io::proofs::Devices::text_steps))]
fn write_results<S: Page>(ids: &[ObjId], page: &mut S) -> Result<(), Failed>
    ensures { Writes (S.told page.old) (S.told page.new) result (results_text ids.now) }
{
    match ids.split_first() {
        None => write_all(page, b"none"),
        Some((first, rest)) => write_some_results(*first, rest, page),
    }
}

/// Writes the count of buffers and the results of a machine.
fn write_reached<S: Page>(machine: &Machine, page: &mut S) -> Result<(), Failed>
    ensures { Writes (S.told page.old) (S.told page.new) result (reached_text machine.now.state) }
{
    write_all(page, b", buffers ")?;
    write_decimal(machine.buffers(), page)?;
    write_all(page, b", result ")?;
    write_results(machine.results(), page)
}

/// Writes why a document ends, and ends the line.
fn write_ending<S: Page>(end: End, page: &mut S) -> Result<(), Failed>
    ensures { Writes (S.told page.old) (S.told page.new) result (ending_text end) }
{
    write_all(page, b", end ")?;
    write_end(end, page)?;
    write_all(page, b"\n")
}

/// Writes where a session is: the cursor, how many items there are, the offset of the cursor, the count of buffers, the
/// results of the machine, and why the document ends. It takes no memory. Where the sink fails, a beginning of the line was
/// written.
pub fn write_where<P: Past, S: Page>(session: &Session<P>, page: &mut S) -> Result<(), Failed>
    ensures { Writes (S.told page.old) (S.told page.new) result (where_text session.now.session session.now.machine.state) }
{
    write_cursor(session.cursor(), session.document().len(), page)?;
    write_offset(session.offset(), page)?;
    write_reached(session.machine(), page)?;
    write_ending(session.document().end(), page)
}
