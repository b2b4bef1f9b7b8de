//! Lines that are printed for people, as fields. `Failed` where the sink fails; a beginning of the field was written then.

ghost use Rattle.pickle_io.specs.Device.{Writes};
ghost use Rattle.json_lines.specs.Line.{fields_text};
ghost use Rattle.line_buffer.specs.Line.{line_text};
ghost use Rattle.pickle_calls.specs.Begins.{begins_line};
ghost use Rattle.pickle_calls.specs.CallsLine.{totals_line};
ghost use Rattle.pickle_further.specs.Leads.{warning_line};
ghost use Rattle.pickle_further.specs.Deep.{deep_line};
ghost use Rattle.pickle_further.specs.Parts.{header, loss_line, mixed_line};
ghost use Rattle.pickle_json.specs.ShownFields.{shown_fields};

use crate::people::write_begins_text;
use line_buffer::LineBuffer;
use pickle_calls::{Course, ForPeople, write_totals};
use pickle_further::Worder;
use pickle_io::{Failed, Page};
use pickle_json::write_shown;
use pickle_lenient::Frames;
use pickle_ops::ObjId;

/// Writes the line of what the bytes begin like.
pub(crate) fn write_begins_shown<P: Page>(name: &str, page: &mut P) -> Result<(), Failed>
    ensures { Writes (P.told page.old) (P.told page.new) result (fields_text (shown_fields (line_text (begins_line name.now)))) }
{
    let mut line = LineBuffer::new();
    let _ = write_begins_text(name, &mut line);
    write_shown(&line, page)
}

/// Writes the line of how many imports and calls there are.
pub(crate) fn write_totals_shown<P: Page>(course: Course, page: &mut P) -> Result<(), Failed>
    ensures { Writes (P.told page.old) (P.told page.new) result (fields_text (shown_fields (line_text (totals_line course.imports course.calls)))) }
{
    let mut line = LineBuffer::new();
    let _ = write_totals(course, &mut line);
    write_shown(&line, page)
}

/// Writes the line of an import that leads to the unpickler.
pub(crate) fn write_leads_shown<P: Page>(id: ObjId, page: &mut P) -> Result<(), Failed>
    ensures { Writes (P.told page.old) (P.told page.new) result (fields_text (shown_fields (line_text (warning_line id)))) }
{
    let mut line = LineBuffer::new();
    let _ = ForPeople::write_leading(Some(id), &mut line);
    write_shown(&line, page)
}

/// Writes the line of a tuple that is nested too deep.
pub(crate) fn write_deep_shown<P: Page>(id: ObjId, page: &mut P) -> Result<(), Failed>
    ensures { Writes (P.told page.old) (P.told page.new) result (fields_text (shown_fields (line_text (deep_line id)))) }
{
    let mut line = LineBuffer::new();
    let _ = ForPeople::write_warning(None, Some(id), &mut line);
    write_shown(&line, page)
}

/// Writes the line above what loaders may do.
pub(crate) fn write_heading_shown<P: Page>(frames: Frames, page: &mut P) -> Result<(), Failed>
    ensures { Writes (P.told page.old) (P.told page.new) result (fields_text (shown_fields (line_text (header frames)))) }
{
    let mut line = LineBuffer::new();
    let _ = ForPeople::write_heading(frames, &mut line);
    write_shown(&line, page)
}

/// Writes the line of where bytes of a frame are lost.
pub(crate) fn write_loss_shown<P: Page>(offset: u64, page: &mut P) -> Result<(), Failed>
    ensures { Writes (P.told page.old) (P.told page.new) result (fields_text (shown_fields (line_text (loss_line offset)))) }
{
    let mut line = LineBuffer::new();
    let _ = ForPeople::write_losing(offset, &mut line);
    write_shown(&line, page)
}

/// Writes the line of where frames may be mixed.
pub(crate) fn write_mixed_shown<P: Page>(offset: u64, page: &mut P) -> Result<(), Failed>
    ensures { Writes (P.told page.old) (P.told page.new) result (fields_text (shown_fields (line_text (mixed_line offset)))) }
{
    let mut line = LineBuffer::new();
    let _ = ForPeople::write_mixing(offset, &mut line);
    write_shown(&line, page)
}
