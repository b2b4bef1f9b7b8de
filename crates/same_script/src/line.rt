//! Whether two pickles make the same objects, as a line of JSON.

ghost use Rattle.std.specs.Prelude.{◌≤◌, length};
ghost use Rattle.pickle_io.specs.Device.{Writes};
ghost use Rattle.json_lines.specs.Json.{value_text};
ghost use Rattle.json_lines.specs.Line.{fields_text};
ghost use Rattle.pickle_doc.specs.Document.{size_limit};
ghost use Rattle.archive_script.specs.SingleText.{Says};
ghost use Rattle.same_script.specs.SameFields.{end_json, end_field, ends_fields, number_field, object_fields, compared_fields, compared_line, IsSameLine};

use crate::written::status_of;
use gate_json::write_closing;
use json_lines::{begin_line, end_line, write_name, write_number_field};
use pickle_io::{Failed, Page, write_all};
use pickle_json::write_how;
use pickle_script::Stop;
use pickle_text::Closing;
use same_objects::{Compared, same_objects};
use std::alloc::Global;

/// Writes how a run ends, as an object.
fn write_end_object<S: Page>(closing: Closing, page: &mut S) -> Result<(), Failed>
    ensures { Writes (S.told page.old) (S.told page.new) result (value_text (end_json closing)) }
{
    begin_line("end", page)?;
    write_closing(closing, page)?;
    write_all(page, b"}")
}

/// Writes how a run ends, as a field.
fn write_end<S: Page>(closing: Closing, page: &mut S) -> Result<(), Failed>
    ensures { Writes (S.told page.old) (S.told page.new) result (fields_text (end_field closing)) }
{
    write_name("end", page)?;
    write_end_object(closing, page)
}

/// Writes that one of them is not read to its end, and how its run ends.
fn write_ends<S: Page>(how: &str, closing: Closing, page: &mut S) -> Result<(), Failed>
    ensures { Writes (S.told page.old) (S.told page.new) result (fields_text (ends_fields how.now closing)) }
{
    write_how(how, page)?;
    write_end(closing, page)
}

/// Writes the number of an object.
#[tactic(auto, unfolding(crate::specs::SameFields::number_field))]
fn write_number<S: Page>(number: usize, page: &mut S) -> Result<(), Failed>
    ensures { Writes (S.told page.old) (S.told page.new) result (fields_text (number_field number)) }
{
    write_number_field("object", number as u64, page)
}

/// Writes the first object that is another one.
fn write_object<S: Page>(number: usize, page: &mut S) -> Result<(), Failed>
    ensures { Writes (S.told page.old) (S.told page.new) result (fields_text (object_fields number)) }
{
    write_how("object", page)?;
    write_number(number, page)
}

/// Writes how two pickles compare.
fn write_compared<S: Page>(compared: Compared, page: &mut S) -> Result<(), Failed>
    ensures { Writes (S.told page.old) (S.told page.new) result (fields_text (compared_fields compared)) }
{
    match compared {
        Compared::Same => write_how("same", page),
        Compared::FirstEnds(closing) => write_ends("first_ends", closing, page),
        Compared::OtherEnds(closing) => write_ends("other_ends", closing, page),
        Compared::Object(number) => write_object(number, page),
        Compared::Results => write_how("results", page),
        Compared::FirstGoesOn(_) => write_how("first_goes_on", page),
        Compared::OtherGoesOn(_) => write_how("other_goes_on", page),
        Compared::Order => write_how("order", page),
    }
}

/// Writes the line of it.
fn write_compared_line<S: Page>(compared: Compared, page: &mut S) -> Result<(), Failed>
    ensures { Writes (S.told page.old) (S.told page.new) result (compared_line compared) }
{
    begin_line("same", page)?;
    write_compared(compared, page)?;
    end_line(page)
}

/// Writes what `write_comparison` writes as a line of JSON, and answers the same status. There are to be no more bytes than the limit. The stops are
/// those of `write_comparison`.
pub fn write_comparison_line<S: Page>(
    alloc: Global,
    many: bool,
    one: &[u8],
    other: &[u8],
    page: &mut S,
) -> Result<u8, Stop>
    requires one { length one.now ≤ size_limit }
    requires other { length other.now ≤ size_limit }
    ensures { Says (IsSameLine many one.now other.now) (S.told page.old) (S.told page.new) result }
{
    let compared = same_objects(alloc, many, one, other)?;
    write_compared_line(compared, page)?;
    Ok(status_of(compared))
}
