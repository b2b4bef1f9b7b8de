//! The line of what is said of a file. `Failed` where the sink fails; a beginning of the text was written then.

ghost use Rattle.pickle_io.specs.Device.{Writes};
ghost use Rattle.json_lines.specs.Line.{fields_text, ◌⊕◌};
ghost use Rattle.line_buffer.specs.Line.{line_text};
ghost use Rattle.pickle_json.specs.ShownFields.{shown_fields};
ghost use Rattle.archive_script.specs.GateText.{judged_output, no_list_line};
ghost use Rattle.gate_json.specs.VerdictFields.{judged_fields, told_fields, file_fields, named_fields, no_list_fields, number_fields};
ghost use Rattle.gate_json.specs.GateLine.{verdict_line, named_line, no_list_json};

use crate::judged::write_judged;
use archive_script::{
    Judged, write_judged as write_judged_text, write_no_list as write_no_list_text,
};
use json_lines::{begin_line, end_line, write_bytes_field, write_number_field};
use line_buffer::LineBuffer;
use pickle_io::{Failed, Page};
use pickle_json::{write_how, write_shown};

/// Writes the line that is printed for people.
fn write_people<P: Page>(judged: &Judged<'_>, page: &mut P) -> Result<(), Failed>
    ensures { Writes (P.told page.old) (P.told page.new) result (fields_text (shown_fields (line_text (judged_output judged.now).text))) }
{
    let mut line = LineBuffer::new();
    let _ = write_judged_text(judged, &mut line);
    write_shown(&line, page)
}

/// Writes what is said of a file, and the line for people.
fn write_told<P: Page>(judged: &Judged<'_>, page: &mut P) -> Result<(), Failed>
    ensures { Writes (P.told page.old) (P.told page.new) result (fields_text (told_fields judged.now)) }
{
    write_judged(judged, page)?;
    write_people(judged, page)
}

/// Writes the line of what is said of a file.
pub(crate) fn write_verdict_line<P: Page>(judged: &Judged<'_>, page: &mut P) -> Result<(), Failed>
    ensures { Writes (P.told page.old) (P.told page.new) result (verdict_line judged.now) }
{
    begin_line("verdict", page)?;
    write_told(judged, page)?;
    end_line(page)
}

/// Writes the name of a file.
#[tactic(auto, unfolding(crate::specs::VerdictFields::file_fields))]
fn write_file<P: Page>(name: &[u8], page: &mut P) -> Result<(), Failed>
    ensures { Writes (P.told page.old) (P.told page.new) result (fields_text (file_fields name.now)) }
{
    write_bytes_field("file", "file_hex", name, page)
}

/// Writes the name of a file, and what is said of it.
fn write_named<P: Page>(name: &[u8], judged: &Judged<'_>, page: &mut P) -> Result<(), Failed>
    ensures { Writes (P.told page.old) (P.told page.new) result (fields_text (named_fields name.now judged.now)) }
{
    write_file(name, page)?;
    write_told(judged, page)
}

/// Writes the line of it.
pub(crate) fn write_named_line<P: Page>(
    name: &[u8],
    judged: &Judged<'_>,
    page: &mut P,
) -> Result<(), Failed>
    ensures { Writes (P.told page.old) (P.told page.new) result (named_line name.now judged.now) }
{
    begin_line("verdict", page)?;
    write_named(name, judged, page)?;
    end_line(page)
}

/// Writes the number of a line of a list.
#[tactic(auto, unfolding(crate::specs::VerdictFields::number_fields))]
fn write_number<P: Page>(line: usize, page: &mut P) -> Result<(), Failed>
    ensures { Writes (P.told page.old) (P.told page.new) result (fields_text (number_fields line)) }
{
    write_number_field("line", line as u64, page)
}

/// Writes the line for people about a line of a list that is no entry.
fn write_no_list_people<P: Page>(line: usize, page: &mut P) -> Result<(), Failed>
    ensures { Writes (P.told page.old) (P.told page.new) result (fields_text (shown_fields (line_text (no_list_line line)))) }
{
    let mut text = LineBuffer::new();
    let _ = write_no_list_text(line, &mut text);
    write_shown(&text, page)
}

/// Writes that a line of a list is no entry.
fn write_no_list<P: Page>(line: usize, page: &mut P) -> Result<(), Failed>
    ensures { Writes (P.told page.old) (P.told page.new) result (fields_text (no_list_fields line)) }
{
    write_how("not_a_list", page)?;
    write_number(line, page)?;
    write_no_list_people(line, page)
}

/// Writes the line of it.
pub(crate) fn write_no_list_line<P: Page>(line: usize, page: &mut P) -> Result<(), Failed>
    ensures { Writes (P.told page.old) (P.told page.new) result (no_list_json line) }
{
    begin_line("verdict", page)?;
    write_no_list(line, page)?;
    end_line(page)
}
