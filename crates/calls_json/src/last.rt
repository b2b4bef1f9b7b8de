//! The lines that are no events. `Failed` where the sink fails; a beginning of the text was written then.

ghost use Rattle.std.specs.Prelude.{◌≡◌, None, codes};
ghost use Rattle.std.specs.Option.{option_map};
ghost use Rattle.json.specs.Json.{string};
ghost use Rattle.pickle_io.specs.Device.{Writes};
ghost use Rattle.pickle_io.specs.Text.{◌⧺◌};
ghost use Rattle.json_lines.specs.Line.{field, ◌⊕◌, whole, fields_text};
ghost use Rattle.pickle_json.specs.EndFields.{how_fields, coded_fields, stopped_fields, refused_fields, tail_fields};
ghost use Rattle.line_buffer.specs.Line.{line_text, held_by};
ghost use Rattle.pickle_calls.specs.Begins.{begins_line};
ghost use Rattle.pickle_further.specs.Leads.{warning_line};
ghost use Rattle.pickle_further.specs.Deep.{deep_line as nested_line};
ghost use Rattle.pickle_further.specs.Parts.{header, loss_line as lost_line, mixed_line as mixing_line};
ghost use Rattle.pickle_json.specs.ShownFields.{shown_fields};
ghost use Rattle.calls_json.specs.LastFields.{like_fields, like_line, like_text, begins_text, counts_fields, counts_line, at_fields, item_fields, unsure_words, loss_words, mixed_words, stopped_line, refused_line, fault_line, hole_fields, hole_line, unsure_line, closing_with, ending_with, closing_line, ending_line, end_text, leads_words, deep_words, warning_fields, leads_line, deep_line, leads_text, deep_text, warnings_text, frames_word, heading_line, part_end, loss_line, mixed_line, status_line};

use crate::names::write_id;
use crate::people::{write_ending_text, write_ends_text};
use crate::shown::{
    write_begins_shown, write_deep_shown, write_heading_shown, write_leads_shown, write_loss_shown,
    write_mixed_shown, write_totals_shown,
};
use json_lines::{begin_line, end_line, write_number_field, write_text_field};
use line_buffer::LineBuffer;
use pickle_calls::{Course, Ending, begins_like};
use pickle_doc::TailFault;
use pickle_io::{Failed, Hole, Page};
use pickle_json::{
    write_coded, write_how, write_refused_fields, write_shown, write_stopped_fields,
    write_tail_fields,
};
use pickle_lenient::Frames;
use pickle_machine::Refusal;
use pickle_ops::ObjId;
use pickle_text::Closing;

/// Writes what the bytes begin like.
fn write_like_fields<P: Page>(name: &str, page: &mut P) -> Result<(), Failed>
    ensures { Writes (P.told page.old) (P.told page.new) result (fields_text (like_fields name.now)) }
{
    write_text_field("like", name, page)?;
    write_begins_shown(name, page)
}

/// Writes the line of what the bytes begin like.
fn write_like<P: Page>(name: &str, page: &mut P) -> Result<(), Failed>
    ensures { Writes (P.told page.old) (P.told page.new) result (like_line name.now) }
{
    begin_line("begins", page)?;
    write_like_fields(name, page)?;
    end_line(page)
}

/// Writes it, if they begin like a file that holds pickles inside.
#[tactic(auto, unfolding(crate::specs::LastFields::begins_text))]
fn write_begins<P: Page>(bytes: &[u8], page: &mut P) -> Result<(), Failed>
    ensures { Writes (P.told page.old) (P.told page.new) result (begins_text bytes.now) }
{
    match begins_like(bytes) {
        Some(name) => write_like(name, page),
        None => Ok(()),
    }
}

/// Writes how many imports and calls there are.
fn write_counts_fields<P: Page>(course: Course, page: &mut P) -> Result<(), Failed>
    ensures { Writes (P.told page.old) (P.told page.new) result (fields_text (counts_fields course.imports course.calls)) }
{
    write_number_field("imports", course.imports, page)?;
    write_number_field("calls", course.calls, page)?;
    write_totals_shown(course, page)
}

/// Writes the line of how many imports and calls there are.
fn write_counts<P: Page>(course: Course, page: &mut P) -> Result<(), Failed>
    ensures { Writes (P.told page.old) (P.told page.new) result (counts_line course.imports course.calls) }
{
    begin_line("counts", page)?;
    write_counts_fields(course, page)?;
    end_line(page)
}

/// Writes an offset.
#[tactic(auto, unfolding(crate::specs::LastFields::at_fields))]
fn write_at<P: Page>(offset: u64, page: &mut P) -> Result<(), Failed>
    ensures { Writes (P.told page.old) (P.told page.new) result (fields_text (at_fields offset)) }
{
    write_number_field("offset", offset, page)
}

/// Writes which item it is.
#[tactic(auto, unfolding(crate::specs::LastFields::item_fields))]
fn write_item<P: Page>(place: usize, page: &mut P) -> Result<(), Failed>
    ensures { Writes (P.told page.old) (P.told page.new) result (fields_text (item_fields place)) }
{
    write_number_field("item", place as u64, page)
}

/// Writes an end after STOP, and the line for people.
fn write_stopped_shown<P: Page>(kept: u64, line: &LineBuffer, page: &mut P) -> Result<(), Failed>
    ensures { Writes (P.told page.old) (P.told page.new) result (fields_text (stopped_fields kept None ⊕ shown_fields (line_text (held_by line.now)))) }
{
    write_stopped_fields(kept, None, page)?;
    write_shown(line, page)
}

/// Writes the line of an end after STOP, behind which there are `kept` bytes.
fn write_stopped<P: Page>(kept: u64, line: &LineBuffer, page: &mut P) -> Result<(), Failed>
    ensures { Writes (P.told page.old) (P.told page.new) result (stopped_line kept (line_text (held_by line.now))) }
{
    begin_line("ending", page)?;
    write_stopped_shown(kept, line, page)?;
    end_line(page)
}

/// Writes why an item is refused, and which it is.
fn write_refused_item<P: Page>(place: usize, refusal: Refusal, page: &mut P) -> Result<(), Failed>
    ensures { Writes (P.told page.old) (P.told page.new) result (fields_text (refused_fields refusal None ⊕ item_fields place)) }
{
    write_refused_fields(refusal, None, page)?;
    write_item(place, page)
}

/// Writes an end at an item that is refused, and the line for people.
fn write_refused_shown<P: Page>(
    place: usize,
    refusal: Refusal,
    line: &LineBuffer,
    page: &mut P,
) -> Result<(), Failed>
    ensures { Writes (P.told page.old) (P.told page.new) result (fields_text (refused_fields refusal None ⊕ item_fields place ⊕ shown_fields (line_text (held_by line.now)))) }
{
    write_refused_item(place, refusal, page)?;
    write_shown(line, page)
}

/// Writes the line of an end at an item that is refused.
fn write_refused<P: Page>(
    place: usize,
    refusal: Refusal,
    line: &LineBuffer,
    page: &mut P,
) -> Result<(), Failed>
    ensures { Writes (P.told page.old) (P.told page.new) result (refused_line place refusal (line_text (held_by line.now))) }
{
    begin_line("ending", page)?;
    write_refused_shown(place, refusal, line, page)?;
    end_line(page)
}

/// Writes an end at a fault, and the line for people.
fn write_fault_shown<P: Page>(
    fault: TailFault,
    offset: u64,
    line: &LineBuffer,
    page: &mut P,
) -> Result<(), Failed>
    ensures { Writes (P.told page.old) (P.told page.new) result (fields_text (tail_fields fault offset None ⊕ shown_fields (line_text (held_by line.now)))) }
{
    write_tail_fields(fault, offset, None, page)?;
    write_shown(line, page)
}

/// Writes the line of an end at a fault.
fn write_fault<P: Page>(
    fault: TailFault,
    offset: u64,
    line: &LineBuffer,
    page: &mut P,
) -> Result<(), Failed>
    ensures { Writes (P.told page.old) (P.told page.new) result (fault_line fault offset (line_text (held_by line.now))) }
{
    begin_line("ending", page)?;
    write_fault_shown(fault, offset, line, page)?;
    end_line(page)
}

/// Words of a line.
#[tactic(auto, unfolding(crate::specs::LastFields::unsure_words))]
fn unsure_words() -> &'static str
    ensures { result.now ≡ unsure_words }
{
    "frame goes on behind STOP"
}

/// Words of a line.
#[tactic(auto, unfolding(crate::specs::LastFields::loss_words))]
fn loss_words() -> &'static str
    ensures { result.now ≡ loss_words }
{
    "rest of a frame is lost"
}

/// Words of a line.
#[tactic(auto, unfolding(crate::specs::LastFields::mixed_words))]
fn mixed_words() -> &'static str
    ensures { result.now ≡ mixed_words }
{
    "frames may be mixed"
}

/// Writes that a frame goes on behind the STOP at this offset.
fn write_unsure_fields<P: Page>(offset: u64, page: &mut P) -> Result<(), Failed>
    ensures { Writes (P.told page.old) (P.told page.new) result (fields_text (how_fields (codes "unsure") ⊕ coded_fields (codes "U1") unsure_words ⊕ at_fields offset)) }
{
    write_how("unsure", page)?;
    write_coded("U1", unsure_words(), page)?;
    write_at(offset, page)
}

/// Writes an end behind which loaders disagree, and the line for people.
fn write_unsure_shown<P: Page>(offset: u64, line: &LineBuffer, page: &mut P) -> Result<(), Failed>
    ensures { Writes (P.told page.old) (P.told page.new) result (fields_text (how_fields (codes "unsure") ⊕ coded_fields (codes "U1") unsure_words ⊕ at_fields offset ⊕ shown_fields (line_text (held_by line.now)))) }
{
    write_unsure_fields(offset, page)?;
    write_shown(line, page)
}

/// Writes the line of an end behind which loaders disagree.
fn write_unsure<P: Page>(offset: u64, line: &LineBuffer, page: &mut P) -> Result<(), Failed>
    ensures { Writes (P.told page.old) (P.told page.new) result (unsure_line offset (line_text (held_by line.now))) }
{
    begin_line("ending", page)?;
    write_unsure_shown(offset, line, page)?;
    end_line(page)
}

/// Writes how a run ended, behind which STOP left `kept` bytes, with the line for people that the buffer holds.
#[tactic(auto, unfolding(crate::specs::LastFields::closing_with))]
fn write_closing<P: Page>(
    kept: u64,
    closing: Closing,
    line: &LineBuffer,
    page: &mut P,
) -> Result<(), Failed>
    ensures { Writes (P.told page.old) (P.told page.new) result (closing_with kept closing (line_text (held_by line.now))) }
{
    match closing {
        Closing::Stopped => write_stopped(kept, line, page),
        Closing::Refused(place, refusal) => write_refused(place, refusal, line, page),
        Closing::Fault(fault, offset) => write_fault(fault, offset, line, page),
    }
}

/// Writes how the lines end, with the line for people that the buffer holds.
#[tactic(auto, unfolding(crate::specs::LastFields::ending_with))]
fn write_ending_with<P: Page>(ending: Ending, line: &LineBuffer, page: &mut P) -> Result<(), Failed>
    ensures { Writes (P.told page.old) (P.told page.new) result (ending_with ending (line_text (held_by line.now))) }
{
    match ending {
        Ending::Closed(kept, closing) => write_closing(kept, closing, line, page),
        Ending::Unsure(offset) => write_unsure(offset, line, page),
    }
}

/// Writes how the lines end.
#[tactic(auto, unfolding(crate::specs::LastFields::ending_line))]
fn write_ending<P: Page>(ending: Ending, page: &mut P) -> Result<(), Failed>
    ensures { Writes (P.told page.old) (P.told page.new) result (ending_line ending) }
{
    let mut line = LineBuffer::new();
    let _ = write_ending_text(ending, &mut line);
    write_ending_with(ending, &line, page)
}

/// Writes how a part ended.
#[tactic(auto, unfolding(crate::specs::LastFields::closing_line))]
fn write_part_closing<P: Page>(closing: Closing, page: &mut P) -> Result<(), Failed>
    ensures { Writes (P.told page.old) (P.told page.new) result (closing_line closing) }
{
    let mut line = LineBuffer::new();
    let _ = write_ends_text(closing, &mut line);
    write_closing(0, closing, &line, page)
}

/// Writes what the bytes begin like, how many imports and calls there are, and how the reading ended, with its offset in the file.
pub fn write_end_lines<P: Page>(
    bytes: &[u8],
    course: Course,
    ending: Ending,
    page: &mut P,
) -> Result<(), Failed>
    ensures { Writes (P.told page.old) (P.told page.new) result (end_text bytes.now course.imports course.calls ending) }
{
    write_begins(bytes, page)?;
    write_counts(course, page)?;
    write_ending(ending, page)
}

/// Words of a line.
#[tactic(auto, unfolding(crate::specs::LastFields::leads_words))]
fn leads_words() -> &'static str
    ensures { result.now ≡ leads_words }
{
    "leads to the unpickler"
}

/// Words of a line.
#[tactic(auto, unfolding(crate::specs::LastFields::deep_words))]
fn deep_words() -> &'static str
    ensures { result.now ≡ deep_words }
{
    "is a tuple nested deeper than 100"
}

/// Writes what an object warns of.
fn write_warning_fields<P: Page>(
    about: &str,
    id: ObjId,
    words: &str,
    page: &mut P,
) -> Result<(), Failed>
    ensures { Writes (P.told page.old) (P.told page.new) result (fields_text (warning_fields about.now id words.now)) }
{
    write_text_field("about", about, page)?;
    write_id("object", id, page)?;
    write_text_field("words", words, page)
}

/// Writes that an import leads to the unpickler, and the line for people.
fn write_leads_fields<P: Page>(id: ObjId, page: &mut P) -> Result<(), Failed>
    ensures { Writes (P.told page.old) (P.told page.new) result (fields_text (warning_fields (codes "unpickler") id leads_words ⊕ shown_fields (line_text (warning_line id)))) }
{
    write_warning_fields("unpickler", id, leads_words(), page)?;
    write_leads_shown(id, page)
}

/// Writes the line of an import that leads to the unpickler.
fn write_leads_line<P: Page>(id: ObjId, page: &mut P) -> Result<(), Failed>
    ensures { Writes (P.told page.old) (P.told page.new) result (leads_line id) }
{
    begin_line("warning", page)?;
    write_leads_fields(id, page)?;
    end_line(page)
}

/// Writes that a tuple is nested too deep, and the line for people.
fn write_deep_fields<P: Page>(id: ObjId, page: &mut P) -> Result<(), Failed>
    ensures { Writes (P.told page.old) (P.told page.new) result (fields_text (warning_fields (codes "nesting") id deep_words ⊕ shown_fields (line_text (nested_line id)))) }
{
    write_warning_fields("nesting", id, deep_words(), page)?;
    write_deep_shown(id, page)
}

/// Writes the line of a tuple that is nested too deep.
fn write_deep_line<P: Page>(id: ObjId, page: &mut P) -> Result<(), Failed>
    ensures { Writes (P.told page.old) (P.told page.new) result (deep_line id) }
{
    begin_line("warning", page)?;
    write_deep_fields(id, page)?;
    end_line(page)
}

/// Writes that an import leads to the unpickler, if one does.
pub fn write_leads<P: Page>(leads: Option<ObjId>, page: &mut P) -> Result<(), Failed>
    ensures { Writes (P.told page.old) (P.told page.new) result (leads_text leads) }
{
    match leads {
        None => Ok(()),
        Some(id) => write_leads_line(id, page),
    }
}

/// Writes that a tuple is nested too deep, if one is.
fn write_deep<P: Page>(deep: Option<ObjId>, page: &mut P) -> Result<(), Failed>
    ensures { Writes (P.told page.old) (P.told page.new) result (deep_text deep) }
{
    match deep {
        None => Ok(()),
        Some(id) => write_deep_line(id, page),
    }
}

/// Writes of an import that leads to the unpickler, or else of a tuple that is nested too deep.
pub fn write_warnings<P: Page>(
    leads: Option<ObjId>,
    deep: Option<ObjId>,
    page: &mut P,
) -> Result<(), Failed>
    ensures { Writes (P.told page.old) (P.told page.new) result (warnings_text leads deep) }
{
    match leads {
        Some(id) => write_leads_line(id, page),
        None => write_deep(deep, page),
    }
}

/// What a loader does with frames.
#[tactic(auto, unfolding(crate::specs::LastFields::frames_word))]
fn frames_word(frames: Frames) -> &'static str
    ensures { result.now ≡ frames_word frames }
{
    match frames {
        Frames::Ignored => "ignored",
        Frames::Buffered => "buffered",
        Frames::Held => "held",
    }
}

/// Writes what a loader does with frames, and the line for people.
fn write_heading_fields<P: Page>(frames: Frames, page: &mut P) -> Result<(), Failed>
    ensures { Writes (P.told page.old) (P.told page.new) result (fields_text (field (codes "frames") (string (frames_word frames)) ⊕ shown_fields (line_text (header frames)))) }
{
    write_text_field("frames", frames_word(frames), page)?;
    write_heading_shown(frames, page)
}

/// Writes the line above what loaders may do.
pub fn write_heading<P: Page>(frames: Frames, page: &mut P) -> Result<(), Failed>
    ensures { Writes (P.told page.old) (P.told page.new) result (heading_line frames) }
{
    begin_line("heading", page)?;
    write_heading_fields(frames, page)?;
    end_line(page)
}

/// Writes how a part ended, and a line where an import leads to the unpickler.
fn write_closing_warned<P: Page>(
    closing: Closing,
    leads: Option<ObjId>,
    page: &mut P,
) -> Result<(), Failed>
    ensures { Writes (P.told page.old) (P.told page.new) result (closing_line closing ⧺ leads_text leads) }
{
    write_part_closing(closing, page)?;
    write_leads(leads, page)
}

/// Writes the last lines of a part.
pub fn write_part_end<P: Page>(
    course: Course,
    closing: Closing,
    leads: Option<ObjId>,
    page: &mut P,
) -> Result<(), Failed>
    ensures { Writes (P.told page.old) (P.told page.new) result (part_end course.imports course.calls closing leads) }
{
    write_counts(course, page)?;
    write_closing_warned(closing, leads, page)
}

/// Writes what loaders disagree about, and where.
fn write_coded_at<P: Page>(code: &str, words: &str, offset: u64, page: &mut P) -> Result<(), Failed>
    ensures { Writes (P.told page.old) (P.told page.new) result (fields_text (coded_fields code.now words.now ⊕ at_fields offset)) }
{
    write_coded(code, words, page)?;
    write_at(offset, page)
}

/// Writes where bytes of a frame are lost, and the line for people.
fn write_loss_fields<P: Page>(offset: u64, page: &mut P) -> Result<(), Failed>
    ensures { Writes (P.told page.old) (P.told page.new) result (fields_text (coded_fields (codes "U2") loss_words ⊕ at_fields offset ⊕ shown_fields (line_text (lost_line offset)))) }
{
    write_coded_at("U2", loss_words(), offset, page)?;
    write_loss_shown(offset, page)
}

/// Writes that bytes of a frame are lost at this offset.
pub fn write_loss<P: Page>(offset: u64, page: &mut P) -> Result<(), Failed>
    ensures { Writes (P.told page.old) (P.told page.new) result (loss_line offset) }
{
    begin_line("unsure", page)?;
    write_loss_fields(offset, page)?;
    end_line(page)
}

/// Writes from where frames may be mixed, and the line for people.
fn write_mixed_fields<P: Page>(offset: u64, page: &mut P) -> Result<(), Failed>
    ensures { Writes (P.told page.old) (P.told page.new) result (fields_text (coded_fields (codes "U3") mixed_words ⊕ at_fields offset ⊕ shown_fields (line_text (mixing_line offset)))) }
{
    write_coded_at("U3", mixed_words(), offset, page)?;
    write_mixed_shown(offset, page)
}

/// Writes that frames may be mixed from this offset on.
pub fn write_mixed<P: Page>(offset: u64, page: &mut P) -> Result<(), Failed>
    ensures { Writes (P.told page.old) (P.told page.new) result (mixed_line offset) }
{
    begin_line("unsure", page)?;
    write_mixed_fields(offset, page)?;
    end_line(page)
}

/// Writes which hole it is, and how many bytes there are.
fn write_hole_fields<P: Page>(hole: Hole, size: usize, page: &mut P) -> Result<(), Failed>
    ensures { Writes (P.told page.old) (P.told page.new) result (fields_text (hole_fields hole size)) }
{
    write_number_field("offset", hole.offset, page)?;
    write_number_field("size", hole.size, page)?;
    write_number_field("bytes", size as u64, page)
}

/// Writes the line of a hole that does not lie within so many bytes.
pub fn write_hole<P: Page>(hole: Hole, size: usize, page: &mut P) -> Result<(), Failed>
    ensures { Writes (P.told page.old) (P.told page.new) result (hole_line hole size) }
{
    begin_line("hole", page)?;
    write_hole_fields(hole, size, page)?;
    end_line(page)
}

/// Writes the last line of all, with the status.
pub fn write_status<P: Page>(status: u8, page: &mut P) -> Result<(), Failed>
    ensures { Writes (P.told page.old) (P.told page.new) result (status_line status) }
{
    begin_line("end", page)?;
    write_number_field("status", u64::from(status), page)?;
    end_line(page)
}
