//! What a pickle would import and call, told to programs.

ghost use Rattle.std.specs.Prelude.{◌≤◌, length, IfOk, IfErr};
ghost use Rattle.pickle_doc.specs.Document.{size_limit};
ghost use Rattle.pickle_calls.specs.Manner.{manner};
ghost use Rattle.calls_json.specs.Told.{for_programs, words_for_programs, CompletesLines, CutsLines};
ghost use Rattle.calls_json.specs.MixFields.{mixes_for_programs};

use crate::event::write_event_line;
use crate::last::{
    write_end_lines, write_heading, write_leads, write_loss, write_mixed, write_part_end,
    write_status, write_warnings,
};
use crate::mixes::{write_above, write_below, write_taken, write_too_many};
use mixes_text::MixWorder;
use pickle_calls::{Course, Detail, Ending, Event, Naming, Teller};
use pickle_further::{Pickles, Worder};
use pickle_io::{Failed, Holes, Page};
use pickle_lenient::Frames;
use pickle_machine::Inspect;
use pickle_ops::{ObjId, Op};
use pickle_text::{Closing, TextStop};
use std::alloc::Global;

/// Lines of JSON for programs.
pub struct ForPrograms;

impl Teller for ForPrograms {
    ghost telling = { for_programs };

    #[inline(always)]
    fn write_step<M: Inspect, S: Page>(
        holes: &Holes,
        offset: u64,
        naming: Naming,
        machine: &M,
        event: Option<Event>,
        page: &mut S,
    ) -> Result<(), Failed> {
        write_event_line(holes, offset, naming, machine, event, page)
    }

    fn write_last<S: Page>(
        bytes: &[u8],
        course: Course,
        ending: Ending,
        page: &mut S,
    ) -> Result<(), Failed> {
        write_end_lines(bytes, course, ending, page)
    }
}

impl Worder for ForPrograms {
    ghost words = { words_for_programs };

    fn write_heading<S: Page>(frames: Frames, page: &mut S) -> Result<(), Failed> {
        write_heading(frames, page)
    }

    fn write_closed<S: Page>(
        course: Course,
        closing: Closing,
        leads: Option<ObjId>,
        page: &mut S,
    ) -> Result<(), Failed> {
        write_part_end(course, closing, leads, page)
    }

    fn write_leading<S: Page>(leads: Option<ObjId>, page: &mut S) -> Result<(), Failed> {
        write_leads(leads, page)
    }

    fn write_warning<S: Page>(
        leads: Option<ObjId>,
        deep: Option<ObjId>,
        page: &mut S,
    ) -> Result<(), Failed> {
        write_warnings(leads, deep, page)
    }

    fn write_losing<S: Page>(offset: u64, page: &mut S) -> Result<(), Failed> {
        write_loss(offset, page)
    }

    fn write_mixing<S: Page>(offset: u64, page: &mut S) -> Result<(), Failed> {
        write_mixed(offset, page)
    }
}

impl MixWorder for ForPrograms {
    ghost mixes = { mixes_for_programs };

    fn write_above<S: Page>(page: &mut S) -> Result<(), Failed> {
        write_above(page)
    }

    fn write_taken<S: Page>(offset: u64, op: &Op, page: &mut S) -> Result<(), Failed> {
        write_taken(offset, op, page)
    }

    fn write_below<S: Page>(count: u64, page: &mut S) -> Result<(), Failed> {
        write_below(count, page)
    }

    fn write_too_many<S: Page>(page: &mut S) -> Result<(), Failed> {
        write_too_many(page)
    }
}

/// Writes what the pickles of the bytes would import and call as lines of JSON, in the order in which the text for people has it, and a last
/// line with the status, which it answers: that of this text. The bytes are what is left of a file without these holes, and the offsets
/// that are shown are those in the file. There are to be no more bytes than the limit.
///
/// `Memory` (M) where memory runs out, `Failed` where the sink fails; what was written then is a beginning of the lines.
pub fn calls_lines<S: Page>(
    alloc: Global,
    detail: Detail,
    holes: &Holes,
    pickles: Pickles,
    bytes: &[u8],
    page: &mut S,
) -> Result<u8, TextStop>
    requires { length bytes.now ≤ size_limit }
    ensures ok { IfOk result (CompletesLines (manner detail holes.now) pickles bytes.now (S.told page.old) (S.told page.new)) }
    ensures err { IfErr result (CutsLines (manner detail holes.now) pickles bytes.now (S.told page.old) (S.told page.new)) }
{
    let status = mixes_text::calls::<ForPrograms, S>(alloc, detail, holes, pickles, bytes, page)?;
    write_status(status, page)?;
    Ok(status)
}
