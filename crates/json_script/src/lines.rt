//! The lines of JSON that are written of an input.

ghost use Rattle.json_script.specs.Answer.{AnswersLines};

use crate::form::write_form;
use crate::reach::write_reach;
use objects_json::objects_lines;
use pickle_doc::LIMIT;
use pickle_io::Page;
use pickle_json::list_bytes;
use pickle_reach::Granted;
use pickle_script::Stop;
use std::alloc::Global;

/// What is written of an input as lines of JSON.
#[derive(Clone, Copy, Debug, PartialEq, Eq)]
pub enum Lines {
    /// Its opcodes, as a listing: a line for each.
    Listing,
    /// The objects that they make: a line for each.
    Objects,
    /// Whether the first pickle, whatever the mode, is in the form that picklers write, with nothing behind it: one line.
    Form,
    /// Whether a loader of it reaches something that was given this besides, whatever the mode: one line.
    Reach(Granted),
}

/// Writes lines of JSON about the pickle that the bytes are, or where `many` holds about several pickles that follow one another, and answers
/// the status that the text for people has. Where `loose` holds frames are not looked at.
///
/// `Stop::TooLarge` where there are more bytes than `LIMIT`: nothing was written then. `Stop::Memory` where memory runs out, `Stop::Write`
/// where the sink fails: what was written then is a beginning of the lines; where memory ran out, of objects, of the form
/// and of what is reached nothing. The caller flushes the sink, which may still hold a part of it.
pub fn write_lines<S: Page>(
    alloc: Global,
    lines: Lines,
    many: bool,
    loose: bool,
    bytes: &[u8],
    page: &mut S,
) -> Result<u8, Stop>
    ensures { AnswersLines lines many loose bytes.now S.told page.old page.new result }
{
    if bytes.len() > LIMIT {
        return Err(Stop::TooLarge);
    }
    match lines {
        Lines::Listing => Ok(list_bytes(alloc, many, loose, bytes, page)?),
        Lines::Objects => Ok(objects_lines(alloc, many, loose, bytes, page)?),
        Lines::Form => Ok(write_form(alloc, bytes, page)?),
        Lines::Reach(granted) => Ok(write_reach(alloc, granted, bytes, page)?),
    }
}
