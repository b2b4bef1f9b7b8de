//! The texts that are written of an input: its listing, the report of its objects, what it would import and call, whether it is in the
//! form that picklers write, and whether a loader of it reaches something.

ghost use Rattle.std.specs.Prelude.{true, false};
ghost use Rattle.pickle_script.specs.Output.{AnswersText};

use crate::stop::Stop;
use crate::texts::form::write_form;
use crate::texts::reach::write_reach;
use object_texts::report_of_bytes;
use pickle_calls::{Detail, ForPeople};
use pickle_doc::LIMIT;
use pickle_further::Pickles;
use pickle_io::{Holes, Page};
use pickle_list::list_bytes;
use pickle_reach::Granted;
use std::alloc::Global;
use whole_listing::list_whole;

/// What is written of an input.
#[derive(Clone, Copy, Debug, PartialEq, Eq)]
pub enum Text {
    /// Its opcodes, as a listing.
    Listing,
    /// The same, in which the text of each argument stands for its bytes alone: the assembler makes the same bytes of it.
    Whole,
    /// The report of the objects that they make: the lines of all objects, up to the end or to one that is refused, a line for each
    /// result, and a closing line where one is refused or the bytes have a fault.
    Objects,
    /// What they would import and call in this reading, whatever the mode: a line for each step that does so, how many imports and calls
    /// these are, and behind an end at which loaders part what those may do that go on, and what those may take that mix frames; arguments
    /// are cut, or shown in full.
    Calls(Pickles, Detail),
    /// Whether the first pickle, whatever the mode, is in the form that picklers write, with nothing behind it; else the first place at
    /// which it is not, and why.
    Form,
    /// Whether a loader of it reaches something that was given this besides, whatever the mode: the first opcode by which one does.
    Reach(Granted),
}

/// Writes a text of the pickle that the bytes are, or where `many` holds of several pickles that follow one another, and answers its
/// status: 1 where an item is refused or the bytes have a fault, else 0. Where `loose` holds frames are not looked at. What is imported and
/// called has a reading of its own and does not depend on `many` or `loose`; its status is 0 where the reading ends with the bytes, right
/// behind a STOP, else 1. Nor does the form, whose status is 0 where the pickle is in it, else 1; nor what is reached, whose status is 0
/// where that is nothing, else 1.
/// `Stop::TooLarge` where there are more bytes than `LIMIT`: nothing was written then. `Stop::Memory` where memory runs out,
/// `Stop::Write` where the sink fails: what was written then is a beginning of the text; where memory ran out, of a report, of the form
/// and of what is reached nothing.
/// The sink may still hold a part of what was written: the caller flushes it.
pub fn write_text<S: Page>(
    alloc: Global,
    text: Text,
    many: bool,
    loose: bool,
    bytes: &[u8],
    page: &mut S,
) -> Result<u8, Stop>
    ensures { AnswersText text many loose bytes.now S.told page.old page.new result }
{
    if bytes.len() > LIMIT {
        return Err(Stop::TooLarge);
    }
    match text {
        Text::Listing => Ok(list_bytes(alloc, many, loose, bytes, page)?),
        Text::Whole => Ok(list_whole(alloc, many, loose, bytes, page)?),
        Text::Objects => Ok(report_of_bytes(alloc, many, loose, bytes, page)?),
        Text::Form => Ok(write_form(alloc, bytes, page)?),
        Text::Reach(granted) => Ok(write_reach(alloc, granted, bytes, page)?),
        Text::Calls(pickles, detail) => {
            let holes = Holes::new(alloc);
            Ok(mixes_text::calls::<ForPeople, S>(alloc, detail, &holes, pickles, bytes, page)?)
        }
    }
}

/// Writes the listing of the pickle, as `write_text` does.
pub fn list<S: Page>(alloc: Global, bytes: &[u8], page: &mut S) -> Result<u8, Stop>
    ensures { AnswersText Text.Listing false false bytes.now S.told page.old page.new result }
{
    write_text(alloc, Text::Listing, false, false, bytes, page)
}

/// Writes the listing of several pickles, one after another, as `write_text` does.
pub fn list_many<S: Page>(alloc: Global, bytes: &[u8], page: &mut S) -> Result<u8, Stop>
    ensures { AnswersText Text.Listing true false bytes.now S.told page.old page.new result }
{
    write_text(alloc, Text::Listing, true, false, bytes, page)
}

/// Writes the report of the objects that the pickle makes, as `write_text` does.
pub fn objects<S: Page>(alloc: Global, bytes: &[u8], page: &mut S) -> Result<u8, Stop>
    ensures { AnswersText Text.Objects false false bytes.now S.told page.old page.new result }
{
    write_text(alloc, Text::Objects, false, false, bytes, page)
}

/// Writes the report of the objects that several pickles make, one after another, as `write_text` does.
pub fn objects_many<S: Page>(alloc: Global, bytes: &[u8], page: &mut S) -> Result<u8, Stop>
    ensures { AnswersText Text.Objects true false bytes.now S.told page.old page.new result }
{
    write_text(alloc, Text::Objects, true, false, bytes, page)
}
