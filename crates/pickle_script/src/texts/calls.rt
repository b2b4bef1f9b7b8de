//! What is imported and called by what is left of a file without its holes.

ghost use Rattle.std.specs.Prelude.{◌≡◌, ◌≢◌, ◌≤◌, length, Some, None, Err, IfOk, IfErr};
ghost use Rattle.pickle_io.specs.Device.{Writes};
ghost use Rattle.pickle_doc.specs.Document.{size_limit};
ghost use Rattle.pickle_io.specs.Holes.{first_outside};
ghost use Rattle.pickle_calls.specs.Manner.{manner};
ghost use Rattle.pickle_script.specs.Output.{hole_text, outside_words, outside_line, CompletesFile, StopsFile, AnswersCalls};

use crate::stop::Stop;
use pickle_calls::{Detail, ForPeople};
use pickle_doc::LIMIT;
use pickle_further::Pickles;
use pickle_io::{Failed, Hole, Holes, Page, write_all, write_decimal};
use std::alloc::Global;

/// Writes a hole.
fn write_hole<S: Page>(hole: Hole, page: &mut S) -> Result<(), Failed>
    ensures { Writes (S.told page.old) (S.told page.new) result (hole_text hole) }
{
    write_all(page, b"hole ")?;
    write_decimal(hole.offset, page)?;
    write_all(page, b":")?;
    write_decimal(hole.size, page)
}

/// Words of a line.
#[tactic(auto, unfolding(crate::specs::Output::outside_words))]
fn outside_words() -> &'static str
    ensures { result.now ≡ outside_words }
{
    " ends behind the last of "
}

/// Writes the line of a hole that does not lie within so many bytes.
fn write_outside<S: Page>(hole: Hole, size: usize, page: &mut S) -> Result<(), Failed>
    ensures { Writes (S.told page.old) (S.told page.new) result (outside_line hole size) }
{
    write_all(page, b"refused: ")?;
    write_hole(hole, page)?;
    write_all(page, outside_words().as_bytes())?;
    write_decimal(size as u64, page)?;
    write_all(page, b" bytes")?;
    write_all(page, b"\n")
}

/// Answers that a hole does not lie within the bytes.
fn answer_outside<S: Page>(
    pickles: Pickles,
    detail: Detail,
    holes: &Holes,
    bytes: &[u8],
    hole: Hole,
    page: &mut S,
) -> Result<u8, Stop>
    requires { first_outside (length bytes.now) holes.now ≡ Some hole }
    ensures ok { IfOk result (CompletesFile (manner detail holes.now) pickles bytes.now (S.told page.old) (S.told page.new)) }
    ensures err { IfErr result (StopsFile (manner detail holes.now) pickles bytes.now (S.told page.old) (S.told page.new)) }
    ensures no_other { result ≢ Err Stop.TooLarge }
{
    write_outside(hole, bytes.len(), page)?;
    Ok(1)
}

/// Writes the text of what is left of the bytes, which are no more than the limit.
fn write_left<S: Page>(
    alloc: Global,
    pickles: Pickles,
    detail: Detail,
    holes: &Holes,
    bytes: &mut [u8],
    page: &mut S,
) -> Result<u8, Stop>
    requires small { length bytes.old ≤ size_limit }
    requires within { first_outside (length bytes.old) holes.now ≡ None }
    ensures ok { IfOk result (CompletesFile (manner detail holes.now) pickles bytes.old (S.told page.old) (S.told page.new)) }
    ensures err { IfErr result (StopsFile (manner detail holes.now) pickles bytes.old (S.told page.old) (S.told page.new)) }
    ensures no_other { result ≢ Err Stop.TooLarge }
{
    let count = holes.cut(bytes);
    let left = bytes.split_at(count).0;
    Ok(mixes_text::calls::<ForPeople, S>(alloc, detail, holes, pickles, left, page)?)
}

/// Writes what the pickles would import and call that are left of the bytes of a file without these holes, in this reading, with arguments
/// cut or in full, and answers its status; the offsets are those in the file. Where a hole ends behind the last byte, a line that says so is
/// all that is written, and the status is 1. The bytes are moved, and are not what they were.
///
/// The stops are those of `write_text`, and the sink is to be flushed as there.
pub fn calls_of_file<S: Page>(
    alloc: Global,
    pickles: Pickles,
    detail: Detail,
    holes: &Holes,
    bytes: &mut [u8],
    page: &mut S,
) -> Result<u8, Stop>
    ensures { AnswersCalls (manner detail holes.now) pickles bytes.old S.told page.old page.new result }
{
    if bytes.len() > LIMIT {
        return Err(Stop::TooLarge);
    }
    match holes.first_outside(bytes.len()) {
        Some(hole) => answer_outside(pickles, detail, holes, bytes, hole, page),
        None => write_left(alloc, pickles, detail, holes, bytes, page),
    }
}
