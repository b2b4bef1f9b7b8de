//! What is imported and called by what is left of a file without its holes, as JSON Lines.

ghost use Rattle.std.specs.Prelude.{◌≡◌, ◌≢◌, ◌≤◌, length, Some, None, Err, IfOk, IfErr};
ghost use Rattle.pickle_doc.specs.Document.{size_limit};
ghost use Rattle.pickle_io.specs.Device.{Writes};
ghost use Rattle.pickle_io.specs.Holes.{first_outside};
ghost use Rattle.pickle_io.specs.Text.{◌⧺◌};
ghost use Rattle.pickle_calls.specs.Manner.{manner};
ghost use Rattle.calls_json.specs.LastFields.{hole_line, status_line};
ghost use Rattle.json_script.specs.CallsLines.{CompletesFile, StopsFile, AnswersCallsLines};

use calls_json::{calls_lines, write_hole, write_status};
use pickle_calls::Detail;
use pickle_doc::LIMIT;
use pickle_further::Pickles;
use pickle_io::{Failed, Hole, Holes, Page};
use pickle_script::Stop;
use std::alloc::Global;

/// Writes the lines where a hole does not lie within so many bytes.
fn write_outside<S: Page>(hole: Hole, size: usize, page: &mut S) -> Result<(), Failed>
    ensures { Writes (S.told page.old) (S.told page.new) result (hole_line hole size ⧺ status_line 1) }
{
    write_hole(hole, size, page)?;
    write_status(1, page)
}

/// Answers that a hole does not lie within the bytes.
fn answer_outside<S: Page>(
    pickles: Pickles,
    detail: Detail,
    holes: &Holes,
    bytes: &[u8],
    hole: Hole,
    page: &mut S,
) -> Result<u8, Stop>
    requires { first_outside (length bytes.now) holes.now ≡ Some hole }
    ensures ok { IfOk result (CompletesFile (manner detail holes.now) pickles bytes.now (S.told page.old) (S.told page.new)) }
    ensures err { IfErr result (StopsFile (manner detail holes.now) pickles bytes.now (S.told page.old) (S.told page.new)) }
    ensures no_other { result ≢ Err Stop.TooLarge }
{
    write_outside(hole, bytes.len(), page)?;
    Ok(1)
}

/// Writes the lines of what is left of the bytes, which are no more than the limit.
fn write_left<S: Page>(
    alloc: Global,
    pickles: Pickles,
    detail: Detail,
    holes: &Holes,
    bytes: &mut [u8],
    page: &mut S,
) -> Result<u8, Stop>
    requires small { length bytes.old ≤ size_limit }
    requires within { first_outside (length bytes.old) holes.now ≡ None }
    ensures ok { IfOk result (CompletesFile (manner detail holes.now) pickles bytes.old (S.told page.old) (S.told page.new)) }
    ensures err { IfErr result (StopsFile (manner detail holes.now) pickles bytes.old (S.told page.old) (S.told page.new)) }
    ensures no_other { result ≢ Err Stop.TooLarge }
{
    let count = holes.cut(bytes);
    let left = bytes.split_at(count).0;
    Ok(calls_lines(alloc, detail, holes, pickles, left, page)?)
}

/// Writes what the pickles would import and call that are left of the bytes of a file without these holes, in this reading, with arguments
/// cut or in full, as lines of JSON, and answers the status, which the last line has; the offsets are those in the file. Where a hole ends
/// behind the last byte, a line that says so comes before the last one, and the status is 1. The bytes are moved, and are not what they were.
///
/// `Stop::TooLarge` where there are more bytes than `LIMIT`: nothing was written then. `Stop::Memory` where memory runs out, `Stop::Write`
/// where the sink fails: what was written then is a beginning of the lines. The caller flushes the sink, which may still hold a part of it.
pub fn write_calls_lines<S: Page>(
    alloc: Global,
    pickles: Pickles,
    detail: Detail,
    holes: &Holes,
    bytes: &mut [u8],
    page: &mut S,
) -> Result<u8, Stop>
    ensures { AnswersCallsLines (manner detail holes.now) pickles bytes.old S.told page.old page.new result }
{
    if bytes.len() > LIMIT {
        return Err(Stop::TooLarge);
    }
    match holes.first_outside(bytes.len()) {
        Some(hole) => answer_outside(pickles, detail, holes, bytes, hole, page),
        None => write_left(alloc, pickles, detail, holes, bytes, page),
    }
}
