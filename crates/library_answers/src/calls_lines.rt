//! The lines of JSON of what is imported and called by an input, in memory.

ghost use Rattle.std.specs.Prelude.{◌≡◌, ◌≤◌, [], true, length, IfOk};
ghost use Rattle.pickle_doc.specs.Document.{size_limit};
ghost use Rattle.pickle_calls.specs.Manner.{manner};
ghost use Rattle.json_script.specs.CallsLines.{CompletesFile};
ghost use Rattle.library_answers.specs.Asked.{detail_of, stand_from, holes_of, pickles_left};
ghost use Rattle.library_answers.specs.Answer.{IsCallsLinesOf, Fills, FillsOf};

use crate::asked::{self, GivenHole};
use crate::fill::{NO_TASK, ROOM, Written, number_of, put};
use calls_json::calls_lines;
use json_script::write_calls_lines;
use pickle_calls::Detail;
use pickle_doc::LIMIT;
use pickle_further::Pickles;
use pickle_io::{Buffered, Holes, Page, Sink, ToWrite};
use pickle_script::Stop;
use std::alloc::Global;

/// Writes the lines of an input without holes.
fn write_whole<S: Page>(
    alloc: Global,
    pickles: Pickles,
    detail: Detail,
    holes: &Holes,
    bytes: &[u8],
    page: &mut S,
) -> Result<u8, Stop>
    requires small { length bytes.now ≤ size_limit }
    requires none { holes.now ≡ [] }
    ensures { IfOk result (CompletesFile (manner detail holes.now) pickles bytes.now (S.told page.old) (S.told page.new)) }
{
    Ok(calls_lines(alloc, detail, holes, pickles, bytes, page)?)
}

/// Writes the lines of what is left of an input without its holes. Where it has none it is not copied.
fn write_left<S: Page>(
    alloc: Global,
    pickles: Pickles,
    detail: Detail,
    holes: &Holes,
    bytes: &[u8],
    page: &mut S,
) -> Result<u8, Stop>
    requires small { length bytes.now ≤ size_limit }
    ensures { IfOk result (CompletesFile (manner detail holes.now) pickles bytes.now (S.told page.old) (S.told page.new)) }
{
    match holes.as_slice() {
        [] => write_whole(alloc, pickles, detail, holes, bytes, page),
        _ => {
            let mut file = Vec::from_slice(alloc, bytes)?;
            let left = file.as_mut_slice();
            write_calls_lines(alloc, pickles, detail, holes, left, page)
        }
    }
}

/// The lines of what is left of an input, and their status.
fn lines_of(
    alloc: Global,
    pickles: Pickles,
    detail: Detail,
    given: &[GivenHole],
    bytes: &[u8],
) -> Result<(Vec<u8>, u8), Stop>
    requires order { stand_from 0 given.now ≡ true }
    requires small { length bytes.now ≤ size_limit }
    ensures { IfOk result (λ r. IsCallsLinesOf detail (holes_of given.now) pickles bytes.now r.0.items r.1) }
{
    let holes = asked::holes_of(alloc, given)?;
    let mut page = Buffered::with_room(alloc, ToWrite::new(Vec::new(alloc)), ROOM)?;
    let status = write_left(alloc, pickles, detail, &holes, bytes, &mut page)?;
    page.flush()?;
    Ok((page.into_inner().into_inner(), status))
}

/// Puts them at the start of `out`.
fn fill(
    alloc: Global,
    pickles: Pickles,
    detail: Detail,
    given: &[GivenHole],
    bytes: &[u8],
    out: &mut [u8],
    written: &mut Written,
) -> u8
    requires order { stand_from 0 given.now ≡ true }
    ensures { Fills (IsCallsLinesOf detail (holes_of given.now) pickles bytes.now) bytes.now out.old out.new written.new result }
{
    if bytes.len() > LIMIT {
        return number_of(Stop::TooLarge);
    }
    match lines_of(alloc, pickles, detail, given, bytes) {
        Ok((text, status)) => put(text.as_slice(), status, out, written),
        // (all else is that memory ran out)
        Err(_) => number_of(Stop::Memory),
    }
}

/// Puts the lines that the options and the holes ask for at the start of `out`.
pub fn fill_left(
    alloc: Global,
    options: u32,
    given: &[GivenHole],
    bytes: &[u8],
    out: &mut [u8],
    written: &mut Written,
) -> u8
    ensures { FillsOf (pickles_left options given.now) (λ p. IsCallsLinesOf (detail_of options)
        (holes_of given.now) p bytes.now) bytes.now out.old out.new written.new result }
{
    match asked::pickles_left(options, given) {
        Some(pickles) => {
            let detail = asked::detail_of(options);
            fill(alloc, pickles, detail, given, bytes, out, written)
        }
        None => NO_TASK,
    }
}
