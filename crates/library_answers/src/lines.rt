//! Lines of JSON about an input, in memory.

ghost use Rattle.std.specs.Prelude.{◌≡◌, ◌<◌, ◌↔◌, false, length, IfOk, Err};
ghost use Rattle.pickle_doc.specs.Document.{size_limit};
ghost use Rattle.pickle_script.specs.declared.stop.Stop.TheVariants as stops;
ghost use Rattle.json_script.specs.declared.lines.Lines.TheVariants as asked_lines;
ghost use Rattle.library_answers.specs.Asked.{is_many, is_loose, granted_of};
ghost use Rattle.library_answers.specs.Answer.{IsLinesOf, Fills, FillsIn, FillsOf};

use crate::asked;
use crate::fill::{NO_TASK, ROOM, Written, number_of, put};
use json_script::{Lines, write_lines};
use pickle_doc::LIMIT;
use pickle_io::{Buffered, Sink, ToWrite};
use pickle_script::Stop;
use std::alloc::Global;

/// These lines of JSON about an input, and their status.
fn lines_of(
    alloc: Global,
    lines: Lines,
    many: bool,
    loose: bool,
    bytes: &[u8],
) -> Result<(Vec<u8>, u8), Stop>
    ensures whole { IfOk result (λ r. IsLinesOf lines many loose bytes.now r.0.items r.1) }
    ensures large { (result ≡ Err stops.TooLarge) ↔ (size_limit < length bytes.now) }
{
    if bytes.len() > LIMIT {
        return Err(Stop::TooLarge);
    }
    let mut page = Buffered::with_room(alloc, ToWrite::new(Vec::new(alloc)), ROOM)?;
    let status = write_lines(alloc, lines, many, loose, bytes, &mut page)?;
    page.flush()?;
    Ok((page.into_inner().into_inner(), status))
}

/// Puts them at the start of `out`.
pub fn fill_lines(
    alloc: Global,
    lines: Lines,
    many: bool,
    loose: bool,
    bytes: &[u8],
    out: &mut [u8],
    written: &mut Written,
) -> u8
    ensures { Fills (IsLinesOf lines many loose bytes.now) bytes.now out.old out.new written.new result }
{
    match lines_of(alloc, lines, many, loose, bytes) {
        Ok((text, status)) => put(text.as_slice(), status, out, written),
        Err(stop) => number_of(stop),
    }
}

/// The same of an input that is read as the options say.
pub fn fill_lines_in(
    alloc: Global,
    lines: Lines,
    options: u32,
    bytes: &[u8],
    out: &mut [u8],
    written: &mut Written,
) -> u8
    ensures { FillsIn options (IsLinesOf lines (is_many options) (is_loose options) bytes.now) bytes.now out.old out.new written.new result }
{
    if !asked::are_modes(options) {
        return NO_TASK;
    }
    let (many, loose) = (asked::is_many(options), asked::is_loose(options));
    fill_lines(alloc, lines, many, loose, bytes, out, written)
}

/// The same of whether a loader of an input reaches something, which was given what the options say besides.
pub fn fill_reach_lines(
    alloc: Global,
    options: u32,
    bytes: &[u8],
    out: &mut [u8],
    written: &mut Written,
) -> u8
    ensures { FillsOf (granted_of options) (λ g. IsLinesOf (asked_lines.Reach g) false false bytes.now) bytes.now out.old out.new written.new result }
{
    match asked::granted_of(options) {
        Some(granted) => {
            let lines = Lines::Reach(granted);
            fill_lines(alloc, lines, false, false, bytes, out, written)
        }
        None => NO_TASK,
    }
}
