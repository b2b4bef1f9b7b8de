//! The members of an input, in memory.

ghost use Rattle.std.specs.Prelude.{◌≡◌, ◌<◌, ◌↔◌, length, IfOk, Err};
ghost use Rattle.pickle_doc.specs.Document.{size_limit};
ghost use Rattle.pickle_script.specs.declared.stop.Stop.TheVariants as stops;
ghost use Rattle.library_answers.specs.Answer.{IsMembersOf, IsMembersLinesOf, Fills};

use crate::fill::{ROOM, Written, number_of, put};
use archive_script::write_members;
use gate_json::write_members_lines;
use pickle_doc::LIMIT;
use pickle_io::{Buffered, Sink, ToWrite};
use pickle_script::Stop;
use std::alloc::Global;

/// The text of the members of an input, and its status.
fn text_of(alloc: Global, bytes: &[u8]) -> Result<(Vec<u8>, u8), Stop>
    ensures whole { IfOk result (λ r. IsMembersOf bytes.now r.0.items r.1) }
    ensures large { (result ≡ Err stops.TooLarge) ↔ (size_limit < length bytes.now) }
{
    if bytes.len() > LIMIT {
        return Err(Stop::TooLarge);
    }
    let mut page = Buffered::with_room(alloc, ToWrite::new(Vec::new(alloc)), ROOM)?;
    let status = write_members(alloc, bytes, &mut page)?;
    page.flush()?;
    Ok((page.into_inner().into_inner(), status))
}

/// Puts it at the start of `out`.
pub fn fill_members(alloc: Global, bytes: &[u8], out: &mut [u8], written: &mut Written) -> u8
    ensures { Fills (IsMembersOf bytes.now) bytes.now out.old out.new written.new result }
{
    match text_of(alloc, bytes) {
        Ok((text, status)) => put(text.as_slice(), status, out, written),
        Err(stop) => number_of(stop),
    }
}

/// The same as lines of JSON, and their status.
fn lines_of(alloc: Global, bytes: &[u8]) -> Result<(Vec<u8>, u8), Stop>
    ensures whole { IfOk result (λ r. IsMembersLinesOf bytes.now r.0.items r.1) }
    ensures large { (result ≡ Err stops.TooLarge) ↔ (size_limit < length bytes.now) }
{
    if bytes.len() > LIMIT {
        return Err(Stop::TooLarge);
    }
    let mut page = Buffered::with_room(alloc, ToWrite::new(Vec::new(alloc)), ROOM)?;
    let status = write_members_lines(alloc, bytes, &mut page)?;
    page.flush()?;
    Ok((page.into_inner().into_inner(), status))
}

/// Puts them at the start of `out`.
pub fn fill_members_lines(alloc: Global, bytes: &[u8], out: &mut [u8], written: &mut Written) -> u8
    ensures { Fills (IsMembersLinesOf bytes.now) bytes.now out.old out.new written.new result }
{
    match lines_of(alloc, bytes) {
        Ok((lines, status)) => put(lines.as_slice(), status, out, written),
        Err(stop) => number_of(stop),
    }
}
