//! Whether an input passes a list, in memory.

ghost use Rattle.std.specs.Prelude.{◌≡◌, ◌<◌, ◌↔◌, length, IfOk, Err};
ghost use Rattle.pickle_doc.specs.Document.{size_limit};
ghost use Rattle.pickle_script.specs.declared.stop.Stop.TheVariants as stops;
ghost use Rattle.library_answers.specs.Answer.{IsGateOf, IsGateLineOf, Fills};

use crate::fill::{ROOM, Written, number_of, put};
use archive_script::write_gate;
use gate_json::write_gate_line;
use pickle_doc::LIMIT;
use pickle_io::{Buffered, Sink, ToWrite};
use pickle_script::Stop;
use std::alloc::Global;

/// The text of whether an input passes a list, and its status.
fn text_of(alloc: Global, list: &[u8], bytes: &[u8]) -> Result<(Vec<u8>, u8), Stop>
    ensures whole { IfOk result (λ r. IsGateOf list.now bytes.now r.0.items r.1) }
    ensures large { (result ≡ Err stops.TooLarge) ↔ (size_limit < length bytes.now) }
{
    if bytes.len() > LIMIT {
        return Err(Stop::TooLarge);
    }
    let mut page = Buffered::with_room(alloc, ToWrite::new(Vec::new(alloc)), ROOM)?;
    let status = write_gate(alloc, list, bytes, &mut page)?;
    page.flush()?;
    Ok((page.into_inner().into_inner(), status))
}

/// Puts it at the start of `out`.
pub fn fill_gate(
    alloc: Global,
    list: &[u8],
    bytes: &[u8],
    out: &mut [u8],
    written: &mut Written,
) -> u8
    ensures { Fills (IsGateOf list.now bytes.now) bytes.now out.old out.new written.new result }
{
    match text_of(alloc, list, bytes) {
        Ok((text, status)) => put(text.as_slice(), status, out, written),
        Err(stop) => number_of(stop),
    }
}

/// The same as a line of JSON, and its status.
fn line_of(alloc: Global, list: &[u8], bytes: &[u8]) -> Result<(Vec<u8>, u8), Stop>
    ensures whole { IfOk result (λ r. IsGateLineOf list.now bytes.now r.0.items r.1) }
    ensures large { (result ≡ Err stops.TooLarge) ↔ (size_limit < length bytes.now) }
{
    if bytes.len() > LIMIT {
        return Err(Stop::TooLarge);
    }
    let mut page = Buffered::with_room(alloc, ToWrite::new(Vec::new(alloc)), ROOM)?;
    let status = write_gate_line(alloc, list, bytes, &mut page)?;
    page.flush()?;
    Ok((page.into_inner().into_inner(), status))
}

/// Puts it at the start of `out`.
pub fn fill_gate_line(
    alloc: Global,
    list: &[u8],
    bytes: &[u8],
    out: &mut [u8],
    written: &mut Written,
) -> u8
    ensures { Fills (IsGateLineOf list.now bytes.now) bytes.now out.old out.new written.new result }
{
    match line_of(alloc, list, bytes) {
        Ok((line, status)) => put(line.as_slice(), status, out, written),
        Err(stop) => number_of(stop),
    }
}
