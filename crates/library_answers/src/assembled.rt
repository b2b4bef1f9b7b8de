//! The bytes that a text of opcodes is assembled to, in memory.

ghost use Rattle.std.specs.Prelude.{◌≡◌, ◌<◌, ◌↔◌, length, IfOk, Err};
ghost use Rattle.pickle_doc.specs.Document.{size_limit};
ghost use Rattle.pickle_script.specs.declared.stop.Stop.TheVariants as stops;
ghost use Rattle.library_answers.specs.Answer.{IsAssemblyOf, Fills};

use crate::fill::{ROOM, Written, number_of, put};
use assembler_script::write_assembled;
use pickle_doc::LIMIT;
use pickle_io::{Buffered, Sink, ToWrite};
use pickle_script::Stop;
use std::alloc::Global;

/// The bytes of a text, or the line of the first line that gives none, and the status.
fn text_of(alloc: Global, text: &[u8]) -> Result<(Vec<u8>, u8), Stop>
    ensures whole { IfOk result (λ r. IsAssemblyOf text.now r.0.items r.1) }
    ensures large { (result ≡ Err stops.TooLarge) ↔ (size_limit < length text.now) }
{
    if text.len() > LIMIT {
        return Err(Stop::TooLarge);
    }
    let mut page = Buffered::with_room(alloc, ToWrite::new(Vec::new(alloc)), ROOM)?;
    let status = write_assembled(alloc, text, &mut page)?;
    page.flush()?;
    Ok((page.into_inner().into_inner(), status))
}

/// Puts them at the start of `out`.
pub fn fill_assembled(alloc: Global, text: &[u8], out: &mut [u8], written: &mut Written) -> u8
    ensures { Fills (IsAssemblyOf text.now) text.now out.old out.new written.new result }
{
    match text_of(alloc, text) {
        Ok((bytes, status)) => put(bytes.as_slice(), status, out, written),
        Err(stop) => number_of(stop),
    }
}
