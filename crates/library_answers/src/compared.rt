//! Whether two inputs make the same objects, in memory.

ghost use Rattle.std.specs.Prelude.{◌≡◌, ◌≢◌, ◌≤◌, length, IfOk, Err};
ghost use Rattle.pickle_doc.specs.Document.{size_limit};
ghost use Rattle.pickle_script.specs.declared.stop.Stop.TheVariants as stops;
ghost use Rattle.library_answers.specs.Answer.{IsComparisonOf, IsComparisonLineOf, longer, Fills};

use crate::fill::{ROOM, Written, number_of, put};
use pickle_doc::LIMIT;
use pickle_io::{Buffered, Sink, ToWrite};
use pickle_script::Stop;
use same_script::{write_comparison, write_comparison_line};
use std::alloc::Global;

/// The longer of two inputs.
fn longer<'a>(one: &'a [u8], other: &'a [u8]) -> &'a [u8]
    ensures { result.now ≡ longer one.now other.now }
{
    if one.len() < other.len() { other } else { one }
}

/// The line about two inputs, and its status.
fn text_of(alloc: Global, many: bool, one: &[u8], other: &[u8]) -> Result<(Vec<u8>, u8), Stop>
    requires one { length one.now ≤ size_limit }
    requires other { length other.now ≤ size_limit }
    ensures whole { IfOk result (λ r. IsComparisonOf many one.now other.now r.0.items r.1) }
    ensures fits { result ≢ Err stops.TooLarge }
{
    let mut page = Buffered::with_room(alloc, ToWrite::new(Vec::new(alloc)), ROOM)?;
    let status = write_comparison(alloc, many, one, other, &mut page)?;
    page.flush()?;
    Ok((page.into_inner().into_inner(), status))
}

/// Puts it at the start of `out`.
pub fn fill_comparison(
    alloc: Global,
    many: bool,
    one: &[u8],
    other: &[u8],
    out: &mut [u8],
    written: &mut Written,
) -> u8
    ensures { Fills (IsComparisonOf many one.now other.now) (longer one.now other.now) out.old out.new written.new result }
{
    if longer(one, other).len() > LIMIT {
        return number_of(Stop::TooLarge);
    }
    match text_of(alloc, many, one, other) {
        Ok((text, status)) => put(text.as_slice(), status, out, written),
        Err(stop) => number_of(stop),
    }
}

/// The same as a line of JSON, and its status.
fn line_of(alloc: Global, many: bool, one: &[u8], other: &[u8]) -> Result<(Vec<u8>, u8), Stop>
    requires one { length one.now ≤ size_limit }
    requires other { length other.now ≤ size_limit }
    ensures whole { IfOk result (λ r. IsComparisonLineOf many one.now other.now r.0.items r.1) }
    ensures fits { result ≢ Err stops.TooLarge }
{
    let mut page = Buffered::with_room(alloc, ToWrite::new(Vec::new(alloc)), ROOM)?;
    let status = write_comparison_line(alloc, many, one, other, &mut page)?;
    page.flush()?;
    Ok((page.into_inner().into_inner(), status))
}

/// Puts it at the start of `out`.
pub fn fill_comparison_line(
    alloc: Global,
    many: bool,
    one: &[u8],
    other: &[u8],
    out: &mut [u8],
    written: &mut Written,
) -> u8
    ensures { Fills (IsComparisonLineOf many one.now other.now) (longer one.now other.now) out.old out.new written.new result }
{
    if longer(one, other).len() > LIMIT {
        return number_of(Stop::TooLarge);
    }
    match line_of(alloc, many, one, other) {
        Ok((line, status)) => put(line.as_slice(), status, out, written),
        Err(stop) => number_of(stop),
    }
}
