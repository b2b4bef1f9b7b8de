//! The texts of an input, in memory.

ghost use Rattle.std.specs.Prelude.{◌≡◌, ◌<◌, ◌↔◌, [], true, false, length, IfOk, Err};
ghost use Rattle.pickle_doc.specs.Document.{size_limit};
ghost use Rattle.pickle_calls.specs.Manner.{manner};
ghost use Rattle.pickle_script.specs.Output.{CompletesFile};
ghost use Rattle.pickle_script.specs.declared.stop.Stop.TheVariants as stops;
ghost use Rattle.pickle_script.specs.declared.texts.written.Text.TheVariants as asked_text;
ghost use Rattle.library_answers.specs.Asked.{is_many, is_loose, detail_of, granted_of, stand_from, holes_of, pickles_left};
ghost use Rattle.library_answers.specs.Answer.{IsTextOf, IsCallsOf, Fills, FillsIn, FillsOf};

use crate::asked::{self, GivenHole};
use crate::fill::{NO_TASK, ROOM, Written, number_of, put};
use pickle_calls::Detail;
use pickle_doc::LIMIT;
use pickle_further::Pickles;
use pickle_io::{Buffered, Holes, Page, Sink, ToWrite};
use pickle_script::{Stop, Text, calls_of_file, write_text};
use std::alloc::Global;

/// The text of an input, and its status.
fn text_of(
    alloc: Global,
    text: Text,
    many: bool,
    loose: bool,
    bytes: &[u8],
) -> Result<(Vec<u8>, u8), Stop>
    ensures whole { IfOk result (λ r. IsTextOf text many loose bytes.now r.0.items r.1) }
    ensures large { (result ≡ Err stops.TooLarge) ↔ (size_limit < length bytes.now) }
{
    if bytes.len() > LIMIT {
        return Err(Stop::TooLarge);
    }
    let mut page = Buffered::with_room(alloc, ToWrite::new(Vec::new(alloc)), ROOM)?;
    let status = write_text(alloc, text, many, loose, bytes, &mut page)?;
    page.flush()?;
    Ok((page.into_inner().into_inner(), status))
}

/// Puts the text of an input at the start of `out`.
pub fn fill(
    alloc: Global,
    text: Text,
    many: bool,
    loose: bool,
    bytes: &[u8],
    out: &mut [u8],
    written: &mut Written,
) -> u8
    ensures { Fills (IsTextOf text many loose bytes.now) bytes.now out.old out.new written.new result }
{
    match text_of(alloc, text, many, loose, bytes) {
        Ok((text, status)) => put(text.as_slice(), status, out, written),
        Err(stop) => number_of(stop),
    }
}

/// Puts the text of an input that is read as the options say at the start of `out`.
pub fn fill_in(
    alloc: Global,
    text: Text,
    options: u32,
    bytes: &[u8],
    out: &mut [u8],
    written: &mut Written,
) -> u8
    ensures { FillsIn options (IsTextOf text (is_many options) (is_loose options) bytes.now) bytes.now out.old out.new written.new result }
{
    if !asked::are_modes(options) {
        return NO_TASK;
    }
    let (many, loose) = (asked::is_many(options), asked::is_loose(options));
    fill(alloc, text, many, loose, bytes, out, written)
}

/// Puts whether a loader of an input reaches something, which was given what the options say besides, at the start of `out`.
pub fn fill_reach(
    alloc: Global,
    options: u32,
    bytes: &[u8],
    out: &mut [u8],
    written: &mut Written,
) -> u8
    ensures { FillsOf (granted_of options) (λ g. IsTextOf (asked_text.Reach g) false false bytes.now) bytes.now out.old out.new written.new result }
{
    match asked::granted_of(options) {
        Some(granted) => fill(
            alloc,
            Text::Reach(granted),
            false,
            false,
            bytes,
            out,
            written,
        ),
        None => NO_TASK,
    }
}

/// Writes what is imported and called by an input without holes.
fn write_whole<S: Page>(
    alloc: Global,
    pickles: Pickles,
    detail: Detail,
    bytes: &[u8],
    page: &mut S,
) -> Result<u8, Stop>
    ensures { IfOk result (CompletesFile (manner detail []) pickles bytes.now (S.told page.old) (S.told page.new)) }
{
    let text = Text::Calls(pickles, detail);
    write_text(alloc, text, false, false, bytes, page)
}

/// Writes what is imported and called by what is left of an input without its holes. Where it has none it is not copied.
fn write_left<S: Page>(
    alloc: Global,
    pickles: Pickles,
    detail: Detail,
    holes: &Holes,
    bytes: &[u8],
    page: &mut S,
) -> Result<u8, Stop>
    ensures { IfOk result (CompletesFile (manner detail holes.now) pickles bytes.now (S.told page.old) (S.told page.new)) }
{
    match holes.as_slice() {
        [] => write_whole(alloc, pickles, detail, bytes, page),
        _ => {
            let mut file = Vec::from_slice(alloc, bytes)?;
            let left = file.as_mut_slice();
            calls_of_file(alloc, pickles, detail, holes, left, page)
        }
    }
}

/// What is imported and called by what is left of an input, and the status.
fn calls_of(
    alloc: Global,
    pickles: Pickles,
    detail: Detail,
    given: &[GivenHole],
    bytes: &[u8],
) -> Result<(Vec<u8>, u8), Stop>
    requires order { stand_from 0 given.now ≡ true }
    ensures { IfOk result (λ r. IsCallsOf detail (holes_of given.now) pickles bytes.now r.0.items r.1) }
{
    let holes = asked::holes_of(alloc, given)?;
    let mut page = Buffered::with_room(alloc, ToWrite::new(Vec::new(alloc)), ROOM)?;
    let status = write_left(alloc, pickles, detail, &holes, bytes, &mut page)?;
    page.flush()?;
    Ok((page.into_inner().into_inner(), status))
}

/// Puts it at the start of `out`.
fn fill_calls(
    alloc: Global,
    pickles: Pickles,
    detail: Detail,
    given: &[GivenHole],
    bytes: &[u8],
    out: &mut [u8],
    written: &mut Written,
) -> u8
    requires order { stand_from 0 given.now ≡ true }
    ensures { Fills (IsCallsOf detail (holes_of given.now) pickles bytes.now) bytes.now out.old out.new written.new result }
{
    if bytes.len() > LIMIT {
        return number_of(Stop::TooLarge);
    }
    match calls_of(alloc, pickles, detail, given, bytes) {
        Ok((text, status)) => put(text.as_slice(), status, out, written),
        // (all else is that memory ran out)
        Err(_) => number_of(Stop::Memory),
    }
}

/// The same of what the options and the holes ask for.
pub fn fill_left(
    alloc: Global,
    options: u32,
    given: &[GivenHole],
    bytes: &[u8],
    out: &mut [u8],
    written: &mut Written,
) -> u8
    ensures { FillsOf (pickles_left options given.now) (λ p. IsCallsOf (detail_of options)
        (holes_of given.now) p bytes.now) bytes.now out.old out.new written.new result }
{
    match asked::pickles_left(options, given) {
        Some(pickles) => {
            let detail = asked::detail_of(options);
            fill_calls(alloc, pickles, detail, given, bytes, out, written)
        }
        None => NO_TASK,
    }
}
