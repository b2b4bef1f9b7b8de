//! The answers of a conversation, in memory.

ghost use Rattle.std.specs.Prelude.{◌≡◌, ◌<◌, ◌↔◌, ℕ, List, [], length, IfOk, Err, Some};
ghost use Rattle.pickle_doc.specs.Document.{size_limit};
ghost use Rattle.pickle_session.specs.Opening.{IsOpenedIn};
ghost use Rattle.pickle_script.specs.Conversation.{Finishes};
ghost use Rattle.pickle_script.specs.declared.stop.Stop.TheVariants as stops;
ghost use Rattle.library_answers.specs.Asked.{is_many, is_loose};
ghost use Rattle.library_answers.specs.Answer.{took, IsTalkOf, Fills, FillsIn};

use crate::asked;
use crate::fill::{NO_TASK, ROOM, Written, number_of, put};
use pickle_doc::LIMIT;
use pickle_io::{Buffered, FromRead, Sink, Source, ToWrite};
use pickle_script::{Stop, converse};
use pickle_session::{Past, Session, Whole};
use std::alloc::Global;

/// The answers to the lines of a source, and the status.
fn answers<P: Past, S: Source>(
    alloc: Global,
    session: &mut Session<P>,
    source: &mut S,
) -> Result<(Vec<u8>, u8), Stop>
    ensures { IfOk result (λ r. Finishes session.old session.new r.1 (S.remaining source.old) (S.remaining source.new) (took []) (took r.0.items)) }
{
    let mut page = Buffered::with_room(alloc, ToWrite::new(Vec::new(alloc)), ROOM)?;
    let status = converse(alloc, session, source, &mut page)?;
    page.flush()?;
    Ok((page.into_inner().into_inner(), status))
}

/// The answers to the lines of a script, and the status.
fn answers_to<P: Past>(
    alloc: Global,
    session: &mut Session<P>,
    script: &[u8],
) -> Result<(Vec<u8>, u8), Stop>
    ensures { IfOk result (λ r. (rest : List ℕ) × Finishes session.old session.new r.1 (Some script.now) (Some rest) (took []) (took r.0.items)) }
{
    let mut source = FromRead::new(script);
    answers(alloc, session, &mut source)
}

/// A session of an input, which keeps all records.
fn open(alloc: Global, many: bool, loose: bool, bytes: &[u8]) -> Result<Session<Whole>, Stop>
    ensures opened { IfOk result (IsOpenedIn many loose bytes.now) }
    ensures large { (result ≡ Err stops.TooLarge) ↔ (size_limit < length bytes.now) }
{
    let past = Whole::new(alloc);
    Ok(Session::open_in(alloc, past, many, loose, bytes)?)
}

/// The answers to the lines of a script, in a session of an input, and the status.
fn talk_of(
    alloc: Global,
    many: bool,
    loose: bool,
    bytes: &[u8],
    script: &[u8],
) -> Result<(Vec<u8>, u8), Stop>
    ensures { IfOk result (λ r. IsTalkOf many loose bytes.now script.now r.0.items r.1) }
{
    let mut session = open(alloc, many, loose, bytes)?;
    answers_to(alloc, &mut session, script)
}

/// Puts the answers at the start of `out`.
pub fn fill_talk(
    alloc: Global,
    many: bool,
    loose: bool,
    bytes: &[u8],
    script: &[u8],
    out: &mut [u8],
    written: &mut Written,
) -> u8
    ensures { Fills (IsTalkOf many loose bytes.now script.now) bytes.now out.old out.new written.new result }
{
    if bytes.len() > LIMIT {
        return number_of(Stop::TooLarge);
    }
    match talk_of(alloc, many, loose, bytes, script) {
        Ok((text, status)) => put(text.as_slice(), status, out, written),
        // (all else is that memory ran out)
        Err(_) => number_of(Stop::Memory),
    }
}

/// The same in a session of an input that is read as the options say.
pub fn fill_talk_in(
    alloc: Global,
    options: u32,
    bytes: &[u8],
    script: &[u8],
    out: &mut [u8],
    written: &mut Written,
) -> u8
    ensures { FillsIn options (IsTalkOf (is_many options) (is_loose options) bytes.now script.now) bytes.now out.old out.new written.new result }
{
    if !asked::are_modes(options) {
        return NO_TASK;
    }
    let (many, loose) = (asked::is_many(options), asked::is_loose(options));
    fill_talk(alloc, many, loose, bytes, script, out, written)
}
