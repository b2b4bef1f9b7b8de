//! What a pickle does, one thing after another.

ghost use Rattle.std.specs.Prelude.{◌≡◌, ◌≤◌, length, IfOk};
ghost use Rattle.pickle_io.specs.Device.{Writes};
ghost use Rattle.pickle_doc.specs.Document.{size_limit};
ghost use Rattle.same_objects.specs.Acts.{pair_line, filling_word, made_line, act_line, by_numbers, Acts, WroteActs};

use pickle_calls::{Course, Detail, Ending, Event, Naming, Teller, run_items};
use pickle_doc::Items;
use pickle_io::{Buffered, Failed, Holes, Page, Sink, ToWrite, write_all, write_decimal};
use pickle_machine::{Inspect, Slim};
use pickle_ops::{Filling, ObjId};
use std::alloc::{AllocError, Global};

/// Writes two numbers behind a word.
fn write_pair<S: Page>(word: &str, first: u64, second: u64, page: &mut S) -> Result<(), Failed>
    ensures { Writes (S.told page.old) (S.told page.new) result (pair_line word.now first second) }
{
    write_all(page, word.as_bytes())?;
    write_decimal(first, page)?;
    write_all(page, b" ")?;
    write_decimal(second, page)?;
    write_all(page, b"\n")
}

/// How something goes into an object.
#[tactic(auto, unfolding(crate::specs::Acts::filling_word))]
fn filling_word(filling: Filling) -> &'static str
    ensures { result.now ≡ filling_word filling }
{
    match filling {
        Filling::Append => "append ",
        Filling::SetItem => "set ",
        Filling::Add => "add ",
        Filling::Build => "build ",
    }
}

/// Writes that an object comes from elsewhere or from a call.
fn write_made<S: Page>(id: ObjId, page: &mut S) -> Result<(), Failed>
    ensures { Writes (S.told page.old) (S.told page.new) result (made_line id) }
{
    write_all(page, b"made ")?;
    write_decimal(u64::from(id), page)?;
    write_all(page, b"\n")
}

/// Writes the line of an event.
#[tactic(auto, unfolding(crate::specs::Acts::act_line))]
fn write_act<S: Page>(event: Event, page: &mut S) -> Result<(), Failed>
    ensures { Writes (S.told page.old) (S.told page.new) result (act_line event) }
{
    match event {
        Event::Made(id) => write_made(id, page),
        Event::State(value, target) => {
            write_pair("state ", u64::from(value), u64::from(target), page)
        }
        Event::Filled(filling, count, target) => {
            write_pair(filling_word(filling), count as u64, u64::from(target), page)
        }
    }
}

/// Lines of events, without offsets and names.
struct ByNumbers;

impl Teller for ByNumbers {
    ghost telling = { by_numbers };

    fn write_step<M: Inspect, S: Page>(
        _holes: &Holes,
        _offset: u64,
        _naming: Naming,
        _machine: &M,
        event: Option<Event>,
        page: &mut S,
    ) -> Result<(), Failed> {
        match event {
            Some(event) => write_act(event, page),
            None => Ok(()),
        }
    }

    fn write_last<S: Page>(
        _bytes: &[u8],
        _course: Course,
        _ending: Ending,
        _page: &mut S,
    ) -> Result<(), Failed> {
        Ok(())
    }
}

/// Runs the items of the bytes, and writes the lines of their events.
fn write_acts<S: Page>(
    alloc: Global,
    many: bool,
    bytes: &[u8],
    page: &mut S,
) -> Result<Ending, AllocError>
    requires { length bytes.now ≤ size_limit }
    ensures { IfOk result (WroteActs many bytes.now (S.told page.old) (S.told page.new)) }
{
    let holes = Holes::new(alloc);
    let mut machine = Slim::new(alloc, many, bytes);
    match run_items::<ByNumbers, _, S>(
        alloc,
        Detail::Cut,
        &holes,
        many,
        Items::new(bytes),
        &mut machine,
        page,
    ) {
        Ok(ran) => Ok(ran.ending),
        Err(_) => Err(AllocError),
    }
}

/// What the bytes do, and how their reading ends.
pub(crate) fn acts_of(
    alloc: Global,
    many: bool,
    bytes: &[u8],
) -> Result<(Vec<u8>, Ending), AllocError>
    requires { length bytes.now ≤ size_limit }
    ensures { IfOk result (λ r. Acts many bytes.now r.0.items r.1) }
{
    let mut page = Buffered::new(alloc, ToWrite::new(Vec::new(alloc)))?;
    let ending = write_acts(alloc, many, bytes, &mut page)?;
    if page.flush().is_err() {
        return Err(AllocError);
    }
    Ok((page.into_inner().into_inner(), ending))
}
