//! Two byte strings, and what the pickles in them make.

ghost use Rattle.std.specs.Prelude.{◌≡◌, ◌≤◌, false, length, IfOk};
ghost use Rattle.std.specs.Bool.{Decides};
ghost use Rattle.pickle_doc.specs.Document.{size_limit};
ghost use Rattle.pickle_machine.specs.State.{start};
ghost use Rattle.object_texts.specs.Inside.Ending.{EndsIn};
ghost use Rattle.same_objects.specs.Same.{at_end, ComparesStates, Compares};
ghost use Rattle.same_objects.specs.Halves.{ComparesObjects, ComparesActs};

use crate::acts::acts_of;
use crate::compared::Compared;
use crate::heap::first_other;
use crate::object::are_same_ids;
use object_texts::walk_items;
use pickle_calls::Ending;
use pickle_doc::Items;
use pickle_machine::Machine;
use pickle_text::Closing;
use std::alloc::{AllocError, Global};

/// Runs the items of the bytes on a machine that has done nothing, and says how the run ends.
fn run(
    alloc: Global,
    many: bool,
    bytes: &[u8],
    machine: &mut Machine,
) -> Result<Closing, AllocError>
    requires few { length bytes.now ≤ size_limit }
    requires start { machine.old.state ≡ start many }
    ensures { IfOk result (EndsIn many false bytes.now machine.new.state) }
{
    match walk_items(alloc, many, Items::new_as(false, bytes), machine) {
        Ok(closing) => Ok(closing),
        Err(_) => Err(AllocError),
    }
}

/// Whether a run ends by STOP.
fn is_stopped(closing: Closing) -> bool
    ensures { Decides result (closing ≡ Closing.Stopped) }
{
    match closing {
        Closing::Stopped => true,
        Closing::Refused(_, _) => false,
        Closing::Fault(_, _) => false,
    }
}

/// Whether a reading ends by STOP, and no byte follows.
fn is_at_end(ending: Ending) -> bool
    ensures { Decides result (ending ≡ at_end) }
{
    match ending {
        Ending::Closed(kept, closing) => kept == 0 && is_stopped(closing),
        Ending::Unsure(_) => false,
    }
}

/// How the objects and the results of two machines compare.
fn compared(one: &Machine, other: &Machine) -> Compared
    ensures { ComparesStates one.now.state other.now.state result }
{
    if let Some(number) = first_other(one.heap(), other.heap()) {
        return Compared::Object(number);
    }
    if are_same_ids(one.results(), other.results()) {
        Compared::Same
    } else {
        Compared::Results
    }
}

/// How the objects and the results compare of what two byte strings make. Two machines run the items; both are kept at once.
fn compared_objects(
    alloc: Global,
    many: bool,
    one: &[u8],
    other: &[u8],
) -> Result<Compared, AllocError>
    requires one { length one.now ≤ size_limit }
    requires other { length other.now ≤ size_limit }
    ensures { IfOk result (ComparesObjects many one.now other.now) }
{
    let mut first = Machine::start(alloc, many);
    let closing = run(alloc, many, one, &mut first)?;
    if !is_stopped(closing) {
        return Ok(Compared::FirstEnds(closing));
    }
    let mut second = Machine::start(alloc, many);
    let ending = run(alloc, many, other, &mut second)?;
    if !is_stopped(ending) {
        return Ok(Compared::OtherEnds(ending));
    }
    Ok(compared(&first, &second))
}

/// How the order compares in which two byte strings do what they do.
fn compared_acts(
    alloc: Global,
    many: bool,
    one: &[u8],
    other: &[u8],
) -> Result<Compared, AllocError>
    requires one { length one.now ≤ size_limit }
    requires other { length other.now ≤ size_limit }
    ensures { IfOk result (ComparesActs many one.now other.now) }
{
    let (acts, ending) = acts_of(alloc, many, one)?;
    if !is_at_end(ending) {
        return Ok(Compared::FirstGoesOn(ending));
    }
    let (others, end) = acts_of(alloc, many, other)?;
    if !is_at_end(end) {
        return Ok(Compared::OtherGoesOn(end));
    }
    if acts.as_slice() == others.as_slice() {
        Ok(Compared::Same)
    } else {
        Ok(Compared::Order)
    }
}

/// Whether the pickles in two byte strings, one in each or several one after another, make the same objects in the same order, do the same in
/// the same order, and give the same results, with no byte behind them; or how they differ. An opcode's spelling, the keys of the memo and
/// frames are no part of an object. There are to be no more bytes than the limit.
///
/// `AllocError` (M) where memory runs out.
pub fn same_objects(
    alloc: Global,
    many: bool,
    one: &[u8],
    other: &[u8],
) -> Result<Compared, AllocError>
    requires one { length one.now ≤ size_limit }
    requires other { length other.now ≤ size_limit }
    ensures { IfOk result (Compares many one.now other.now) }
{
    match compared_objects(alloc, many, one, other)? {
        Compared::Same => compared_acts(alloc, many, one, other),
        differ => Ok(differ),
    }
}
