//! What items would import and call, one after another.

ghost use Rattle.std.specs.Prelude.{◌≡◌, ◌<◌, ⊤, false, length, IfOk, IfErr};
ghost use Rattle.pickle_machine.specs.State.{start};
ghost use Rattle.pickle_text.specs.Source.{GivesDocument};
ghost use Rattle.pickle_calls.specs.CallsWritten.{CutsCalls};
ghost use Rattle.pickle_calls.specs.Manner.{manner};
ghost use Rattle.pickle_calls.specs.Ran.{IsRun, GoesAlong};
ghost use Rattle.pickle_text.specs.Inside.Part.{IsPart};
ghost use Rattle.pickle_calls.specs.Inside.Walked.{Begun, HasWalked};

use crate::course::Course;
use crate::end::Ending;
use crate::event::{Before, event_of};
use crate::naming::{Detail, leaves_frame};
use crate::teller::Teller;
use pickle_doc::{ItemSource, NextRef, ends_reading, is_stop};
use pickle_io::{Holes, Page};
use pickle_machine::{Refusal, Slim};
use pickle_ops::Row;
use pickle_text::{Closing, ITEMS_OF_A_PART, Part, TextStop, closing_at};
use std::alloc::Global;

/// How far the items of a source were run, and how that ended.
#[derive(Clone, Copy)]
pub struct Ran {
    /// How many imports and calls the lines are, and how names are read behind them.
    pub course: Course,
    /// How it ended.
    pub ending: Ending,
    /// The offset behind the last item that was run, in bytes, without the holes of the file.
    pub offset: u64,
    /// How many items were run.
    pub place: usize,
}

/// How far the items of a source were run.
#[derive(Drop)]
struct SoFar<I> {
    reader: I,
    course: Course,
    offset: u64,
    place: usize,
    /// Whether STOP was the last of them.
    stop: bool,
}

/// Runs the items of one part, from how far they were run on, and writes their lines.
#[inline(never)]
fn run_part<'a, T: Teller, I: ItemSource<'a>, S: Page>(
    alloc: Global,
    holes: &Holes,
    many: bool,
    from: SoFar<I>,
    machine: &mut Slim<'_>,
    page: &mut S,
) -> Result<Part<SoFar<I>, Ran>, TextStop>
    requires walked { (begun : Begun) × HasWalked T.telling holes.now many begun I.unread (S.told page.old) machine.old.state from }
    requires along { GoesAlong machine.old (I.unread from.reader) from.place }
    ensures ok { (begun : Begun) → HasWalked T.telling holes.now many begun I.unread (S.told page.old) machine.old.state from
        → IfOk result (IsPart (HasWalked T.telling holes.now many begun I.unread (S.told page.new) machine.new.state)
        (IsRun T.telling (manner begun.detail holes.now) many begun.rest begun.told (S.told page.new) machine.new.state)) }
    ensures err { (begun : Begun) → HasWalked T.telling holes.now many begun I.unread (S.told page.old) machine.old.state from
        → IfErr result (CutsCalls T.telling (manner begun.detail holes.now) many begun.rest begun.told (S.told page.new)) }
    ensures along { IfOk result (IsPart (λ far. GoesAlong machine.new (I.unread far.reader) far.place) (λ _. ⊤)) }
    ensures less { IfOk result (IsPart (λ far. length (I.unread far.reader).rest < length (I.unread from.reader).rest) (λ _. ⊤)) }
{
    let SoFar {
        mut reader,
        mut course,
        mut offset,
        place: first,
        mut stop,
    } = from;
    let end = first + ITEMS_OF_A_PART;
    'items: for place in first..end {
        match reader.next() {
            NextRef::Tail(fault) => {
                let closing = closing_at(stop, reader.unread_len(), fault, offset);
                return Ok(Part::End(Ran {
                    course,
                    ending: Ending::Closed(0, closing),
                    offset,
                    place,
                }));
            }
            NextRef::Item(op) => {
                let row = Row::of_ref(&op);
                let before = Before::of(machine);
                if let Err(refusal) = machine.step(alloc, row, &op) {
                    if refusal == Refusal::Memory {
                        return Err(TextStop::Memory);
                    }
                    let ending = Ending::Closed(0, Closing::Refused(place, refusal));
                    return Ok(Part::End(Ran {
                        course,
                        ending,
                        offset,
                        place,
                    }));
                }
                let event = event_of(row, before, machine);
                T::write_step(holes, offset, course.naming, machine, event, page)?;
                course = course.over(&op, row, machine, event);
                let at = offset;
                offset += op.size() as u64;
                if ends_reading(many, op.opcode()) {
                    let ending = Ending::Closed(reader.unread_len(), Closing::Stopped);
                    return Ok(Part::End(Ran {
                        course,
                        ending,
                        offset,
                        place: place + 1,
                    }));
                }
                if leaves_frame(op.opcode(), course.left) {
                    return Ok(Part::End(Ran {
                        course,
                        ending: Ending::Unsure(at),
                        offset,
                        place: place + 1,
                    }));
                }
                stop = is_stop(op.opcode());
            }
        }
    }
    Ok(Part::More(SoFar {
        reader,
        course,
        offset,
        place: end,
        stop,
    }))
}

/// Writes the lines of the items that a source gives from the first on, as several pickles or as one, and not the last lines. The machine,
/// which has done nothing yet and is over the same bytes, runs the items; each line is written when its item was stepped, and no item, no
/// step and no line is kept.
/// The run ends at the end of the items, at an item that is refused, or where of several pickles STOP leaves a frame unfinished, since
/// loaders disagree about what is behind it. The machine then stands behind the last item that was run. The source is to give a document
/// that is not too large, with its frames. It is what is left of a file without these holes, and the lines have the offsets of the file.
///
/// `Memory` (M) where memory runs out, `Failed` where the sink fails; what was written then is a beginning of the text.
pub fn run_items<'a, T: Teller, I: ItemSource<'a>, S: Page>(
    alloc: Global,
    detail: Detail,
    holes: &Holes,
    many: bool,
    source: I,
    machine: &mut Slim<'_>,
    page: &mut S,
) -> Result<Ran, TextStop>
    requires source { GivesDocument many (I.unread source) }
    requires framed { (I.unread source).loose ≡ false }
    requires fresh { machine.old.state ≡ start many }
    requires along { GoesAlong machine.old (I.unread source) 0 }
    ensures ok { IfOk result (IsRun T.telling (manner detail holes.now) many (I.unread source).rest (S.told page.old) (S.told page.new) machine.new.state) }
    ensures err { IfErr result (CutsCalls T.telling (manner detail holes.now) many (I.unread source).rest (S.told page.old) (S.told page.new)) }
{
    let mut far = SoFar {
        reader: source,
        course: Course::new(detail),
        offset: 0,
        place: 0,
        stop: false,
    };
    'parts: loop {
        match run_part::<T, I, S>(alloc, holes, many, far, machine, page)? {
            Part::More(next) => far = next,
            Part::End(ran) => return Ok(ran),
        }
    }
}
