//! Who writes what a pickle would import and call: the loop over the items is one, and so is the end, however they are told.

ghost use Rattle.pickle_calls.specs.Telling.{for_people};

use crate::calls_line::write_line;
use crate::course::Course;
use crate::end::{Ending, write_last_lines};
use crate::event::Event;
use crate::naming::Naming;
use pickle_io::{Failed, Holes, Page};
use pickle_machine::Inspect;

/// Who writes the line of a step, and the last lines. No value of the type is needed: what it writes is a matter of the type alone.
pub trait Teller {
    ghost use Rattle.pickle_io.specs.Device.{Writes};
    ghost use Rattle.pickle_io.specs.Holes.{in_file};
    ghost use Rattle.pickle_calls.specs.Telling.{Telling};

    // What it writes.
    ghost telling: { Telling };

    /// Writes the line of a step, if it has an event. The offset is that without the holes of the file, and the line has that in the file.
    /// `Failed` where the sink fails; a beginning of the line was written then.
    fn write_step<M: Inspect, S: Page>(
        holes: &Holes,
        offset: u64,
        naming: Naming,
        machine: &M,
        event: Option<Event>,
        page: &mut S,
    ) -> Result<(), Failed>
        ensures { Writes (S.told page.old) (S.told page.new) result (telling.line (in_file holes.now offset) naming (M.state machine.now).heap event) };

    /// Writes the last lines: what the bytes begin like, how many imports and calls there are, and how the reading ended, with its offset in
    /// the file. `Failed` where the sink fails; a beginning of the lines was written then.
    fn write_last<S: Page>(
        bytes: &[u8],
        course: Course,
        ending: Ending,
        page: &mut S,
    ) -> Result<(), Failed>
        ensures { Writes (S.told page.old) (S.told page.new) result (telling.last bytes.now course.imports course.calls ending) };
}

/// Lines for people.
pub struct ForPeople;

impl Teller for ForPeople {
    ghost telling = { for_people };

    #[inline(always)]
    fn write_step<M: Inspect, S: Page>(
        holes: &Holes,
        offset: u64,
        naming: Naming,
        machine: &M,
        event: Option<Event>,
        page: &mut S,
    ) -> Result<(), Failed> {
        write_line(holes, offset, naming, machine, event, page)
    }

    fn write_last<S: Page>(
        bytes: &[u8],
        course: Course,
        ending: Ending,
        page: &mut S,
    ) -> Result<(), Failed> {
        write_last_lines(bytes, course, ending, page)
    }
}
