//! The lines of what loaders do, item by item.

ghost use Rattle.std.specs.Prelude.{◌≡◌, ◌<◌, ◌≤◌, ◌+◌, ◌*◌, ◌-◌, ◌^◌, length, IfOk, IfErr};
ghost use Rattle.pickle_further.specs.CallsText.{CutsText};
ghost use Rattle.pickle_further.specs.Inside.{standing, tale_at, ended, WroteTale};

use crate::going::{Gone, go};
use crate::leads::{event_leads, or_first};
use crate::machine::LoaderMachine;
use crate::way::{Spot, Way};
use pickle_calls::{Course, Naming, Teller};
use pickle_doc::TailFault;
use pickle_io::{Holes, Page};
use pickle_ops::{FrontFault, ObjId};
use pickle_text::{Closing, TextStop};
use std::alloc::Global;

/// How the lines of what loaders do end.
#[derive(Clone, Copy)]
pub struct TaleEnd {
    /// How many imports and calls they are.
    pub course: Course,
    /// Why it ended.
    pub closing: Closing,
    /// The first import that leads to the unpickler.
    pub leads: Option<ObjId>,
}

/// Why it ends after an item, where this many more may come.
fn ended(gone: Gone, left: usize, offset: u64) -> Option<Closing>
    requires { offset + gone.size < 2 ^ 63 }
    ensures { result ≡ ended gone left offset }
{
    match gone.closing {
        Some(closing) => Some(closing),
        None => {
            if left == 0 {
                let end = offset + gone.size as u64;
                Some(Closing::Fault(TailFault::Front(FrontFault::Ended), end))
            } else {
                None
            }
        }
    }
}

/// No line is written, and names are read so.
fn course_of(naming: Naming) -> Course
    ensures { result ≡ record { imports = 0; calls = 0; naming = naming; left = 0 } }
{
    Course {
        imports: 0,
        calls: 0,
        naming,
        left: 0,
    }
}

/// The item behind this one.
pub fn spot_after(at: Spot, gone: Gone) -> Spot
    requires offset { at.offset + gone.size < 2 ^ 63 }
    requires place { at.place < 2 ^ 62 }
    ensures { result ≡ record { offset = at.offset + gone.size; place = at.place + 1; left = gone.left } }
{
    Spot {
        offset: at.offset + gone.size as u64,
        place: at.place + 1,
        left: gone.left,
    }
}

/// Writes the line of an item that was gone over, and those of what comes then: of what is left of a file without these holes.
pub fn write_items<T: Teller, S: Page>(
    alloc: Global,
    holes: &Holes,
    way: Way,
    bytes: &[u8],
    from: Spot,
    naming: Naming,
    first: Gone,
    machine: &mut LoaderMachine,
    page: &mut S,
) -> Result<TaleEnd, TextStop>
    requires size { first.size ≤ length bytes.now }
    requires few { length bytes.now ≤ 2 ^ 30 }
    requires heap { length machine.old.state.heap + 2 * length bytes.now ≤ 2 ^ 32 - 8 }
    requires offset { from.offset ≤ 2 ^ 31 }
    requires place { from.place ≤ 2 ^ 31 }
    ensures ok { IfOk result (WroteTale (S.told page.old) (S.told page.new) (tale_at T.telling holes.now way (standing machine.old.state bytes.now from naming) first)) }
    ensures err { IfErr result (CutsText (S.told page.old) (S.told page.new)
        (tale_at T.telling holes.now way (standing machine.old.state bytes.now from naming) first).lines.text) }
{
    let mut gone = first;
    let mut rest = bytes;
    let mut at = from;
    let mut course = course_of(naming);
    let mut leads = None;
    let mut left = bytes.len();
    'items: loop {
        T::write_step(holes, at.offset, course.naming, machine, gone.event, page)?;
        course = course.with(gone.row, machine, gone.event);
        leads = or_first(leads, event_leads(machine, gone.event));
        if let Some(closing) = ended(gone, left, at.offset) {
            return Ok(TaleEnd {
                course,
                closing,
                leads,
            });
        }
        at = spot_after(at, gone);
        left -= 1;
        rest = rest.split_at(gone.size).1;
        gone = go(alloc, way, rest, at, machine)?;
    }
}
