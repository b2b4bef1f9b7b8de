//! What loaders may do behind the end of the lines. The bytes are what is left of a file without these holes; the offsets that are shown are
//! those in the file.

ghost use Rattle.std.specs.Prelude.{◌≡◌, ◌≤◌, ◌^◌, length, Some, IfOk, IfErr};
ghost use Rattle.std.specs.List.{list_any};
ghost use Rattle.pickle_further.specs.CallsText.{PutsText};
ghost use Rattle.pickle_further.specs.Going.{search_from};
ghost use Rattle.pickle_further.specs.Parts.{wording, tale_text_in, part_text_in, text_from_in, found_text_in, is_frame_code, mixed_there, mixed_from};
ghost use Rattle.pickle_machine.specs.State.{State};
ghost use Rattle.pickle_calls.specs.Naming.{begin};
ghost use Rattle.pickle_further.specs.Inside.{standing, standing_begun, standing_of, loss_from, tale_at, IsGoneOver, HasRoom, Finds, FindsRoom};

use crate::engine::write_items;
use crate::going::go;
use crate::machine::LoaderMachine;
use crate::seek::{Sought, Visited, seek};
use crate::way::{Spot, Way};
use crate::worder::Worder;
use pickle_calls::{Detail, Naming, closing_in};
use pickle_io::{Holes, Page};
use pickle_text::TextStop;
use std::alloc::Global;

/// Writes what comes to this, and the last lines.
fn write_tale<T: Worder, S: Page>(
    alloc: Global,
    holes: &Holes,
    way: Way,
    item: Visited<'_>,
    machine: &mut LoaderMachine,
    page: &mut S,
) -> Result<(), TextStop>
    requires { HasRoom machine.old.state item }
    ensures { PutsText (S.told page.old) (S.told page.new)
        (tale_text_in (wording T.telling T.words) holes.now (tale_at T.telling holes.now way (standing_of machine.old.state item.entry) item.entry.gone)) result }
{
    let end = write_items::<T, S>(
        alloc,
        holes,
        way,
        item.rest,
        item.at,
        item.naming,
        item.gone,
        machine,
        page,
    )?;
    T::write_closed(end.course, closing_in(holes, end.closing), end.leads, page)?;
    Ok(())
}

/// Writes what loaders may do from this item on, which has an event.
fn write_part<T: Worder, S: Page>(
    alloc: Global,
    holes: &Holes,
    way: Way,
    item: Visited<'_>,
    machine: &mut LoaderMachine,
    page: &mut S,
) -> Result<(), TextStop>
    requires { HasRoom machine.old.state item }
    ensures { (s : State) → IsGoneOver way s item.entry machine.old.state
        → PutsText (S.told page.old) (S.told page.new) (part_text_in (wording T.telling T.words) holes.now way (Some (standing_of s item.entry))) result }
{
    T::write_heading(way.frames, page)?;
    write_tale::<T, S>(alloc, holes, way, item, machine, page)
}

/// Writes what loaders may do from this item on, where it or one behind it has an event.
fn write_visited<T: Worder, S: Page>(
    alloc: Global,
    holes: &Holes,
    way: Way,
    item: Visited<'_>,
    machine: &mut LoaderMachine,
    page: &mut S,
) -> Result<(), TextStop>
    requires { HasRoom machine.old.state item }
    ensures { (s : State) → IsGoneOver way s item.entry machine.old.state
        → PutsText (S.told page.old) (S.told page.new) (text_from_in (wording T.telling T.words) holes.now way (standing_of s item.entry)) result }
{
    match seek(alloc, way, Sought::Event, item, machine)? {
        Some(found) => write_part::<T, S>(alloc, holes, way, found, machine, page),
        None => Ok(()),
    }
}

/// Writes what loaders may do from here on, where an item has an event.
pub fn write_from<T: Worder, S: Page>(
    alloc: Global,
    holes: &Holes,
    way: Way,
    rest: &[u8],
    at: Spot,
    naming: Naming,
    machine: &mut LoaderMachine,
    page: &mut S,
) -> Result<(), TextStop>
    requires few { length rest.now ≤ 2 ^ 30 }
    requires heap { length machine.old.state.heap ≤ 2 ^ 30 }
    requires offset { at.offset ≤ 2 ^ 30 }
    requires place { at.place ≤ 2 ^ 30 }
    ensures { PutsText (S.told page.old) (S.told page.new) (text_from_in (wording T.telling T.words) holes.now way (standing machine.old.state rest.now at naming)) result }
{
    let gone = go(alloc, way, rest, at, machine)?;
    let item = Visited {
        rest,
        at,
        naming,
        gone,
    };
    write_visited::<T, S>(alloc, holes, way, item, machine, page)
}

/// The first item that is looked for, if there is one. The machine has done nothing yet.
fn first_sought<'a>(
    alloc: Global,
    detail: Detail,
    way: Way,
    sought: Sought,
    bytes: &'a [u8],
    machine: &mut LoaderMachine,
) -> Result<Option<Visited<'a>>, TextStop>
    requires few { length bytes.now ≤ 2 ^ 30 }
    requires heap { length machine.old.state.heap ≤ 2 ^ 30 }
    ensures finds { IfOk result (λ found. Finds way (search_from sought way (standing_begun machine.old.state bytes.now detail)) found machine.new.state) }
    ensures room { IfOk result (FindsRoom machine.new.state) }
    ensures err { IfErr result (λ e. e ≡ TextStop.Memory) }
{
    let at = Spot {
        offset: 0,
        place: 0,
        left: 0,
    };
    let naming = Naming::begin(detail, 0);
    let gone = go(alloc, way, bytes, at, machine)?;
    let first = Visited {
        rest: bytes,
        at,
        naming,
        gone,
    };
    seek(alloc, way, sought, first, machine)
}

/// Writes what loaders may do from the first item on whose reading loses bytes, where it or one behind it has an event. The machine has
/// done nothing yet.
pub fn write_found<T: Worder, S: Page>(
    alloc: Global,
    detail: Detail,
    holes: &Holes,
    way: Way,
    bytes: &[u8],
    machine: &mut LoaderMachine,
    page: &mut S,
) -> Result<(), TextStop>
    requires few { length bytes.now ≤ 2 ^ 30 }
    requires heap { length machine.old.state.heap ≤ 2 ^ 30 }
    ensures { PutsText (S.told page.old) (S.told page.new)
        (found_text_in (wording T.telling T.words) holes.now way (search_from Sought.Lost way (standing_begun machine.old.state bytes.now detail))) result }
{
    match first_sought(alloc, detail, way, Sought::Lost, bytes, machine)? {
        Some(found) => write_visited::<T, S>(alloc, holes, way, found, machine, page),
        None => Ok(()),
    }
}

/// Where the first item is whose reading loses bytes, if there is one. The machine has done nothing yet.
pub fn find_loss(
    alloc: Global,
    detail: Detail,
    way: Way,
    bytes: &[u8],
    machine: &mut LoaderMachine,
) -> Result<Option<u64>, TextStop>
    requires few { length bytes.now ≤ 2 ^ 30 }
    requires heap { length machine.old.state.heap ≤ 2 ^ 30 }
    ensures ok { IfOk result (λ x. x ≡ loss_from way (standing_begun machine.old.state bytes.now detail)) }
    ensures err { IfErr result (λ e. e ≡ TextStop.Memory) }
{
    match first_sought(alloc, detail, way, Sought::Lost, bytes, machine)? {
        Some(found) => Ok(Some(found.at.offset)),
        None => Ok(None),
    }
}

/// Whether a byte may be FRAME.
fn has_frame(bytes: &[u8]) -> bool
    ensures { result ≡ list_any is_frame_code bytes.now }
{
    for byte in bytes {
        if *byte == 149 {
            return true;
        }
    }
    false
}

/// Where an item is at which loaders part, if another frame may follow.
fn mixed_there(item: Visited<'_>) -> Option<u64>
    ensures { result ≡ mixed_there item.entry.gone item.entry.rest.now item.entry.at.offset }
{
    let frame = has_frame(item.rest);
    if 0 < item.gone.left || frame {
        Some(item.at.offset)
    } else {
        None
    }
}

/// From where frames may be mixed, if they may be. The machine has done nothing yet.
pub fn find_mixed(
    alloc: Global,
    detail: Detail,
    way: Way,
    bytes: &[u8],
    machine: &mut LoaderMachine,
) -> Result<Option<u64>, TextStop>
    requires few { length bytes.now ≤ 2 ^ 30 }
    requires heap { length machine.old.state.heap ≤ 2 ^ 30 }
    ensures ok { IfOk result (λ x. x ≡ mixed_from way (search_from Sought.Split way (standing_begun machine.old.state bytes.now detail))) }
    ensures err { IfErr result (λ e. e ≡ TextStop.Memory) }
{
    match first_sought(alloc, detail, way, Sought::Split, bytes, machine)? {
        Some(found) => Ok(mixed_there(found)),
        None => Ok(None),
    }
}
