//! The first item of a kind.

ghost use Rattle.std.specs.Prelude.{◌≡◌, ◌<◌, ◌^◌, None, length, IfOk, IfErr};
ghost use Rattle.pickle_machine.specs.State.{State};
ghost use Rattle.pickle_further.specs.Going.{is_sought, search_from};
ghost use Rattle.pickle_further.specs.Inside.{HasRoom, IsGoneOver, standing_of, IsNext, Finds, FindsRoom};

use crate::engine::spot_after;
use crate::going::{Gone, go};
use crate::machine::LoaderMachine;
use crate::splits::splits;
use crate::way::{Spot, Way};
use pickle_calls::Naming;
use pickle_machine::Inspect;
use pickle_text::TextStop;
use std::alloc::Global;

/// What is looked for.
#[derive(Clone, Copy)]
pub enum Sought {
    /// An item that has an event.
    Event,
    /// An item whose reading loses bytes.
    Lost,
    /// An item at which loaders part, as they have bytes of a frame in a buffer or not.
    Split,
}

/// An item that was gone over.
#[derive(Clone, Copy)]
pub struct Visited<'a> {
    /// The bytes from its first on.
    pub rest: &'a [u8],
    /// Where it is.
    pub at: Spot,
    /// How names are read there.
    pub naming: Naming,
    /// What it came to.
    pub gone: Gone,
}

/// Whether it is looked for.
fn is_sought(alloc: Global, sought: Sought, way: Way, item: Visited<'_>) -> Result<bool, TextStop>
    requires { length item.rest.now < 2 ^ 62 }
    ensures ok { IfOk result (λ x. x ≡ is_sought sought way.frames item.entry.at.left item.entry.rest.now item.entry.gone) }
    ensures err { IfErr result (λ e. e ≡ TextStop.Memory) }
{
    match sought {
        Sought::Event => Ok(item.gone.event.is_some()),
        Sought::Lost => Ok(item.gone.lost),
        Sought::Split => splits(alloc, way.frames, item.at.left, item.rest),
    }
}

/// Goes over the item behind this one, after which the reading goes on.
fn next<'a>(
    alloc: Global,
    way: Way,
    item: Visited<'a>,
    machine: &mut LoaderMachine,
) -> Result<Visited<'a>, TextStop>
    requires room { HasRoom machine.old.state item }
    requires goes { item.gone.closing ≡ None }
    ensures next { IfOk result (IsNext way machine.old.state item.entry machine.new.state) }
    ensures room { IfOk result (HasRoom machine.new.state) }
    ensures less { IfOk result (λ t. length t.rest.now < length item.entry.rest.now) }
    ensures err { IfErr result (λ e. e ≡ TextStop.Memory) }
{
    let naming = item.naming.after(item.gone.row, machine.objects() as u32);
    let at = spot_after(item.at, item.gone);
    let rest = item.rest.split_at(item.gone.size).1;
    let gone = go(alloc, way, rest, at, machine)?;
    Ok(Visited {
        rest,
        at,
        naming,
        gone,
    })
}

/// The first item that is looked for, from this one on.
pub fn seek<'a>(
    alloc: Global,
    way: Way,
    sought: Sought,
    first: Visited<'a>,
    machine: &mut LoaderMachine,
) -> Result<Option<Visited<'a>>, TextStop>
    requires room { HasRoom machine.old.state first }
    ensures finds { IfOk result (λ found. (s : State) → IsGoneOver way s first.entry machine.old.state
        → Finds way (search_from sought way (standing_of s first.entry)) found machine.new.state) }
    ensures room { IfOk result (FindsRoom machine.new.state) }
    ensures err { IfErr result (λ e. e ≡ TextStop.Memory) }
{
    let mut item = first;
    let mut more = first.rest.len();
    'items: loop {
        if is_sought(alloc, sought, way, item)? {
            return Ok(Some(item));
        }
        if item.gone.closing.is_some() {
            return Ok(None);
        }
        if more == 0 {
            return Ok(None);
        }
        more -= 1;
        item = next(alloc, way, item, machine)?;
    }
}
