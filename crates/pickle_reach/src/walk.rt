//! The walk over all spots.

ghost use Rattle.std.specs.Prelude.{◌≡◌, ◌<◌, ◌^◌, ◌&&◌, length, IfOk};
ghost use Rattle.pickle_reach.specs.Reach.{first_spot, most_visits, IsReach};

use crate::answer::Reach;
use crate::granted::Granted;
use crate::spot::Spot;
use crate::visit::visit;
use crate::waiting::least;
use std::alloc::{AllocError, Global};

/// The most spots that wait.
const MOST_WAITING: usize = 256;

/// How many spots are looked at, at most, in so many bytes: a pickle whose frames end where its items do has two ways through a frame.
fn most_visits(size: usize) -> usize
    requires { size < 2 ^ 60 }
    ensures { result ≡ most_visits size }
{
    4 * size + 1024
}

/// Where the first loader stands.
fn first_spot() -> Spot
    ensures { result ≡ first_spot }
{
    Spot {
        offset: 0,
        left: 0,
        named: false,
    }
}

/// Whether both hold.
fn both(one: bool, other: bool) -> bool
    ensures { result ≡ (one && other) }
{
    one && other
}

/// Whether a loader reaches something that begins at the first of these bytes and was given this besides; and where. Of the spots that
/// wait the one with the least offset is looked at first, so that ways that part at a frame meet behind it, and that none is looked at
/// twice.
pub fn first_reach(alloc: Global, granted: Granted, bytes: &[u8]) -> Result<Reach, AllocError>
    requires small { length bytes.now < 2 ^ 60 }
    ensures { IfOk result (IsReach granted bytes.now) }
{
    let mut waiting = Vec::new(alloc);
    waiting.push(first_spot())?;
    let mut last = 0;
    let mut settled = true;
    let most = most_visits(bytes.len());
    let mut visits = 0;
    while visits < most {
        if waiting.is_empty() {
            return Ok(Reach::Nothing(last, settled));
        }
        if MOST_WAITING < waiting.len() {
            return Ok(Reach::TooMany);
        }
        let place = least(waiting.as_slice());
        let spot = waiting.remove(place);
        let visit = visit(alloc, granted, bytes, spot, &mut waiting)?;
        if let Some(frames) = visit.reached {
            return Ok(Reach::At(spot, frames));
        }
        last = spot.offset;
        settled = both(settled, visit.settled);
        visits += 1;
    }
    Ok(Reach::TooMany)
}
