//! The spots that wait.

ghost use Rattle.std.specs.Prelude.{◌≡◌, ◌≢◌, ◌<◌, true, false, length, All, Contains, OnOk, IfOk};
ghost use Rattle.pickle_reach.specs.Reach.{as_shown};
ghost use Rattle.pickle_reach.specs.Inside.{Added, AddedBoth, IsLeast, VisitedBy};

use crate::spot::{Spot, Step, is_same};
use std::alloc::AllocError;

/// Whether a spot waits.
fn waits(waiting: &[Spot], spot: Spot) -> bool
    ensures yes { result ≡ true → Contains waiting.now spot }
    ensures no { result ≡ false → All (λ s. s ≢ spot) waiting.now }
{
    for other in waiting {
        if is_same(*other, spot) {
            return true;
        }
    }
    false
}

/// Lets a spot wait, if it does not yet.
fn add(waiting: &mut Vec<Spot>, spot: Spot) -> Result<(), AllocError>
    ensures { OnOk result (Added waiting.old.items spot waiting.new.items) }
{
    if waits(waiting.as_slice(), spot) {
        return Ok(());
    }
    waiting.push(spot)?;
    Ok(())
}

/// The same spot, with what is in the buffer only shown.
fn as_shown(spot: Spot) -> Spot
    ensures { result ≡ as_shown true spot }
{
    Spot {
        offset: spot.offset,
        left: 0,
        named: spot.named,
    }
}

/// Lets a spot wait, and the same with what is in the buffer only shown.
fn add_both(waiting: &mut Vec<Spot>, spot: Spot) -> Result<(), AllocError>
    ensures { OnOk result (AddedBoth waiting.old.items spot waiting.new.items) }
{
    add(waiting, spot)?;
    add(waiting, as_shown(spot))
}

/// Whether a step reaches something. Where it goes on, the spot behind it waits.
pub(crate) fn follow(step: Step, waiting: &mut Vec<Spot>) -> Result<bool, AllocError>
    ensures { IfOk result (VisitedBy step waiting.old.items waiting.new.items) }
{
    match step {
        Step::Reaches => Ok(true),
        Step::Ends => Ok(false),
        Step::Goes(next) => {
            add_both(waiting, next)?;
            Ok(false)
        }
    }
}

/// The place of the spot with the least offset.
pub(crate) fn least(waiting: &[Spot]) -> usize
    requires { 0 < length waiting.now }
    ensures within { result < length waiting.now }
    ensures least { IsLeast waiting.now result }
{
    let mut least = 0;
    for place in 0..waiting.len() {
        if waiting[place].offset < waiting[least].offset {
            least = place;
        }
    }
    least
}
