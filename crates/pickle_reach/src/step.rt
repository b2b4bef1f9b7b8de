//! What the item at a spot comes to.

ghost use Rattle.std.specs.Prelude.{◌≡◌, ◌+◌, ◌<◌, ◌^◌, length, IfOk};
ghost use Rattle.pickle_reach.specs.Reach.{step_of, step_taken, step_at};
ghost use Rattle.pickle_reach.specs.Inside.{IsWithin, GoesOn};

use crate::granted::Granted;
use crate::item::{ends, names, reaches};
use crate::spot::{Spot, Step};
use pickle_lenient::{Frames, NotTaken, Taken, take_op};
use pickle_ops::OpRef;
use std::alloc::{AllocError, Global};

/// What an operation of so many bytes comes to, behind which so many are in the buffer.
pub(crate) fn step_of(granted: Granted, spot: Spot, op: &OpRef<'_>, size: usize, left: u64) -> Step
    requires { spot.offset + size < 2 ^ 63 }
    ensures { result ≡ step_of granted spot op.now size left }
{
    if reaches(granted, spot.named, op) {
        return Step::Reaches;
    }
    if ends(op) {
        return Step::Ends;
    }
    let text = names(op);
    Step::Goes(Spot {
        offset: spot.offset + size,
        left,
        named: spot.named || text,
    })
}

/// What an item comes to.
fn step_taken(granted: Granted, spot: Spot, taken: &Taken) -> Step
    requires { spot.offset + taken.now.size < 2 ^ 63 }
    ensures { result ≡ step_taken granted spot taken.now }
{
    let op = taken.op.by_ref();
    step_of(granted, spot, &op, taken.size, taken.left)
}

/// What the item at a spot comes to, by what a loader does with frames.
#[tactic(auto, unfolding(crate::specs::Reach::step_at))]
pub(crate) fn step_at(
    alloc: Global,
    granted: Granted,
    bytes: &[u8],
    frames: Frames,
    spot: Spot,
) -> Result<Step, AllocError>
    requires small { length bytes.now < 2 ^ 62 }
    requires within { IsWithin bytes.now spot }
    ensures is { IfOk result (λ x. x ≡ step_at granted bytes.now frames spot) }
    ensures on { IfOk result (GoesOn bytes.now spot) }
{
    match take_op(alloc, frames, spot.left, &bytes[spot.offset..]) {
        Ok(taken) => Ok(step_taken(granted, spot, &taken)),
        Err(NotTaken::Fault(_)) => Ok(Step::Ends),
        Err(NotTaken::Memory) => Err(AllocError),
    }
}
