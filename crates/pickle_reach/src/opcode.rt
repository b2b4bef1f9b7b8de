//! The opcode by which something is reached.

ghost use Rattle.std.specs.Prelude.{◌≡◌, ◌<◌, ◌≤◌, ◌^◌, length, IfOk};
ghost use Rattle.pickle_reach.specs.declared.spot.Step.TheVariants as steps;
ghost use Rattle.pickle_reach.specs.Reach.{step_at, IsOpAt};

use crate::granted::Granted;
use crate::spot::Spot;
use pickle_lenient::{Frames, NotTaken, take_op};
use pickle_ops::Op;
use std::alloc::{AllocError, Global};

/// The opcode by which a loader reaches something that stands here and does this with frames, and was given this.
pub fn op_reached(
    alloc: Global,
    granted: Granted,
    bytes: &[u8],
    spot: Spot,
    frames: Frames,
) -> Result<Op, AllocError>
    requires small { length bytes.now < 2 ^ 60 }
    requires within { spot.offset ≤ length bytes.now }
    requires reaches { step_at granted bytes.now frames spot ≡ steps.Reaches }
    ensures { IfOk result (IsOpAt bytes.now spot frames) }
{
    match take_op(alloc, frames, spot.left, &bytes[spot.offset..]) {
        Ok(taken) => Ok(taken.op),
        Err(NotTaken::Memory) => Err(AllocError),
        Err(NotTaken::Fault(_)) => unreachable!(),
    }
}
