//! What is answered.

use crate::spot::Spot;
use pickle_lenient::Frames;

/// Where a loader first reaches something.
#[derive(Clone, Copy, Debug)]
pub enum Reach {
    /// No loader reaches anything. This is the greatest offset at which one may stand, and where it is so said none does whatever bytes
    /// follow.
    Nothing(usize, bool),
    /// A loader that stands here and does this with frames may reach something by its next opcode, and none does at a lower offset.
    At(Spot, Frames),
    /// There are more ways to read the bytes than are gone. This counts as a reach.
    TooMany,
}
