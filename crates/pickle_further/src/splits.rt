//! Where loaders part that read alike so far.

ghost use Rattle.std.specs.Prelude.{◌≡◌, ◌<◌, ◌^◌, length, IfOk, IfErr};
ghost use Rattle.pickle_further.specs.Splits.{leaves, are_apart, splits};

use pickle_lenient::{Frames, NotTaken, take_op};
use pickle_text::TextStop;
use std::alloc::Global;

/// What an item leaves.
#[derive(Clone, Copy)]
pub struct Leaves {
    /// Whether bytes are lost.
    pub lost: bool,
    /// How many bytes are in the buffer then.
    pub left: u64,
}

/// What the item leaves that is taken with so many bytes in the buffer, if one is.
fn what_is_left(
    alloc: Global,
    frames: Frames,
    left: u64,
    bytes: &[u8],
) -> Result<Option<Leaves>, TextStop>
    requires small { length bytes.now < 2 ^ 62 }
    ensures ok { IfOk result (λ x. x ≡ leaves frames left bytes.now) }
    ensures err { IfErr result (λ e. e ≡ TextStop.Memory) }
{
    match take_op(alloc, frames, left, bytes) {
        Ok(item) => Ok(Some(Leaves {
            lost: item.lost,
            left: item.left,
        })),
        Err(NotTaken::Fault(_)) => Ok(None),
        Err(NotTaken::Memory) => Err(TextStop::Memory),
    }
}

/// Whether they part that leave this: one that has bytes in its buffer, and one that has none.
fn are_apart(one: Option<Leaves>, other: Option<Leaves>) -> bool
    ensures { result ≡ are_apart one other }
{
    match one {
        Some(one) => match other {
            Some(other) => one.lost || 0 < other.left,
            None => true,
        },
        None => other.is_some(),
    }
}

/// Whether a loader that has so many bytes in its buffer and one that has none part at the next item.
#[tactic(auto, unfolding(crate::specs::Splits::splits))]
pub fn splits(alloc: Global, frames: Frames, left: u64, bytes: &[u8]) -> Result<bool, TextStop>
    requires small { length bytes.now < 2 ^ 62 }
    ensures ok { IfOk result (λ x. x ≡ splits frames left bytes.now) }
    ensures err { IfErr result (λ e. e ≡ TextStop.Memory) }
{
    if left == 0 {
        return Ok(false);
    }
    let one = what_is_left(alloc, frames, left, bytes)?;
    let other = what_is_left(alloc, frames, 0, bytes)?;
    Ok(are_apart(one, other))
}
