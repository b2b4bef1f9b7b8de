//! Whether bytes are such that no loader that keeps frames in a buffer loses any, and none part. Of most pickles the sizes of opcodes say
//! so, and no machine is needed.

ghost use Rattle.std.specs.Prelude.{◌≡◌, ◌<◌, ◌≤◌, ◌+◌, ◌^◌, true, false, length, IfOk, IfErr};
ghost use Rattle.pickle_further.specs.Splits.{splits};
ghost use Rattle.pickle_further.specs.Quiet.{IsQuiet, IsPassing, IsPassingAll, IsBoth, TakesNothing};

use crate::splits::splits;
use pickle_lenient::{Frames, NotTaken, Passed, pass_ops, take_op};
use pickle_text::TextStop;
use std::alloc::Global;

/// What an item comes to, whatever a machine does.
#[derive(Clone, Copy)]
pub enum Passing {
    /// Loaders take nothing.
    Ends,
    /// They take it alike, and lose nothing.
    Goes(Passed),
    /// They may part there, or bytes may be lost.
    Parts,
}

/// What the item comes to at which loaders do not part.
fn pass_whole(alloc: Global, frames: Frames, left: u64, bytes: &[u8]) -> Result<Passing, TextStop>
    requires small { length bytes.now < 2 ^ 62 }
    requires alike { splits frames left bytes.now ≡ false }
    ensures ok { IfOk result (IsPassing frames left bytes.now) }
    ensures err { IfErr result (λ e. e ≡ TextStop.Memory) }
{
    match take_op(alloc, frames, left, bytes) {
        Ok(item) => {
            if item.lost {
                return Ok(Passing::Parts);
            }
            Ok(Passing::Goes(Passed {
                size: item.size,
                left: item.left,
            }))
        }
        Err(NotTaken::Fault(_)) => Ok(Passing::Ends),
        Err(NotTaken::Memory) => Err(TextStop::Memory),
    }
}

/// What an item comes to.
fn pass_one(alloc: Global, frames: Frames, left: u64, bytes: &[u8]) -> Result<Passing, TextStop>
    requires small { length bytes.now < 2 ^ 62 }
    ensures ok { IfOk result (IsPassing frames left bytes.now) }
    ensures err { IfErr result (λ e. e ≡ TextStop.Memory) }
{
    if splits(alloc, frames, left, bytes)? {
        return Ok(Passing::Parts);
    }
    pass_whole(alloc, frames, left, bytes)
}

/// What it comes to where both come to the same.
fn both(one: Passing, other: Passing) -> Passing
    ensures { IsBoth one other result }
{
    match one {
        Passing::Ends => match other {
            Passing::Ends => Passing::Ends,
            _ => Passing::Parts,
        },
        Passing::Goes(to) => match other {
            Passing::Goes(next) => {
                if to.size == next.size && to.left == next.left {
                    Passing::Goes(to)
                } else {
                    Passing::Parts
                }
            }
            _ => Passing::Parts,
        },
        Passing::Parts => Passing::Parts,
    }
}

/// What an item comes to, whether STOP ends the buffer or not.
fn pass_any(alloc: Global, left: u64, bytes: &[u8]) -> Result<Passing, TextStop>
    requires small { length bytes.now < 2 ^ 62 }
    ensures ok { IfOk result (IsPassingAll left bytes.now) }
    ensures err { IfErr result (λ e. e ≡ TextStop.Memory) }
{
    let one = pass_one(alloc, Frames::Buffered, left, bytes)?;
    let other = pass_one(alloc, Frames::Held, left, bytes)?;
    Ok(both(one, other))
}

/// Whether it is sure that no loader that keeps frames in a buffer loses any of these bytes, and that none part.
pub fn is_quiet(alloc: Global, bytes: &[u8]) -> Result<bool, TextStop>
    requires { length bytes.now < 2 ^ 62 }
    ensures ok { IfOk result (λ quiet. quiet ≡ true → IsQuiet 0 bytes.now) }
    ensures err { IfErr result (λ e. e ≡ TextStop.Memory) }
{
    let mut rest = bytes;
    let mut left: u64 = 0;
    'items: loop {
        let passed = pass_ops(rest, left);
        let behind = rest.split_at(passed.size).1;
        match pass_any(alloc, passed.left, behind)? {
            Passing::Ends => return Ok(true),
            Passing::Parts => return Ok(false),
            Passing::Goes(to) => {
                rest = behind.split_at(to.size).1;
                left = to.left;
            }
        }
    }
}

/// Whether loaders that ignore frames take nothing of these bytes.
pub fn takes_nothing(alloc: Global, bytes: &[u8]) -> Result<bool, TextStop>
    requires { length bytes.now < 2 ^ 62 }
    ensures ok { IfOk result (λ none. none ≡ true → TakesNothing bytes.now) }
    ensures err { IfErr result (λ e. e ≡ TextStop.Memory) }
{
    match take_op(alloc, Frames::Ignored, 0, bytes) {
        Ok(_) => Ok(false),
        Err(NotTaken::Fault(_)) => Ok(true),
        Err(NotTaken::Memory) => Err(TextStop::Memory),
    }
}
