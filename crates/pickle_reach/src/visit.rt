//! Looking at a spot.

ghost use Rattle.std.specs.Prelude.{◌≡◌, ◌+◌, ◌-◌, ◌<◌, ◌≤◌, ◌^◌, true, false, length, drop, IfOk};
ghost use Rattle.pickle_ops.specs.Spelling.{size_of, Reads};
ghost use Rattle.pickle_reach.specs.Reach.{step_of, step_at};
ghost use Rattle.pickle_reach.specs.Inside.{IsWithin, GoesOn, VisitedBy, is_plain, is_unknown, IsVisited};

use crate::granted::Granted;
use crate::plain::{is_plain, is_unknown};
use crate::spot::{Spot, Visit};
use crate::step::{step_at, step_of};
use crate::waiting::follow;
use pickle_lenient::Frames;
use pickle_ops::{OpRef, peek_op};
use std::alloc::{AllocError, Global};

/// What hangs on what follows, or may.
fn unsettled(reached: Option<Frames>) -> Visit
    ensures { result ≡ record { reached = reached; settled = false } }
{
    Visit {
        reached,
        settled: false,
    }
}

/// What does not.
fn settled(reached: Option<Frames>) -> Visit
    ensures { result ≡ record { reached = reached; settled = true } }
{
    Visit {
        reached,
        settled: true,
    }
}

/// Looks at a spot, where this is done with frames: whether something is reached there. The spot behind its item waits.
fn visit_by(
    alloc: Global,
    granted: Granted,
    bytes: &[u8],
    frames: Frames,
    spot: Spot,
    waiting: &mut Vec<Spot>,
) -> Result<bool, AllocError>
    requires small { length bytes.now < 2 ^ 62 }
    requires within { IsWithin bytes.now spot }
    ensures ok { IfOk result (VisitedBy (step_at granted bytes.now frames spot) waiting.old.items waiting.new.items) }
    ensures on { IfOk result (λ _. GoesOn bytes.now spot (step_at granted bytes.now frames spot)) }
{
    let step = step_at(alloc, granted, bytes, frames, spot)?;
    follow(step, waiting)
}

/// Looks at a spot, whatever is done with frames there: by what is done with them something is reached, if anything is.
fn visit_each(
    alloc: Global,
    granted: Granted,
    bytes: &[u8],
    spot: Spot,
    waiting: &mut Vec<Spot>,
) -> Result<Visit, AllocError>
    requires small { length bytes.now < 2 ^ 62 }
    requires within { IsWithin bytes.now spot }
    ensures { IfOk result (IsVisited granted bytes.now spot waiting.old.items waiting.new.items) }
{
    if visit_by(alloc, granted, bytes, Frames::Held, spot, waiting)? {
        return Ok(unsettled(Some(Frames::Held)));
    }
    if visit_by(alloc, granted, bytes, Frames::Buffered, spot, waiting)? {
        return Ok(unsettled(Some(Frames::Buffered)));
    }
    if visit_by(alloc, granted, bytes, Frames::Ignored, spot, waiting)? {
        return Ok(unsettled(Some(Frames::Ignored)));
    }
    Ok(unsettled(None))
}

/// Looks at a spot with an operation that is read alike whatever is done with frames.
fn visit_plain(
    granted: Granted,
    bytes: &[u8],
    spot: Spot,
    op: &OpRef<'_>,
    waiting: &mut Vec<Spot>,
) -> Result<Visit, AllocError>
    requires small { length bytes.now < 2 ^ 62 }
    requires within { IsWithin bytes.now spot }
    requires reads { Reads (drop spot.offset bytes.now) op.now (size_of op.now) }
    requires plain { is_plain spot.left op.now ≡ true }
    requires sizes { spot.offset + size_of op.now ≤ length bytes.now }
    ensures { IfOk result (IsVisited granted bytes.now spot waiting.old.items waiting.new.items) }
{
    let size = op.size();
    let left = spot.left.saturating_sub(size as u64);
    let step = step_of(granted, spot, op, size, left);
    if follow(step, waiting)? {
        return Ok(settled(Some(Frames::Held)));
    }
    Ok(settled(None))
}

/// Looks at a spot with this operation.
fn visit_op(
    alloc: Global,
    granted: Granted,
    bytes: &[u8],
    spot: Spot,
    op: &OpRef<'_>,
    waiting: &mut Vec<Spot>,
) -> Result<Visit, AllocError>
    requires small { length bytes.now < 2 ^ 62 }
    requires within { IsWithin bytes.now spot }
    requires reads { Reads (drop spot.offset bytes.now) op.now (size_of op.now) }
    requires sizes { spot.offset + size_of op.now ≤ length bytes.now }
    ensures { IfOk result (IsVisited granted bytes.now spot waiting.old.items waiting.new.items) }
{
    if is_plain(spot.left, op) {
        visit_plain(granted, bytes, spot, op, waiting)
    } else {
        visit_each(alloc, granted, bytes, spot, waiting)
    }
}

/// Looks at a spot with bytes that are no operation as they stand.
fn visit_none(
    alloc: Global,
    granted: Granted,
    bytes: &[u8],
    spot: Spot,
    waiting: &mut Vec<Spot>,
) -> Result<Visit, AllocError>
    requires small { length bytes.now < 2 ^ 62 }
    requires within { IsWithin bytes.now spot }
    ensures { IfOk result (IsVisited granted bytes.now spot waiting.old.items waiting.new.items) }
{
    if is_unknown(&bytes[spot.offset..]) {
        return Ok(settled(None));
    }
    visit_each(alloc, granted, bytes, spot, waiting)
}

/// Looks at a spot, whatever is done with frames there: by what is done with them something is reached, if anything is. Others wait then.
/// An operation that is read alike whatever is done is read once.
pub(crate) fn visit(
    alloc: Global,
    granted: Granted,
    bytes: &[u8],
    spot: Spot,
    waiting: &mut Vec<Spot>,
) -> Result<Visit, AllocError>
    requires small { length bytes.now < 2 ^ 62 }
    requires within { IsWithin bytes.now spot }
    ensures { IfOk result (IsVisited granted bytes.now spot waiting.old.items waiting.new.items) }
{
    match peek_op(&bytes[spot.offset..]) {
        Ok(op) => visit_op(alloc, granted, bytes, spot, &op, waiting),
        Err(_) => visit_none(alloc, granted, bytes, spot, waiting),
    }
}
