//! The gate.

ghost use Rattle.std.specs.Prelude.{◌≡◌, ◌≤◌, nat_lt, if◌then◌else◌, length, None, IfOk};
ghost use Rattle.pickle_doc.specs.Document.{size_limit};
ghost use Rattle.pickle_form.specs.Form.{at_place};
ghost use Rattle.pickle_gate.specs.Verdict.{IsVerdict};

use crate::judge::{allow_step, protocol_here};
use crate::seen::looked_before;
use crate::verdict::Verdict;
use pickle_allow::{Entry, limits_of};
use pickle_calls::Ending;
use pickle_doc::{ItemSource, Items, NextRef, is_stop};
use pickle_form::{FormSoFar, Other, Reason, fault_reason};
use pickle_machine::{Inspect, Refusal, Slim};
use pickle_ops::Row;
use pickle_text::Closing;
use std::alloc::{AllocError, Global};

/// What is said of a place that is not as picklers write it.
fn other(place: usize, offset: u64, reason: Reason) -> Verdict
    ensures { result ≡ Verdict.Other (at_place place offset reason) }
{
    Verdict::Other(Other {
        place,
        offset,
        reason,
    })
}

/// What is said of an item that is refused.
fn refused(place: usize, refusal: Refusal) -> Verdict
    ensures { result ≡ Verdict.Ends (Ending.Closed 0 (Closing.Refused place refusal)) }
{
    Verdict::Ends(Ending::Closed(0, Closing::Refused(place, refusal)))
}

/// What is said behind STOP, where so many bytes are left, and all before it is allowed.
fn stopped(place: usize, offset: u64, left: u64) -> Verdict
    ensures { result ≡ if nat_lt 0 left then Verdict.Other (at_place place offset Reason.Behind) else Verdict.Passes }
{
    if 0 < left {
        other(place, offset, Reason::Behind)
    } else {
        Verdict::Passes
    }
}

/// What the gate says of bytes, of which there are to be no more than the limit: whether they are one pickle in the form of picklers, all of which
/// the list allows; or what comes first of these: an item that is in another form, one that is refused, or one that is not allowed. It goes over the
/// bytes once, and decodes each name once. It fails only where memory runs out.
pub fn gate(alloc: Global, list: &[Entry<'_>], bytes: &[u8]) -> Result<Verdict, AllocError>
    requires { length bytes.now ≤ size_limit }
    ensures { IfOk result (IsVerdict list.now bytes.now) }
{
    let limits = limits_of(alloc, list)?;
    let mut reader = Items::new(bytes);
    let mut form = FormSoFar::begin(alloc);
    let mut machine = Slim::new(alloc, false, bytes);
    let mut keeps = Vec::new(alloc);
    let mut protocol = 0;
    let mut place = 0;
    let mut offset = 0;
    'items: loop {
        match reader.next() {
            NextRef::Tail(fault) => return Ok(other(place, offset, fault_reason(fault))),
            NextRef::Item(op) => {
                let row = Row::of_ref(&op);
                if let Some(why) = form.take(&op, row)? {
                    return Ok(other(place, offset, why));
                }
                let before = looked_before(row, &machine);
                if let Err(refusal) = machine.step(alloc, row, &op) {
                    if refusal == Refusal::Memory {
                        return Err(AllocError);
                    }
                    return Ok(refused(place, refusal));
                }
                protocol = protocol_here(place, &op, protocol);
                let good = allow_step(
                    alloc,
                    list,
                    limits.as_slice(),
                    protocol,
                    &machine,
                    &op,
                    row,
                    before,
                    &mut keeps,
                )?;
                if !good {
                    return Ok(Verdict::Forbidden(place, offset));
                }
                offset += op.size() as u64;
                place += 1;
                if is_stop(op.opcode()) {
                    return Ok(stopped(place, offset, reader.unread_len()));
                }
            }
        }
    }
}
