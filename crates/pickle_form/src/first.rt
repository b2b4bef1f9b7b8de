//! The first place at which a pickle is in no pickler's form.

ghost use Rattle.std.specs.Prelude.{◌≡◌, ◌≤◌, nat_lt, length, IfOk};
ghost use Rattle.pickle_doc.specs.Document.{size_limit};
ghost use Rattle.pickle_form.specs.Form.{fault_reason, at_place, IsFirstOther};

use crate::reason::{Other, Reason};
use crate::so_far::FormSoFar;
use pickle_doc::{ItemSource, Items, NextRef, TailFault, is_stop};
use pickle_ops::Row;
use std::alloc::{AllocError, Global};

/// Why bytes are no further opcode.
pub fn fault_reason(fault: TailFault) -> Reason
    ensures { result ≡ fault_reason fault }
{
    match fault {
        TailFault::Front(_) => Reason::Unreadable,
        TailFault::FrameInFrame => Reason::FrameInFrame,
        TailFault::FramePastEnd => Reason::FramePastEnd,
        TailFault::FrameCrossed => Reason::FrameCrossed,
    }
}

/// What is at a place.
fn at_place(place: usize, offset: u64, reason: Reason) -> Other
    ensures { result ≡ at_place place offset reason }
{
    Other {
        place,
        offset,
        reason,
    }
}

/// Whether bytes are left.
fn has_more(left: u64) -> bool
    ensures { result ≡ nat_lt 0 left }
{
    0 < left
}

/// The first place at which the pickle that the bytes are is not as picklers write it: none where it is in their form. There are to be no
/// more bytes than the limit. It fails only where memory runs out: it needs a byte for each object on the stack and in the memo.
pub fn first_other(alloc: Global, bytes: &[u8]) -> Result<Option<Other>, AllocError>
    requires { length bytes.now ≤ size_limit }
    ensures { IfOk result (IsFirstOther bytes.now) }
{
    let mut reader = Items::new(bytes);
    let mut form = FormSoFar::begin(alloc);
    let mut place = 0;
    let mut offset = 0;
    'items: loop {
        match reader.next() {
            NextRef::Tail(fault) => {
                return Ok(Some(at_place(place, offset, fault_reason(fault))));
            }
            NextRef::Item(op) => {
                let row = Row::of_ref(&op);
                if let Some(why) = form.take(&op, row)? {
                    return Ok(Some(at_place(place, offset, why)));
                }
                offset += op.size() as u64;
                place += 1;
                if !is_stop(op.opcode()) {
                    continue;
                }
                if has_more(reader.unread_len()) {
                    return Ok(Some(at_place(place, offset, Reason::Behind)));
                }
                return Ok(None);
            }
        }
    }
}
