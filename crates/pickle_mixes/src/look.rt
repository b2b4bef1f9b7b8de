//! Looking at a place: whether a loader may act there, and the places behind it.

ghost use Rattle.std.specs.Prelude.{◌≡◌, ◌+◌, ◌<◌, ◌&&◌, ◌||◌, ◌==◌, ◌^◌, length, Ok, OnOk, IfOk};
ghost use Rattle.pickle_mixes.specs.Acting.{may_act, acts_by, is_over, with_item};
ghost use Rattle.pickle_mixes.specs.Inside.{IsIn, LookedBy, IsLooked};

use crate::place::Place;
use crate::queue::add_place;
use pickle_doc::is_stop;
use pickle_lenient::{Frames, NotTaken, Taken, take_op};
use pickle_ops::{OpRef, Opcode};
use std::alloc::{AllocError, Global};

/// Whether an opcode imports, calls, asks for something, sets a state, or puts something into an object.
fn may_act(opcode: Opcode) -> bool
    ensures { result ≡ may_act opcode }
{
    match opcode {
        Opcode::Global => true,
        Opcode::Inst => true,
        Opcode::StackGlobal => true,
        Opcode::Ext1 => true,
        Opcode::Ext2 => true,
        Opcode::Ext4 => true,
        Opcode::PersId => true,
        Opcode::BinPersId => true,
        Opcode::NextBuffer => true,
        Opcode::Reduce => true,
        Opcode::NewObj => true,
        Opcode::NewObjEx => true,
        Opcode::Obj => true,
        Opcode::Build => true,
        Opcode::Append => true,
        Opcode::Appends => true,
        Opcode::SetItem => true,
        Opcode::SetItems => true,
        Opcode::AddItems => true,
        _ => false,
    }
}

/// Whether an operation acts at a place where so many bytes are in the buffer, that may lose bytes or not.
fn acts(opcode: Opcode, left: u64, lost: bool) -> bool
    ensures { result ≡ (may_act opcode && (left == 0 || lost)) }
{
    let act = may_act(opcode);
    act && (left == 0 || lost)
}

/// Whether a load is over behind an operation.
fn is_over(many: bool, op: &OpRef<'_>) -> bool
    ensures { result ≡ is_over many op.now }
{
    let stop = is_stop(op.opcode());
    !many && stop
}

/// Adds the places behind an operation of so many bytes, behind which so many are in the buffer.
fn add_behind(
    many: bool,
    place: Place,
    op: &OpRef<'_>,
    size: usize,
    left: u64,
    places: &mut Vec<Place>,
) -> Result<(), AllocError>
    requires { place.offset + size < 2 ^ 63 }
    ensures { OnOk result (places.new.items ≡ with_item many place op.now size left places.old.items) }
{
    if is_over(many, op) {
        return Ok(());
    }
    let offset = place.offset + size;
    add_place(places, Place { offset, left: 0 })?;
    add_place(places, Place { offset, left })
}

/// Adds the places behind an item, and answers whether it acts.
fn look_taken(
    many: bool,
    place: Place,
    taken: &Taken,
    places: &mut Vec<Place>,
) -> Result<bool, AllocError>
    requires { place.offset + taken.now.size < 2 ^ 63 }
    ensures acts { IfOk result (λ acts. acts ≡ acts_by place (Ok taken.now)) }
    ensures next { OnOk result (places.new.items ≡ with_item many place taken.now.op taken.now.size taken.now.left places.old.items) }
{
    let op = taken.op.by_ref();
    add_behind(many, place, &op, taken.size, taken.left, places)?;
    Ok(acts(op.opcode(), place.left, taken.lost))
}

/// Looks at a place, where this is done with frames.
fn look_by(
    alloc: Global,
    many: bool,
    bytes: &[u8],
    place: Place,
    frames: Frames,
    places: &mut Vec<Place>,
) -> Result<bool, AllocError>
    requires small { length bytes.now < 2 ^ 62 }
    requires within { IsIn bytes.now place }
    ensures { IfOk result (LookedBy many bytes.now place frames places.old.items places.new.items) }
{
    match take_op(alloc, frames, place.left, &bytes[place.offset..]) {
        Ok(taken) => look_taken(many, place, &taken, places),
        Err(NotTaken::Fault(_)) => Ok(false),
        Err(NotTaken::Memory) => Err(AllocError),
    }
}

/// Looks at a place: whether a loader may act there that keeps frames in a buffer. The places behind it are added, whatever is done with
/// frames.
pub(crate) fn look(
    alloc: Global,
    many: bool,
    bytes: &[u8],
    place: Place,
    places: &mut Vec<Place>,
) -> Result<bool, AllocError>
    requires small { length bytes.now < 2 ^ 62 }
    requires within { IsIn bytes.now place }
    ensures { IfOk result (IsLooked many bytes.now place places.old.items places.new.items) }
{
    let acts = look_by(alloc, many, bytes, place, Frames::Held, places)?;
    look_by(alloc, many, bytes, place, Frames::Buffered, places)?;
    look_by(alloc, many, bytes, place, Frames::Ignored, places)?;
    Ok(acts)
}
