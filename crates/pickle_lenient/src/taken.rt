//! What loaders take from the front of bytes.

ghost use Rattle.std.specs.Prelude.{◌≡◌, ◌+◌, ◌-◌, ◌<◌, ◌≤◌, ◌^◌, ◌++◌, ◌&&◌, false, true, length, take, drop, IsTrue, IfOk, IfErr};
ghost use Rattle.pickle_ops.specs.Front.{front_of};
ghost use Rattle.pickle_doc.specs.DocUnit.{is_frame, is_stop, frame_number};
ghost use Rattle.pickle_lenient.specs.Lenient.{lenient};
ghost use Rattle.pickle_lenient.specs.Stream.{IsTaken, IsNotTaken, IsAnswer, IsNoAnswer, ends_in, first_read, framed, refilled, settled, plain, within, across, buffered};

use crate::buffer::{ends_in, first_read, read_across};
use crate::fault::NotTaken;
use crate::lenient::read_lenient;
use crate::row::LenientRow;
use pickle_doc::is_stop;
use pickle_ops::{Op, Opcode};
use std::alloc::Global;

/// What a loader does with frames.
#[derive(Clone, Copy, Debug, PartialEq, Eq)]
pub enum Frames {
    /// They are nothing: bytes are read one after another.
    Ignored,
    /// The bytes of a frame are kept in a buffer, and what a read does not find whole in the buffer is read behind it. After STOP the
    /// next load has a buffer of its own.
    Buffered,
    /// The same, but after STOP the same unpickler reads on, and its buffer stays.
    Held,
}

/// What a loader takes from the front of bytes.
#[derive(Drop)]
pub struct Taken {
    /// The operation; of GET and PUT of a number that is spelled otherwise, the FRAME of 0, which makes nothing either.
    pub op: Op,
    /// The row as which it moves.
    pub row: LenientRow,
    /// How many bytes it takes, those that are lost among them.
    pub size: usize,
    /// How many bytes of the buffer are left behind it.
    pub left: u64,
    /// Whether bytes are lost.
    pub lost: bool,
}

/// Whether an opcode is FRAME.
fn is_frame(opcode: Opcode) -> bool
    ensures { result ≡ is_frame opcode }
{
    matches!(opcode, Opcode::Frame)
}

/// The number of a FRAME.
fn frame_number(op: &Op) -> u64
    requires { IsTrue (is_frame op.now.opcode) }
    ensures { result ≡ frame_number op.now }
{
    op.number()
}

/// What is left of the buffer is lost, and this many bytes are in it.
fn refilled(taken: Taken, left: u64) -> Taken
    requires small { taken.size + taken.left < 2 ^ 62 }
    ensures { result ≡ refilled left taken }
{
    Taken {
        op: taken.op,
        row: taken.row,
        size: taken.size + taken.left as usize,
        left,
        lost: taken.lost || 0 < taken.left,
    }
}

/// After FRAME of this number. At the end of the file the buffer is what there is.
fn framed(bytes: &[u8], taken: Taken, number: u64) -> Taken
    requires small { length bytes.now < 2 ^ 62 }
    requires within { taken.size + taken.left ≤ length bytes.now }
    ensures is { result ≡ framed bytes.now taken number }
    ensures op { result.op ≡ taken.op }
    ensures row { result.row ≡ taken.row }
    ensures some { taken.size ≤ result.size }
    ensures within { result.size + result.left ≤ length bytes.now }
{
    if number <= taken.left {
        return taken;
    }
    let behind = bytes.len() - (taken.size + taken.left as usize);
    if number <= behind as u64 {
        return refilled(taken, number);
    }
    refilled(taken, behind as u64)
}

/// Whether an opcode loses what is left of the buffer.
fn loses(ends: bool, opcode: Opcode) -> bool
    ensures { result ≡ (ends && is_stop opcode) }
{
    ends && is_stop(opcode)
}

/// What an opcode does to the buffer, of which STOP may lose what is left.
fn settled(ends: bool, bytes: &[u8], taken: Taken) -> Taken
    requires small { length bytes.now < 2 ^ 62 }
    requires within { taken.size + taken.left ≤ length bytes.now }
    ensures is { result ≡ settled ends bytes.now taken }
    ensures op { result.op ≡ taken.op }
    ensures row { result.row ≡ taken.row }
    ensures some { taken.size ≤ result.size }
    ensures within { result.size + result.left ≤ length bytes.now }
{
    let opcode = taken.op.opcode();
    if loses(ends, opcode) {
        return refilled(taken, 0);
    }
    if is_frame(opcode) {
        let number = frame_number(&taken.op);
        return framed(bytes, taken, number);
    }
    taken
}

/// What is taken where frames are ignored.
fn take_plain(alloc: Global, bytes: &[u8]) -> Result<Taken, NotTaken>
    requires small { length bytes.now < 2 ^ 62 }
    ensures ok { IfOk result (IsAnswer bytes.now (plain (lenient bytes.now))) }
    ensures err { IfErr result (IsNoAnswer (plain (lenient bytes.now))) }
{
    match read_lenient(alloc, bytes) {
        Ok(found) => Ok(Taken {
            op: found.op,
            row: found.row,
            size: found.size,
            left: 0,
            lost: false,
        }),
        Err(stop) => Err(stop),
    }
}

/// What is taken of a buffer, in which it ends.
fn take_within(alloc: Global, ends: bool, bytes: &[u8], buffer: &[u8]) -> Result<Taken, NotTaken>
    requires small { length bytes.now < 2 ^ 62 }
    requires few { length buffer.now ≤ length bytes.now }
    ensures ok { IfOk result (IsAnswer bytes.now (within ends bytes.now (length buffer.now) (lenient buffer.now))) }
    ensures err { IfErr result (IsNoAnswer (within ends bytes.now (length buffer.now) (lenient buffer.now))) }
{
    match read_lenient(alloc, buffer) {
        Ok(found) => {
            let left = buffer.len() - found.size;
            let taken = Taken {
                op: found.op,
                row: found.row,
                size: found.size,
                left: left as u64,
                lost: false,
            };
            Ok(settled(ends, bytes, taken))
        }
        Err(stop) => Err(stop),
    }
}

/// What is taken where it does not end in the buffer.
fn take_across(
    alloc: Global,
    ends: bool,
    bytes: &[u8],
    buffer: &[u8],
    behind: &[u8],
) -> Result<Taken, NotTaken>
    requires small { length bytes.now < 2 ^ 62 }
    requires parts { bytes.now ≡ buffer.now ++ behind.now }
    requires sizes { length bytes.now ≡ length buffer.now + length behind.now }
    ensures ok { IfOk result (IsAnswer bytes.now (across ends bytes.now (length buffer.now - first_read buffer.now)
        (lenient (take (first_read buffer.now) buffer.now ++ behind.now)))) }
    ensures err { IfErr result (IsNoAnswer (across ends bytes.now (length buffer.now - first_read buffer.now)
        (lenient (take (first_read buffer.now) buffer.now ++ behind.now)))) }
{
    let read = first_read(buffer);
    let gap = buffer.len() - read;
    match read_across(alloc, bytes, buffer, behind, read) {
        Ok(found) => {
            let taken = Taken {
                op: found.op,
                row: found.row,
                size: found.size + gap,
                left: 0,
                lost: 0 < gap,
            };
            Ok(settled(ends, bytes, taken))
        }
        Err(stop) => Err(stop),
    }
}

/// What is taken where frames are kept in a buffer, which has this many of the bytes.
fn take_buffered(alloc: Global, ends: bool, left: u64, bytes: &[u8]) -> Result<Taken, NotTaken>
    requires small { length bytes.now < 2 ^ 62 }
    ensures ok { IfOk result (IsAnswer bytes.now (buffered ends left bytes.now)) }
    ensures err { IfErr result (IsNoAnswer (buffered ends left bytes.now)) }
{
    let size = left.min(bytes.len() as u64) as usize;
    let (buffer, behind) = bytes.split_at(size);
    take_parted(alloc, ends, left, bytes, buffer, behind)
}

/// The same, of the bytes in the buffer and those behind it.
fn take_parted(
    alloc: Global,
    ends: bool,
    left: u64,
    bytes: &[u8],
    buffer: &[u8],
    behind: &[u8],
) -> Result<Taken, NotTaken>
    requires small { length bytes.now < 2 ^ 62 }
    requires first { buffer.now ≡ take left bytes.now }
    requires rest { behind.now ≡ drop left bytes.now }
    requires parts { bytes.now ≡ buffer.now ++ behind.now }
    requires sizes { length bytes.now ≡ length buffer.now + length behind.now }
    ensures ok { IfOk result (IsAnswer bytes.now (buffered ends left bytes.now)) }
    ensures err { IfErr result (IsNoAnswer (buffered ends left bytes.now)) }
{
    if ends_in(buffer) {
        take_within(alloc, ends, bytes, buffer)
    } else {
        take_across(alloc, ends, bytes, buffer, behind)
    }
}

/// What loaders take from the front of the bytes, whose first `left` ones are in the buffer (none where frames are ignored), or why
/// they take nothing: a fault at which they end as well, or memory ran out.
#[tactic(auto, unfolding(crate::specs::Stream::taken))]
pub fn take_op(alloc: Global, frames: Frames, left: u64, bytes: &[u8]) -> Result<Taken, NotTaken>
    requires small { length bytes.now < 2 ^ 62 }
    ensures ok { IfOk result (IsTaken frames left bytes.now) }
    ensures err { IfErr result (IsNotTaken frames left bytes.now) }
{
    match frames {
        Frames::Ignored => take_plain(alloc, bytes),
        Frames::Buffered => take_buffered(alloc, true, left, bytes),
        Frames::Held => take_buffered(alloc, false, left, bytes),
    }
}
