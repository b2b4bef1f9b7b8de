//! Opcodes that loaders take alike which keep frames in a buffer, whether they have bytes of a frame there or not.

ghost use Rattle.std.specs.Prelude.{◌≡◌, ◌+◌, ◌<◌, ◌≤◌, ◌-◌, length, true, false, IsTrue, IfSome};
ghost use Rattle.pickle_ops.specs.Spelling.{Reads, size_of};
ghost use Rattle.pickle_doc.specs.DocUnit.{is_frame, is_stop, frame_number};
ghost use Rattle.pickle_lenient.specs.Passing.{Passes, PassesSome, at_most};

use pickle_doc::is_stop;
use pickle_ops::{OpRef, Opcode, peek_op};

/// How far opcodes were passed.
#[derive(Clone, Copy)]
pub struct Passed {
    /// How many bytes they take.
    pub size: usize,
    /// How many bytes of the buffer are left behind them.
    pub left: u64,
}

/// Whether an opcode is FRAME.
#[inline(always)]
fn is_frame(opcode: Opcode) -> bool
    ensures { result ≡ is_frame opcode }
{
    matches!(opcode, Opcode::Frame)
}

/// The number of a FRAME.
#[inline(always)]
fn frame_number(op: &OpRef<'_>) -> u64
    requires { IsTrue (is_frame op.now.opcode) }
    ensures { result ≡ frame_number op.now }
{
    op.number()
}

/// What of so many bytes there is.
#[inline(always)]
fn at_most(number: u64, there: u64) -> u64
    ensures is { result ≡ at_most number there }
    ensures within { result ≤ there }
{
    if number <= there { number } else { there }
}

/// Passes FRAME, where nothing is in the buffer.
#[inline(always)]
fn pass_frame(op: &OpRef<'_>, bytes: &[u8], left: u64) -> Option<Passed>
    requires read { Reads bytes.now op.now (size_of op.now) }
    requires frame { is_frame op.now.opcode ≡ true }
    ensures passes { IfSome result (λ p. Passes left bytes.now p.size p.left) }
    ensures some { IfSome result (λ p. 0 < p.size) }
    ensures within { IfSome result (λ p. p.size + p.left ≤ length bytes.now) }
{
    if left > 0 {
        return None;
    }
    let size = op.size();
    let there = (bytes.len() - size) as u64;
    Some(Passed {
        size,
        left: at_most(frame_number(op), there),
    })
}

/// Passes STOP, where nothing is in the buffer behind it.
#[inline(always)]
fn pass_stop(op: &OpRef<'_>, bytes: &[u8], left: u64) -> Option<Passed>
    requires read { Reads bytes.now op.now (size_of op.now) }
    requires frame { is_frame op.now.opcode ≡ false }
    requires few { left ≤ length bytes.now }
    ensures passes { IfSome result (λ p. Passes left bytes.now p.size p.left) }
    ensures some { IfSome result (λ p. 0 < p.size) }
    ensures within { IfSome result (λ p. p.size + p.left ≤ length bytes.now) }
{
    let size = op.size();
    if left == 0 {
        Some(Passed { size, left: 0 })
    } else if left == size as u64 {
        Some(Passed { size, left: 0 })
    } else {
        None
    }
}

/// Passes another opcode, where it is in the buffer, or nothing is there.
#[inline(always)]
fn pass_plain(op: &OpRef<'_>, bytes: &[u8], left: u64) -> Option<Passed>
    requires read { Reads bytes.now op.now (size_of op.now) }
    requires frame { is_frame op.now.opcode ≡ false }
    requires stop { is_stop op.now.opcode ≡ false }
    requires few { left ≤ length bytes.now }
    ensures passes { IfSome result (λ p. Passes left bytes.now p.size p.left) }
    ensures some { IfSome result (λ p. 0 < p.size) }
    ensures within { IfSome result (λ p. p.size + p.left ≤ length bytes.now) }
{
    let size = op.size();
    if left == 0 {
        Some(Passed { size, left: 0 })
    } else if size as u64 <= left {
        Some(Passed {
            size,
            left: left - size as u64,
        })
    } else {
        None
    }
}

/// Passes the opcode at the front of the bytes, of which this many are in the buffer, where it is sure that loaders take it alike.
#[inline(always)]
fn pass_op(bytes: &[u8], left: u64) -> Option<Passed>
    requires few { left ≤ length bytes.now }
    ensures passes { IfSome result (λ p. Passes left bytes.now p.size p.left) }
    ensures some { IfSome result (λ p. 0 < p.size) }
    ensures within { IfSome result (λ p. p.size + p.left ≤ length bytes.now) }
{
    let Ok(op) = peek_op(bytes) else {
        return None;
    };
    if is_frame(op.opcode()) {
        pass_frame(&op, bytes, left)
    } else if is_stop(op.opcode()) {
        pass_stop(&op, bytes, left)
    } else {
        pass_plain(&op, bytes, left)
    }
}

/// Passes the opcodes at the front of the bytes, of which this many are in the buffer, up to the first of which it is not sure that
/// loaders take it alike. It takes no memory.
pub fn pass_ops(bytes: &[u8], left: u64) -> Passed
    requires few { left ≤ length bytes.now }
    ensures passes { PassesSome left bytes.now result.size result.left }
    ensures within { result.size + result.left ≤ length bytes.now }
{
    let mut rest = bytes;
    let mut now = left;
    let mut size: usize = 0;
    'opcodes: loop {
        let Some(passed) = pass_op(rest, now) else {
            return Passed { size, left: now };
        };
        rest = rest.split_at(passed.size).1;
        size += passed.size;
        now = passed.left;
    }
}
