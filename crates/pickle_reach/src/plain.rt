//! Operations that are read alike whatever is done with frames.

ghost use Rattle.std.specs.Prelude.{◌≡◌};
ghost use Rattle.pickle_ops.specs.Table.{opcode_of};
ghost use Rattle.pickle_reach.specs.Inside.{is_whole, is_plain, is_unknown};

use pickle_ops::{OpRef, Opcode};

/// The opcode of a code.
fn opcode_of(code: u8) -> Option<Opcode>
    ensures { result ≡ opcode_of code }
{
    Opcode::of_code(code)
}

/// Whether bytes begin with one that is no code.
pub(crate) fn is_unknown(bytes: &[u8]) -> bool
    ensures { result ≡ is_unknown bytes.now }
{
    match bytes.split_first() {
        None => false,
        Some((code, _)) => opcode_of(*code).is_none(),
    }
}

/// Whether so many bytes are in the buffer, or nothing is.
fn is_whole(left: u64, size: u64) -> bool
    ensures { result ≡ is_whole left size }
{
    left == 0 || size <= left
}

/// Whether an operation of so many bytes is read alike whatever is done with frames: where something is in the buffer, all of it is, and it
/// is no FRAME, and no STOP that leaves something there.
pub(crate) fn is_plain(left: u64, op: &OpRef<'_>) -> bool
    ensures { result ≡ is_plain left op.now }
{
    let size = op.size() as u64;
    let whole = is_whole(left, size);
    match op.opcode() {
        Opcode::Frame => false,
        Opcode::Stop => whole && left <= size,
        _ => whole,
    }
}
