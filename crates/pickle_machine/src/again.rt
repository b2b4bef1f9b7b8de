//! Bytes whose opcodes are read once more.

ghost use Rattle.std.specs.Prelude.{◌≡◌, ℕ, slice_get, IfSome};

use pickle_ops::{FrontFault, OpRef, peek_known, peek_op};
use std::alloc::{AllocError, Global};
use std::marker::Model;

/// From how many bytes of argument on the size of an opcode is kept: the end of a shorter line is soon found.
const LONG: usize = 256;

/// A long opcode: its offset, and how many bytes spell it.
#[derive(Clone, Copy)]
pub struct LongOp {
    offset: u32,
    size: u32,
}

/// Bytes whose opcodes are read, and may be read once more, each by its offset. Of the long ones the size is kept, so that the end of a line
/// is not searched for again and again.
#[derive(Drop)]
pub(crate) struct Again<'a> {
    bytes: &'a [u8],
    // by the offset
    long: Vec<LongOp>,
}

impl<'a> Model for Again<'a> {
    ghost use Rattle.std.specs.Prelude.{ℕ, List};
    ghost use Rattle.pickle_machine.specs.Inside.LongOps.{AreLong};

    ghost Value = { List ℕ };

    ghost view = { λ a. a.bytes.now };

    ghost invariant = { λ a. AreLong a.bytes.now a.long.items };
}

/// The long opcode at this offset, if one is kept.
fn long_at(long: &[LongOp], offset: u32) -> Option<LongOp>
    ensures { IfSome result (λ l. (i : ℕ) × (slice_get long.now i ≡ Some l) × (l.offset ≡ offset)) }
{
    let at = long.partition_point(|l| l.offset < offset);
    match long.get(at) {
        Some(op) if op.offset == offset => Some(*op),
        _ => None,
    }
}

impl<'a> Again<'a> {
    ghost use Rattle.std.specs.Prelude.{◌≡◌, ◌++◌, ℕ, List, drop, length, ◌≤◌, IfOk, IfErr};
    ghost use Rattle.pickle_ops.specs.Spelling.{spelling, size_of, Reads, HasFault};

    /// These bytes, of which nothing was read.
    pub(crate) fn new(alloc: Global, bytes: &'a [u8]) -> Again<'a>
        ensures { result ≡ bytes.now }
    {
        Again {
            bytes,
            long: Vec::new(alloc),
        }
    }

    /// All bytes.
    pub(crate) fn bytes(&self) -> &'a [u8]
        ensures { result.now ≡ self.now }
    {
        self.bytes
    }

    /// Keeps the size of the opcode at this offset, where it is long. An error comes only where memory runs out; nothing is lost then.
    pub(crate) fn keep(&mut self, offset: u32, op: &OpRef<'_>) -> Result<(), AllocError>
        requires { (rest : List ℕ) × (drop offset self.old ≡ spelling op.now ++ rest) }
        ensures { self.new ≡ self.old }
    {
        let arg = op.arg();
        if arg.len() < LONG {
            return Ok(());
        }
        match u32::try_from(arg.len() + 1) {
            Ok(size) => {
                self.long.push(LongOp { offset, size })?;
                Ok(())
            }
            Err(_) => Ok(()),
        }
    }

    /// The opcode at this offset, or the fault that is there.
    pub(crate) fn op_at(&self, offset: u32) -> Result<OpRef<'a>, FrontFault>
        requires { offset ≤ length self.now }
        ensures found { IfOk result (λ op. Reads (drop offset self.now) op (size_of op)) }
        ensures fault { IfErr result (HasFault (drop offset self.now)) }
    {
        let rest = self.bytes.split_at(offset as usize).1;
        match long_at(self.long.as_slice(), offset) {
            Some(long) => Ok(peek_known(rest, long.size as usize)),
            None => peek_op(rest),
        }
    }
}
