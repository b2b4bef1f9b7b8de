//! Why a text with labels is not taken.

use opcode_assembler::Reason;

/// Why a text gives no bytes.
#[derive(Clone, Copy, Debug, PartialEq, Eq)]
pub enum LabelRefusal {
    /// The first line that is no line of an assembler: its number, from 1, and why.
    Line(u64, Reason),
    /// The first line that is MEMOIZE, in a text with labels: its number, from 1. MEMOIZE would take a key that a label may have.
    Counting(u64),
    /// There was no memory.
    Memory,
}
