//! What loaders read at the front of bytes, where an opcode is spelled otherwise than it should be, and where frames are kept in a
//! buffer.
#![tactic(auto)]

mod buffer;
mod fault;
mod key;
mod lenient;
mod number;
mod pass;
mod row;
mod taken;

pub use fault::NotTaken;
pub use number::Number;
pub use pass::{Passed, pass_ops};
pub use row::{LenientRow, RowKind, is_far};
pub use taken::{Frames, Taken, take_op};
