//! Commands as rows of tables, and sessions that obey them.

use pickle_doc::DocFault;
use pickle_ops::{OpFault, Opcode, op_of};
use pickle_session::{Command, Reply, Session, Whole, Window};
use std::alloc::Global;

/// A command as a row gives it: in place of an `Op` an opcode and an argument.
#[derive(Clone, Copy, Debug, PartialEq, Eq)]
pub enum Given {
    Step,
    Back,
    Goto(usize),
    Run,
    Clear(usize),
    Insert(usize, Opcode, &'static [u8]),
    Delete(usize),
    Undo,
    Redo,
}

/// A command; the reply; the cursor, the records kept and the work after it.
pub type Counts = (Given, Reply, usize, usize, u64);

/// The command. `Memory` comes where memory runs out, another fault where the opcode has no such argument.
pub fn command(alloc: Global, given: Given) -> Result<Command, OpFault> {
    match given {
        Given::Step => Ok(Command::Step),
        Given::Back => Ok(Command::Back),
        Given::Run => Ok(Command::Run),
        Given::Goto(k) => Ok(Command::Goto(k)),
        Given::Clear(k) => Ok(Command::Clear(k)),
        Given::Insert(k, opcode, arg) => Ok(Command::insert(k, op_of(alloc, opcode, arg)?)),
        Given::Delete(k) => Ok(Command::delete(k)),
        Given::Undo => Ok(Command::Undo),
        Given::Redo => Ok(Command::Redo),
    }
}

/// A session over several pickles or one, that keeps all records.
pub fn open_whole(alloc: Global, many: bool, bytes: &[u8]) -> Result<Session<Whole>, DocFault> {
    Session::open_in(alloc, Whole::new(alloc), many, false, bytes)
}

/// A session over several pickles or one, that keeps this many of the latest records.
pub fn open_window(
    alloc: Global,
    many: bool,
    count: usize,
    bytes: &[u8],
) -> Result<Session<Window>, DocFault> {
    let window = Window::new(alloc, count.clamp(1, 1_000_000))?;
    Session::open_in(alloc, window, many, false, bytes)
}
