//! What a line asks for, and why it asks for nothing.

ghost use Rattle.std.specs.Prelude.{◌≡◌};
ghost use Rattle.pickle_script.specs.Grammar.{command_at};

use crate::conversation::keyword::{OpWord, PlaceWord};
use pickle_doc::Edit;
use pickle_ops::{Op, OpFault};
use pickle_session::Command;

/// What is asked about a session; it changes nothing.
#[derive(Clone, Copy, Debug, PartialEq, Eq)]
pub enum Query {
    /// `items`: the items of the document.
    Items,
    /// `objects`: the objects of the machine.
    Objects,
    /// `stack`: the objects and the marks on the stack.
    Stack,
    /// `memo`: the entries of the memo.
    Memo,
    /// `show N`: the object of this number, with all that it contains. A number that names no object is no fault of the
    /// line: the answer says so (V1).
    Show(u64),
    /// `where`: where the cursor is.
    Where,
}

/// A place of the document, as a line names it.
#[derive(Clone, Copy, Debug, PartialEq, Eq)]
pub enum Place {
    /// `K`: by its number.
    Number(usize),
    /// `@O`: by its offset, in the document as it is when the line is obeyed.
    Offset(u64),
}

/// What is done at a place, which is read apart from it: a command generic over its place would carry that parameter through the session.
#[derive(Debug, Drop)]
pub enum Action {
    /// What a word says alone.
    Word(PlaceWord),
    /// What a word says with an operation.
    Put(OpWord, Op),
    /// `frame K COUNT`
    Frame(usize),
}

impl Action {
    /// The command that does this at place k.
    pub fn at(self, k: usize) -> Command
        ensures { result ≡ command_at self k }
    {
        match self {
            Action::Word(word) => word.at(k),
            Action::Put(word, op) => word.at(k, op),
            Action::Frame(count) => Command::Edit(Edit::Frame(k, count)),
        }
    }
}

/// What a line asks for.
#[derive(Debug, Drop)]
pub enum Line {
    /// It has no word.
    Nothing,
    /// A command to the session that names no place.
    Command(Command),
    /// A command to the session at this place.
    At(Place, Action),
    /// A question about the session.
    Query(Query),
    /// `quit`: nothing after this line is obeyed.
    Quit,
}

/// Why a line asks for nothing: the first that applies, in this order: X7, X1, then word by word X2 to X5, then X6, then X8.
#[derive(Clone, Copy, Debug, PartialEq, Eq)]
pub enum Syntax {
    /// X1: its first word is none that is known.
    UnknownWord,
    /// X2: a word is missing.
    MissingWord,
    /// X3: a word is no number below 2^64 in decimal digits, which has `@` in front where a place is named by its offset.
    BadNumber,
    /// X4: a word is no opcode's name.
    UnknownOpcodeName,
    /// X5: a word is no bytes in hexadecimal.
    BadHex,
    /// X6: a word comes after those that are asked for.
    ExtraWord,
    /// X7: the line has more than 65,536 bytes.
    LineTooLong,
    /// X8: the bytes are no argument of the opcode.
    BadOp(OpFault),
    /// M: there was no memory for the opcode's argument.
    Memory,
}
