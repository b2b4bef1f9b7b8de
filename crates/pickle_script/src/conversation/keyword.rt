//! The first word of a line.

ghost use Rattle.std.specs.Prelude.{◌≡◌};
ghost use Rattle.pickle_script.specs.Grammar.{command_word, query_word, place_word, op_word, word_at, op_at};

use crate::conversation::line::Query;
use pickle_doc::Edit;
use pickle_ops::Op;
use pickle_session::Command;

/// A word before a place.
#[derive(Clone, Copy, Debug, PartialEq, Eq)]
pub enum PlaceWord {
    /// `goto K`
    Goto,
    /// `break K`
    Break,
    /// `clear K`
    Clear,
    /// `delete K`
    Delete,
    /// `unframe K`
    Unframe,
}

/// A word before a place, a name and bytes, which are the whole argument: no text of an argument has to be read.
#[derive(Clone, Copy, Debug, PartialEq, Eq)]
pub enum OpWord {
    /// `replace K NAME HEX`
    Replace,
    /// `insert K NAME HEX`
    Insert,
}

/// The value beside the text that the word is, if it is one of these. This is a chain of `==`, since the proof of a `match` goes over
/// the bytes of each text.
macro_rules! row_of {
    ($word:ident {}) => {
        None
    };
    ($word:ident { $text:literal => $value:expr, $($rows:tt)* }) => {
        if $word == $text.as_slice() {
            Some($value)
        } else {
            row_of!($word { $($rows)* })
        }
    };
}

/// The command that a first word is.
pub(crate) fn command_word(word: &[u8]) -> Option<Command>
    ensures { result ≡ command_word word.now }
{
    row_of!(word {
        b"step" => Command::Step,
        b"back" => Command::Back,
        b"run" => Command::Run,
        b"undo" => Command::Undo,
        b"redo" => Command::Redo,
    })
}

/// The question that a first word is.
pub(crate) fn query_word(word: &[u8]) -> Option<Query>
    ensures { result ≡ query_word word.now }
{
    row_of!(word {
        b"items" => Query::Items,
        b"objects" => Query::Objects,
        b"stack" => Query::Stack,
        b"memo" => Query::Memo,
        b"where" => Query::Where,
    })
}

/// The first word of a line, before a place.
pub(crate) fn place_word(word: &[u8]) -> Option<PlaceWord>
    ensures { result ≡ place_word word.now }
{
    row_of!(word {
        b"goto" => PlaceWord::Goto,
        b"break" => PlaceWord::Break,
        b"clear" => PlaceWord::Clear,
        b"delete" => PlaceWord::Delete,
        b"unframe" => PlaceWord::Unframe,
    })
}

/// The first word of a line, before a place, a name and bytes.
pub(crate) fn op_word(word: &[u8]) -> Option<OpWord>
    ensures { result ≡ op_word word.now }
{
    row_of!(word {
        b"replace" => OpWord::Replace,
        b"insert" => OpWord::Insert,
    })
}

impl PlaceWord {
    /// The command that does this at place k.
    pub fn at(self, k: usize) -> Command
        ensures { result ≡ word_at self k }
    {
        match self {
            PlaceWord::Goto => Command::Goto(k),
            PlaceWord::Break => Command::Break(k),
            PlaceWord::Clear => Command::Clear(k),
            PlaceWord::Delete => Command::Edit(Edit::Delete(k)),
            PlaceWord::Unframe => Command::Edit(Edit::Unframe(k)),
        }
    }
}

impl OpWord {
    /// The command that does this with an operation at place k.
    pub fn at(self, k: usize, op: Op) -> Command
        ensures { result ≡ op_at self k op }
    {
        match self {
            OpWord::Replace => Command::Edit(Edit::Replace(k, op)),
            OpWord::Insert => Command::Edit(Edit::Insert(k, op)),
        }
    }
}
