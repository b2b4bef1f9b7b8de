//! The words of an entry.

ghost use Rattle.std.specs.Prelude.{◌≡◌, Some};
ghost use Rattle.std.specs.Option.{option_map, unwrap_or};
ghost use Rattle.pickle_allow.specs.Grammar.{no_use, every_use, word_of, nothing_said, with_use, made_so_far, frees, with_word, with_piece, with_rest, with_shape, with_front, with_chunk, uses_said};

use crate::cut::{Separator, cut};
use crate::list::{Use, Uses};
use crate::shape::is_shape;

/// A word that says what may be done.
#[derive(Clone, Copy)]
pub(crate) enum Word {
    /// `call`, `new`, `state`, `fill`: this may be done with what has the name.
    Itself(Use),
    /// `made-call`, `made-new`, `made-state`, `made-fill`: this may be done with what its calls make.
    Made(Use),
    /// `made`: something is said of what its calls make, and nothing may be done with it.
    MadeNothing,
}

/// What the words of an entry say.
#[derive(Clone, Copy)]
pub(crate) struct Said {
    /// What may be done with what has the name.
    pub(crate) itself: Uses,
    /// What may be done with what its calls make, if something is said of that.
    pub(crate) made: Option<Uses>,
    /// `call` stands without a shape, so that its calls may have any arguments.
    pub(crate) free: bool,
    /// There are shapes of the arguments of calls.
    pub(crate) shaped: bool,
    /// There are shapes of the states of what its calls make.
    pub(crate) states: bool,
}

/// Where nothing is said.
fn nothing_said() -> Said
    ensures { result ≡ nothing_said }
{
    Said {
        itself: no_use(),
        made: None,
        free: false,
        shaped: false,
        states: false,
    }
}

/// All that can be done with an object.
fn every_use() -> Uses
    ensures { result ≡ every_use }
{
    Uses {
        call: true,
        new: true,
        state: true,
        fill: true,
    }
}

/// Nothing of it.
fn no_use() -> Uses
    ensures { result ≡ no_use }
{
    Uses {
        call: false,
        new: false,
        state: false,
        fill: false,
    }
}

/// The value beside the text that the word is, if it is one of these. This is a chain of `==`, since the proof of a `match` goes over the bytes of
/// each text.
macro_rules! row_of {
    ($word:ident {}) => {
        None
    };
    ($word:ident { $text:literal => $value:expr, $($rows:tt)* }) => {
        if $word == $text.as_slice() {
            Some($value)
        } else {
            row_of!($word { $($rows)* })
        }
    };
}

pub(crate) use row_of;

/// The word that bytes are, if they are one.
fn word_of(bytes: &[u8]) -> Option<Word>
    ensures { result ≡ word_of bytes.now }
{
    row_of!(bytes {
        b"call" => Word::Itself(Use::Call),
        b"new" => Word::Itself(Use::New),
        b"state" => Word::Itself(Use::State),
        b"fill" => Word::Itself(Use::Fill),
        b"made-call" => Word::Made(Use::Call),
        b"made-new" => Word::Made(Use::New),
        b"made-state" => Word::Made(Use::State),
        b"made-fill" => Word::Made(Use::Fill),
        b"made" => Word::MadeNothing,
    })
}

/// Uses with one more. What may be called may be made by `__new__` too.
fn with_use(uses: Uses, what: Use) -> Uses
    ensures { result ≡ with_use uses what }
{
    match what {
        Use::Call => Uses {
            call: true,
            new: true,
            ..uses
        },
        Use::New => Uses { new: true, ..uses },
        Use::State => Uses {
            state: true,
            ..uses
        },
        Use::Fill => Uses { fill: true, ..uses },
    }
}

/// What has been said of what is made.
fn made_so_far(said: Said) -> Uses
    ensures { result ≡ made_so_far said }
{
    match said.made {
        Some(made) => made,
        None => no_use(),
    }
}

/// What may be done with what is made, where all is read: where nothing is said of it, everything.
pub(crate) fn made_of(said: Said) -> Uses
    ensures { result ≡ unwrap_or said.made every_use }
{
    match said.made {
        Some(made) => made,
        None => every_use(),
    }
}

/// Whether a word leaves the arguments of calls free.
fn frees(what: Use) -> bool
    ensures { result ≡ frees what }
{
    match what {
        Use::Call => true,
        Use::New => false,
        Use::State => false,
        Use::Fill => false,
    }
}

/// What is said with one word more.
fn with_word(said: Said, word: Word) -> Said
    ensures { result ≡ with_word said word }
{
    match word {
        Word::Itself(what) => Said {
            itself: with_use(said.itself, what),
            free: frees(what) || said.free,
            ..said
        },
        Word::Made(what) => Said {
            made: Some(with_use(made_so_far(said), what)),
            ..said
        },
        Word::MadeNothing => Said {
            made: Some(made_so_far(said)),
            ..said
        },
    }
}

/// What is said with what stands between two blanks.
fn with_piece(said: Said, piece: &[u8]) -> Option<Said>
    ensures { result ≡ with_piece said piece.now }
{
    if piece.is_empty() {
        return Some(said);
    }
    match word_of(piece) {
        Some(word) => Some(with_word(said, word)),
        None => None,
    }
}

/// What is said with words more, between which blanks stand.
fn with_rest(said: Said, bytes: &[u8]) -> Option<Said>
    ensures { result ≡ with_rest said bytes.now }
{
    let mut said = said;
    let mut rest = Some(bytes);
    while let Some(left) = rest {
        let piece = cut(left, Separator::Blank);
        let Some(more) = with_piece(said, piece.front) else {
            return None;
        };
        said = more;
        rest = piece.rest;
    }
    Some(said)
}

/// What is said with a word that has a shape behind it.
fn with_shape(said: Said, word: &[u8]) -> Option<Said>
    ensures { result ≡ with_shape said word.now }
{
    if word == b"call".as_slice() {
        Some(Said {
            itself: with_use(said.itself, Use::Call),
            shaped: true,
            ..said
        })
    } else if word == b"then".as_slice() {
        Some(Said {
            states: true,
            ..said
        })
    } else {
        None
    }
}

/// What is said with words, of which the last one has a shape behind it.
fn with_front(said: Said, front: &[u8]) -> Option<Said>
    ensures { result ≡ with_front said front.now }
{
    let mut said = said;
    let mut left = front;
    'pieces: loop {
        let piece = cut(left, Separator::Blank);
        let Some(next) = piece.rest else {
            return with_shape(said, piece.front);
        };
        let Some(more) = with_piece(said, piece.front) else {
            return None;
        };
        said = more;
        left = next;
    }
}

/// What is said with what stands before the end of a shape, behind the end of the one before it.
fn with_chunk(said: Said, chunk: &[u8]) -> Option<Said>
    ensures { result ≡ with_chunk said chunk.now }
{
    let piece = cut(chunk, Separator::Open);
    match piece.rest {
        Some(shape) => {
            if is_shape(shape) {
                with_front(said, piece.front)
            } else {
                None
            }
        }
        None => None,
    }
}

/// What is said by words, some of which have shapes.
fn words_said(bytes: &[u8]) -> Option<Said>
    ensures { result ≡ uses_said (Some bytes.now) }
{
    let mut said = nothing_said();
    let mut left = bytes;
    'pieces: loop {
        let piece = cut(left, Separator::Close);
        let Some(next) = piece.rest else {
            return with_rest(said, piece.front);
        };
        let Some(more) = with_chunk(said, piece.front) else {
            return None;
        };
        said = more;
        left = next;
    }
}

/// What an entry says by what stands behind its colon, or without one.
pub(crate) fn uses_said(words: Option<&[u8]>) -> Option<Said>
    ensures { result ≡ uses_said (option_map (λ w. w.now) words.entry) }
{
    match words {
        Some(words) => words_said(words),
        None => Some(Said {
            itself: every_use(),
            free: true,
            ..nothing_said()
        }),
    }
}
