//! A line of a list.

ghost use Rattle.std.specs.Prelude.{◌≡◌};
ghost use Rattle.std.specs.Option.{option_map};
ghost use Rattle.pickle_allow.specs.Grammar.{words_if, entry_says, text_says, line_says};
ghost use Rattle.pickle_allow.specs.Lines.{line_rows};

use crate::cut::{Separator, cut, trimmed};
use crate::list::Entry;
use crate::spelling::{is_name, is_nothing, is_word};
use crate::words::{made_of, uses_said};

/// What a line is.
#[derive(Clone, Copy)]
pub(crate) enum Line<'a> {
    /// Blanks and a note, or nothing at all.
    Nothing,
    /// An entry.
    Entry(Entry<'a>),
    /// No line of a list.
    Wrong,
}

/// The words behind a name, where they limit something.
fn words_if<'a>(limited: bool, words: Option<&'a [u8]>) -> &'a [u8]
    ensures { result.now ≡ words_if limited (option_map (λ w. w.now) words.entry) }
{
    match words {
        Some(words) => { if limited { words } else { b"".as_slice() } }
        None => b"".as_slice(),
    }
}

/// The entry of a name, a pattern or a word, and of what stands behind it.
fn entry_line<'a>(name: &'a [u8], words: Option<&'a [u8]>) -> Line<'a>
    ensures { line_rows result ≡ entry_says name.now (option_map (λ w. w.now) words.entry) }
{
    if !is_name(name) && !is_word(name) {
        return Line::Wrong;
    }
    match uses_said(words) {
        Some(said) => Line::Entry(Entry {
            pattern: name,
            itself: said.itself,
            made: made_of(said),
            shapes: words_if(said.shaped && !said.free, words),
            states: words_if(said.states, words),
        }),
        None => Line::Wrong,
    }
}

/// What a text without a note is.
fn read_text(text: &[u8]) -> Line<'_>
    ensures { line_rows result ≡ text_says text.now }
{
    if is_nothing(trimmed(text)) {
        return Line::Nothing;
    }
    let piece = cut(text, Separator::Colon);
    entry_line(trimmed(piece.front), piece.rest)
}

/// What a line is.
pub(crate) fn read_line(line: &[u8]) -> Line<'_>
    ensures { line_rows result ≡ line_says line.now }
{
    read_text(cut(line, Separator::Hash).front)
}
