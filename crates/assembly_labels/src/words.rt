//! The words of a line, as the assembler reads them.

ghost use Rattle.std.specs.Prelude.{◌≡◌};
ghost use Rattle.std.specs.List.{prefix_len};
ghost use Rattle.opcode_assembler.specs.Words.{is_blank, is_letter, trimmed, word, after_word, is_over, uncoloned, is_place, unnumbered};
ghost use Rattle.opcode_assembler.specs.Assembly.{uncoded, unplaced};

use pickle_ops::{Opcode, decimal_of};

/// The first word of a text, empty where there is none, and what comes after it.
#[derive(Clone, Copy)]
pub(crate) struct FirstWord<'a> {
    pub(crate) word: &'a [u8],
    pub(crate) rest: &'a [u8],
}

/// Whether a byte separates words.
fn is_blank(byte: u8) -> bool
    ensures { result ≡ is_blank byte }
{
    byte == b' ' || byte == b'\t' || byte == b'\r'
}

/// How many blanks are in front.
fn blanks_len(bytes: &[u8]) -> usize
    ensures { result ≡ prefix_len is_blank bytes.now }
{
    bytes.iter().take_while(|byte| is_blank(**byte)).count()
}

/// How many bytes are before the first blank.
fn word_len(bytes: &[u8]) -> usize
    ensures { result ≡ prefix_len is_letter bytes.now }
{
    bytes.iter().take_while(|byte| !is_blank(**byte)).count()
}

/// A text without the blanks in front.
pub(crate) fn trimmed(text: &[u8]) -> &[u8]
    ensures { result.now ≡ trimmed text.now }
{
    text.split_at(blanks_len(text)).1
}

/// Cuts a text behind its first word.
pub(crate) fn cut(text: &[u8]) -> FirstWord<'_>
    ensures word { result.word.now ≡ word text.now }
    ensures rest { result.rest.now ≡ after_word text.now }
{
    let left = trimmed(text);
    let (word, rest) = left.split_at(word_len(left));
    FirstWord { word, rest }
}

/// Whether nothing but a comment is left.
pub(crate) fn is_over(text: &[u8]) -> bool
    ensures { result ≡ is_over text.now }
{
    match trimmed(text).first() {
        None => true,
        Some(byte) => *byte == b'#',
    }
}

/// A word without the colon at its end.
fn uncoloned(word: &[u8]) -> &[u8]
    ensures { result.now ≡ uncoloned word.now }
{
    let count = word.len();
    if count > 0 && word[count - 1] == b':' {
        return &word[..count - 1];
    }
    word
}

/// Whether a word is an offset.
fn is_place(word: &[u8]) -> bool
    ensures { result ≡ is_place word.now }
{
    decimal_of(uncoloned(word)).is_some()
}

/// What comes after an offset in front, where there is one.
pub(crate) fn unnumbered(text: &[u8]) -> &[u8]
    ensures { result.now ≡ unnumbered text.now }
{
    let first = cut(text);
    if is_place(first.word) {
        first.rest
    } else {
        text
    }
}

/// What comes after the code in front, where it stands before the name.
fn uncoded(text: &[u8]) -> &[u8]
    ensures { result.now ≡ uncoded text.now }
{
    let first = cut(text);
    if Opcode::of_name(first.word).is_some() {
        text
    } else {
        first.rest
    }
}

/// What comes after the offset and the code in front, where there are these.
pub(crate) fn unplaced(text: &[u8]) -> &[u8]
    ensures { result.now ≡ unplaced text.now }
{
    let first = cut(text);
    if is_place(first.word) {
        uncoded(first.rest)
    } else {
        text
    }
}
