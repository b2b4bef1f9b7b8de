//! The words of a line.

ghost use Rattle.std.specs.Prelude.{◌≡◌, ◌≤◌, length, is_some};
ghost use Rattle.std.specs.Option.{option_map};
ghost use Rattle.std.specs.List.{prefix_len, position};
ghost use Rattle.opcode_assembler.specs.Words.{is_blank, is_letter, trimmed, word, after_word, behind, is_over, is_open, is_close, unnoted, after_note, uncoloned, is_place, unnumbered};

use pickle_ops::decimal_of;

/// The first word of a text, empty where there is none, and what comes after it.
#[derive(Clone, Copy)]
pub(crate) struct FirstWord<'a> {
    pub(crate) word: &'a [u8],
    pub(crate) rest: &'a [u8],
}

/// Whether a byte separates words.
fn is_blank(byte: u8) -> bool
    ensures { result ≡ is_blank byte }
{
    byte == b' ' || byte == b'\t' || byte == b'\r'
}

/// How many blanks are in front.
fn blanks_len(bytes: &[u8]) -> usize
    ensures { result ≡ prefix_len is_blank bytes.now }
{
    bytes.iter().take_while(|byte| is_blank(**byte)).count()
}

/// How many bytes are before the first blank.
fn word_len(bytes: &[u8]) -> usize
    ensures { result ≡ prefix_len is_letter bytes.now }
{
    bytes.iter().take_while(|byte| !is_blank(**byte)).count()
}

/// A text without the blanks in front.
pub(crate) fn trimmed(text: &[u8]) -> &[u8]
    ensures { result.now ≡ trimmed text.now }
{
    text.split_at(blanks_len(text)).1
}

/// Cuts a text behind its first word.
pub(crate) fn cut(text: &[u8]) -> FirstWord<'_>
    ensures word { result.word.now ≡ word text.now }
    ensures rest { result.rest.now ≡ after_word text.now }
{
    let left = trimmed(text);
    let (word, rest) = left.split_at(word_len(left));
    FirstWord { word, rest }
}

/// What comes after this beginning of a text, where it has it.
pub(crate) fn behind<'a>(front: &[u8], text: &'a [u8]) -> Option<&'a [u8]>
    ensures { option_map (λ r. r.now) result ≡ behind front.now text.now }
{
    if text.len() < front.len() {
        return None;
    }
    let (beginning, rest) = text.split_at(front.len());
    if beginning == front { Some(rest) } else { None }
}

/// Whether nothing but a comment is left.
pub(crate) fn is_over(text: &[u8]) -> bool
    ensures { result ≡ is_over text.now }
{
    match trimmed(text).first() {
        None => true,
        Some(byte) => *byte == b'#',
    }
}

/// Where the first closing parenthesis is, if there is one.
fn close(text: &[u8]) -> Option<usize>
    ensures { result ≡ position is_close text.now }
{
    text.iter().position(|byte| *byte == b')')
}

/// What comes after a note in front, where there is one that ends.
fn unnoted(text: &[u8]) -> &[u8]
    ensures { result.now ≡ unnoted text.now }
{
    if text.is_empty() || text[0] != b'(' {
        return text;
    }
    match close(text) {
        Some(at) => &text[at + 1..],
        None => text,
    }
}

/// What comes after the blanks and a note.
pub(crate) fn after_note(text: &[u8]) -> &[u8]
    ensures { result.now ≡ after_note text.now }
{
    unnoted(trimmed(text))
}

/// A word without the colon at its end.
fn uncoloned(word: &[u8]) -> &[u8]
    ensures { result.now ≡ uncoloned word.now }
{
    let count = word.len();
    if count > 0 && word[count - 1] == b':' {
        return &word[..count - 1];
    }
    word
}

/// Whether a word is an offset.
pub(crate) fn is_place(word: &[u8]) -> bool
    ensures { result ≡ is_place word.now }
{
    decimal_of(uncoloned(word)).is_some()
}

/// What comes after an offset in front, where there is one.
pub(crate) fn unnumbered(text: &[u8]) -> &[u8]
    ensures { result.now ≡ unnumbered text.now }
{
    let first = cut(text);
    if is_place(first.word) {
        first.rest
    } else {
        text
    }
}
