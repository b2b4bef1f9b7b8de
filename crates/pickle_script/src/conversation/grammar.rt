//! What a line says by its words.

ghost use Rattle.std.specs.Prelude.{◌≡◌, ℕ, List, MatchResult, Ok, Err};
ghost use Rattle.hex.specs.Hex.{decode_of, is_hex_digit};
ghost use Rattle.pickle_script.specs.Grammar.{words_of, alone, number_first, place_of, place_first, show_says, place_says, frame_says, name_first, arg_last, last_bytes, bytes_of_word, op_says, word_says, line_says, AnswersWords};
ghost use Rattle.pickle_script.specs.Inside.Words.{is_hex, fault_syntax};

use crate::conversation::keyword::{
    OpWord, PlaceWord, command_word, op_word, place_word, query_word,
};
use crate::conversation::line::{Action, Line, Place, Query, Syntax};
use crate::conversation::words::{LONGEST_LINE, first_word};
use pickle_ops::{OpFault, Opcode, decimal_of, op_of};
use std::alloc::Global;

/// What a line says whose words are all read, unless one comes after them.
fn alone(says: Line, rest: &[u8]) -> Result<Line, Syntax>
    ensures { result ≡ alone says (words_of rest.now) }
{
    match first_word(rest) {
        None => Ok(says),
        Some(_) => Err(Syntax::ExtraWord),
    }
}

/// The number in front, and what comes after it.
fn number_first(rest: &[u8]) -> Result<(u64, &[u8]), Syntax>
    ensures { MatchResult result (λ p. number_first (words_of rest.now) ≡ Ok (p.0, words_of p.1.now)) (λ f. number_first (words_of rest.now) ≡ Err f) }
{
    match first_word(rest) {
        None => Err(Syntax::MissingWord),
        Some((word, rest)) => match decimal_of(word) {
            None => Err(Syntax::BadNumber),
            Some(number) => Ok((number, rest)),
        },
    }
}

/// The place that a word names: by its number, or by `@` and its offset.
fn place_of(word: &[u8]) -> Option<Place>
    ensures { result ≡ place_of word.now }
{
    match word.split_first() {
        Some((b'@', digits)) => Some(Place::Offset(decimal_of(digits)?)),
        _ => Some(Place::Number(decimal_of(word)? as usize)),
    }
}

/// The place in front, and what comes after it.
fn place_first(rest: &[u8]) -> Result<(Place, &[u8]), Syntax>
    ensures { MatchResult result (λ p. place_first (words_of rest.now) ≡ Ok (p.0, words_of p.1.now)) (λ f. place_first (words_of rest.now) ≡ Err f) }
{
    match first_word(rest) {
        None => Err(Syntax::MissingWord),
        Some((word, rest)) => match place_of(word) {
            None => Err(Syntax::BadNumber),
            Some(place) => Ok((place, rest)),
        },
    }
}

/// What a line says that shows an object, by its number.
fn read_show(rest: &[u8]) -> Result<Line, Syntax>
    ensures { result ≡ show_says (words_of rest.now) }
{
    let (number, rest) = number_first(rest)?;
    alone(Line::Query(Query::Show(number)), rest)
}

/// What a line says by a word and a place.
fn read_place(word: PlaceWord, rest: &[u8]) -> Result<Line, Syntax>
    ensures { result ≡ place_says word (words_of rest.now) }
{
    let (place, rest) = place_first(rest)?;
    alone(Line::At(place, Action::Word(word)), rest)
}

/// What a line says by a place and a count.
fn read_frame(rest: &[u8]) -> Result<Line, Syntax>
    ensures { result ≡ frame_says (words_of rest.now) }
{
    let (place, rest) = place_first(rest)?;
    let (count, rest) = number_first(rest)?;
    alone(Line::At(place, Action::Frame(count as usize)), rest)
}

/// The opcode in front, by its name, and what comes after it.
fn name_first(rest: &[u8]) -> Result<(Opcode, &[u8]), Syntax>
    ensures { MatchResult result (λ p. name_first (words_of rest.now) ≡ Ok (p.0, words_of p.1.now)) (λ f. name_first (words_of rest.now) ≡ Err f) }
{
    match first_word(rest) {
        None => Err(Syntax::MissingWord),
        Some((word, rest)) => match Opcode::of_name(word) {
            None => Err(Syntax::UnknownOpcodeName),
            Some(opcode) => Ok((opcode, rest)),
        },
    }
}

/// Whether a byte is a digit in hexadecimal.
fn is_hex_digit(byte: u8) -> bool
    ensures { result ≡ is_hex_digit byte }
{
    byte.is_ascii_hexdigit()
}

/// Whether a word is bytes in hexadecimal, of two digits each.
fn is_hex(word: &[u8]) -> bool
    ensures { result ≡ is_hex word.now }
{
    if word.len() % 2 != 0 {
        return false;
    }
    for byte in word {
        if !is_hex_digit(*byte) {
            return false;
        }
    }
    true
}

/// The digits of the whole argument, none where it is empty; nothing may come after them. It takes no memory, so that
/// running out of memory hides no fault of a word.
fn hex_last(rest: &[u8]) -> Result<&[u8], Syntax>
    ensures { MatchResult result (λ text. (bytes : List ℕ) × (arg_last (words_of rest.now) ≡ Ok bytes) × (decode_of text.now ≡ Ok bytes))
        (λ f. arg_last (words_of rest.now) ≡ Err f) }
{
    match first_word(rest) {
        None => Ok(&[]),
        Some((word, rest)) => last_word(word, rest),
    }
}

/// The digits of the last word.
fn last_word<'a>(word: &'a [u8], rest: &[u8]) -> Result<&'a [u8], Syntax>
    ensures { MatchResult result (λ text. (bytes : List ℕ) × (last_bytes (bytes_of_word word.now) (words_of rest.now) ≡ Ok bytes)
        × (decode_of text.now ≡ Ok bytes)) (λ f. last_bytes (bytes_of_word word.now) (words_of rest.now) ≡ Err f) }
{
    if !is_hex(word) {
        return Err(Syntax::BadHex);
    }
    match first_word(rest) {
        None => Ok(word),
        Some(_) => Err(Syntax::ExtraWord),
    }
}

/// Why a line says nothing whose operation is refused.
fn syntax_of(fault: OpFault) -> Syntax
    ensures { result ≡ fault_syntax fault }
{
    match fault {
        OpFault::Memory => Syntax::Memory,
        _ => Syntax::BadOp(fault),
    }
}

/// The line of an operation, where the bytes are its whole argument.
fn make_op(
    alloc: Global,
    word: OpWord,
    place: Place,
    opcode: Opcode,
    arg: &[u8],
) -> Result<Line, Syntax>
    ensures { AnswersWords (Ok (Line.At place (Action.Put word (record { opcode = opcode; arg = arg.now })))) result }
{
    match op_of(alloc, opcode, arg) {
        Ok(op) => Ok(Line::At(place, Action::Put(word, op))),
        Err(fault) => Err(syntax_of(fault)),
    }
}

/// The line of an operation, its argument in hexadecimal.
fn make_line(
    alloc: Global,
    word: OpWord,
    place: Place,
    opcode: Opcode,
    hex: &[u8],
) -> Result<Line, Syntax>
    ensures { (bytes : List ℕ) → decode_of hex.now ≡ Ok bytes
        → AnswersWords (Ok (Line.At place (Action.Put word (record { opcode = opcode; arg = bytes })))) result }
{
    match hex::decode(alloc, hex) {
        Ok(arg) => make_op(alloc, word, place, opcode, arg.as_slice()),
        Err(_) => Err(Syntax::Memory),
    }
}

/// What a line says by a place, an opcode's name and its argument.
fn read_op(alloc: Global, word: OpWord, rest: &[u8]) -> Result<Line, Syntax>
    ensures { AnswersWords (op_says word (words_of rest.now)) result }
{
    let (place, rest) = place_first(rest)?;
    let (opcode, rest) = name_first(rest)?;
    let hex = hex_last(rest)?;
    make_line(alloc, word, place, opcode, hex)
}

/// What a line says by its first word, which decides what comes after it.
#[tactic(auto, using(crate::proofs::Sayings::saying_steps))]
fn read_words(alloc: Global, word: &[u8], rest: &[u8]) -> Result<Line, Syntax>
    ensures { AnswersWords (word_says word.now (words_of rest.now)) result }
{
    if word == b"show".as_slice() {
        return read_show(rest);
    }
    if word == b"frame".as_slice() {
        return read_frame(rest);
    }
    if word == b"quit".as_slice() {
        return alone(Line::Quit, rest);
    }
    if let Some(command) = command_word(word) {
        return alone(Line::Command(command), rest);
    }
    if let Some(query) = query_word(word) {
        return alone(Line::Query(query), rest);
    }
    if let Some(word) = place_word(word) {
        return read_place(word, rest);
    }
    match op_word(word) {
        Some(word) => read_op(alloc, word, rest),
        None => Err(Syntax::UnknownWord),
    }
}

/// What a line asks for, given without its newline, or the first fault that applies: `LineTooLong`, `UnknownWord`, then
/// word by word `MissingWord`, `BadNumber`, `UnknownOpcodeName` and `BadHex`, then `ExtraWord`, then `BadOp`. `Memory`
/// comes only where none of these but `BadOp` could, of a line that names an operation.
#[tactic(auto, unfolding(crate::specs::Grammar::line_says))]
pub fn read_command(alloc: Global, bytes: &[u8]) -> Result<Line, Syntax>
    ensures { AnswersWords (line_says bytes.now) result }
{
    if bytes.len() > LONGEST_LINE {
        return Err(Syntax::LineTooLong);
    }
    match first_word(bytes) {
        None => Ok(Line::Nothing),
        Some((word, rest)) => read_words(alloc, word, rest),
    }
}
