//! What a line says of the memo: the opcode, and its key or its label.

ghost use Rattle.std.specs.Prelude.{◌≡◌, ℕ, List};
ghost use Rattle.std.specs.List.{list_all};
ghost use Rattle.std.specs.Option.{option_map};
ghost use Rattle.pickle_ops.specs.declared.opcode.Opcode.{Opcode as Code};
ghost use Rattle.assembly_labels.specs.Labels.{begins_label, goes_on_label, is_label, named, opcode_in, has_key, counts_keys, key_word, if_label, label_of, key_of, is_counting};
ghost use Rattle.assembly_labels.specs.Quick.{may_have_key, may_have_label};

use crate::words::{cut, is_over, trimmed, unnumbered, unplaced};
use pickle_ops::{Opcode, decimal_of};

/// Whether a label may begin with a byte.
fn begins_label(byte: u8) -> bool
    ensures { result ≡ begins_label byte }
{
    (65 <= byte && byte <= 90) || (97 <= byte && byte <= 122) || byte == b'_'
}

/// Whether a label may have a byte behind its first.
fn goes_on_label(byte: u8) -> bool
    ensures { result ≡ goes_on_label byte }
{
    begins_label(byte) || (48 <= byte && byte <= 57)
}

/// Whether a label may go on so.
fn are_letters(bytes: &[u8]) -> bool
    ensures { result ≡ list_all goes_on_label bytes.now }
{
    bytes.iter().all(|byte| goes_on_label(*byte))
}

/// Whether a word is a label.
fn is_label(word: &[u8]) -> bool
    ensures { result ≡ is_label word.now }
{
    match word.split_first() {
        None => false,
        Some((byte, rest)) => begins_label(*byte) && are_letters(rest),
    }
}

/// The opcode in front, and what stands behind its name.
fn named(text: &[u8]) -> Option<(Opcode, &[u8])>
    ensures { option_map (λ (p : Code × _). (p.0, p.1.now)) result ≡ named text.now }
{
    let first = cut(text);
    match Opcode::of_name(first.word) {
        Some(opcode) => Some((opcode, first.rest)),
        None => None,
    }
}

/// The opcode of a line, and what stands behind its name.
#[tactic(auto, unfolding(crate::specs::Labels::opcode_in))]
pub(crate) fn opcode_in(line: &[u8]) -> Option<(Opcode, &[u8])>
    ensures { option_map (λ (p : Code × _). (p.0, p.1.now)) result ≡ opcode_in line.now }
{
    let text = trimmed(line);
    if is_over(unnumbered(text)) {
        None
    } else {
        named(unplaced(text))
    }
}

/// Whether the argument of an opcode is a key of the memo.
fn has_key(opcode: Opcode) -> bool
    ensures { result ≡ has_key opcode }
{
    match opcode {
        Opcode::Get => true,
        Opcode::BinGet => true,
        Opcode::LongBinGet => true,
        Opcode::Put => true,
        Opcode::BinPut => true,
        Opcode::LongBinPut => true,
        _ => false,
    }
}

/// The word behind the name of an opcode, if a key stands there.
fn key_word(opcode: Opcode, rest: &[u8]) -> Option<&[u8]>
    ensures { option_map (λ w. w.now) result ≡ key_word (opcode, rest.now) }
{
    if has_key(opcode) {
        Some(cut(rest).word)
    } else {
        None
    }
}

/// A word, if it is a label.
fn if_label(word: &[u8]) -> Option<&[u8]>
    ensures { option_map (λ w. w.now) result ≡ if_label word.now }
{
    if is_label(word) { Some(word) } else { None }
}

/// Whether a word ends as the names of these opcodes do.
fn may_have_key(word: &[u8]) -> bool
    ensures { result ≡ may_have_key word.now }
{
    let count = word.len();
    count > 0 && word[count - 1] == b'T'
}

/// Whether one of the two words ends so of which the name is one: of most lines none does, and names need not be looked up.
fn may_have_label(line: &[u8]) -> bool
    ensures { result ≡ may_have_label line.now }
{
    let first = cut(unnumbered(trimmed(line)));
    may_have_key(first.word) || may_have_key(cut(first.rest).word)
}

/// The label of a line.
pub(crate) fn label_of(line: &[u8]) -> Option<&[u8]>
    ensures { option_map (λ w. w.now) result ≡ label_of line.now }
{
    if !may_have_label(line) {
        return None;
    }
    let (opcode, rest) = opcode_in(line)?;
    if_label(key_word(opcode, rest)?)
}

/// The key of a line, where it is written in digits.
pub(crate) fn key_of(line: &[u8]) -> Option<u64>
    ensures { result ≡ key_of line.now }
{
    let (opcode, rest) = opcode_in(line)?;
    decimal_of(key_word(opcode, rest)?)
}

/// Whether a line is MEMOIZE.
pub(crate) fn is_counting(line: &[u8]) -> bool
    ensures { result ≡ is_counting line.now }
{
    match opcode_in(line) {
        Some((opcode, _)) => opcode == Opcode::Memoize,
        None => false,
    }
}
