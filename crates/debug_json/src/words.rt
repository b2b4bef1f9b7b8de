//! The words of a line, as the lines of the texts have them.

ghost use Rattle.std.specs.Prelude.{◌≡◌, ◌∷◌, [], not, MatchOption, MatchResult, Ok, Err};
ghost use Rattle.std.specs.List.{prefix_len};
ghost use Rattle.pickle_script.specs.Grammar.{is_blank, words_of, number_first};

use pickle_ops::decimal_of;
use pickle_script::Syntax;

/// Whether a byte separates words.
fn is_blank(byte: u8) -> bool
    ensures { result ≡ is_blank byte }
{
    byte == b' ' || byte == b'\t' || byte == b'\r'
}

/// How many blanks are in front.
fn blanks_len(bytes: &[u8]) -> usize
    ensures { result ≡ prefix_len is_blank bytes.now }
{
    bytes.iter().take_while(|byte| is_blank(**byte)).count()
}

/// How many bytes are before the first blank.
fn word_len(bytes: &[u8]) -> usize
    ensures { result ≡ prefix_len (λ byte. not (is_blank byte)) bytes.now }
{
    bytes.iter().take_while(|byte| !is_blank(**byte)).count()
}

/// The first word and what comes after it, where there is a word.
pub(crate) fn first_word(bytes: &[u8]) -> Option<(&[u8], &[u8])>
    ensures { MatchOption result (words_of bytes.now ≡ []) (λ p. words_of bytes.now ≡ p.0.now ∷ words_of p.1.now) }
{
    let rest = bytes.split_at(blanks_len(bytes)).1;
    if rest.is_empty() {
        return None;
    }
    Some(rest.split_at(word_len(rest)))
}

/// The number in front, and what comes after it.
pub(crate) fn number_first(rest: &[u8]) -> Result<(u64, &[u8]), Syntax>
    ensures { MatchResult result (λ p. number_first (words_of rest.now) ≡ Ok (p.0, words_of p.1.now)) (λ f. number_first (words_of rest.now) ≡ Err f) }
{
    match first_word(rest) {
        None => Err(Syntax::MissingWord),
        Some((word, rest)) => match decimal_of(word) {
            None => Err(Syntax::BadNumber),
            Some(number) => Ok((number, rest)),
        },
    }
}
