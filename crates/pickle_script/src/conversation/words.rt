//! The words of a line.

ghost use Rattle.std.specs.Prelude.{◌≡◌, ◌∷◌, [], not, MatchOption};
ghost use Rattle.std.specs.List.{prefix_len};
ghost use Rattle.pickle_script.specs.Grammar.{is_blank, words_of};

/// The most bytes of a line.
pub const LONGEST_LINE: usize = 65_536;

/// Whether a byte separates words.
fn is_blank(byte: u8) -> bool
    ensures { result ≡ is_blank byte }
{
    byte == b' ' || byte == b'\t' || byte == b'\r'
}

/// How many blanks are in front.
fn blanks_len(bytes: &[u8]) -> usize
    ensures { result ≡ prefix_len is_blank bytes.now }
{
    bytes.iter().take_while(|byte| is_blank(**byte)).count()
}

/// How many bytes are before the first blank.
fn word_len(bytes: &[u8]) -> usize
    ensures { result ≡ prefix_len (λ byte. not (is_blank byte)) bytes.now }
{
    bytes.iter().take_while(|byte| !is_blank(**byte)).count()
}

/// The first word and what comes after it, where there is a word.
pub(crate) fn first_word(bytes: &[u8]) -> Option<(&[u8], &[u8])>
    ensures { MatchOption result (words_of bytes.now ≡ []) (λ p. words_of bytes.now ≡ p.0.now ∷ words_of p.1.now) }
{
    let rest = bytes.split_at(blanks_len(bytes)).1;
    if rest.is_empty() {
        return None;
    }
    Some(rest.split_at(word_len(rest)))
}
