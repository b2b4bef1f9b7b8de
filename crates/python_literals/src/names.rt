//! Names that a statement can have as they are.

ghost use Rattle.std.specs.Prelude.{◌≡◌, ◌&&◌, ◌∷◌};
ghost use Rattle.std.specs.List.{list_all, list_any};
ghost use Rattle.std.specs.Str.{bytes_eq};
ghost use Rattle.python_literals.specs.Names.{is_within, may_begin, may_follow, is_word, is_reserved, is_identifier};

/// The words that a statement cannot bind: the keywords of Python 3.8 to 3.13, of which `__peg_parser__` is one in 3.9 alone, and `__debug__`.
static RESERVED: [&str; 37] = [
    "False",
    "None",
    "True",
    "and",
    "as",
    "assert",
    "async",
    "await",
    "break",
    "class",
    "continue",
    "def",
    "del",
    "elif",
    "else",
    "except",
    "finally",
    "for",
    "from",
    "global",
    "if",
    "import",
    "in",
    "is",
    "lambda",
    "nonlocal",
    "not",
    "or",
    "pass",
    "raise",
    "return",
    "try",
    "while",
    "with",
    "yield",
    "__debug__",
    "__peg_parser__",
];

/// Whether a byte is in a range.
fn is_within(low: u8, high: u8, byte: u8) -> bool
    ensures { result ≡ is_within low high byte }
{
    low <= byte && byte <= high
}

/// Whether a name may begin with a byte: with a letter or an underscore.
fn may_begin(byte: u8) -> bool
    ensures { result ≡ may_begin byte }
{
    is_within(b'A', b'Z', byte) || (is_within(b'a', b'z', byte) || byte == b'_')
}

/// Whether a name may go on with a byte: also with a digit.
fn may_follow(byte: u8) -> bool
    ensures { result ≡ may_follow byte }
{
    may_begin(byte) || is_within(b'0', b'9', byte)
}

/// Whether a name may go on with all bytes.
fn all_follow(bytes: &[u8]) -> bool
    ensures { result ≡ list_all may_follow bytes.now }
{
    for byte in bytes {
        if !may_follow(*byte) {
            return false;
        }
    }
    true
}

/// Whether a text is a letter and letters and digits after it.
fn is_word(text: &[u8]) -> bool
    ensures { result ≡ is_word text.now }
{
    match text.split_first() {
        None => false,
        Some((first, rest)) => may_begin(*first) && all_follow(rest),
    }
}

/// Whether a text is one of these words.
fn is_among(text: &[u8], words: &[&'static str]) -> bool
    ensures { result ≡ list_any (λ w. bytes_eq text.now w.now) words.now }
{
    for word in words {
        if text == word.as_bytes() {
            return true;
        }
    }
    false
}

/// Whether a text is a word that a statement cannot bind.
#[tactic(auto, unfolding(crate::specs::Names::is_reserved))]
fn is_reserved(text: &[u8]) -> bool
    ensures { result ≡ is_reserved text.now }
{
    is_among(text, &RESERVED)
}

/// Whether a text is a name of ASCII letters, digits and underscores that a statement of Python can have as it is, as `from M import N` has.
#[tactic(auto, unfolding(crate::specs::Names::is_identifier))]
pub fn is_identifier(text: &[u8]) -> bool
    ensures { result ≡ is_identifier text.now }
{
    is_word(text) && !is_reserved(text)
}
