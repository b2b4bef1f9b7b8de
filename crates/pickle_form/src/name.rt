//! Names of modules and of what they have.

ghost use Rattle.std.specs.Prelude.{◌≡◌, ◌∷◌, ◌||◌, ◌&&◌, length, fold};
ghost use Rattle.std.specs.List.{list_all};
ghost use Rattle.pickle_form.specs.Name.{is_letter, at_begin, at_within, at_angle, at_closed, after_byte, may_end, is_text, is_name};
ghost use Rattle.pickle_form.specs.Inside.{is_word_byte, is_word};
ghost use Rattle.pickle_ops.specs.Shape.{is_digit};
ghost use Rattle.pickle_names.specs.Value.{decode_all};

use pickle_names::{Coding, read};

/// Of each byte, whether it is a letter of ASCII, a digit or an underscore: `1`, else `0`.
static WORD: [u8; 256] =
    *b"0000000000000000000000000000000000000000000000001111111111000000011111111111111111111111111000010111111111111111111111111110000000000000000000000000000000000000000000000000000000000000000000000000000000000000000000000000000000000000000000000000000000000000";

/// What of a name was read.
#[derive(Clone, Copy, Debug, PartialEq, Eq)]
pub enum NamePart {
    /// A part begins.
    Begin,
    /// Letters and digits of a part.
    Within,
    /// Letters behind `<`.
    Angle,
    /// The `>` behind them.
    Closed,
    /// Something that is in no name.
    Wrong,
}

/// Whether a byte is a digit.
pub(crate) fn is_digit(byte: u8) -> bool
    ensures { result ≡ is_digit byte }
{
    48 <= byte && byte <= 57
}

/// Whether a byte is a letter, or one of a letter beyond ASCII.
fn is_letter(byte: u8) -> bool
    ensures { result ≡ is_letter byte }
{
    match byte {
        b'a'..=b'z' => true,
        b'A'..=b'Z' => true,
        b'_' => true,
        _ => 128 <= byte,
    }
}

/// After a byte at the begin of a part.
fn at_begin(byte: u8) -> NamePart
    ensures { result ≡ at_begin byte }
{
    if is_letter(byte) {
        NamePart::Within
    } else if byte == b'<' {
        NamePart::Angle
    } else {
        NamePart::Wrong
    }
}

/// Whether a byte may come second in an identifier.
fn is_inner(byte: u8) -> bool
    ensures { result ≡ (is_letter byte || is_digit byte) }
{
    is_letter(byte) || is_digit(byte)
}

/// After a byte within a part.
fn at_within(byte: u8) -> NamePart
    ensures { result ≡ at_within byte }
{
    if is_inner(byte) {
        NamePart::Within
    } else if byte == b'.' {
        NamePart::Begin
    } else {
        NamePart::Wrong
    }
}

/// After a byte behind `<`.
fn at_angle(byte: u8) -> NamePart
    ensures { result ≡ at_angle byte }
{
    if 97 <= byte && byte <= 122 {
        NamePart::Angle
    } else if byte == b'>' {
        NamePart::Closed
    } else {
        NamePart::Wrong
    }
}

/// After a byte behind `>`.
fn at_closed(byte: u8) -> NamePart
    ensures { result ≡ at_closed byte }
{
    if byte == b'.' {
        NamePart::Begin
    } else {
        NamePart::Wrong
    }
}

impl NamePart {
    ghost use Rattle.std.specs.Prelude.{◌≡◌, true};
    ghost use Rattle.pickle_form.specs.Name.{after_byte, may_end};

    /// After a byte.
    fn after(self, byte: u8) -> NamePart
        ensures { result ≡ after_byte self byte }
    {
        match self {
            NamePart::Begin => at_begin(byte),
            NamePart::Within => at_within(byte),
            NamePart::Angle => at_angle(byte),
            NamePart::Closed => at_closed(byte),
            NamePart::Wrong => NamePart::Wrong,
        }
    }

    /// Whether it is in no name, whatever follows.
    fn is_wrong(self) -> bool
        ensures { result ≡ true → self ≡ NamePart.Wrong }
    {
        matches!(self, NamePart::Wrong)
    }

    /// Whether a name may end so.
    fn may_end(self) -> bool
        ensures { result ≡ may_end self }
    {
        match self {
            NamePart::Within => true,
            NamePart::Closed => true,
            _ => false,
        }
    }
}

/// Whether bytes are a text in this coding.
pub(crate) fn is_text(coding: Coding, bytes: &[u8]) -> bool
    ensures { result ≡ is_text coding bytes.now }
{
    read(coding, bytes.len(), bytes).good
}

/// What of a name a text is.
fn part_of(text: &[u8]) -> NamePart
    ensures { result ≡ fold after_byte NamePart.Begin text.now }
{
    let mut part = NamePart::Begin;
    for byte in text {
        part = part.after(*byte);
        if part.is_wrong() {
            return NamePart::Wrong;
        }
    }
    part
}

/// Whether a byte is a letter of ASCII, a digit or an underscore.
fn is_word_byte(byte: u8) -> bool
    ensures { result ≡ is_word_byte byte }
{
    WORD[usize::from(byte)] == b'1'
}

/// Whether all bytes are such.
fn are_word_bytes(text: &[u8]) -> bool
    ensures { result ≡ list_all is_word_byte text.now }
{
    for byte in text {
        if !is_word_byte(*byte) {
            return false;
        }
    }
    true
}

/// Whether a text is a word of ASCII, which is a plain name. One look at each byte is enough for this.
pub(crate) fn is_word(text: &[u8]) -> bool
    ensures { result ≡ is_word text.now }
{
    match text.first() {
        Some(first) => !is_digit(*first) && are_word_bytes(text),
        None => false,
    }
}

/// Whether a text is a plain name.
pub(crate) fn is_name(text: &[u8]) -> bool
    ensures { result ≡ is_name text.now }
{
    part_of(text).may_end() && is_text(Coding::Utf8, text)
}
