//! Where bytes are cut.

ghost use Rattle.std.specs.Prelude.{◌≡◌, not};
ghost use Rattle.std.specs.Option.{option_map};
ghost use Rattle.std.specs.List.{prefix_len};
ghost use Rattle.pickle_allow.specs.Grammar.{is_blank, before, behind, left_trimmed, right_trimmed, trimmed};
ghost use Rattle.pickle_allow.specs.Cut.{separates};

/// What bytes are cut at.
#[derive(Clone, Copy)]
pub(crate) enum Separator {
    /// The end of a line.
    Newline,
    /// The beginning of a note.
    Hash,
    /// What stands before the words of an entry.
    Colon,
    /// What stands between the parts of a name.
    Point,
    /// What stands between words.
    Blank,
    /// What stands before a shape.
    Open,
    /// What ends a shape.
    Close,
    /// What stands between alternatives.
    Bar,
    /// What stands around a text.
    Quote,
    /// What stands in a fraction.
    Slash,
}

/// The bytes before the first that they are cut at, and what stands behind it, if there is one.
#[derive(Clone, Copy)]
pub(crate) struct Piece<'a> {
    pub(crate) front: &'a [u8],
    pub(crate) rest: Option<&'a [u8]>,
}

/// Whether a byte stands between words.
fn is_blank(byte: u8) -> bool
    ensures { result ≡ is_blank byte }
{
    byte == b' ' || byte == b'\t' || byte == b'\r'
}

/// Whether bytes are cut at this one.
fn separates(at: Separator, byte: u8) -> bool
    ensures { result ≡ separates at byte }
{
    match at {
        Separator::Newline => byte == b'\n',
        Separator::Hash => byte == b'#',
        Separator::Colon => byte == b':',
        Separator::Point => byte == b'.',
        Separator::Blank => is_blank(byte),
        Separator::Open => byte == b'(',
        Separator::Close => byte == b')',
        Separator::Bar => byte == b'|',
        Separator::Quote => byte == b'\'',
        Separator::Slash => byte == b'/',
    }
}

/// How many bytes stand before the first that they are cut at.
fn front_len(bytes: &[u8], at: Separator) -> usize
    ensures { result ≡ prefix_len (λ c. not (separates at c)) bytes.now }
{
    bytes
        .iter()
        .take_while(|byte| !separates(at, **byte))
        .count()
}

/// Cuts bytes once.
pub(crate) fn cut(bytes: &[u8], at: Separator) -> Piece<'_>
    ensures front { result.front.now ≡ before (separates at) bytes.now }
    ensures rest { option_map (λ r. r.now) result.rest ≡ behind (separates at) bytes.now }
{
    let (front, back) = bytes.split_at(front_len(bytes, at));
    match back.split_first() {
        Some((_, rest)) => Piece {
            front,
            rest: Some(rest),
        },
        None => Piece { front, rest: None },
    }
}

/// How many blanks stand in front.
fn blanks_len(bytes: &[u8]) -> usize
    ensures { result ≡ prefix_len is_blank bytes.now }
{
    bytes.iter().take_while(|byte| is_blank(**byte)).count()
}

/// Bytes without the blanks in front.
fn left_trimmed(bytes: &[u8]) -> &[u8]
    ensures { result.now ≡ left_trimmed bytes.now }
{
    bytes.split_at(blanks_len(bytes)).1
}

/// Bytes without the blanks around them.
pub(crate) fn trimmed(bytes: &[u8]) -> &[u8]
    ensures { result.now ≡ trimmed bytes.now }
{
    let mut rest = left_trimmed(bytes);
    while let Some((last, front)) = rest.split_last() {
        if !is_blank(*last) {
            return rest;
        }
        rest = front;
    }
    rest
}
