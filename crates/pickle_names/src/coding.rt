//! How the bytes of a text are read, and what is at the front of them.

/// How the bytes of a text are read. Where a loader is given another encoding for the strings of Python 2, it reads those otherwise.
#[derive(Clone, Copy)]
pub enum Coding {
    /// ASCII: the names of INST, the line of PERSID, BINSTRING and SHORT_BINSTRING.
    Ascii,
    /// UTF-8: the names of GLOBAL.
    Utf8,
    /// UTF-8, in which surrogates pass: BINUNICODE, SHORT_BINUNICODE and BINUNICODE8.
    AnyUtf8,
    /// `raw_unicode_escape`: the line of UNICODE.
    RawEscape,
    /// The escapes of a string of Python 2, and then ASCII: the line of STRING without its quotes.
    StringEscape,
}

/// What is at the front of a text.
#[derive(Clone, Copy)]
pub enum Piece {
    /// This many bytes, which stand for themselves in UTF-8.
    Spelled(usize),
    /// The character of this number, and how many bytes spell it.
    Char(u32, usize),
}
