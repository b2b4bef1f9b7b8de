//! Laws of packed files. The functions do nothing: what they ensure holds of all bytes.

ghost use Rattle.packed_stream.specs.Reader.{OneContent, NothingFollows};

/// A packed file opens to one thing, and is of one kind.
pub fn one_content()
    ensures { OneContent }
{}

/// A reader that goes on behind a stream, and compares neither checksum nor size, finds what a packed file opens to, and nothing behind it.
pub fn nothing_follows()
    ensures { NothingFollows }
{}
