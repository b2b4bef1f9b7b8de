//! The words of a shape.

ghost use Rattle.std.specs.Prelude.{◌≡◌};
ghost use Rattle.pickle_allow.specs.Grammar.{sort_of};

use crate::words::row_of;

/// A sort of arguments.
#[derive(Clone, Copy)]
pub(crate) enum Sort {
    /// A text.
    Text,
    /// A text or bytes, of at most 64 bytes.
    Short,
    /// A text of digits, with one `/` at most.
    Fraction,
    /// Bytes, also those that calls make in protocols 0 to 2.
    Bytes,
    /// A number.
    Number,
    /// A whole number of at most six digits.
    Small,
    /// True or false.
    Bool,
    /// None.
    None,
    /// A list or another object that the pickle made, but none that stands for any number of items.
    Held,
    /// A tuple, a list, a set or a dictionary that opcodes made by themselves.
    Listed,
    /// What is imported.
    Class,
    /// What is imported and may be made by `__new__`, whatever it is given.
    New,
    /// Any of these.
    Any,
}

/// The sort that a word says, if it is one of these.
pub(crate) fn sort_of(word: &[u8]) -> Option<Sort>
    ensures { result ≡ sort_of word.now }
{
    row_of!(word {
        b"text" => Sort::Text,
        b"short" => Sort::Short,
        b"fraction" => Sort::Fraction,
        b"bytes" => Sort::Bytes,
        b"number" => Sort::Number,
        b"small" => Sort::Small,
        b"bool" => Sort::Bool,
        b"none" => Sort::None,
        b"held" => Sort::Held,
        b"alone" => Sort::Held,
        b"listed" => Sort::Listed,
        b"class" => Sort::Class,
        b"new" => Sort::New,
        b"any" => Sort::Any,
    })
}
