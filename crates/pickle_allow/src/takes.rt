//! What a shape takes.

ghost use Rattle.std.specs.Prelude.{◌≡◌, false, Some, IfOk};
ghost use Rattle.std.specs.Fmt.{signed_decimal};
ghost use Rattle.std.specs.Option.{option_map, option_map_or};
ghost use Rattle.std.specs.Str.{bytes_eq};
ghost use Rattle.pickle_ops.specs.KindRef.{kind_view};
ghost use Rattle.pickle_allow.specs.Arguments.{text_in, is_text, is_short, is_bytes, is_bool, is_none, is_number, number_in, unsigned, has_few_digits, is_small, is_fraction, is_held, is_listed, may_be_new, new_by, sort_takes, same_text, value_takes, word_takes, item_takes};
ghost use Rattle.pickle_allow.specs.Given.{given_view};

use crate::cut::{Separator, cut};
use crate::list::Entry;
use crate::pattern::fits;
use crate::shape::{are_some_digits, is_whole, quoted};
use crate::sort::{Sort, sort_of};
use crate::spelling::is_nothing;
use itoa::Buffer;
use pickle_ops::KindRef;
use std::alloc::{AllocError, Global};

/// The most bytes of what is short.
const MOST_SHORT: usize = 64;

/// The most digits of a small number.
const MOST_DIGITS: usize = 6;

/// What an argument is to a shape.
#[derive(Clone, Copy)]
pub(crate) struct Given<'a> {
    /// Its kind.
    pub(crate) kind: KindRef<'a>,
    /// The name of what is imported.
    pub(crate) name: Option<&'a [u8]>,
    /// Whether it stands for any number of items, though a few bytes made it.
    pub(crate) endless: bool,
    /// Whether it is bytes that a call made.
    pub(crate) made_bytes: bool,
}

/// The bytes of a text, without escapes.
fn text_in<'a>(kind: KindRef<'a>) -> Option<&'a [u8]>
    ensures { option_map (λ t. t.now) result ≡ text_in (kind_view kind.entry) }
{
    match kind {
        KindRef::Text(bytes) => Some(bytes),
        KindRef::TextLine(bytes) => Some(bytes),
        KindRef::LegacyString(bytes) => Some(bytes),
        _ => None,
    }
}

/// Whether it is a text.
fn is_text(kind: KindRef<'_>) -> bool
    ensures { result ≡ is_text (kind_view kind.entry) }
{
    match kind {
        KindRef::Text(_) => true,
        KindRef::TextLine(_) => true,
        KindRef::LegacyString(_) => true,
        KindRef::LegacyLine(_) => true,
        _ => false,
    }
}

/// Whether it is a text or bytes, and short.
fn is_short(kind: KindRef<'_>) -> bool
    ensures { result ≡ is_short (kind_view kind.entry) }
{
    match kind {
        KindRef::Text(bytes) => bytes.len() <= MOST_SHORT,
        KindRef::TextLine(bytes) => bytes.len() <= MOST_SHORT,
        KindRef::LegacyString(bytes) => bytes.len() <= MOST_SHORT,
        KindRef::LegacyLine(bytes) => bytes.len() <= MOST_SHORT,
        KindRef::Bytes(bytes) => bytes.len() <= MOST_SHORT,
        KindRef::ByteArray(bytes) => bytes.len() <= MOST_SHORT,
        _ => false,
    }
}

/// Whether it is bytes.
fn is_bytes(kind: KindRef<'_>) -> bool
    ensures { result ≡ is_bytes (kind_view kind.entry) }
{
    match kind {
        KindRef::Bytes(_) => true,
        KindRef::ByteArray(_) => true,
        KindRef::LegacyString(_) => true,
        KindRef::LegacyLine(_) => true,
        _ => false,
    }
}

/// Whether it is true or false.
fn is_bool(kind: KindRef<'_>) -> bool
    ensures { result ≡ is_bool (kind_view kind.entry) }
{
    match kind {
        KindRef::True => true,
        KindRef::False => true,
        _ => false,
    }
}

/// Whether it is None.
fn is_none(kind: KindRef<'_>) -> bool
    ensures { result ≡ is_none (kind_view kind.entry) }
{
    match kind {
        KindRef::None => true,
        _ => false,
    }
}

/// Whether it is a number.
fn is_number(kind: KindRef<'_>) -> bool
    ensures { result ≡ is_number (kind_view kind.entry) }
{
    match kind {
        KindRef::Int(_) => true,
        KindRef::Long(_) => true,
        KindRef::IntLine(_) => true,
        KindRef::LongLine(_) => true,
        KindRef::Float(_) => true,
        KindRef::FloatLine(_) => true,
        kind => is_bool(kind),
    }
}

/// A number without a minus in front.
fn unsigned(text: &[u8]) -> &[u8]
    ensures { result.now ≡ unsigned text.now }
{
    match text.split_first() {
        Some((first, rest)) => { if *first == b'-' { rest } else { text } }
        None => text,
    }
}

/// Whether a number has few digits.
fn has_few_digits(text: &[u8]) -> bool
    ensures { result ≡ has_few_digits text.now }
{
    unsigned(text).len() <= MOST_DIGITS
}

/// Whether a number has few digits.
fn is_few(number: i64) -> bool
    ensures { result ≡ has_few_digits (signed_decimal number) }
{
    let mut digits = Buffer::new();
    has_few_digits(digits.format(number).as_bytes())
}

/// Whether it is a whole number of few digits.
fn is_small(kind: KindRef<'_>) -> bool
    ensures { result ≡ is_small (kind_view kind.entry) }
{
    match kind {
        KindRef::Int(number) => is_few(number),
        KindRef::IntLine(text) => has_few_digits(text),
        KindRef::LongLine(text) => has_few_digits(text),
        _ => false,
    }
}

/// Whether bytes are a whole number, or two with a `/` between them.
fn is_fraction(text: &[u8]) -> bool
    ensures { result ≡ is_fraction text.now }
{
    let piece = cut(text, Separator::Slash);
    match piece.rest {
        Some(rest) => is_whole(piece.front) && are_some_digits(rest),
        None => is_whole(piece.front),
    }
}

/// Whether it is a text of such bytes.
fn is_text_fraction(kind: KindRef<'_>) -> bool
    ensures { result ≡ option_map_or is_fraction (text_in (kind_view kind.entry)) false }
{
    match text_in(kind) {
        Some(text) => is_fraction(text),
        None => false,
    }
}

/// Whether it is an object that the pickle made.
pub fn is_held(kind: KindRef<'_>) -> bool
    ensures { result ≡ is_held (kind_view kind.entry) }
{
    match kind {
        KindRef::Tuple => true,
        KindRef::List => true,
        KindRef::Set => true,
        KindRef::FrozenSet => true,
        KindRef::Dict => true,
        KindRef::Call => true,
        KindRef::New => true,
        KindRef::NewEx => true,
        KindRef::Inst(_) => true,
        KindRef::Obj => true,
        KindRef::PersistentLine(_) => true,
        KindRef::Persistent => true,
        KindRef::Buffer(_) => true,
        KindRef::ReadOnly => true,
        _ => false,
    }
}

/// Whether it is a tuple, a list, a set or a dictionary that opcodes made by themselves.
fn is_listed(kind: KindRef<'_>) -> bool
    ensures { result ≡ is_listed (kind_view kind.entry) }
{
    match kind {
        KindRef::Tuple => true,
        KindRef::List => true,
        KindRef::Set => true,
        KindRef::FrozenSet => true,
        KindRef::Dict => true,
        _ => false,
    }
}

/// Whether an entry lets `__new__` make objects of this name, whatever it is given.
fn new_by(entry: &Entry<'_>, name: &[u8], rests: &mut Vec<bool>) -> Result<bool, AllocError>
    ensures { IfOk result (λ found. found ≡ new_by name.now entry.now) }
{
    if !entry.itself.new || !is_nothing(entry.shapes) {
        return Ok(false);
    }
    fits(entry.pattern, name, rests)
}

/// Whether one of the entries does.
fn may_be_new(alloc: Global, list: &[Entry<'_>], name: &[u8]) -> Result<bool, AllocError>
    ensures { IfOk result (λ found. found ≡ may_be_new list.now name.now) }
{
    let mut rests = Vec::new(alloc);
    for i in 0..list.len() {
        if new_by(&list[i], name, &mut rests)? {
            return Ok(true);
        }
    }
    Ok(false)
}

/// Whether an argument is what is imported by a name of which an entry lets `__new__` make objects.
fn is_new(alloc: Global, list: &[Entry<'_>], name: Option<&[u8]>) -> Result<bool, AllocError>
    ensures { IfOk result (λ found. found ≡ option_map_or (may_be_new list.now) (option_map (λ t. t.now) name.entry) false) }
{
    match name {
        Some(name) => may_be_new(alloc, list, name),
        None => Ok(false),
    }
}

/// Whether an argument is of a sort.
fn sort_takes(
    alloc: Global,
    list: &[Entry<'_>],
    sort: Sort,
    given: Given<'_>,
) -> Result<bool, AllocError>
    ensures { IfOk result (λ found. found ≡ sort_takes list.now sort (given_view given.entry)) }
{
    match sort {
        Sort::Text => Ok(is_text(given.kind)),
        Sort::Short => Ok(is_short(given.kind)),
        Sort::Fraction => Ok(is_text_fraction(given.kind)),
        Sort::Bytes => Ok(is_bytes(given.kind) || given.made_bytes),
        Sort::Number => Ok(is_number(given.kind)),
        Sort::Small => Ok(is_small(given.kind)),
        Sort::Bool => Ok(is_bool(given.kind)),
        Sort::None => Ok(is_none(given.kind)),
        Sort::Held => Ok(is_held(given.kind) && !given.endless),
        Sort::Listed => Ok(is_listed(given.kind)),
        Sort::Class => Ok(given.name.is_some()),
        Sort::New => is_new(alloc, list, given.name),
        Sort::Any => Ok(!given.endless),
    }
}

/// Whether there are two texts, and they are the same.
fn same_text(a: Option<&[u8]>, b: Option<&[u8]>) -> bool
    ensures { result ≡ same_text (option_map (λ t. t.now) a.entry) (option_map (λ t. t.now) b.entry) }
{
    match a {
        Some(a) => match b {
            Some(b) => a == b,
            None => false,
        },
        None => false,
    }
}

/// Whether a number is written so.
fn is_decimal(word: &[u8], number: i64) -> bool
    ensures { result ≡ bytes_eq word.now (signed_decimal number) }
{
    let mut digits = Buffer::new();
    word == digits.format(number).as_bytes()
}

/// Whether it is a whole number that is written so.
fn is_number_text(word: &[u8], kind: KindRef<'_>) -> bool
    ensures { result ≡ same_text (Some word.now) (number_in (kind_view kind.entry)) }
{
    match kind {
        KindRef::Int(number) => is_decimal(word, number),
        KindRef::IntLine(text) => word == text,
        _ => false,
    }
}

/// Whether an argument is this text, this number, or what is imported by this name.
fn value_takes(word: &[u8], given: Given<'_>) -> bool
    ensures { result ≡ value_takes word.now (given_view given.entry) }
{
    same_text(quoted(word), text_in(given.kind))
        || is_number_text(word, given.kind)
        || same_text(Some(word), given.name)
}

/// Whether a word takes an argument.
fn word_takes(
    alloc: Global,
    list: &[Entry<'_>],
    word: &[u8],
    given: Given<'_>,
) -> Result<bool, AllocError>
    ensures { IfOk result (λ found. found ≡ word_takes list.now (given_view given.entry) word.now) }
{
    match sort_of(word) {
        Some(sort) => sort_takes(alloc, list, sort, given),
        None => Ok(value_takes(word, given)),
    }
}

/// Whether one of the alternatives takes an argument.
pub(crate) fn item_takes(
    alloc: Global,
    list: &[Entry<'_>],
    item: &[u8],
    given: Given<'_>,
) -> Result<bool, AllocError>
    ensures { IfOk result (λ found. found ≡ item_takes list.now item.now (given_view given.entry)) }
{
    let mut rest = Some(item);
    while let Some(left) = rest {
        let piece = cut(left, Separator::Bar);
        if word_takes(alloc, list, piece.front, given)? {
            return Ok(true);
        }
        rest = piece.rest;
    }
    Ok(false)
}
