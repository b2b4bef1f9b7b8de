//! Plain values and byte arrays. `Failed` where the sink fails; a beginning of the text was written then.

ghost use Rattle.std.specs.Prelude.{◌≡◌};
ghost use Rattle.pickle_io.specs.Device.{Writes};
ghost use Rattle.source_literals.specs.Floats.{text_in};
ghost use Rattle.source_literals.specs.Spelling.{int_front, long_front, float_front, double_front, double_end, double_call, ends_in_l, without_l, float_by, float_value, number_value, value_text};

use crate::floats::FloatText;
use crate::text::{write_line, write_line_call, write_plain_text, write_string};
use pickle_io::{Failed, Page, write_all};
use pickle_names::Coding;
use pickle_ops::Kind;
use pickle_source::is_value;
use python_literals::{bits_of, write_bytearray, write_bytes, write_int, write_long};
use std::collections::BTreeMap;

/// Words of an expression.
#[tactic(auto, unfolding(crate::specs::Spelling::int_front))]
fn int_front() -> &'static str
    ensures { result.now ≡ int_front }
{
    "unpickle(b'I' + "
}

/// Words of an expression.
#[tactic(auto, unfolding(crate::specs::Spelling::long_front))]
fn long_front() -> &'static str
    ensures { result.now ≡ long_front }
{
    "unpickle(b'L' + "
}

/// Words of an expression.
#[tactic(auto, unfolding(crate::specs::Spelling::float_front))]
fn float_front() -> &'static str
    ensures { result.now ≡ float_front }
{
    "unpickle(b'F' + "
}

/// Words of an expression.
#[tactic(auto, unfolding(crate::specs::Spelling::double_front))]
fn double_front() -> &'static str
    ensures { result.now ≡ double_front }
{
    "unpickle(b'G' + "
}

/// Words of an expression.
#[tactic(auto, unfolding(crate::specs::Spelling::double_end))]
fn double_end() -> &'static str
    ensures { result.now ≡ double_end }
{
    " + b'.')"
}

/// Writes what a loader is asked for: to load these bytes of a float.
fn write_double_call<S: Page>(bytes: &[u8], page: &mut S) -> Result<(), Failed>
    ensures { Writes (S.told page.old) (S.told page.new) result (double_call bytes.now) }
{
    write_all(page, double_front().as_bytes())?;
    write_bytes(bytes, page)?;
    write_all(page, double_end().as_bytes())
}

/// Writes a float.
#[tactic(auto, unfolding(crate::specs::Spelling::float_value))]
fn write_float<S: Page>(
    texts: &BTreeMap<u64, FloatText>,
    bytes: &[u8],
    page: &mut S,
) -> Result<(), Failed>
    ensures { Writes (S.told page.old) (S.told page.new) result (float_value (text_in texts.now) bytes.now) }
{
    match texts.get(&bits_of(bytes)) {
        Some(text) => write_all(page, text.bytes.as_slice()),
        None => write_double_call(bytes, page),
    }
}

/// A number without the L behind it.
#[tactic(auto, unfolding(crate::specs::Spelling::without_l))]
fn without_l(line: &[u8]) -> &[u8]
    ensures { result.now ≡ without_l line.now }
{
    match line.split_last() {
        Some((last, front)) => { if *last == b'L' { front } else { line } }
        None => line,
    }
}

/// Writes a number in a line: this literal, where Python reads it so.
#[tactic(auto, unfolding(crate::specs::Spelling::number_value))]
fn write_number<S: Page>(
    whole: bool,
    front: &str,
    literal: &[u8],
    line: &[u8],
    page: &mut S,
) -> Result<(), Failed>
    ensures { Writes (S.told page.old) (S.told page.new) result (number_value whole front.now literal.now line.now) }
{
    if whole {
        write_all(page, literal)
    } else {
        write_line_call(front, line, page)
    }
}

/// Writes a plain value or a byte array.
#[tactic(auto, unfolding(crate::specs::Spelling::value_text))]
pub(crate) fn write_value<S: Page>(
    texts: &BTreeMap<u64, FloatText>,
    kind: &Kind,
    page: &mut S,
) -> Result<(), Failed>
    ensures { Writes (S.told page.old) (S.told page.new) result (value_text (text_in texts.now) kind.now) }
{
    match kind {
        Kind::None => write_all(page, b"None"),
        Kind::True => write_all(page, b"True"),
        Kind::False => write_all(page, b"False"),
        Kind::Int(number) => write_int(i128::from(*number), page),
        Kind::Long(bytes) => write_long(bytes.as_slice(), page),
        Kind::Float(bytes) => write_float(texts, bytes.as_slice(), page),
        Kind::Bytes(bytes) => write_bytes(bytes.as_slice(), page),
        Kind::ByteArray(bytes) => write_bytearray(bytes.as_slice(), page),
        Kind::IntLine(line) => {
            let line = line.as_slice();
            write_number(is_value(kind), int_front(), line, line, page)
        }
        Kind::LongLine(line) => {
            let line = line.as_slice();
            write_number(is_value(kind), long_front(), without_l(line), line, page)
        }
        Kind::FloatLine(line) => {
            let line = line.as_slice();
            write_number(is_value(kind), float_front(), line, line, page)
        }
        Kind::LegacyString(bytes) => write_plain_text(Coding::Ascii, bytes.as_slice(), page),
        Kind::LegacyLine(line) => write_string(line.as_slice(), page),
        Kind::Text(bytes) => write_plain_text(Coding::AnyUtf8, bytes.as_slice(), page),
        Kind::TextLine(line) => write_line(line.as_slice(), page),
        _ => write_all(page, b"None"),
    }
}
