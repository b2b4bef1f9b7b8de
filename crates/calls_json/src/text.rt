//! Texts, payloads and numbers as fields. `Failed` where the sink fails; a beginning of the text was written then.

ghost use Rattle.std.specs.Prelude.{◌≡◌, ◌≤◌, ◌-◌, length, take};
ghost use Rattle.std.specs.List.{list_all};
ghost use Rattle.pickle_io.specs.Device.{Writes};
ghost use Rattle.pickle_names.specs.Value.{decode, decode_all};
ghost use Rattle.pickle_names.specs.Reading.{IsReading};
ghost use Rattle.pickle_ops.specs.Argument.{long_of};
ghost use Rattle.json_lines.specs.Line.{fields_text};
ghost use Rattle.calls_json.specs.TextFields.{more_fields, own_fields, hex_fields, is_own, escaped_fields, spelled_fields, whole_by, whole_fields, front_fields, raw_fields, cut_by, cut_fields, text_fields, cut_payload, payload_value, integer_name, integer_value, long_value, cut_long, shown_long};

use crate::said::{Said, hex_name, raw_name, string_name, text_name, unicode_name};
use byteorder::{ByteOrder, LittleEndian};
use json_lines::{write_bytes_field, write_hex_field, write_integer_field, write_number_field};
use pickle_calls::{Detail, front};
use pickle_io::{Failed, Page};
use pickle_names::{Coding, read};

/// 2^53. A whole number from here on is written by its digits, since readers that take numbers as doubles would round it.
const EXACT: u64 = 9_007_199_254_740_992;

/// At how many bytes a payload is cut, as in the texts for people.
const MOST_BYTES: usize = 64;

/// At how many characters a text is cut.
const MOST_CHARACTERS: usize = 64;

/// Writes how many bytes were cut off, if any.
#[tactic(auto, using(json_lines::proofs::Lines::fields_steps), unfolding(crate::specs::TextFields::more_fields))]
fn write_more<P: Page>(count: usize, page: &mut P) -> Result<(), Failed>
    ensures { Writes (P.told page.old) (P.told page.new) result (fields_text (more_fields count)) }
{
    if count == 0 {
        Ok(())
    } else {
        write_number_field("more", count as u64, page)
    }
}

/// Writes bytes that are their own value.
#[tactic(auto, unfolding(crate::specs::TextFields::own_fields))]
pub(crate) fn write_own<P: Page>(said: Said, bytes: &[u8], page: &mut P) -> Result<(), Failed>
    ensures { Writes (P.told page.old) (P.told page.new) result (fields_text (own_fields said bytes.now)) }
{
    write_bytes_field(text_name(said), hex_name(said), bytes, page)
}

/// Writes bytes in hexadecimal.
#[tactic(auto, unfolding(crate::specs::TextFields::hex_fields))]
fn write_hex<P: Page>(name: &str, bytes: &[u8], page: &mut P) -> Result<(), Failed>
    ensures { Writes (P.told page.old) (P.told page.new) result (fields_text (hex_fields name.now bytes.now)) }
{
    write_hex_field(name, bytes, page)
}

/// Whether a byte stands for itself, whatever escapes there are.
fn is_own(byte: u8) -> bool
    ensures { result ≡ is_own byte }
{
    byte < 128 && byte != b'\\'
}

/// Whether all bytes stand for themselves.
fn are_own(bytes: &[u8]) -> bool
    ensures { result ≡ list_all is_own bytes.now }
{
    for byte in bytes {
        if !is_own(*byte) {
            return false;
        }
    }
    true
}

/// Writes a text whose spelling may have escapes.
#[tactic(auto, unfolding(crate::specs::TextFields::escaped_fields))]
fn write_escaped<P: Page>(name: &str, said: Said, bytes: &[u8], page: &mut P) -> Result<(), Failed>
    ensures { Writes (P.told page.old) (P.told page.new) result (fields_text (escaped_fields name.now said bytes.now)) }
{
    if are_own(bytes) {
        write_own(said, bytes, page)
    } else {
        write_hex(name, bytes, page)
    }
}

/// Writes a text that can be read.
#[tactic(auto, unfolding(crate::specs::TextFields::spelled_fields))]
fn write_spelled<P: Page>(
    said: Said,
    coding: Coding,
    bytes: &[u8],
    page: &mut P,
) -> Result<(), Failed>
    ensures { Writes (P.told page.old) (P.told page.new) result (fields_text (spelled_fields said coding bytes.now)) }
{
    match coding {
        Coding::Ascii => write_own(said, bytes, page),
        Coding::Utf8 => write_own(said, bytes, page),
        Coding::AnyUtf8 => write_own(said, bytes, page),
        Coding::RawEscape => write_escaped(unicode_name(said), said, bytes, page),
        Coding::StringEscape => write_escaped(string_name(said), said, bytes, page),
    }
}

/// Writes a text, which may not be one that can be read.
#[tactic(auto, unfolding(crate::specs::TextFields::whole_fields))]
pub(crate) fn write_whole<P: Page>(
    said: Said,
    coding: Coding,
    bytes: &[u8],
    page: &mut P,
) -> Result<(), Failed>
    ensures { Writes (P.told page.old) (P.told page.new) result (fields_text (whole_fields said coding bytes.now)) }
{
    if read(coding, bytes.len(), bytes).good {
        write_spelled(said, coding, bytes, page)
    } else {
        write_hex(raw_name(said), bytes, page)
    }
}

/// Writes the bytes that were read of a text, and how many there are behind them.
fn write_front<P: Page>(
    coding: Coding,
    left: usize,
    bytes: &[u8],
    page: &mut P,
) -> Result<(), Failed>
    ensures { Writes (P.told page.old) (P.told page.new) result (fields_text (front_fields coding left bytes.now)) }
{
    write_spelled(
        Said::Value,
        coding,
        front(bytes, bytes.len().saturating_sub(left)),
        page,
    )?;
    write_more(left, page)
}

/// Writes the first bytes of a text that cannot be read, and how many there are behind them.
fn write_raw<P: Page>(bytes: &[u8], page: &mut P) -> Result<(), Failed>
    ensures { Writes (P.told page.old) (P.told page.new) result (fields_text (raw_fields bytes.now)) }
{
    write_hex(raw_name(Said::Value), front(bytes, MOST_BYTES), page)?;
    write_more(bytes.len().saturating_sub(MOST_BYTES), page)
}

/// Writes the first characters of a text.
#[tactic(auto, unfolding(crate::specs::TextFields::cut_fields))]
fn write_cut<P: Page>(coding: Coding, bytes: &[u8], page: &mut P) -> Result<(), Failed>
    ensures { Writes (P.told page.old) (P.told page.new) result (fields_text (cut_fields coding bytes.now)) }
{
    let reading = read(coding, MOST_CHARACTERS, bytes);
    if reading.good {
        write_front(coding, reading.left, bytes, page)
    } else {
        write_raw(bytes, page)
    }
}

/// Writes a text that is cut, or shown in full.
#[tactic(auto, unfolding(crate::specs::TextFields::text_fields))]
pub(crate) fn write_text<P: Page>(
    detail: Detail,
    coding: Coding,
    bytes: &[u8],
    page: &mut P,
) -> Result<(), Failed>
    ensures { Writes (P.told page.old) (P.told page.new) result (fields_text (text_fields detail coding bytes.now)) }
{
    match detail {
        Detail::Cut => write_cut(coding, bytes, page),
        Detail::Full => write_whole(Said::Value, coding, bytes, page),
    }
}

/// Writes the first bytes of a payload, and how many there are behind them.
fn write_cut_payload<P: Page>(bytes: &[u8], page: &mut P) -> Result<(), Failed>
    ensures { Writes (P.told page.old) (P.told page.new) result (fields_text (cut_payload bytes.now)) }
{
    write_own(Said::Value, front(bytes, MOST_BYTES), page)?;
    write_more(bytes.len().saturating_sub(MOST_BYTES), page)
}

/// Writes a payload that is cut, or shown in full.
#[tactic(auto, unfolding(crate::specs::TextFields::payload_value))]
pub(crate) fn write_payload<P: Page>(
    detail: Detail,
    bytes: &[u8],
    page: &mut P,
) -> Result<(), Failed>
    ensures { Writes (P.told page.old) (P.told page.new) result (fields_text (payload_value detail bytes.now)) }
{
    match detail {
        Detail::Cut => write_cut_payload(bytes, page),
        Detail::Full => write_own(Said::Value, bytes, page),
    }
}

/// The name of the field of a number.
#[tactic(auto, unfolding(crate::specs::TextFields::integer_name))]
fn integer_name(exact: bool) -> &'static str
    ensures { result.now ≡ integer_name exact }
{
    if exact { "value" } else { "digits" }
}

/// Writes a number.
#[tactic(auto, unfolding(crate::specs::TextFields::integer_value))]
pub(crate) fn write_integer<P: Page>(number: i128, page: &mut P) -> Result<(), Failed>
    ensures { Writes (P.told page.old) (P.told page.new) result (fields_text (integer_value number)) }
{
    let exact = number.unsigned_abs() < u128::from(EXACT);
    write_integer_field(integer_name(exact), number, page)
}

/// The number of up to sixteen bytes in two's complement, the lowest first; 0 where there are none.
fn long_of(bytes: &[u8]) -> i128
    requires { length bytes.now ≤ 16 }
    ensures { result ≡ long_of bytes.now }
{
    if bytes.is_empty() {
        0
    } else {
        LittleEndian::read_int128(bytes, bytes.len())
    }
}

/// Writes a number in two's complement.
#[tactic(auto, unfolding(crate::specs::TextFields::long_value))]
fn write_whole_long<P: Page>(bytes: &[u8], page: &mut P) -> Result<(), Failed>
    ensures { Writes (P.told page.old) (P.told page.new) result (fields_text (long_value bytes.now)) }
{
    if bytes.len() <= 16 {
        write_integer(long_of(bytes), page)
    } else {
        write_hex("le_hex", bytes, page)
    }
}

/// Writes a number by its first bytes, and how many there are behind them.
fn write_cut_long<P: Page>(bytes: &[u8], page: &mut P) -> Result<(), Failed>
    ensures { Writes (P.told page.old) (P.told page.new) result (fields_text (cut_long bytes.now)) }
{
    write_whole_long(front(bytes, MOST_BYTES), page)?;
    write_more(bytes.len().saturating_sub(MOST_BYTES), page)
}

/// Writes a number in two's complement that is cut, or shown in full.
#[tactic(auto, unfolding(crate::specs::TextFields::shown_long))]
pub(crate) fn write_long<P: Page>(detail: Detail, bytes: &[u8], page: &mut P) -> Result<(), Failed>
    ensures { Writes (P.told page.old) (P.told page.new) result (fields_text (shown_long detail bytes.now)) }
{
    match detail {
        Detail::Cut => write_cut_long(bytes, page),
        Detail::Full => write_whole_long(bytes, page),
    }
}
