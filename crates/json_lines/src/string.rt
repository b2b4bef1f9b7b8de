//! Strings.

ghost use Rattle.std.specs.Prelude.{◌≡◌, ◌≤◌, ◌<◌, ◌+◌, OnOk, true};
ghost use Rattle.std.specs.List.{list_all};
ghost use Rattle.std.specs.Char.{digit_char};
ghost use Rattle.std.specs.Str.{chars};
ghost use Rattle.pickle_io.specs.Device.{Wrote, Writes};
ghost use Rattle.json_lines.specs.Json.{is_plain, unit_text, pair_text, char_text, chars_text, string_text};

use pickle_io::{Failed, Page};

/// The longest text that is put between quotation marks at once.
const SHORT: usize = 180;

/// The hexadecimal digit of a number below 16.
#[inline(always)]
fn digit(number: u32) -> u8
    requires { number < 16 }
    ensures { result ≡ digit_char number }
{
    if number < 10 {
        48 + number as u8
    } else {
        87 + number as u8
    }
}

/// Puts a unit of UTF-16 by its four digits.
#[tactic(auto, unfolding(crate::specs::Json::unit_text))]
fn push_unit<P: Page>(unit: u32, page: &mut P)
    requires room { 6 ≤ P.room page.old }
    requires unit { unit < 65536 }
    ensures text { Wrote (P.told page.old) (P.told page.new) (unit_text unit) }
    ensures room { P.room page.old ≤ P.room page.new + 6 }
{
    page.push_text(&[
        b'\\',
        b'u',
        digit(unit / 4096),
        digit(unit / 256 % 16),
        digit(unit / 16 % 16),
        digit(unit % 16),
    ]);
}

/// Puts a character beyond 0xffff by its surrogate pair.
#[tactic(auto, using(pickle_io::proofs::Devices::page_steps), unfolding(crate::specs::Json::pair_text))]
fn push_pair<P: Page>(code: u32, page: &mut P)
    requires room { 12 ≤ P.room page.old }
    requires beyond { 65536 ≤ code }
    requires within { code < 1114112 }
    ensures text { Wrote (P.told page.old) (P.told page.new) (pair_text code) }
    ensures room { P.room page.old ≤ P.room page.new + 12 }
{
    let beyond = code - 0x1_0000;
    push_unit(0xd800 + beyond / 1024, page);
    push_unit(0xdc00 + beyond % 1024, page);
}

/// Puts a character as it stands in a string.
#[tactic(auto, unfolding(crate::specs::Json::char_text))]
fn push_char<P: Page>(c: char, page: &mut P)
    requires { 12 ≤ P.room page.old }
    ensures text { Wrote (P.told page.old) (P.told page.new) (char_text c) }
    ensures room { P.room page.old ≤ P.room page.new + 12 }
{
    let code = c as u32;
    if code == 34 {
        page.push_text(b"\\\"");
    } else if code == 92 {
        page.push_text(b"\\\\");
    } else if code >= 32 && code <= 126 {
        page.push(code as u8);
    } else if code < 0x1_0000 {
        push_unit(code, page);
    } else {
        push_pair(code, page);
    }
}

/// Whether a byte is a character that stands for itself.
#[inline(always)]
fn is_plain(byte: u8) -> bool
    ensures { result ≡ is_plain byte }
{
    (byte >= 32 && byte <= 126) && (byte != b'"' && byte != b'\\')
}

/// Whether all bytes are characters that stand for themselves in a string.
pub fn are_plain(bytes: &[u8]) -> bool
    ensures { result ≡ list_all is_plain bytes.now }
{
    for byte in bytes {
        if !is_plain(*byte) {
            return false;
        }
    }
    true
}

/// Writes the characters of a text as they stand in a string, one after another.
#[tactic(auto, using(pickle_io::proofs::Devices::page_steps))]
fn write_each_char<P: Page>(text: &str, page: &mut P) -> Result<(), Failed>
    requires { 61 ≤ P.room page.old }
    ensures text { Writes (P.told page.old) (P.told page.new) result (chars_text (chars text.now)) }
    ensures room { OnOk result (61 ≤ P.room page.new) }
{
    for c in text.chars() {
        page.make_room()?;
        push_char(c, page);
    }
    Ok(())
}

/// Writes the characters of a text as they stand in a string, at once where they are few and stand for themselves.
#[tactic(auto, using(crate::proofs::Strings::plain_text))]
#[inline(always)]
fn write_chars<P: Page>(text: &str, page: &mut P) -> Result<(), Failed>
    requires { 255 ≤ P.room page.old }
    ensures text { Writes (P.told page.old) (P.told page.new) result (chars_text (chars text.now)) }
    ensures room { OnOk result (61 ≤ P.room page.new) }
{
    let bytes = text.as_bytes();
    if bytes.len() <= SHORT && are_plain(bytes) {
        page.push_text(bytes);
        Ok(())
    } else {
        write_each_char(text, page)
    }
}

/// Writes a text as a string. `Failed` where the sink fails; a beginning of the string was written then.
#[tactic(auto, using(pickle_io::proofs::Devices::page_steps), unfolding(crate::specs::Json::string_text))]
pub fn write_string<P: Page>(text: &str, page: &mut P) -> Result<(), Failed>
    ensures text { Writes (P.told page.old) (P.told page.new) result (string_text text.now) }
    ensures room { OnOk result (60 ≤ P.room page.new) }
{
    page.make_room()?;
    page.push(b'"');
    write_chars(text, page)?;
    page.push(b'"');
    Ok(())
}
