//! What stands for a character or a byte between the quotes of a literal. A `push_` requires the room that it takes, and cannot fail.

ghost use Rattle.std.specs.Prelude.{◌≡◌, ◌<◌, ◌≤◌, ◌+◌, ◌^◌};
ghost use Rattle.std.specs.List.{list_all};
ghost use Rattle.std.specs.Char.{digit_char, encode_utf8};
ghost use Rattle.pickle_io.specs.Device.{Wrote};
ghost use Rattle.python_literals.specs.Signs.{two_digits, byte_escape, short_escape, long_escape, hex_escape, ascii_text, is_print, is_known, is_shown, char_text, sign_text, is_plain};
ghost use Rattle.python_literals.specs.Inside.Turns.{begun, pending_after, goes_on, HasRoom, AllHaveRoom};

use pickle_io::Page;
use ucd_age::Age;
use ucd_category::{GeneralCategory, GeneralCategoryGroup};

/// A character of a text in UTF-8 of which some bytes were read.
#[derive(Clone, Copy)]
pub(crate) struct Pending {
    /// How many of its bytes are to come.
    pub left: u32,
    /// What its bytes so far say of its number.
    pub number: u32,
}

/// What a byte begins that is the first of a character.
pub(crate) fn begun(byte: u8) -> Pending
    ensures value { result ≡ begun byte }
    ensures room { HasRoom result }
{
    let bits = u32::from(byte);
    if byte < 128 {
        Pending {
            left: 0,
            number: bits,
        }
    } else if byte < 224 {
        Pending {
            left: 1,
            number: bits.saturating_sub(192),
        }
    } else if byte < 240 {
        Pending {
            left: 2,
            number: bits.saturating_sub(224),
        }
    } else {
        Pending {
            left: 3,
            number: bits.saturating_sub(240),
        }
    }
}

/// What is known of a character after one byte more.
fn goes_on(pending: Pending, byte: u8) -> Pending
    requires some { 1 ≤ pending.left }
    requires room { HasRoom pending }
    ensures value { result ≡ goes_on pending byte }
    ensures room { HasRoom result }
{
    Pending {
        left: pending.left - 1,
        number: pending.number * 64 + u32::from(byte.saturating_sub(128)),
    }
}

/// What is known after one byte more.
pub(crate) fn pending_after(pending: Option<Pending>, byte: u8) -> Pending
    requires { AllHaveRoom pending }
    ensures value { result ≡ pending_after pending byte }
    ensures room { HasRoom result }
{
    match pending {
        None => begun(byte),
        Some(so_far) => {
            if so_far.left == 0 {
                begun(byte)
            } else {
                goes_on(so_far, byte)
            }
        }
    }
}

/// The hexadecimal digit of a number below 16.
#[inline(always)]
pub(crate) fn digit(number: u32) -> u8
    requires { number < 16 }
    ensures { result ≡ digit_char number }
{
    if number < 10 {
        48 + number as u8
    } else {
        87 + number as u8
    }
}

/// Puts the last two hexadecimal digits of a number.
#[tactic(auto, unfolding(crate::specs::Signs::two_digits))]
pub(crate) fn push_two_digits<P: Page>(number: u32, page: &mut P)
    requires { 2 ≤ P.room page.old }
    ensures text { Wrote (P.told page.old) (P.told page.new) (two_digits number) }
    ensures room { P.room page.old ≤ P.room page.new + 2 }
{
    page.push_text(&[digit(number / 16 % 16), digit(number % 16)]);
}

/// Puts the escape of a character below 256.
#[tactic(auto, using(pickle_io::proofs::Devices::page_steps), unfolding(crate::specs::Signs::byte_escape))]
fn push_byte_escape<P: Page>(number: u32, page: &mut P)
    requires { 4 ≤ P.room page.old }
    ensures text { Wrote (P.told page.old) (P.told page.new) (byte_escape number) }
    ensures room { P.room page.old ≤ P.room page.new + 4 }
{
    page.push_text(b"\\x");
    push_two_digits(number, page);
}

/// Puts the escape of a character below 65,536.
#[tactic(auto, using(pickle_io::proofs::Devices::page_steps), unfolding(crate::specs::Signs::short_escape))]
fn push_short_escape<P: Page>(number: u32, page: &mut P)
    requires { 6 ≤ P.room page.old }
    ensures text { Wrote (P.told page.old) (P.told page.new) (short_escape number) }
    ensures room { P.room page.old ≤ P.room page.new + 6 }
{
    page.push_text(b"\\u");
    push_two_digits(number / 256, page);
    push_two_digits(number, page);
}

/// Puts the escape of any character.
#[tactic(auto, using(pickle_io::proofs::Devices::page_steps), unfolding(crate::specs::Signs::long_escape))]
fn push_long_escape<P: Page>(number: u32, page: &mut P)
    requires { 10 ≤ P.room page.old }
    ensures text { Wrote (P.told page.old) (P.told page.new) (long_escape number) }
    ensures room { P.room page.old ≤ P.room page.new + 10 }
{
    page.push_text(b"\\U");
    push_two_digits(number / 0x100_0000, page);
    push_two_digits(number / 0x1_0000, page);
    push_two_digits(number / 256, page);
    push_two_digits(number, page);
}

/// Puts the shortest escape of a character.
#[tactic(auto, unfolding(crate::specs::Signs::hex_escape))]
#[inline(never)]
fn push_hex_escape<P: Page>(number: u32, page: &mut P)
    requires { 10 ≤ P.room page.old }
    ensures text { Wrote (P.told page.old) (P.told page.new) (hex_escape number) }
    ensures room { P.room page.old ≤ P.room page.new + 10 }
{
    if number < 256 {
        push_byte_escape(number, page);
    } else if number < 0x1_0000 {
        push_short_escape(number, page);
    } else {
        push_long_escape(number, page);
    }
}

/// Puts a character of which no more than ASCII stands for itself.
#[tactic(auto, unfolding(crate::specs::Signs::ascii_text))]
fn push_ascii<P: Page>(quote: u8, number: u32, page: &mut P)
    requires { 10 ≤ P.room page.old }
    ensures text { Wrote (P.told page.old) (P.told page.new) (ascii_text quote number) }
    ensures room { P.room page.old ≤ P.room page.new + 10 }
{
    if number == u32::from(quote) {
        page.push_text(&[b'\\', quote]);
    } else if number == 92 {
        page.push_text(b"\\\\");
    } else if number == 9 {
        page.push_text(b"\\t");
    } else if number == 10 {
        page.push_text(b"\\n");
    } else if number == 13 {
        page.push_text(b"\\r");
    } else if number >= 32 && number <= 126 {
        page.push(number as u8);
    } else {
        push_hex_escape(number, page);
    }
}

/// Puts a byte.
pub(crate) fn push_byte<P: Page>(quote: u8, byte: u8, page: &mut P)
    requires { 10 ≤ P.room page.old }
    ensures text { Wrote (P.told page.old) (P.told page.new) (ascii_text quote byte) }
    ensures room { P.room page.old ≤ P.room page.new + 10 }
{
    push_ascii(quote, u32::from(byte), page);
}

/// Whether characters of a category print.
fn is_print(category: GeneralCategory) -> bool
    ensures { result ≡ is_print category }
{
    !GeneralCategoryGroup::Other.contains(category)
        && !GeneralCategoryGroup::Separator.contains(category)
}

/// Whether a character was in Unicode 15.1.
fn is_known(c: char) -> bool
    ensures { result ≡ is_known c }
{
    Age::for_char(c).number() <= Age::V15_1.number()
}

/// Whether a character beyond ASCII prints.
#[tactic(auto, unfolding(crate::specs::Signs::is_shown))]
fn is_shown(c: char) -> bool
    ensures { result ≡ is_shown c }
{
    c as u32 >= 128 && (is_print(GeneralCategory::for_char(c)) && is_known(c))
}

/// Puts a character in UTF-8.
fn push_utf8<P: Page>(c: char, page: &mut P)
    requires { 10 ≤ P.room page.old }
    ensures text { Wrote (P.told page.old) (P.told page.new) (encode_utf8 c) }
    ensures room { P.room page.old ≤ P.room page.new + 10 }
{
    let mut bytes = [0; 4];
    let text = c.encode_utf8(&mut bytes);
    page.push_text(text.as_bytes());
}

/// Puts a character.
#[tactic(auto, unfolding(crate::specs::Signs::char_text))]
fn push_char<P: Page>(quote: u8, c: char, page: &mut P)
    requires { 10 ≤ P.room page.old }
    ensures text { Wrote (P.told page.old) (P.told page.new) (char_text quote c) }
    ensures room { P.room page.old ≤ P.room page.new + 10 }
{
    if is_shown(c) {
        push_utf8(c, page);
    } else {
        push_ascii(quote, c as u32, page);
    }
}

/// Puts a character by its number, also a half of a surrogate pair.
#[tactic(auto, unfolding(crate::specs::Signs::sign_text))]
pub(crate) fn push_sign<P: Page>(quote: u8, number: u32, page: &mut P)
    requires { 10 ≤ P.room page.old }
    ensures text { Wrote (P.told page.old) (P.told page.new) (sign_text quote number) }
    ensures room { P.room page.old ≤ P.room page.new + 10 }
{
    match char::from_u32(number) {
        Some(c) => push_char(quote, c, page),
        None => push_ascii(quote, number, page),
    }
}

/// Whether a byte stands for itself between these quotes.
#[inline(always)]
fn is_plain(quote: u8, byte: u8) -> bool
    ensures { result ≡ is_plain quote byte }
{
    (byte >= 32 && byte <= 126) && (byte != quote && byte != b'\\')
}

/// Whether all bytes stand for themselves between these quotes.
pub(crate) fn are_plain(quote: u8, bytes: &[u8]) -> bool
    ensures { result ≡ list_all (is_plain quote) bytes.now }
{
    for byte in bytes {
        if !is_plain(quote, *byte) {
            return false;
        }
    }
    true
}
