//! Texts of numbers and bytes. A `push_` requires the room that it takes, and cannot fail; a public `write_` makes room, and where that
//! fails, a beginning of the text was written, as by `write_all`.

ghost use Rattle.std.specs.Prelude.{◌≡◌, ◌+◌, ◌≤◌, ◌∷◌, [], OnOk, true, decimal};
ghost use Rattle.std.specs.Fmt.{signed_decimal};
ghost use Rattle.pickle_io.specs.Device.{Wrote, Writes};
ghost use Rattle.pickle_io.specs.Text.{hexadecimal, escaped, quoted_byte, quoted_bytes, quoted};

use crate::page::Page;
use crate::sink::Failed;
use itoa::{Buffer, write_digits};

/// Of each byte, whether it stands for itself between quotes: `1`, else `0`.
static PLAIN: [u8; 256] =
    *b"0000000000000000000000000000000011111110111111111111111111111111111111111111111111111111111101111111111111111111111111111111111000000000000000000000000000000000000000000000000000000000000000000000000000000000000000000000000000000000000000000000000000000000";

/// The digits of hexadecimal: a byte takes its two from this table.
const DIGITS: [u8; 16] = *b"0123456789abcdef";

/// The longest text that is put between quotes at once.
const SHORT: usize = 180;

/// Puts a number in decimal digits, without leading zeros.
#[tactic(auto, using(crate::proofs::Numbers::number_steps))]
#[inline(always)]
pub fn push_decimal<P: Page>(number: u64, page: &mut P)
    requires { 20 ≤ P.room page.old }
    ensures text { Wrote (P.told page.old) (P.told page.new) (decimal number) }
    ensures room { P.room page.old ≤ P.room page.new + 20 }
{
    let mut piece = [b' '; 40];
    let start = write_digits(number, &mut piece, 20);
    page.push_front(&piece[start..start + 20], 20 - start);
}

/// Puts a number in decimal digits, after a minus where it is below 0.
#[inline(never)]
pub fn push_signed<P: Page>(number: i128, page: &mut P)
    requires { 40 ≤ P.room page.old }
    ensures text { Wrote (P.told page.old) (P.told page.new) (signed_decimal number) }
    ensures room { P.room page.old ≤ P.room page.new + 40 }
{
    page.push_text(Buffer::new().format(number).as_bytes());
}

/// Writes a number in decimal digits, without leading zeros. Where the sink fails, a beginning of them was written.
#[tactic(auto, using(crate::proofs::Devices::page_steps))]
pub fn write_decimal<P: Page>(number: u64, page: &mut P) -> Result<(), Failed>
    ensures { Writes (P.told page.old) (P.told page.new) result (decimal number) }
{
    page.make_room()?;
    push_decimal(number, page);
    Ok(())
}

/// Writes a number in decimal digits, after a minus where it is below 0. Where the sink fails, a beginning of the text was
/// written.
#[tactic(auto, using(crate::proofs::Devices::page_steps))]
pub fn write_signed<P: Page>(number: i128, page: &mut P) -> Result<(), Failed>
    ensures text { Writes (P.told page.old) (P.told page.new) result (signed_decimal number) }
    ensures room { OnOk result (60 ≤ P.room page.new) }
{
    page.make_room()?;
    push_signed(number, page);
    Ok(())
}

/// The two digits of a byte in hexadecimal.
#[tactic(auto, unfolding(crate::specs::Text::hexadecimal, hex::specs::Hex::encode_with))]
#[inline(always)]
fn hex_digits(byte: u8) -> [u8; 2]
    ensures { result ≡ hexadecimal (byte ∷ []) }
{
    [
        DIGITS[usize::from(byte / 16)],
        DIGITS[usize::from(byte % 16)],
    ]
}

/// Writes bytes in hexadecimal, two lower case digits each. Where the sink fails, a beginning of the text was written.
#[tactic(auto, using(crate::proofs::Devices::page_steps))]
pub fn write_hex<P: Page>(bytes: &[u8], page: &mut P) -> Result<(), Failed>
    ensures text { Writes (P.told page.old) (P.told page.new) result (hexadecimal bytes.now) }
    ensures room { OnOk result (60 ≤ P.room page.new) }
{
    page.make_room()?;
    for byte in bytes {
        page.make_room()?;
        page.push_text(&hex_digits(*byte));
    }
    Ok(())
}

/// Puts the number of a byte that would not stand for itself between quotes.
#[tactic(auto, using(crate::proofs::Devices::page_steps), unfolding(crate::specs::Text::escaped))]
fn push_escaped<P: Page>(byte: u8, page: &mut P)
    requires { 4 ≤ P.room page.old }
    ensures text { Wrote (P.told page.old) (P.told page.new) (escaped byte) }
    ensures room { P.room page.old ≤ P.room page.new + 4 }
{
    page.push_text(b"\\x");
    page.push_text(&hex_digits(byte));
}

/// Puts a byte as it is between quotes.
#[tactic(auto, unfolding(crate::specs::Text::quoted_byte))]
#[inline(always)]
fn push_quoted_byte<P: Page>(byte: u8, page: &mut P)
    requires { 4 ≤ P.room page.old }
    ensures text { Wrote (P.told page.old) (P.told page.new) (quoted_byte byte) }
    ensures room { P.room page.old ≤ P.room page.new + 4 }
{
    if byte == b'\\' || byte == b'\'' {
        page.push_text(&[b'\\', byte]);
    } else if byte >= b' ' && byte <= b'~' {
        page.push(byte);
    } else {
        push_escaped(byte, page);
    }
}

/// Whether all bytes of a text stand for themselves between quotes.
fn is_plain(text: &[u8]) -> bool
    ensures { result ≡ true → quoted_bytes text.now ≡ text.now }
{
    for byte in text {
        if PLAIN[usize::from(*byte)] != b'1' {
            return false;
        }
    }
    true
}

/// Writes bytes as they are between quotes.
#[tactic(auto, using(crate::proofs::Devices::page_steps))]
fn write_quoted_bytes<P: Page>(text: &[u8], page: &mut P) -> Result<(), Failed>
    requires { 61 ≤ P.room page.old }
    ensures text { Writes (P.told page.old) (P.told page.new) result (quoted_bytes text.now) }
    ensures room { OnOk result (61 ≤ P.room page.new) }
{
    for byte in text {
        page.make_room()?;
        push_quoted_byte(*byte, page);
    }
    Ok(())
}

/// Writes bytes as they are between quotes, at once where they are few and stand for themselves.
#[tactic(auto, using(crate::proofs::Devices::page_steps))]
#[inline(always)]
fn write_between_quotes<P: Page>(text: &[u8], page: &mut P) -> Result<(), Failed>
    requires { 255 ≤ P.room page.old }
    ensures text { Writes (P.told page.old) (P.told page.new) result (quoted_bytes text.now) }
    ensures room { OnOk result (61 ≤ P.room page.new) }
{
    if text.len() <= SHORT && is_plain(text) {
        page.push_text(text);
        Ok(())
    } else {
        write_quoted_bytes(text, page)
    }
}

/// Writes a text in single quotes, on one line: `\\` for a backslash, `\'` for a quote, `\x` and two lower case
/// digits for a byte outside 0x20 to 0x7e. Where the sink fails, a beginning of the text was written.
#[tactic(auto, using(crate::proofs::Devices::page_steps), unfolding(crate::specs::Text::quoted))]
pub fn write_quoted<P: Page>(text: &[u8], page: &mut P) -> Result<(), Failed>
    ensures text { Writes (P.told page.old) (P.told page.new) result (quoted text.now) }
    ensures room { OnOk result (60 ≤ P.room page.new) }
{
    page.make_room()?;
    page.push(b'\'');
    write_between_quotes(text, page)?;
    page.push(b'\'');
    Ok(())
}
