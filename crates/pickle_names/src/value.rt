//! The values of texts.

ghost use Rattle.std.specs.Prelude.{◌≡◌, ◌≤◌, ◌<◌, ◌^◌, ◌++◌, drop, take, length, true, codes, OnOk, Some, nat_le, ◌&&◌, ◌+◌, false};
ghost use Rattle.std.specs.Option.{option_map};
ghost use Rattle.pickle_io.specs.Device.{Wrote, Writes};
ghost use Rattle.pickle_io.specs.Text.{◌⧺◌, escaped, quoted_byte, quoted_bytes, quoted};
ghost use Rattle.std.specs.List.{list_all};
ghost use Rattle.pickle_names.specs.declared.coding.Coding.{Coding};
ghost use Rattle.pickle_names.specs.Coding.{front_of, is_plain};
ghost use Rattle.pickle_names.specs.Value.{utf8_of, piece_text, piece_size, decode, decode_all, raw_text, short_value, whole_text};
ghost use Rattle.pickle_names.specs.Reading.{IsReading};

use crate::coding::{Coding, Piece};
use crate::piece::{front_of, is_plain};
use arrayvec::ArrayVec;
use pickle_io::{Failed, Page, write_all, write_hex, write_quoted};

/// What was read of the first characters of a text.
#[derive(Clone, Copy)]
pub struct Reading {
    /// How many bytes are left.
    pub left: usize,
    /// Whether all that was to be read could be.
    pub good: bool,
    /// Whether the value is the bytes that were read, as they are.
    pub plain: bool,
}

/// Whether a piece stands for itself.
fn is_spelled(piece: Piece) -> bool
    ensures { result ≡ true → piece_text piece ≡ take (piece_size piece) }
{
    matches!(piece, Piece::Spelled(_))
}

/// Whether what was read and this piece stand for themselves.
fn stays_plain(plain: bool, piece: Piece) -> bool
    ensures before { result ≡ true → plain ≡ true }
    ensures now { result ≡ true → piece_text piece ≡ take (piece_size piece) }
{
    plain && is_spelled(piece)
}

/// The bytes after a piece.
fn behind(piece: Piece, bytes: &[u8]) -> &[u8]
    ensures { result.now ≡ drop (piece_size piece) bytes.now }
{
    let size = match piece {
        Piece::Spelled(n) => n,
        Piece::Char(_, n) => n,
    };
    &bytes[size.min(bytes.len())..]
}

/// Whether each byte stands for itself, however the bytes of a text are read.
fn are_plain(bytes: &[u8]) -> bool
    ensures { result ≡ list_all is_plain bytes.now }
{
    for byte in bytes {
        if !is_plain(*byte) {
            return false;
        }
    }
    true
}

/// The first bytes, at most so many.
#[tactic(auto, using(crate::proofs::Plain::front_steps))]
fn front(most: usize, bytes: &[u8]) -> &[u8]
    ensures { result.now ≡ take most bytes.now }
{
    &bytes[..most.min(bytes.len())]
}

/// Reads the first characters of a text, at most so many, one by one.
#[inline(never)]
fn read_slowly(coding: Coding, most: usize, bytes: &[u8]) -> Reading
    ensures { IsReading coding most bytes.now result }
{
    let mut rest = bytes;
    let mut plain = true;
    for _ in 0..most {
        let Some((byte, more)) = rest.split_first() else {
            return Reading {
                left: 0,
                good: true,
                plain,
            };
        };
        let Some(piece) = front_of(coding, *byte, more) else {
            return Reading {
                left: rest.len(),
                good: false,
                plain,
            };
        };
        plain = stays_plain(plain, piece);
        rest = behind(piece, rest);
    }
    Reading {
        left: rest.len(),
        good: true,
        plain,
    }
}

/// Reads the first characters of a text, at most so many.
pub fn read(coding: Coding, most: usize, bytes: &[u8]) -> Reading
    ensures { IsReading coding most bytes.now result }
{
    if are_plain(front(most, bytes)) {
        return Reading {
            left: bytes.len().saturating_sub(most),
            good: true,
            plain: true,
        };
    }
    read_slowly(coding, most, bytes)
}

/// Writes the number of a byte that would not stand for itself between quotes.
#[tactic(auto, using(pickle_io::proofs::Devices::page_steps), unfolding(pickle_io::specs::Text::escaped))]
fn write_escaped<P: Page>(byte: u8, page: &mut P) -> Result<(), Failed>
    ensures { Writes (P.told page.old) (P.told page.new) result (escaped byte) }
{
    page.make_room()?;
    page.push_text(b"\\x");
    write_hex(&[byte], page)
}

/// Writes a byte that stands for itself between quotes, perhaps after a backslash.
#[tactic(auto, using(pickle_io::proofs::Devices::page_steps), unfolding(pickle_io::specs::Text::quoted_byte))]
fn write_visible<P: Page>(byte: u8, page: &mut P) -> Result<(), Failed>
    requires { (nat_le 32 byte && nat_le byte 126) ≡ true }
    ensures { Writes (P.told page.old) (P.told page.new) result (quoted_byte byte) }
{
    page.make_room()?;
    if byte == b'\\' || byte == b'\'' {
        page.push_text(&[b'\\', byte]);
    } else {
        page.push(byte);
    }
    Ok(())
}

/// Whether a byte is a visible character or a blank.
fn is_visible(byte: u8) -> bool
    ensures { result ≡ (nat_le 32 byte && nat_le byte 126) }
{
    byte >= b' ' && byte <= b'~'
}

/// Writes a byte as it is between quotes.
#[tactic(auto, using(crate::proofs::Quotes::hidden))]
fn write_byte<P: Page>(byte: u8, page: &mut P) -> Result<(), Failed>
    ensures { Writes (P.told page.old) (P.told page.new) result (quoted_byte byte) }
{
    if is_visible(byte) {
        write_visible(byte, page)
    } else {
        write_escaped(byte, page)
    }
}

/// Writes bytes as they are between quotes.
#[tactic(auto, using(pickle_io::proofs::Devices::each_steps, crate::proofs::Quotes::quoted_is_each))]
fn write_bytes<P: Page>(bytes: &[u8], page: &mut P) -> Result<(), Failed>
    ensures { Writes (P.told page.old) (P.told page.new) result (quoted_bytes bytes.now) }
{
    for byte in bytes {
        write_byte(*byte, page)?;
    }
    Ok(())
}

/// A character in UTF-8.
#[derive(Clone, Copy)]
struct Utf8 {
    bytes: [u8; 4],
    len: usize,
}

/// A character in UTF-8.
#[tactic(auto, unfolding(crate::specs::Value::utf8_of))]
fn utf8_of(number: u32) -> Utf8
    ensures text { take result.len result.bytes ≡ utf8_of number }
    ensures within { result.len ≤ 4 }
{
    let last = (128 + number % 64) as u8;
    if number < 128 {
        Utf8 {
            bytes: [number as u8, 0, 0, 0],
            len: 1,
        }
    } else if number < 2048 {
        Utf8 {
            bytes: [(192 + number / 64) as u8, last, 0, 0],
            len: 2,
        }
    } else if number < 65_536 {
        Utf8 {
            bytes: [
                (224 + number / 4096) as u8,
                (128 + number / 64 % 64) as u8,
                last,
                0,
            ],
            len: 3,
        }
    } else {
        Utf8 {
            bytes: [
                (240 + number / 262_144 % 8) as u8,
                (128 + number / 4096 % 64) as u8,
                (128 + number / 64 % 64) as u8,
                last,
            ],
            len: 4,
        }
    }
}

/// Writes a character as it is between quotes.
fn write_char<P: Page>(number: u32, page: &mut P) -> Result<(), Failed>
    ensures { Writes (P.told page.old) (P.told page.new) result (quoted_bytes (utf8_of number)) }
{
    let text = utf8_of(number);
    write_bytes(&text.bytes[..text.len], page)
}

/// Writes what a piece at the front of bytes is, as it is between quotes.
fn write_piece<P: Page>(piece: Piece, bytes: &[u8], page: &mut P) -> Result<(), Failed>
    ensures { Writes (P.told page.old) (P.told page.new) result (quoted_bytes (piece_text piece bytes.now)) }
{
    match piece {
        Piece::Spelled(size) => write_bytes(&bytes[..size.min(bytes.len())], page),
        Piece::Char(number, _) => write_char(number, page),
    }
}

/// Writes the first characters of a text as they are between quotes, up to what cannot be read.
#[tactic(auto, using(crate::proofs::Turns::writing_steps))]
fn write_characters<P: Page>(
    coding: Coding,
    most: usize,
    bytes: &[u8],
    page: &mut P,
) -> Result<(), Failed>
    ensures { Writes (P.told page.old) (P.told page.new) result (quoted_bytes (decode coding most bytes.now).value) }
{
    let mut rest = bytes;
    for _ in 0..most {
        let Some((byte, more)) = rest.split_first() else {
            return Ok(());
        };
        let Some(piece) = front_of(coding, *byte, more) else {
            return Ok(());
        };
        write_piece(piece, rest, page)?;
        rest = behind(piece, rest);
    }
    Ok(())
}

/// Writes the first characters of a text in quotes, one by one.
fn write_slowly<P: Page>(
    coding: Coding,
    most: usize,
    bytes: &[u8],
    page: &mut P,
) -> Result<(), Failed>
    ensures { Writes (P.told page.old) (P.told page.new) result (quoted (decode coding most bytes.now).value) }
{
    write_all(page, b"'")?;
    write_characters(coding, most, bytes, page)?;
    write_all(page, b"'")
}

/// Writes the first characters of a text in quotes, of which this was said.
#[tactic(auto, using(crate::proofs::Turns::plain_value))]
pub fn write_value<P: Page>(
    reading: Reading,
    coding: Coding,
    most: usize,
    bytes: &[u8],
    page: &mut P,
) -> Result<(), Failed>
    requires { IsReading coding most bytes.now reading }
    ensures { Writes (P.told page.old) (P.told page.new) result (quoted (decode coding most bytes.now).value) }
{
    if reading.plain {
        write_quoted(&bytes[..bytes.len().saturating_sub(reading.left)], page)
    } else {
        write_slowly(coding, most, bytes, page)
    }
}

/// Writes a text that cannot be read, by its bytes.
fn write_raw<P: Page>(bytes: &[u8], page: &mut P) -> Result<(), Failed>
    ensures { Writes (P.told page.old) (P.told page.new) result (raw_text bytes.now) }
{
    write_all(page, b"raw ")?;
    write_quoted(bytes, page)
}

/// Writes a text by its value, or where it cannot be read by its bytes.
#[tactic(auto, unfolding(crate::specs::Value::whole_text))]
pub fn write_text<P: Page>(coding: Coding, bytes: &[u8], page: &mut P) -> Result<(), Failed>
    ensures { Writes (P.told page.old) (P.told page.new) result (whole_text coding bytes.now) }
{
    let reading = read(coding, bytes.len(), bytes);
    if reading.good {
        write_value(reading, coding, bytes.len(), bytes, page)
    } else {
        write_raw(bytes, page)
    }
}

/// Whether a text is known to be its own short value, however its bytes are read. Most names are.
#[tactic(auto, using(crate::proofs::Plain::plain_short))]
pub fn is_plain_name(bytes: &[u8]) -> bool
    ensures { result ≡ true → (c : Coding) → short_value c bytes.now ≡ Some bytes.now }
{
    bytes.len() <= 32 && are_plain(bytes)
}

/// Keeps what a piece at the front of bytes is, and answers whether there was room.
fn keep_piece(piece: Piece, bytes: &[u8], held: &mut ArrayVec<u8, 32>) -> bool
    ensures kept { result ≡ true → held.new.items ≡ held.old.items ++ piece_text piece bytes.now }
    ensures small { result ≡ true → length held.new.items ≤ 32 }
    ensures over { result ≡ false → 32 < length held.old.items + length (piece_text piece bytes.now) }
{
    match piece {
        Piece::Spelled(size) => held
            .try_extend_from_slice(&bytes[..size.min(bytes.len())])
            .is_ok(),
        Piece::Char(number, _) => {
            let text = utf8_of(number);
            held.try_extend_from_slice(&text.bytes[..text.len]).is_ok()
        }
    }
}

/// The value of a text, if it can be read and is short.
pub fn short_value(coding: Coding, bytes: &[u8]) -> Option<ArrayVec<u8, 32>>
    ensures { option_map (λ v. v.items) result ≡ short_value coding bytes.now }
{
    let mut held = ArrayVec::new();
    let mut rest = bytes;
    for _ in 0..bytes.len() {
        let Some((byte, more)) = rest.split_first() else {
            return Some(held);
        };
        let Some(piece) = front_of(coding, *byte, more) else {
            return None;
        };
        if !keep_piece(piece, rest, &mut held) {
            return None;
        }
        rest = behind(piece, rest);
    }
    Some(held)
}
