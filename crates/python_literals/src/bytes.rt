//! Literals of bytes.

ghost use Rattle.std.specs.Prelude.{◌≡◌, ◌≤◌, OnOk, true, codes};
ghost use Rattle.pickle_io.specs.Device.{Writes, each};
ghost use Rattle.python_literals.specs.Signs.{ascii_text};
ghost use Rattle.python_literals.specs.Text.{quote_of, between, bytes_text, bytearray_text};

use crate::signs::{are_plain, push_byte};
use crate::text::{quote_of, write_plain};
use pickle_io::{Failed, Page};

/// Writes bytes as they stand between quotes, one after another.
fn write_each<P: Page>(quote: u8, bytes: &[u8], page: &mut P) -> Result<(), Failed>
    requires { 61 ≤ P.room page.old }
    ensures text { Writes (P.told page.old) (P.told page.new) result (each (ascii_text quote) bytes.now) }
    ensures room { OnOk result (61 ≤ P.room page.new) }
{
    for byte in bytes {
        page.make_room()?;
        push_byte(quote, *byte, page);
    }
    Ok(())
}

/// Writes bytes as they stand between quotes, at once where they stand for themselves.
#[tactic(auto, using(crate::proofs::Plainly::plain_bytes))]
fn write_items<P: Page>(quote: u8, bytes: &[u8], page: &mut P) -> Result<(), Failed>
    requires { 255 ≤ P.room page.old }
    ensures text { Writes (P.told page.old) (P.told page.new) result (each (ascii_text quote) bytes.now) }
    ensures room { OnOk result (61 ≤ P.room page.new) }
{
    if are_plain(quote, bytes) {
        write_plain(bytes, page)
    } else {
        write_each(quote, bytes, page)
    }
}

/// Writes bytes between quotes, where this quote has a backslash before it.
#[tactic(auto, using(pickle_io::proofs::Devices::page_steps), unfolding(crate::specs::Text::between))]
fn write_quoted<P: Page>(quote: u8, escaped: u8, bytes: &[u8], page: &mut P) -> Result<(), Failed>
    ensures text { Writes (P.told page.old) (P.told page.new) result (between quote (each (ascii_text escaped) bytes.now)) }
    ensures room { OnOk result (60 ≤ P.room page.new) }
{
    page.make_room()?;
    page.push(quote);
    write_items(escaped, bytes, page)?;
    page.push(quote);
    Ok(())
}

/// Writes bytes as a literal. `Failed` where the sink fails; a beginning of the literal was written then.
#[tactic(auto, using(pickle_io::proofs::Devices::page_steps), unfolding(crate::specs::Text::bytes_text))]
pub fn write_bytes<P: Page>(bytes: &[u8], page: &mut P) -> Result<(), Failed>
    ensures text { Writes (P.told page.old) (P.told page.new) result (bytes_text bytes.now) }
    ensures room { OnOk result (60 ≤ P.room page.new) }
{
    let quote = quote_of(bytes);
    page.make_room()?;
    page.push(b'b');
    write_quoted(quote, quote, bytes, page)
}

/// Writes bytes that can be changed as a call of `bytearray`. `Failed` where the sink fails; a beginning of the text was written then.
#[tactic(auto, using(pickle_io::proofs::Devices::page_steps), unfolding(crate::specs::Text::bytearray_text))]
pub fn write_bytearray<P: Page>(bytes: &[u8], page: &mut P) -> Result<(), Failed>
    ensures text { Writes (P.told page.old) (P.told page.new) result (bytearray_text bytes.now) }
    ensures room { OnOk result (59 ≤ P.room page.new) }
{
    let quote = quote_of(bytes);
    page.make_room()?;
    page.push_text(b"bytearray(b");
    write_quoted(quote, b'\'', bytes, page)?;
    page.push(b')');
    Ok(())
}
