//! Literals of texts.

ghost use Rattle.std.specs.Prelude.{◌≡◌, ◌≤◌, OnOk, true};
ghost use Rattle.std.specs.Str.{chars};
ghost use Rattle.pickle_io.specs.Device.{Writes, each};
ghost use Rattle.python_literals.specs.Signs.{sign_text};
ghost use Rattle.python_literals.specs.Text.{has, quote_of, between, str_text};
ghost use Rattle.python_literals.specs.Inside.Turns.{finished, AllHaveRoom};

use crate::signs::{Pending, are_plain, pending_after, push_sign};
use pickle_io::{Failed, Page, write_all};

/// The longest text that is put between quotes at once.
const SHORT: usize = 180;

/// Whether a byte is among others.
fn has(byte: u8, bytes: &[u8]) -> bool
    ensures { result ≡ has byte bytes.now }
{
    for other in bytes {
        if *other == byte {
            return true;
        }
    }
    false
}

/// The quotes around bytes.
#[tactic(auto, unfolding(crate::specs::Text::quote_of))]
pub(crate) fn quote_of(bytes: &[u8]) -> u8
    ensures { result ≡ quote_of bytes.now }
{
    if has(b'\'', bytes) && !has(b'"', bytes) {
        b'"'
    } else {
        b'\''
    }
}

/// Writes a long text as it is.
#[tactic(auto, using(pickle_io::proofs::Devices::page_steps))]
fn write_long_plain<P: Page>(text: &[u8], page: &mut P) -> Result<(), Failed>
    ensures text { Writes (P.told page.old) (P.told page.new) result text.now }
    ensures room { OnOk result (61 ≤ P.room page.new) }
{
    write_all(page, text)?;
    page.make_room()
}

/// Writes a text as it is.
pub(crate) fn write_plain<P: Page>(text: &[u8], page: &mut P) -> Result<(), Failed>
    requires { 255 ≤ P.room page.old }
    ensures text { Writes (P.told page.old) (P.told page.new) result text.now }
    ensures room { OnOk result (61 ≤ P.room page.new) }
{
    if text.len() <= SHORT {
        page.push_text(text);
        Ok(())
    } else {
        write_long_plain(text, page)
    }
}

/// Writes a character by its number.
#[tactic(auto, using(pickle_io::proofs::Devices::page_steps))]
fn write_sign<P: Page>(quote: u8, number: u32, page: &mut P) -> Result<(), Failed>
    ensures text { Writes (P.told page.old) (P.told page.new) result (sign_text quote number) }
    ensures room { OnOk result (61 ≤ P.room page.new) }
{
    page.make_room()?;
    push_sign(quote, number, page);
    Ok(())
}

/// Writes the character that is whole before the next byte, if there is one.
#[tactic(auto, using(crate::proofs::Reading::finished_steps))]
fn write_finished<P: Page>(quote: u8, pending: Option<Pending>, page: &mut P) -> Result<(), Failed>
    requires { 61 ≤ P.room page.old }
    ensures text { Writes (P.told page.old) (P.told page.new) result (each (sign_text quote) (finished pending)) }
    ensures room { OnOk result (61 ≤ P.room page.new) }
{
    match pending {
        None => Ok(()),
        Some(so_far) => {
            if so_far.left == 0 {
                write_sign(quote, so_far.number, page)
            } else {
                Ok(())
            }
        }
    }
}

/// Writes the characters of a text as they stand between quotes, one after another.
fn write_each<P: Page>(quote: u8, text: &[u8], page: &mut P) -> Result<(), Failed>
    requires { 61 ≤ P.room page.old }
    ensures text { Writes (P.told page.old) (P.told page.new) result (each (sign_text quote) (chars text.now)) }
    ensures room { OnOk result (61 ≤ P.room page.new) }
{
    let mut pending = None;
    for byte in text {
        write_finished(quote, pending, page)?;
        pending = Some(pending_after(pending, *byte));
    }
    write_finished(quote, pending, page)
}

/// Writes the characters of a text as they stand between quotes, at once where they stand for themselves.
#[tactic(auto, using(crate::proofs::Plainly::plain_text))]
fn write_chars<P: Page>(quote: u8, text: &[u8], page: &mut P) -> Result<(), Failed>
    requires { 255 ≤ P.room page.old }
    ensures text { Writes (P.told page.old) (P.told page.new) result (each (sign_text quote) (chars text.now)) }
    ensures room { OnOk result (61 ≤ P.room page.new) }
{
    if are_plain(quote, text) {
        write_plain(text, page)
    } else {
        write_each(quote, text, page)
    }
}

/// Writes a text between quotes.
#[tactic(auto, using(pickle_io::proofs::Devices::page_steps), unfolding(crate::specs::Text::between))]
fn write_quoted<P: Page>(quote: u8, text: &[u8], page: &mut P) -> Result<(), Failed>
    ensures text { Writes (P.told page.old) (P.told page.new) result (between quote (each (sign_text quote) (chars text.now))) }
    ensures room { OnOk result (60 ≤ P.room page.new) }
{
    page.make_room()?;
    page.push(quote);
    write_chars(quote, text, page)?;
    page.push(quote);
    Ok(())
}

/// Writes a text as a literal, by its bytes in UTF-8, in which halves of surrogate pairs may stand alone. Other bytes are no text, and what is written
/// of them means nothing. `Failed` where the sink fails; a beginning of the literal was written then.
#[tactic(auto, unfolding(crate::specs::Text::str_text))]
pub fn write_str<P: Page>(text: &[u8], page: &mut P) -> Result<(), Failed>
    ensures text { Writes (P.told page.old) (P.told page.new) result (str_text text.now) }
    ensures room { OnOk result (60 ≤ P.room page.new) }
{
    write_quoted(quote_of(text), text, page)
}
