//! The text of whether a pickle is in the form that picklers write.

ghost use Rattle.std.specs.Prelude.{◌≡◌, ◌≤◌, false, length, IfOk, IfErr};
ghost use Rattle.pickle_io.specs.Device.{Writes};
ghost use Rattle.pickle_doc.specs.Document.{size_limit};
ghost use Rattle.pickle_text.specs.Output.{Completes};
ghost use Rattle.pickle_script.specs.FormText.{place_text, other_words, other_line, form_text, form_status, form_output};
ghost use Rattle.pickle_script.specs.Output.{CutsForm};

use pickle_form::{Other, first_other};
use pickle_io::{Failed, Page, write_all, write_decimal};
use pickle_text::TextStop;
use std::alloc::Global;

/// Writes the place of an opcode.
fn write_place<S: Page>(place: usize, offset: u64, page: &mut S) -> Result<(), Failed>
    ensures { Writes (S.told page.old) (S.told page.new) result (place_text place offset) }
{
    write_all(page, b"item ")?;
    write_decimal(place as u64, page)?;
    write_all(page, b" at ")?;
    write_decimal(offset, page)?;
    write_all(page, b": ")
}

/// Words of a line.
#[tactic(auto, unfolding(crate::specs::FormText::other_words))]
fn other_words() -> &'static str
    ensures { result.now ≡ other_words }
{
    "not in form: "
}

/// Writes the line of the first place.
pub(crate) fn write_other<S: Page>(other: Other, page: &mut S) -> Result<(), Failed>
    ensures { Writes (S.told page.old) (S.told page.new) result (other_line other) }
{
    write_all(page, other_words().as_bytes())?;
    write_place(other.place, other.offset, page)?;
    write_all(page, other.reason.sentence().as_bytes())?;
    write_all(page, b"\n")
}

/// Writes the first place, or that there is none.
fn write_first<S: Page>(first: Option<Other>, page: &mut S) -> Result<(), Failed>
    ensures { Writes (S.told page.old) (S.told page.new) result (form_text first) }
{
    match first {
        Some(other) => write_other(other, page),
        None => write_all(page, b"in form\n"),
    }
}

/// The status of the text.
fn form_status(first: Option<Other>) -> u8
    ensures { result ≡ form_status first }
{
    match first {
        Some(_) => 1,
        None => 0,
    }
}

/// Writes whether the pickle that the bytes are is in the form that picklers write, else the first place at which it is not, and why.
/// Answers the status: 0 where it is, else 1. There are to be no more bytes than the limit.
///
/// `Memory` (M) where memory runs out: nothing was written. `Failed` where the sink fails: what was written then is a beginning of the text.
pub(crate) fn write_form<S: Page>(alloc: Global, bytes: &[u8], page: &mut S) -> Result<u8, TextStop>
    requires { length bytes.now ≤ size_limit }
    ensures ok { IfOk result (Completes form_output false false bytes.now (S.told page.old) (S.told page.new)) }
    ensures err { IfErr result (CutsForm bytes.now (S.told page.old) (S.told page.new)) }
{
    let first = first_other(alloc, bytes)?;
    write_first(first, page)?;
    Ok(form_status(first))
}
