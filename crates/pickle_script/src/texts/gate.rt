//! The text of whether a pickle passes a list.

ghost use Rattle.std.specs.Prelude.{◌≡◌, ◌≤◌, false, length, IfOk};
ghost use Rattle.pickle_io.specs.Device.{Writes};
ghost use Rattle.pickle_doc.specs.Document.{Contents, ReadsAs, size_limit};
ghost use Rattle.pickle_script.specs.GateText.{words_of, forbidden_words, forbidden_line, line_for, end_line, verdict_text, verdict_status};

use crate::given_holes::before_colon;
use crate::texts::form::write_other;
use pickle_calls::Ending;
use pickle_gate::{Verdict, line_at};
use pickle_io::{Failed, Page, write_all, write_decimal};
use pickle_text::write_closing;
use std::alloc::{AllocError, Global};

/// The words of a line of `calls`: what is behind its offset, a colon and a blank.
pub fn words_of(line: &[u8]) -> &[u8]
    ensures { result.now ≡ words_of line.now }
{
    let behind = line.split_at(before_colon(line)).1;
    behind.get(2..).unwrap_or_default()
}

/// Words of a line.
#[tactic(auto, unfolding(crate::specs::GateText::forbidden_words))]
fn forbidden_words() -> &'static str
    ensures { result.now ≡ forbidden_words }
{
    ": not allowed: "
}

/// Writes where an item is that is not allowed, and its words.
fn write_forbidden<S: Page>(offset: u64, words: &[u8], page: &mut S) -> Result<(), Failed>
    ensures { Writes (S.told page.old) (S.told page.new) result (forbidden_line offset words.now) }
{
    write_decimal(offset, page)?;
    write_all(page, forbidden_words().as_bytes())?;
    write_all(page, words)
}

/// Writes the last line of `calls`.
fn write_ending<S: Page>(ending: Ending, page: &mut S) -> Result<(), Failed>
    ensures { Writes (S.told page.old) (S.told page.new) result (end_line ending) }
{
    match ending {
        Ending::Closed(_, closing) => write_closing(closing, page),
        Ending::Unsure(_) => Ok(()),
    }
}

/// Writes that a pickle passes, or why it does not: this is the line of `calls` for the item that is not allowed.
pub fn write_verdict<S: Page>(verdict: Verdict, line: &[u8], page: &mut S) -> Result<(), Failed>
    ensures { Writes (S.told page.old) (S.told page.new) result (verdict_text line.now verdict) }
{
    match verdict {
        Verdict::Passes => write_all(page, b"passes\n"),
        Verdict::Forbidden(_, offset) => write_forbidden(offset, words_of(line), page),
        Verdict::Other(other) => write_other(other, page),
        Verdict::Ends(ending) => write_ending(ending, page),
    }
}

/// The status of a verdict: 0 where the pickle passes, else 1.
pub fn verdict_status(verdict: Verdict) -> u8
    ensures { result ≡ verdict_status verdict }
{
    match verdict {
        Verdict::Passes => 0,
        Verdict::Forbidden(_, _) => 1,
        Verdict::Other(_) => 1,
        Verdict::Ends(_) => 1,
    }
}

/// The line of `calls` for the item that is not allowed; nothing of another verdict. It fails only where memory runs out.
pub fn line_for(alloc: Global, bytes: &[u8], verdict: Verdict) -> Result<Vec<u8>, AllocError>
    requires { length bytes.now ≤ size_limit }
    ensures { IfOk result (λ line. (d : Contents) → ReadsAs false bytes.now d → line.items ≡ line_for d verdict) }
{
    match verdict {
        Verdict::Forbidden(place, _) => line_at(alloc, bytes, place),
        _ => Ok(Vec::new(alloc)),
    }
}
