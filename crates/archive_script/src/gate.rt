//! The text of whether a file passes a list.

ghost use Rattle.std.specs.Prelude.{◌≡◌, ◌≤◌, length};
ghost use Rattle.pickle_io.specs.Device.{Writes};
ghost use Rattle.pickle_doc.specs.Document.{size_limit};
ghost use Rattle.archive_script.specs.FaultText.{named};
ghost use Rattle.archive_script.specs.SingleText.{Says};
ghost use Rattle.archive_script.specs.GateText.{same_names_words, judged_output, IsFileText, IsNamedText, no_list_words, no_entry_words, no_list_line, IsNoList, IsGateText, AnswersWith};

use crate::fault::write_failing;
use crate::judged::Judged;
use crate::judging::judge;
use crate::members::write_refusal;
use crate::single::{single_status, write_inside, write_no_packed, write_single, write_too_large};
use pickle_allow::{Entry, Listing, read_list};
use pickle_doc::LIMIT;
use pickle_io::{Failed, Page, write_all, write_decimal, write_quoted};
use pickle_script::Stop;
use std::alloc::Global;

/// The status where a list is none: nothing is said of the file.
const NO_ANSWER: u8 = 2;

/// Words of a line.
#[tactic(auto, unfolding(crate::specs::GateText::same_names_words))]
fn same_names_words() -> &'static str
    ensures { result.now ≡ same_names_words }
{
    "two names that differ in case alone: it is not looked at\n"
}

/// Writes what is said of a file. `Failed` where the sink fails; a beginning of the text was written then.
pub fn write_judged<S: Page>(judged: &Judged<'_>, page: &mut S) -> Result<(), Failed>
    ensures { Writes (S.told page.old) (S.told page.new) result (judged_output judged.now).text }
{
    match judged {
        Judged::Single(single) => write_single(single, page),
        Judged::Packed(packing, single) => write_inside(*packing, single, page),
        Judged::NoPacked(refusal) => write_no_packed(*refusal, page),
        Judged::Archive => write_all(page, b"passes\n"),
        Judged::NoArchive(refusal) => write_refusal(*refusal, page),
        Judged::SameNames => write_all(page, same_names_words().as_bytes()),
        Judged::TooLarge => write_too_large(page),
        Judged::Member(name, fault, line) => write_failing(*name, *fault, line.as_slice(), page),
    }
}

/// The status of what is said of a file: 0 where it passes, else 1.
pub fn judged_status(judged: &Judged<'_>) -> u8
    ensures { result ≡ (judged_output judged.now).status }
{
    match judged {
        Judged::Single(single) => single_status(single),
        Judged::Packed(_, single) => single_status(single),
        Judged::NoPacked(_) => 1,
        Judged::Archive => 0,
        Judged::NoArchive(_) => 1,
        Judged::SameNames => 1,
        Judged::TooLarge => 1,
        Judged::Member(_, _, _) => 1,
    }
}

/// Writes whether a file passes by these entries, else the first place at which it does not, and why. Answers the status: 0 where it passes, else 1.
/// There are to be no more bytes than the limit. The stops are those of `write_gate`.
pub fn write_file<S: Page>(
    alloc: Global,
    list: &[Entry<'_>],
    bytes: &[u8],
    page: &mut S,
) -> Result<u8, Stop>
    requires { length bytes.now ≤ size_limit }
    ensures { Says (IsFileText list.now bytes.now) (S.told page.old) (S.told page.new) result }
{
    let judged = judge(alloc, list, bytes)?;
    write_judged(&judged, page)?;
    Ok(judged_status(&judged))
}

/// Writes what is said of a file, with its name in front.
fn write_named<S: Page>(name: &[u8], judged: &Judged<'_>, page: &mut S) -> Result<(), Failed>
    ensures { Writes (S.told page.old) (S.told page.new) result (named name.now (judged_output judged.now).text) }
{
    write_quoted(name, page)?;
    write_all(page, b": ")?;
    write_judged(judged, page)
}

/// Writes the same as `write_file` with this name of the file in front, and answers the same status. There are to be no more bytes than the limit.
/// The stops are those of `write_file`.
pub fn write_named_file<S: Page>(
    alloc: Global,
    list: &[Entry<'_>],
    name: &[u8],
    bytes: &[u8],
    page: &mut S,
) -> Result<u8, Stop>
    requires { length bytes.now ≤ size_limit }
    ensures { Says (IsNamedText name.now list.now bytes.now) (S.told page.old) (S.told page.new) result }
{
    let judged = judge(alloc, list, bytes)?;
    write_named(name, &judged, page)?;
    Ok(judged_status(&judged))
}

/// Words of a line.
#[tactic(auto, unfolding(crate::specs::GateText::no_list_words))]
fn no_list_words() -> &'static str
    ensures { result.now ≡ no_list_words }
{
    "not a list: line "
}

/// Words of a line.
#[tactic(auto, unfolding(crate::specs::GateText::no_entry_words))]
fn no_entry_words() -> &'static str
    ensures { result.now ≡ no_entry_words }
{
    " is no entry"
}

/// Writes that a line of a list is no entry. `Failed` where the sink fails; a beginning of the text was written then.
pub fn write_no_list<S: Page>(line: usize, page: &mut S) -> Result<(), Failed>
    ensures { Writes (S.told page.old) (S.told page.new) result (no_list_line line) }
{
    write_all(page, no_list_words().as_bytes())?;
    write_decimal(line as u64, page)?;
    write_all(page, no_entry_words().as_bytes())?;
    write_all(page, b"\n")
}

/// Writes that a line of a list is no entry, and answers the status of no answer. `Stop::Write` where the sink fails: what was written then is a
/// beginning of the text.
pub fn refuse_list<S: Page>(line: usize, page: &mut S) -> Result<u8, Stop>
    ensures { Says (IsNoList line) (S.told page.old) (S.told page.new) result }
{
    write_no_list(line, page)?;
    Ok(NO_ANSWER)
}

/// Writes whether the file that the bytes are passes by this list, as `write_file` does. Answers the status: 0 where it passes, 1 where it does not,
/// and 2 where a line of the list is no entry: nothing is said of the file then.
///
/// `Stop::TooLarge` where there are more bytes than the limit, and `Stop::Memory` where memory runs out: nothing was written then. `Stop::Write`
/// where the sink fails: what was written then is a beginning of the text. The sink is to be flushed as in `write_text`.
pub fn write_gate<S: Page>(
    alloc: Global,
    list: &[u8],
    bytes: &[u8],
    page: &mut S,
) -> Result<u8, Stop>
    ensures { AnswersWith (IsGateText list.now bytes.now) bytes.now S.told page.old page.new result }
{
    if bytes.len() > LIMIT {
        return Err(Stop::TooLarge);
    }
    match read_list(alloc, list)? {
        Listing::Entries(entries) => write_file(alloc, entries.as_slice(), bytes, page),
        Listing::Wrong(line) => refuse_list(line, page),
    }
}
