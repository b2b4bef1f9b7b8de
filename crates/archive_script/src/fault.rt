//! The text of what does not pass: of an array, and of a member of an archive.

ghost use Rattle.std.specs.Prelude.{◌≡◌};
ghost use Rattle.pickle_io.specs.Device.{Writes};
ghost use Rattle.pickle_script.specs.GateText.{verdict_text};
ghost use Rattle.archive_script.specs.FaultText.{named, refusal_words, array_sentence, array_line, behind_words, behind_text, stream_sentence, archive_words, stream_words, stream_line, size_words, rest_words, checksum_words, broken_text, array_fault_text, fault_text};

use archive_gate::{ArrayFault, Fault};
use inflate::Refusal;
use npy_form::{Reason as ArrayReason, Refusal as ArrayRefusal};
use pickle_gate::Verdict;
use pickle_io::{Failed, Page, write_all, write_decimal, write_quoted};
use pickle_script::write_verdict;
use zip_open::Broken;

/// Words of a line.
#[tactic(auto, unfolding(crate::specs::FaultText::refusal_words))]
pub(crate) fn refusal_words() -> &'static str
    ensures { result.now ≡ refusal_words }
{
    "not in form: "
}

/// What is wrong with an array.
#[tactic(auto, unfolding(crate::specs::FaultText::array_sentence))]
pub fn array_sentence(why: ArrayReason) -> &'static str
    ensures { result.now ≡ array_sentence why }
{
    match why {
        ArrayReason::Cut => "the header of an array that is cut",
        ArrayReason::Version => "an array of a version that numpy does not write",
        ArrayReason::Length => "a header of an array that ends at no multiple of 16",
        ArrayReason::Text => "a header of an array that numpy does not write",
        ArrayReason::Item => {
            "items of an array that are no plain numbers, texts, times, bytes or objects"
        }
        ArrayReason::Number => "a number that is too large for an array",
        ArrayReason::Axes => "more than 64 axes",
        ArrayReason::Size => "more or fewer bytes than the header of the array tells",
    }
}

/// Writes the first rule that an array breaks, and where.
pub(crate) fn write_array_line<S: Page>(refusal: ArrayRefusal, page: &mut S) -> Result<(), Failed>
    ensures { Writes (S.told page.old) (S.told page.new) result (array_line refusal) }
{
    write_all(page, refusal_words().as_bytes())?;
    write_decimal(refusal.offset as u64, page)?;
    write_all(page, b": ")?;
    write_all(page, array_sentence(refusal.why).as_bytes())?;
    write_all(page, b"\n")
}

/// Words of a line.
#[tactic(auto, unfolding(crate::specs::FaultText::behind_words))]
fn behind_words() -> &'static str
    ensures { result.now ≡ behind_words }
{
    "behind its header: "
}

/// Writes what is said of what is behind the header of an array.
pub(crate) fn write_behind<S: Page>(
    verdict: Verdict,
    line: &[u8],
    page: &mut S,
) -> Result<(), Failed>
    ensures { Writes (S.told page.old) (S.told page.new) result (behind_text (verdict_text line.now verdict)) }
{
    write_all(page, behind_words().as_bytes())?;
    write_verdict(verdict, line, page)
}

/// What is wrong with a stream.
#[tactic(auto, unfolding(crate::specs::FaultText::stream_sentence))]
pub fn stream_sentence(why: inflate::Reason) -> &'static str
    ensures { result.now ≡ stream_sentence why }
{
    match why {
        inflate::Reason::TooLarge => "more bytes than are told",
        inflate::Reason::CutShort => "it ends too early",
        inflate::Reason::BadBlock => "no block",
        inflate::Reason::BadCode => "no code",
        inflate::Reason::BadDistance => "a copy from before the first byte",
    }
}

/// Words of a line.
#[tactic(auto, unfolding(crate::specs::FaultText::stream_words))]
fn stream_words() -> &'static str
    ensures { result.now ≡ stream_words }
{
    "not deflated: "
}

/// Writes why a packed member is no stream of deflate, and where.
fn write_stream<S: Page>(refusal: Refusal, page: &mut S) -> Result<(), Failed>
    ensures { Writes (S.told page.old) (S.told page.new) result (stream_line refusal) }
{
    write_all(page, stream_words().as_bytes())?;
    write_decimal(refusal.offset as u64, page)?;
    write_all(page, b": ")?;
    write_all(page, stream_sentence(refusal.why).as_bytes())?;
    write_all(page, b"\n")
}

/// Words of a line.
#[tactic(auto, unfolding(crate::specs::FaultText::size_words))]
fn size_words() -> &'static str
    ensures { result.now ≡ size_words }
{
    "not deflated: fewer bytes than are told\n"
}

/// Words of a line.
#[tactic(auto, unfolding(crate::specs::FaultText::rest_words))]
fn rest_words() -> &'static str
    ensures { result.now ≡ rest_words }
{
    "not deflated: bytes behind the stream\n"
}

/// Words of a line.
#[tactic(auto, unfolding(crate::specs::FaultText::checksum_words))]
fn checksum_words() -> &'static str
    ensures { result.now ≡ checksum_words }
{
    "another checksum than is told\n"
}

/// Writes why a member does not open.
fn write_broken<S: Page>(broken: Broken, page: &mut S) -> Result<(), Failed>
    ensures { Writes (S.told page.old) (S.told page.new) result (broken_text broken) }
{
    match broken {
        Broken::Stream(refusal) => write_stream(refusal, page),
        Broken::Size => write_all(page, size_words().as_bytes()),
        Broken::Rest => write_all(page, rest_words().as_bytes()),
        Broken::Checksum => write_all(page, checksum_words().as_bytes()),
    }
}

/// Words of a line.
#[tactic(auto, unfolding(crate::specs::FaultText::archive_words))]
fn archive_words() -> &'static str
    ensures { result.now ≡ archive_words }
{
    "an archive itself: it is not looked at\n"
}

/// Writes why an array does not pass.
fn write_array_fault<S: Page>(fault: ArrayFault, line: &[u8], page: &mut S) -> Result<(), Failed>
    ensures { Writes (S.told page.old) (S.told page.new) result (array_fault_text line.now fault) }
{
    match fault {
        ArrayFault::Form(refusal) => write_array_line(refusal, page),
        ArrayFault::Refused(verdict) => write_behind(verdict, line, page),
    }
}

/// Writes why a member does not pass.
fn write_fault<S: Page>(fault: Fault, line: &[u8], page: &mut S) -> Result<(), Failed>
    ensures { Writes (S.told page.old) (S.told page.new) result (fault_text line.now fault) }
{
    match fault {
        Fault::Broken(broken) => write_broken(broken, page),
        Fault::Archive => write_all(page, archive_words().as_bytes()),
        Fault::Refused(verdict) => write_verdict(verdict, line, page),
        Fault::Array(fault) => write_array_fault(fault, line, page),
    }
}

/// Writes the same with the name of the member in front.
pub(crate) fn write_failing<S: Page>(
    name: &[u8],
    fault: Fault,
    line: &[u8],
    page: &mut S,
) -> Result<(), Failed>
    ensures { Writes (S.told page.old) (S.told page.new) result (named name.now (fault_text line.now fault)) }
{
    write_quoted(name, page)?;
    write_all(page, b": ")?;
    write_fault(fault, line, page)
}
