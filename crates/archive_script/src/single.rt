//! The text of whether a file passes that is neither packed nor a zip archive, and of a packed file.

ghost use Rattle.std.specs.Prelude.{◌≡◌};
ghost use Rattle.pickle_io.specs.Device.{Writes};
ghost use Rattle.archive_script.specs.FaultText.{named, refusal_words, stream_sentence};
ghost use Rattle.archive_script.specs.SingleText.{held_text, nested_words, single_output, packing_word, inside_output, packed_sentence, packed_line, too_large_front, too_large_back, too_large_line, is_too_large, no_packed_output};

use crate::fault::{refusal_words, stream_sentence, write_array_line, write_behind, write_failing};
use crate::judged::Single;
use crate::tar_text::{two_kinds_words, unclear_words, write_tar_line};
use packed_stream::{Packing, Reason as PackedReason, Refusal as PackedRefusal};
use pickle_doc::LIMIT;
use pickle_gate::Verdict;
use pickle_io::{Failed, Page, write_all, write_decimal, write_quoted};
use pickle_script::{verdict_status, write_verdict};

/// Writes the same, where it does not pass.
fn write_held<S: Page>(verdict: Verdict, line: &[u8], page: &mut S) -> Result<(), Failed>
    ensures { Writes (S.told page.old) (S.told page.new) result (held_text line.now verdict) }
{
    if verdict_status(verdict) == 0 {
        write_verdict(verdict, line, page)
    } else {
        write_behind(verdict, line, page)
    }
}

/// Words of a line.
#[tactic(auto, unfolding(crate::specs::SingleText::nested_words))]
fn nested_words() -> &'static str
    ensures { result.now ≡ nested_words }
{
    "a container itself: it is not looked at\n"
}

/// Writes what is said of a file that holds one thing.
pub(crate) fn write_single<S: Page>(single: &Single, page: &mut S) -> Result<(), Failed>
    ensures { Writes (S.told page.old) (S.told page.new) result (single_output single.now).text }
{
    match single {
        Single::Pickle(verdict, line) => write_verdict(*verdict, line.as_slice(), page),
        Single::Numbers => write_all(page, b"passes\n"),
        Single::NoArray(refusal) => write_array_line(*refusal, page),
        Single::Behind(verdict, line) => write_held(*verdict, line.as_slice(), page),
        Single::Nested => write_all(page, nested_words().as_bytes()),
        Single::Tar => write_all(page, b"passes\n"),
        Single::NoTar(refusal) => write_tar_line(*refusal, page),
        Single::Unclear => write_all(page, unclear_words().as_bytes()),
        Single::TwoKinds => write_all(page, two_kinds_words().as_bytes()),
        Single::Member(name, fault, line) => {
            write_failing(name.as_slice(), *fault, line.as_slice(), page)
        }
    }
}

/// The status of what is said of a file that holds one thing: 0 where it passes, else 1.
pub fn single_status(single: &Single) -> u8
    ensures { result ≡ (single_output single.now).status }
{
    match single {
        Single::Pickle(verdict, _) => verdict_status(*verdict),
        Single::Numbers => 0,
        Single::NoArray(_) => 1,
        Single::Behind(verdict, _) => verdict_status(*verdict),
        Single::Nested => 1,
        Single::Tar => 0,
        Single::NoTar(_) => 1,
        Single::Unclear => 1,
        Single::TwoKinds => 1,
        Single::Member(_, _, _) => 1,
    }
}

/// The address of what a packed file opens to, behind that of the file.
pub fn packing_word(packing: Packing) -> &'static [u8]
    ensures { result.now ≡ packing_word packing }
{
    match packing {
        Packing::Gzip => b"(gzip)",
        Packing::Zlib => b"(zlib)",
    }
}

/// Writes what is said of what a packed file opens to, with its address in front.
fn write_addressed<S: Page>(packing: Packing, single: &Single, page: &mut S) -> Result<(), Failed>
    ensures { Writes (S.told page.old) (S.told page.new) result (named (packing_word packing) (single_output single.now).text) }
{
    write_quoted(packing_word(packing), page)?;
    write_all(page, b": ")?;
    write_single(single, page)
}

/// Writes what is said of a packed file.
pub(crate) fn write_inside<S: Page>(
    packing: Packing,
    single: &Single,
    page: &mut S,
) -> Result<(), Failed>
    ensures { Writes (S.told page.old) (S.told page.new) result (inside_output packing (single_output single.now)).text }
{
    if single_status(single) == 0 {
        write_single(single, page)
    } else {
        write_addressed(packing, single, page)
    }
}

/// What is wrong with a packed file.
#[tactic(auto, unfolding(crate::specs::SingleText::packed_sentence))]
pub fn packed_sentence(why: PackedReason) -> &'static str
    ensures { result.now ≡ packed_sentence why }
{
    match why {
        PackedReason::Cut => "the header of a packed file that is cut",
        PackedReason::Header => "a header that gzip and zlib do not write",
        PackedReason::Flags => "a header with more than a name",
        PackedReason::Stream(why) => stream_sentence(why),
        PackedReason::End => "the end of a packed file is cut",
        PackedReason::Rest => "bytes behind the end of the stream",
        PackedReason::Checksum => "another checksum than is told",
        PackedReason::Size => "another size than is told",
    }
}

/// Writes the first rule that a packed file breaks, and where.
fn write_packed_line<S: Page>(refusal: PackedRefusal, page: &mut S) -> Result<(), Failed>
    ensures { Writes (S.told page.old) (S.told page.new) result (packed_line refusal) }
{
    write_all(page, refusal_words().as_bytes())?;
    write_decimal(refusal.offset as u64, page)?;
    write_all(page, b": ")?;
    write_all(page, packed_sentence(refusal.why).as_bytes())?;
    write_all(page, b"\n")
}

/// Words of a line.
#[tactic(auto, unfolding(crate::specs::SingleText::too_large_front))]
fn too_large_front() -> &'static str
    ensures { result.now ≡ too_large_front }
{
    "it unpacks to more than "
}

/// Words of a line.
#[tactic(auto, unfolding(crate::specs::SingleText::too_large_back))]
fn too_large_back() -> &'static str
    ensures { result.now ≡ too_large_back }
{
    " bytes: it is not looked at\n"
}

/// Writes that something unpacks to more bytes than a file may have.
pub(crate) fn write_too_large<S: Page>(page: &mut S) -> Result<(), Failed>
    ensures { Writes (S.told page.old) (S.told page.new) result too_large_line }
{
    write_all(page, too_large_front().as_bytes())?;
    write_decimal(LIMIT as u64, page)?;
    write_all(page, too_large_back().as_bytes())
}

/// Whether a stream stands for too many bytes.
pub fn is_too_large(why: PackedReason) -> bool
    ensures { result ≡ is_too_large why }
{
    match why {
        PackedReason::Stream(inflate::Reason::TooLarge) => true,
        _ => false,
    }
}

/// Writes why a packed file does not open.
pub(crate) fn write_no_packed<S: Page>(refusal: PackedRefusal, page: &mut S) -> Result<(), Failed>
    ensures { Writes (S.told page.old) (S.told page.new) result (no_packed_output refusal).text }
{
    if is_too_large(refusal.why) {
        write_too_large(page)
    } else {
        write_packed_line(refusal, page)
    }
}
