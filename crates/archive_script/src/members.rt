//! The text of the members of a zip archive or a tar archive, or of what a packed file opens to.

ghost use Rattle.std.specs.Prelude.{◌≡◌, ◌<◌, ◌≤◌, ◌+◌, ◌-◌, ◌^◌, ℕ, length, Ok};
ghost use Rattle.pickle_io.specs.Device.{Writes, each};
ghost use Rattle.packed_stream.specs.Header.{header_of, packing_of};
ghost use Rattle.packed_stream.specs.Packed.{end_size};
ghost use Rattle.archive_script.specs.SingleText.{Says};
ghost use Rattle.zip_archive.specs.Entry.{data_place};
ghost use Rattle.zip_archive.specs.Archive.{ArePlaced};
ghost use Rattle.archive_script.specs.MembersText.{deflated_text, packed_text, member_line, refusal_line, IsArchiveMembers, packed_member_line, IsPackedMembers, IsMembersBy, AnswersMembers};

use crate::fault::refusal_words;
use crate::single::{packing_word, write_no_packed};
use crate::tar_text::write_tar;
use packed_stream::{Packing, end_size, header_of, open_packed, packing_of};
use pickle_doc::LIMIT;
use pickle_io::{Failed, Page, write_all, write_decimal, write_quoted};
use pickle_script::Stop;
use std::alloc::Global;
use tar_archive::begins_as_tar;
use zip_archive::{EntryRef, Refusal, read_zip};

/// The number of the method that packs by deflate.
const DEFLATE: u16 = 8;

/// Writes to how many bytes a member was packed.
fn write_deflated<S: Page>(packed: usize, page: &mut S) -> Result<(), Failed>
    ensures { Writes (S.told page.old) (S.told page.new) result (deflated_text packed) }
{
    write_all(page, b" deflated to ")?;
    write_decimal(packed as u64, page)?;
    write_all(page, b" ")
}

/// Writes how a member is packed.
#[tactic(auto, using(pickle_io::proofs::Devices::text_steps))]
fn write_packed<S: Page>(entry: &EntryRef<'_>, page: &mut S) -> Result<(), Failed>
    ensures { Writes (S.told page.old) (S.told page.new) result (packed_text entry.now) }
{
    if entry.method() == DEFLATE {
        write_deflated(entry.content().len(), page)
    } else {
        write_all(page, b" stored ")
    }
}

/// Writes the line of a member.
fn write_member<S: Page>(entry: &EntryRef<'_>, page: &mut S) -> Result<(), Failed>
    requires { data_place entry.now < 2 ^ 64 }
    ensures { Writes (S.told page.old) (S.told page.new) result (member_line entry.now) }
{
    write_decimal(entry.data_offset(), page)?;
    write_all(page, b": ")?;
    write_decimal(entry.size(), page)?;
    write_packed(entry, page)?;
    write_quoted(entry.name(), page)?;
    write_all(page, b"\n")
}

/// Writes a line for each member.
#[tactic(auto, using(pickle_io::proofs::Devices::each_steps))]
fn write_lines<S: Page>(entries: &[EntryRef<'_>], page: &mut S) -> Result<(), Failed>
    requires { ArePlaced entries.now }
    ensures { Writes (S.told page.old) (S.told page.new) result (each member_line entries.now) }
{
    for entry in entries {
        write_member(entry, page)?;
    }
    Ok(())
}

/// Writes the first rule that bytes break, and where.
pub(crate) fn write_refusal<S: Page>(refusal: Refusal, page: &mut S) -> Result<(), Failed>
    ensures { Writes (S.told page.old) (S.told page.new) result (refusal_line refusal) }
{
    write_all(page, refusal_words().as_bytes())?;
    write_decimal(refusal.offset, page)?;
    write_all(page, b": ")?;
    write_all(page, refusal.why.sentence().as_bytes())?;
    write_all(page, b"\n")
}

/// Writes the members of the zip archive in writers' form that the bytes are, a line for each, or the first rule that they break. Answers
/// the status: 0 where they are one, else 1. No member is unpacked.
fn write_archive<S: Page>(alloc: Global, bytes: &[u8], page: &mut S) -> Result<u8, Stop>
    ensures { Says (IsArchiveMembers bytes.now) (S.told page.old) (S.told page.new) result }
{
    match read_zip(alloc, bytes)? {
        Ok(entries) => {
            write_lines(entries.as_slice(), page)?;
            Ok(0)
        }
        Err(refusal) => {
            write_refusal(refusal, page)?;
            Ok(1)
        }
    }
}

/// How many bytes the header of a packed file has; 0 where it has none.
pub fn start_of(packing: Packing, bytes: &[u8]) -> usize
    ensures value { (start : ℕ) → header_of packing bytes.now ≡ Ok start → result ≡ start }
    ensures inside { result ≤ length bytes.now }
{
    match header_of(packing, bytes) {
        Ok(start) => start,
        Err(_) => 0,
    }
}

/// Writes the line of what a packed file opens to.
fn write_packed_member<S: Page>(
    packing: Packing,
    start: usize,
    size: usize,
    packed: usize,
    page: &mut S,
) -> Result<(), Failed>
    ensures { Writes (S.told page.old) (S.told page.new) result (packed_member_line packing start size packed) }
{
    write_decimal(start as u64, page)?;
    write_all(page, b": ")?;
    write_decimal(size as u64, page)?;
    write_deflated(packed, page)?;
    write_quoted(packing_word(packing), page)?;
    write_all(page, b"\n")
}

/// Writes what a packed file opens to, which is so many bytes.
fn write_opened<S: Page>(
    packing: Packing,
    bytes: &[u8],
    size: usize,
    page: &mut S,
) -> Result<(), Failed>
    ensures { (start : ℕ) → header_of packing bytes.now ≡ Ok start
        → Writes (S.told page.old) (S.told page.new) result (packed_member_line packing start size (length bytes.now - (start + end_size packing))) }
{
    let start = start_of(packing, bytes);
    let packed = (bytes.len() - start).saturating_sub(end_size(packing));
    write_packed_member(packing, start, size, packed, page)
}

/// Writes what the packed file that the bytes are opens to, or the first rule that they break. Answers the status: 0 where they are one, else 1.
fn write_packed_file<S: Page>(
    alloc: Global,
    packing: Packing,
    bytes: &[u8],
    page: &mut S,
) -> Result<u8, Stop>
    ensures { Says (IsPackedMembers packing bytes.now) (S.told page.old) (S.told page.new) result }
{
    match open_packed(alloc, packing, bytes, LIMIT)? {
        Ok(content) => {
            write_opened(packing, bytes, content.len(), page)?;
            Ok(0)
        }
        Err(refusal) => {
            write_no_packed(refusal, page)?;
            Ok(1)
        }
    }
}

/// Writes what the packed file that the bytes are opens to; or, of other bytes, the members of the zip archive that they are.
fn write_packed_or_zip<S: Page>(alloc: Global, bytes: &[u8], page: &mut S) -> Result<u8, Stop>
    ensures { Says (IsMembersBy (packing_of bytes.now) bytes.now) (S.told page.old) (S.told page.new) result }
{
    match packing_of(bytes) {
        Some(packing) => write_packed_file(alloc, packing, bytes, page),
        None => write_archive(alloc, bytes, page),
    }
}

/// Writes the members of the tar archive or the zip archive in writers' form that the bytes are, a line for each; or the line of what they open to, if
/// they are packed by gzip or zlib; or the first rule that they break. Answers the status: 0 where they are one of these, else 1. No member of an
/// archive is unpacked.
///
/// `Stop::Memory` where there is no room for the list of members, or for what is unpacked: nothing was written then. `Stop::Write` where the sink
/// fails: what was written then is a beginning of the text. The sink is to be flushed as in `write_text`.
pub fn write_members<S: Page>(alloc: Global, bytes: &[u8], page: &mut S) -> Result<u8, Stop>
    ensures { AnswersMembers bytes.now S.told page.old page.new result }
{
    if begins_as_tar(bytes) {
        write_tar(alloc, bytes, page)
    } else {
        write_packed_or_zip(alloc, bytes, page)
    }
}
