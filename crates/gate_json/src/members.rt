//! The members of a zip archive or a tar archive, or what a packed file opens to, as lines, and the status of the answer.

ghost use Rattle.std.specs.Prelude.{◌≡◌, ◌+◌, ◌-◌, ℕ, length, Ok};
ghost use Rattle.pickle_io.specs.Device.{Writes, each};
ghost use Rattle.packed_stream.specs.Header.{header_of, packing_of};
ghost use Rattle.packed_stream.specs.Packed.{end_size};
ghost use Rattle.zip_archive.specs.Archive.{ArePlaced};
ghost use Rattle.archive_script.specs.SingleText.{Says};
ghost use Rattle.gate_json.specs.MembersFields.{entry_line, entry_lines, IsArchiveLines, opened_lines, IsPackedLines, tarred_line, tarred_lines, IsTarLines, IsLinesBy, IsMembersLines};

use crate::member::{
    write_entry_line, write_no_archive_line, write_no_packed_line, write_no_tar_line,
    write_opened_line, write_tarred_line, write_whole,
};
use archive_script::start_of;
use packed_stream::{Packing, end_size, open_packed, packing_of};
use pickle_doc::LIMIT;
use pickle_io::{Failed, Page};
use pickle_script::Stop;
use std::alloc::Global;
use tar_archive::{Member, begins_as_tar, read_tar};
use zip_archive::{EntryRef, read_zip};

/// Writes a line for each member of a zip archive.
#[tactic(auto, using(pickle_io::proofs::Devices::each_steps))]
fn write_each_entry<P: Page>(entries: &[EntryRef<'_>], page: &mut P) -> Result<(), Failed>
    requires { ArePlaced entries.now }
    ensures { Writes (P.told page.old) (P.told page.new) result (each entry_line entries.now) }
{
    for entry in entries {
        write_entry_line(entry, page)?;
    }
    Ok(())
}

/// Writes these lines and the one behind them.
fn write_entries<P: Page>(entries: &[EntryRef<'_>], page: &mut P) -> Result<(), Failed>
    requires { ArePlaced entries.now }
    ensures { Writes (P.told page.old) (P.told page.new) result (entry_lines entries.now) }
{
    write_each_entry(entries, page)?;
    write_whole(page)
}

/// Writes the members of the zip archive that the bytes are, or the first rule that they break. Answers the status: 0 where they are one, else 1.
fn write_archive<P: Page>(alloc: Global, bytes: &[u8], page: &mut P) -> Result<u8, Stop>
    ensures { Says (IsArchiveLines bytes.now) (P.told page.old) (P.told page.new) result }
{
    match read_zip(alloc, bytes)? {
        Ok(entries) => {
            write_entries(entries.as_slice(), page)?;
            Ok(0)
        }
        Err(refusal) => {
            write_no_archive_line(refusal, page)?;
            Ok(1)
        }
    }
}

/// Writes the line of what a packed file opens to, and the one behind it.
fn write_one_opened<P: Page>(
    packing: Packing,
    start: usize,
    size: usize,
    packed: usize,
    page: &mut P,
) -> Result<(), Failed>
    ensures { Writes (P.told page.old) (P.told page.new) result (opened_lines packing start size packed) }
{
    write_opened_line(packing, start, size, packed, page)?;
    write_whole(page)
}

/// Writes these of a packed file, which opens to so many bytes.
fn write_opened_size<P: Page>(
    packing: Packing,
    bytes: &[u8],
    size: usize,
    page: &mut P,
) -> Result<(), Failed>
    ensures { (start : ℕ) → header_of packing bytes.now ≡ Ok start
        → Writes (P.told page.old) (P.told page.new) result (opened_lines packing start size (length bytes.now - (start + end_size packing))) }
{
    let start = start_of(packing, bytes);
    let packed = (bytes.len() - start).saturating_sub(end_size(packing));
    write_one_opened(packing, start, size, packed, page)
}

/// Writes what the packed file that the bytes are opens to, or why it does not. Answers the status: 0 where it opens, else 1.
fn write_packed_file<P: Page>(
    alloc: Global,
    packing: Packing,
    bytes: &[u8],
    page: &mut P,
) -> Result<u8, Stop>
    ensures { Says (IsPackedLines packing bytes.now) (P.told page.old) (P.told page.new) result }
{
    match open_packed(alloc, packing, bytes, LIMIT)? {
        Ok(content) => {
            write_opened_size(packing, bytes, content.len(), page)?;
            Ok(0)
        }
        Err(refusal) => {
            write_no_packed_line(refusal, page)?;
            Ok(1)
        }
    }
}

/// Writes what the packed file that the bytes are opens to; or, of other bytes, the members of the zip archive that they are.
fn write_packed_or_zip<P: Page>(alloc: Global, bytes: &[u8], page: &mut P) -> Result<u8, Stop>
    ensures { Says (IsLinesBy (packing_of bytes.now) bytes.now) (P.told page.old) (P.told page.new) result }
{
    match packing_of(bytes) {
        Some(packing) => write_packed_file(alloc, packing, bytes, page),
        None => write_archive(alloc, bytes, page),
    }
}

/// Writes a line for each member of a tar archive.
#[tactic(auto, using(pickle_io::proofs::Devices::each_steps))]
fn write_each_tarred<P: Page>(bytes: &[u8], members: &[Member], page: &mut P) -> Result<(), Failed>
    ensures { Writes (P.told page.old) (P.told page.new) result (each (tarred_line bytes.now) members.now) }
{
    for member in members {
        write_tarred_line(bytes, member, page)?;
    }
    Ok(())
}

/// Writes these lines and the one behind them.
fn write_all_tarred<P: Page>(bytes: &[u8], members: &[Member], page: &mut P) -> Result<(), Failed>
    ensures { Writes (P.told page.old) (P.told page.new) result (tarred_lines bytes.now members.now) }
{
    write_each_tarred(bytes, members, page)?;
    write_whole(page)
}

/// Writes the members of the tar archive that the bytes are, or the first rule that they break. Answers the status: 0 where they are one, else 1.
fn write_tar<P: Page>(alloc: Global, bytes: &[u8], page: &mut P) -> Result<u8, Stop>
    ensures { Says (IsTarLines bytes.now) (P.told page.old) (P.told page.new) result }
{
    match read_tar(alloc, bytes)? {
        Ok(members) => {
            write_all_tarred(bytes, members.as_slice(), page)?;
            Ok(0)
        }
        Err(refusal) => {
            write_no_tar_line(refusal, page)?;
            Ok(1)
        }
    }
}

/// Writes what `write_members` of `archive_script` writes as lines: one for each member, and one behind them; or one of the first rule that the
/// bytes break. Answers the same status. The stops are those of `write_members`.
pub fn write_members_lines<P: Page>(alloc: Global, bytes: &[u8], page: &mut P) -> Result<u8, Stop>
    ensures { Says (IsMembersLines bytes.now) (P.told page.old) (P.told page.new) result }
{
    if begins_as_tar(bytes) {
        write_tar(alloc, bytes, page)
    } else {
        write_packed_or_zip(alloc, bytes, page)
    }
}
