//! Whether a file passes a list: a pickle, an array, a packed file, or an archive of members that pass.

ghost use Rattle.std.specs.Prelude.{◌≡◌, ◌≤◌, length, IfOk};
ghost use Rattle.pickle_doc.specs.Document.{AreBytes, size_limit};
ghost use Rattle.pickle_script.specs.GateText.{IsVerdictText};
ghost use Rattle.archive_gate.specs.Kind.{kind_of};
ghost use Rattle.archive_gate.specs.declared.fault.Fault.TheVariants as faults;
ghost use Rattle.archive_gate.specs.declared.fault.ArrayFault.TheVariants as array_faults;
ghost use Rattle.zip_open.specs.Opened.{unpacked_total, IsOpenable, AreOpenable};
ghost use Rattle.npy_form.specs.Npy.{header_size, behind_header, read_array};
ghost use Rattle.archive_script.specs.SingleText.{single_output, IsBehindText, IsArrayText, IsSingleText, IsPackedText};
ghost use Rattle.archive_script.specs.GateText.{judged_output, IsLineIn, IsMembersVerdict, IsEntriesText, IsArchiveText, IsFileText};

use crate::judged::{Judged, Single};
use crate::tar::judge_tar;
use archive_gate::{ArrayFault, Fault, Kind, first_failing, kind_of};
use npy_form::{Held, behind_header, read_array};
use packed_stream::{Packing, open_packed};
use pickle_allow::Entry;
use pickle_doc::LIMIT;
use pickle_gate::{Verdict, gate};
use pickle_script::line_for;
use std::alloc::{AllocError, Global};
use zip_archive::{EntryRef, differ_in_any_case, read_zip};
use zip_open::{are_within_limit, open_member};

/// What is said of a pickle.
fn judge_pickle(alloc: Global, list: &[Entry<'_>], bytes: &[u8]) -> Result<Single, AllocError>
    requires { length bytes.now ≤ size_limit }
    ensures { IfOk result (λ s. IsVerdictText list.now bytes.now (single_output s)) }
{
    let verdict = gate(alloc, list, bytes)?;
    let line = line_for(alloc, bytes, verdict)?;
    Ok(Single::Pickle(verdict, line))
}

/// What is said of the pickle that is behind the header of an array.
fn judge_behind(alloc: Global, list: &[Entry<'_>], bytes: &[u8]) -> Result<Single, AllocError>
    requires { length bytes.now ≤ size_limit }
    ensures { IfOk result (λ s. IsBehindText list.now bytes.now (single_output s)) }
{
    let verdict = gate(alloc, list, bytes)?;
    let line = line_for(alloc, bytes, verdict)?;
    Ok(Single::Behind(verdict, line))
}

/// What is said of bytes that begin as an array does.
fn judge_array(alloc: Global, list: &[Entry<'_>], bytes: &[u8]) -> Result<Single, AllocError>
    requires { length bytes.now ≤ size_limit }
    ensures { IfOk result (λ s. IsArrayText list.now bytes.now (single_output s)) }
{
    match read_array(bytes) {
        Ok(Held::Numbers) => Ok(Single::Numbers),
        Ok(Held::Pickle) => judge_behind(alloc, list, behind_header(bytes)),
        Err(refusal) => Ok(Single::NoArray(refusal)),
    }
}

/// What is said of what a packed file opens to, and what is known of numbers that stand in bytes.
fn judge_inside(alloc: Global, list: &[Entry<'_>], bytes: &[u8]) -> Result<Single, AllocError>
    requires { length bytes.now ≤ size_limit }
    ensures text { IfOk result (λ s. IsSingleText list.now bytes.now (kind_of bytes.now) (single_output s)) }
    ensures small { AreBytes bytes.now }
{
    match kind_of(bytes) {
        Kind::Tar => judge_tar(alloc, list, bytes),
        Kind::Archive => Ok(Single::Nested),
        Kind::Packed(_) => Ok(Single::Nested),
        Kind::Array => judge_array(alloc, list, bytes),
        Kind::Pickle => judge_pickle(alloc, list, bytes),
    }
}

/// What is said of bytes that begin as a packed file does.
fn judge_packed<'a>(
    alloc: Global,
    list: &[Entry<'_>],
    bytes: &'a [u8],
    packing: Packing,
) -> Result<Judged<'a>, AllocError>
    ensures { IfOk result (λ j. IsPackedText list.now bytes.now packing (judged_output j)) }
{
    match open_packed(alloc, packing, bytes, LIMIT)? {
        Ok(content) => {
            let single = judge_inside(alloc, list, content.as_slice())?;
            Ok(Judged::Packed(packing, single))
        }
        Err(refusal) => Ok(Judged::NoPacked(refusal)),
    }
}

/// The line of `calls` for the item that is not allowed of what a member opens to.
fn line_inside(alloc: Global, entry: &EntryRef<'_>, verdict: Verdict) -> Result<Vec<u8>, AllocError>
    requires { IsOpenable entry.now }
    ensures { IfOk result (λ line. IsLineIn entry.now (faults.Refused verdict) line.items) }
{
    match open_member(alloc, entry)? {
        Ok(opened) => line_for(alloc, opened.as_slice(), verdict),
        Err(_) => Ok(Vec::new(alloc)),
    }
}

/// The same of what is behind the header of an array.
fn line_behind(alloc: Global, entry: &EntryRef<'_>, verdict: Verdict) -> Result<Vec<u8>, AllocError>
    requires { IsOpenable entry.now }
    ensures { IfOk result (λ line. IsLineIn entry.now (faults.Array (array_faults.Refused verdict)) line.items) }
{
    match open_member(alloc, entry)? {
        Ok(opened) => line_for(alloc, behind_header(opened.as_slice()), verdict),
        Err(_) => Ok(Vec::new(alloc)),
    }
}

/// The line of `calls` for the item of a member that is not allowed.
fn line_in(alloc: Global, entry: &EntryRef<'_>, fault: Fault) -> Result<Vec<u8>, AllocError>
    requires { IsOpenable entry.now }
    ensures { IfOk result (λ line. IsLineIn entry.now fault line.items) }
{
    match fault {
        Fault::Broken(_) => Ok(Vec::new(alloc)),
        Fault::Archive => Ok(Vec::new(alloc)),
        Fault::Refused(verdict) => line_inside(alloc, entry, verdict),
        Fault::Array(ArrayFault::Form(_)) => Ok(Vec::new(alloc)),
        Fault::Array(ArrayFault::Refused(verdict)) => line_behind(alloc, entry, verdict),
    }
}

/// What is said of members that are looked at.
fn judge_members<'a>(
    alloc: Global,
    list: &[Entry<'_>],
    entries: &[EntryRef<'a>],
) -> Result<Judged<'a>, AllocError>
    requires { AreOpenable entries.now }
    ensures { IfOk result (λ j. IsMembersVerdict list.now entries.now (judged_output j)) }
{
    match first_failing(alloc, list, entries)? {
        None => Ok(Judged::Archive),
        Some(failing) => {
            let entry = &entries[failing.place];
            let line = line_in(alloc, entry, failing.fault)?;
            Ok(Judged::Member(entry.name(), failing.fault, line))
        }
    }
}

/// What is said of the members of an archive.
fn judge_entries<'a>(
    alloc: Global,
    list: &[Entry<'_>],
    entries: &[EntryRef<'a>],
) -> Result<Judged<'a>, AllocError>
    requires { unpacked_total entries.now ≤ size_limit → AreOpenable entries.now }
    ensures { IfOk result (λ j. IsEntriesText list.now entries.now (judged_output j)) }
{
    if !differ_in_any_case(alloc, entries)? {
        return Ok(Judged::SameNames);
    }
    if !are_within_limit(entries) {
        return Ok(Judged::TooLarge);
    }
    judge_members(alloc, list, entries)
}

/// What is said of bytes that begin as an archive does.
fn judge_archive<'a>(
    alloc: Global,
    list: &[Entry<'_>],
    bytes: &'a [u8],
) -> Result<Judged<'a>, AllocError>
    requires { length bytes.now ≤ size_limit }
    ensures { IfOk result (λ j. IsArchiveText list.now bytes.now (judged_output j)) }
{
    match read_zip(alloc, bytes)? {
        Ok(entries) => judge_entries(alloc, list, entries.as_slice()),
        Err(refusal) => Ok(Judged::NoArchive(refusal)),
    }
}

/// What is said of a file by these entries: of bytes that begin as a tar archive or a zip archive does, whether each member passes; of bytes that
/// begin as a packed file, whether what they open to passes; and of other bytes, whether they are an array of numbers, an array with one pickle that passes, or one
/// pickle that passes. There are to be no more bytes than the limit. It fails only where memory runs out.
pub fn judge<'a>(
    alloc: Global,
    list: &[Entry<'_>],
    bytes: &'a [u8],
) -> Result<Judged<'a>, AllocError>
    requires { length bytes.now ≤ size_limit }
    ensures { IfOk result (λ j. IsFileText list.now bytes.now (judged_output j)) }
{
    match kind_of(bytes) {
        Kind::Tar => Ok(Judged::Single(judge_tar(alloc, list, bytes)?)),
        Kind::Archive => judge_archive(alloc, list, bytes),
        Kind::Packed(packing) => judge_packed(alloc, list, bytes, packing),
        Kind::Array => Ok(Judged::Single(judge_array(alloc, list, bytes)?)),
        Kind::Pickle => Ok(Judged::Single(judge_pickle(alloc, list, bytes)?)),
    }
}
