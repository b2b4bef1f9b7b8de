//! Whether a tar archive passes a list.

ghost use Rattle.std.specs.Prelude.{◌≡◌, ◌≤◌, length, IfOk};
ghost use Rattle.pickle_doc.specs.Document.{size_limit};
ghost use Rattle.tar_archive.specs.Field.{text};
ghost use Rattle.archive_gate.specs.declared.fault.Fault.TheVariants as faults;
ghost use Rattle.archive_gate.specs.declared.fault.ArrayFault.TheVariants as array_faults;
ghost use Rattle.npy_form.specs.Npy.{header_size, behind_header};
ghost use Rattle.archive_script.specs.SingleText.{single_output};
ghost use Rattle.archive_script.specs.TarText.{IsLineOf, IsMemberText, IsTarVerdict, IsTarMembersText, IsTarText};

use crate::judged::Single;
use archive_gate::{ArrayFault, Fault, first_failing_in, gives_nothing_itself, is_no_other};
use npy_form::behind_header;
use pickle_allow::Entry;
use pickle_gate::Verdict;
use pickle_script::line_for;
use std::alloc::{AllocError, Global};
use tar_archive::{Member, are_clear, part_of, read_tar};

/// The line of `calls` for the item behind the header of an array that is not allowed.
fn line_behind_header(alloc: Global, bytes: &[u8], verdict: Verdict) -> Result<Vec<u8>, AllocError>
    requires { length bytes.now ≤ size_limit }
    ensures { IfOk result (λ line. IsLineOf bytes.now (faults.Array (array_faults.Refused verdict)) line.items) }
{
    line_for(alloc, behind_header(bytes), verdict)
}

/// The line of `calls` for the item of bytes that is not allowed.
fn line_of(alloc: Global, bytes: &[u8], fault: Fault) -> Result<Vec<u8>, AllocError>
    requires { length bytes.now ≤ size_limit }
    ensures { IfOk result (λ line. IsLineOf bytes.now fault line.items) }
{
    match fault {
        Fault::Broken(_) => Ok(Vec::new(alloc)),
        Fault::Archive => Ok(Vec::new(alloc)),
        Fault::Refused(verdict) => line_for(alloc, bytes, verdict),
        Fault::Array(ArrayFault::Form(_)) => Ok(Vec::new(alloc)),
        Fault::Array(ArrayFault::Refused(verdict)) => line_behind_header(alloc, bytes, verdict),
    }
}

/// The same bytes again.
fn copy_of(alloc: Global, bytes: &[u8]) -> Result<Vec<u8>, AllocError>
    ensures { IfOk result (λ v. v.items ≡ bytes.now) }
{
    bytes.to_vec(alloc)
}

/// What is said of a member that does not pass.
fn judge_member(
    alloc: Global,
    bytes: &[u8],
    member: &Member,
    fault: Fault,
) -> Result<Single, AllocError>
    requires { length bytes.now ≤ size_limit }
    ensures { IfOk result (λ s. IsMemberText bytes.now member.now fault (single_output s)) }
{
    let held = part_of(bytes, member.content);
    let line = line_of(alloc, held, fault)?;
    let shown = part_of(bytes, member.name);
    let name = copy_of(alloc, shown)?;
    Ok(Single::Member(name, fault, line))
}

/// What is said of members that are looked at.
fn judge_held(
    alloc: Global,
    list: &[Entry<'_>],
    bytes: &[u8],
    members: &[Member],
) -> Result<Single, AllocError>
    requires { length bytes.now ≤ size_limit }
    ensures { IfOk result (λ s. IsTarVerdict list.now bytes.now members.now (single_output s)) }
{
    match first_failing_in(alloc, list, bytes, members)? {
        None => Ok(Single::Tar),
        Some(failing) => judge_member(alloc, bytes, &members[failing.place], failing.fault),
    }
}

/// What is said of the members of an archive in form.
fn judge_read(
    alloc: Global,
    list: &[Entry<'_>],
    bytes: &[u8],
    members: &[Member],
) -> Result<Single, AllocError>
    requires { length bytes.now ≤ size_limit }
    ensures { IfOk result (λ s. IsTarMembersText list.now bytes.now members.now (single_output s)) }
{
    if !are_clear(alloc, bytes, members)? {
        return Ok(Single::Unclear);
    }
    if !is_no_other(bytes) {
        return Ok(Single::TwoKinds);
    }
    if !gives_nothing_itself(alloc, bytes)? {
        return Ok(Single::TwoKinds);
    }
    judge_held(alloc, list, bytes, members)
}

/// What is said of bytes that begin as a tar archive does.
pub(crate) fn judge_tar(
    alloc: Global,
    list: &[Entry<'_>],
    bytes: &[u8],
) -> Result<Single, AllocError>
    requires { length bytes.now ≤ size_limit }
    ensures { IfOk result (λ s. IsTarText list.now bytes.now (single_output s)) }
{
    match read_tar(alloc, bytes)? {
        Ok(members) => judge_read(alloc, list, bytes, members.as_slice()),
        Err(refusal) => Ok(Single::NoTar(refusal)),
    }
}
