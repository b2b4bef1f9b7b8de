//! What is said of one member.

ghost use Rattle.std.specs.Prelude.{◌≡◌, ◌≤◌, true, length, IfOk, MatchOption};
ghost use Rattle.pickle_doc.specs.Document.{AreBytes, size_limit};
ghost use Rattle.zip_open.specs.Opened.{IsOpenable};
ghost use Rattle.npy_form.specs.Npy.{begins_as_array, header_size, behind_header, read_array};
ghost use Rattle.archive_gate.specs.Members.{with_ids, raises_first, Gives, ArrayPasses, BytesPass, MemberPasses, IsRefusal, IsRefusedAs, ArrayFails, BytesFail, HasFault};
ghost use Rattle.pickle_gate.specs.Gate.{Passes};
ghost use Rattle.zip_archive.specs.Reader.{member_of};

use crate::begins::{holds_members, raises_first};
use crate::fault::{ArrayFault, Fault};
use npy_form::{Held, begins_as_array, behind_header, read_array};
use pickle_allow::Entry;
use pickle_gate::{Verdict, gate};
use pickle_reach::{Granted, Reach, first_reach};
use std::alloc::{AllocError, Global};
use zip_archive::EntryRef;
use zip_open::open_member;

/// What a loader was given that knows persistent ids, as torch's does.
fn with_ids() -> Granted
    ensures { result ≡ with_ids }
{
    Granted {
        extensions: false,
        persistent: true,
        buffers: false,
    }
}

/// The verdict of the gate about the bytes of a member, unless they pass or no loader reaches anything in them.
fn refused(alloc: Global, list: &[Entry<'_>], bytes: &[u8]) -> Result<Option<Verdict>, AllocError>
    requires { length bytes.now ≤ size_limit }
    ensures { IfOk result (λ o. MatchOption o (Gives list.now bytes.now) (λ v. IsRefusedAs list.now bytes.now v)) }
{
    if raises_first(bytes) {
        return Ok(None);
    }
    match first_reach(alloc, with_ids(), bytes)? {
        Reach::Nothing(_, _) => Ok(None),
        Reach::At(_, _) => refused_by_gate(alloc, list, bytes),
        Reach::TooMany => refused_by_gate(alloc, list, bytes),
    }
}

/// The verdict of the gate, unless the bytes pass.
fn refused_by_gate(
    alloc: Global,
    list: &[Entry<'_>],
    bytes: &[u8],
) -> Result<Option<Verdict>, AllocError>
    requires { length bytes.now ≤ size_limit }
    ensures { IfOk result (λ o. MatchOption o (Passes list.now bytes.now) (λ v. IsRefusal list.now bytes.now v)) }
{
    match gate(alloc, list, bytes)? {
        Verdict::Passes => Ok(None),
        Verdict::Forbidden(place, offset) => Ok(Some(Verdict::Forbidden(place, offset))),
        Verdict::Other(other) => Ok(Some(Verdict::Other(other))),
        Verdict::Ends(ending) => Ok(Some(Verdict::Ends(ending))),
    }
}

/// Why an array does not pass, if it does not.
fn fault_in_array(
    alloc: Global,
    list: &[Entry<'_>],
    bytes: &[u8],
) -> Result<Option<ArrayFault>, AllocError>
    requires { length bytes.now ≤ size_limit }
    ensures { IfOk result (λ o. MatchOption o (ArrayPasses list.now bytes.now) (λ f. ArrayFails list.now bytes.now f)) }
{
    match read_array(bytes) {
        Ok(Held::Numbers) => Ok(None),
        Ok(Held::Pickle) => match refused(alloc, list, behind_header(bytes))? {
            None => Ok(None),
            Some(verdict) => Ok(Some(ArrayFault::Refused(verdict))),
        },
        Err(refusal) => Ok(Some(ArrayFault::Form(refusal))),
    }
}

/// The same of bytes that may begin as one.
fn fault_as_array(
    alloc: Global,
    list: &[Entry<'_>],
    bytes: &[u8],
) -> Result<Option<ArrayFault>, AllocError>
    requires { length bytes.now ≤ size_limit }
    ensures { IfOk result (λ o. MatchOption o (begins_as_array bytes.now ≡ true → ArrayPasses list.now bytes.now)
        (λ f. (begins_as_array bytes.now ≡ true) × ArrayFails list.now bytes.now f)) }
{
    if begins_as_array(bytes) {
        fault_in_array(alloc, list, bytes)
    } else {
        Ok(None)
    }
}

/// Why the bytes that a member opens to do not pass, if they do not.
fn fault_in(alloc: Global, list: &[Entry<'_>], bytes: &[u8]) -> Result<Option<Fault>, AllocError>
    requires { length bytes.now ≤ size_limit }
    ensures { IfOk result (λ o. MatchOption o (BytesPass list.now bytes.now) (λ f. BytesFail list.now bytes.now f)) }
{
    if holds_members(bytes) {
        return Ok(Some(Fault::Archive));
    }
    if let Some(verdict) = refused(alloc, list, bytes)? {
        return Ok(Some(Fault::Refused(verdict)));
    }
    match fault_as_array(alloc, list, bytes)? {
        None => Ok(None),
        Some(fault) => Ok(Some(Fault::Array(fault))),
    }
}

/// The same, with what is known of numbers that stand in bytes.
pub(crate) fn fault_in_bytes(
    alloc: Global,
    list: &[Entry<'_>],
    bytes: &[u8],
) -> Result<Option<Fault>, AllocError>
    requires { length bytes.now ≤ size_limit }
    ensures found { IfOk result (λ o. MatchOption o (BytesPass list.now bytes.now) (λ f. BytesFail list.now bytes.now f)) }
    ensures small { AreBytes bytes.now }
{
    fault_in(alloc, list, bytes)
}

/// Why a member does not pass, if it does not.
pub(crate) fn fault_of(
    alloc: Global,
    list: &[Entry<'_>],
    entry: &EntryRef<'_>,
) -> Result<Option<Fault>, AllocError>
    requires { IsOpenable entry.now }
    ensures { IfOk result (λ o. MatchOption o (MemberPasses list.now (member_of entry.now)) (λ f. HasFault list.now entry.now f)) }
{
    match open_member(alloc, entry)? {
        Ok(opened) => fault_in_bytes(alloc, list, opened.as_slice()),
        Err(broken) => Ok(Some(Fault::Broken(broken))),
    }
}
