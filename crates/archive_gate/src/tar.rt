//! The members of a tar archive, and the archive as another kind of file.

ghost use Rattle.std.specs.Prelude.{◌≡◌, ◌≤◌, ◌<◌, ◌-◌, length, get_or, IfOk, MatchOption, MatchBool};
ghost use Rattle.pickle_doc.specs.Document.{AreBytes, size_limit};
ghost use Rattle.tar_archive.specs.declared.member.Member.{Member};
ghost use Rattle.tar_archive.specs.Field.{text};
ghost use Rattle.archive_gate.specs.Members.{alone, BytesPass, BytesFail};
ghost use Rattle.archive_gate.specs.Itself.{is_pickle, is_no_other, takes_first, GivesNothingItself, MayGive};
ghost use Rattle.archive_gate.specs.Tar.{AllHeldPass, IsFailingIn};

use crate::begins::takes_first;
use crate::fault::Failing;
use crate::judge::fault_in_bytes;
use crate::kind::{Kind, kind_but_tar};
use pickle_allow::Entry;
use pickle_reach::{Granted, Reach, first_reach};
use std::alloc::{AllocError, Global};
use tar_archive::{Member, part_of};

/// Whether a file is looked at as a pickle.
fn is_pickle(kind: Kind) -> bool
    ensures { result ≡ is_pickle kind }
{
    match kind {
        Kind::Tar => false,
        Kind::Archive => false,
        Kind::Packed(_) => false,
        Kind::Array => false,
        Kind::Pickle => true,
    }
}

/// Whether no reader of another kind of file takes the bytes for one by how they begin.
pub fn is_no_other(bytes: &[u8]) -> bool
    ensures { result ≡ is_no_other bytes.now }
{
    is_pickle(kind_but_tar(bytes))
}

/// What a loader was given that has nothing but bytes.
fn alone() -> Granted
    ensures { result ≡ alone }
{
    Granted {
        extensions: false,
        persistent: false,
        buffers: false,
    }
}

/// Whether no loader reaches anything that takes the bytes for a pickle, and has nothing but them. It fails only where memory runs out.
pub fn gives_nothing_itself(alloc: Global, bytes: &[u8]) -> Result<bool, AllocError>
    requires { length bytes.now ≤ size_limit }
    ensures { IfOk result (λ b. MatchBool b (GivesNothingItself bytes.now) (MayGive bytes.now)) }
{
    if takes_first(bytes) {
        return Ok(true);
    }
    match first_reach(alloc, alone(), bytes)? {
        Reach::Nothing(_, _) => Ok(true),
        Reach::At(_, _) => Ok(false),
        Reach::TooMany => Ok(false),
    }
}

/// What is in the member at a place.
fn held_at<'a>(bytes: &'a [u8], members: &[Member], place: usize) -> &'a [u8]
    requires { place < length members.now }
    ensures { (d : Member) → result.now ≡ text bytes.now (get_or members.now place d).content }
{
    part_of(bytes, members[place].content)
}

/// The first member of a tar archive that does not pass this list: what is in it is no pickle that passes, and a loader may reach something in it. It
/// fails only where memory runs out.
pub fn first_failing_in(
    alloc: Global,
    list: &[Entry<'_>],
    bytes: &[u8],
    members: &[Member],
) -> Result<Option<Failing>, AllocError>
    requires { length bytes.now ≤ size_limit }
    ensures { IfOk result (λ o. MatchOption o (AllHeldPass list.now bytes.now members.now) (λ f. IsFailingIn list.now bytes.now members.now f)) }
{
    for place in 0..members.len() {
        let held = held_at(bytes, members, place);
        match fault_in_bytes(alloc, list, held)? {
            None => {}
            Some(fault) => return Ok(Some(Failing { place, fault })),
        }
    }
    Ok(None)
}
