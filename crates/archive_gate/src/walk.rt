//! All members.

ghost use Rattle.std.specs.Prelude.{◌≡◌, ◌≤◌, length, IfOk, MatchOption};
ghost use Rattle.zip_open.specs.Opened.{AreOpenable};
ghost use Rattle.archive_gate.specs.Members.{AllPass, IsFailing};

use crate::fault::Failing;
use crate::judge::fault_of;
use pickle_allow::Entry;
use std::alloc::{AllocError, Global};
use zip_archive::EntryRef;

/// The first member that does not pass this list: it does not open, or what it opens to is no pickle that passes and a loader may reach
/// something in it. It fails only where memory runs out.
pub fn first_failing(
    alloc: Global,
    list: &[Entry<'_>],
    entries: &[EntryRef<'_>],
) -> Result<Option<Failing>, AllocError>
    requires { AreOpenable entries.now }
    ensures { IfOk result (λ o. MatchOption o (AllPass list.now entries.now) (λ f. IsFailing list.now entries.now f)) }
{
    for place in 0..entries.len() {
        match fault_of(alloc, list, &entries[place])? {
            None => {}
            Some(fault) => return Ok(Some(Failing { place, fault })),
        }
    }
    Ok(None)
}
