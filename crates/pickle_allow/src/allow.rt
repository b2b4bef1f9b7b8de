//! What a list grants.

ghost use Rattle.std.specs.Prelude.{◌≡◌, Some, IfOk};
ghost use Rattle.pickle_allow.specs.Granted.{both, joined, entry_grant, granted_to, first_entry};

use crate::grant::Grant;
use crate::list::{Entry, Uses};
use crate::pattern::fits;
use std::alloc::{AllocError, Global};

/// What one or the other allows.
fn both(a: Uses, b: Uses) -> Uses
    ensures { result ≡ both a b }
{
    Uses {
        call: a.call || b.call,
        new: a.new || b.new,
        state: a.state || b.state,
        fill: a.fill || b.fill,
    }
}

/// What is granted by one or the other.
fn joined(found: Option<Grant>, more: Option<Grant>) -> Option<Grant>
    ensures { result ≡ joined found more }
{
    match (found, more) {
        (Some(a), Some(b)) => Some(Grant {
            now: both(a.now, b.now),
            made: both(a.made, b.made),
        }),
        (Some(a), None) => Some(a),
        (None, more) => more,
    }
}

/// What an entry grants to what has a name.
fn entry_grant(
    entry: &Entry<'_>,
    name: &[u8],
    rests: &mut Vec<bool>,
) -> Result<Option<Grant>, AllocError>
    ensures { IfOk result (λ grant. grant ≡ entry_grant entry.now name.now) }
{
    if fits(entry.pattern, name, rests)? {
        Ok(Some(Grant {
            now: entry.itself,
            made: entry.made,
        }))
    } else {
        Ok(None)
    }
}

/// What a list grants to what has a name: what its entries grant together that have the name, and nothing where none has it. This is linear in the
/// name; it takes memory by the longest pattern with a star, once.
pub fn grant_of(alloc: Global, list: &[Entry<'_>], name: &[u8]) -> Result<Option<Grant>, AllocError>
    ensures { IfOk result (λ grant. grant ≡ granted_to list.now name.now) }
{
    let mut rests = Vec::new(alloc);
    let mut found = None;
    for entry in list {
        found = joined(found, entry_grant(entry, name, &mut rests)?);
    }
    Ok(found)
}

/// The place in a list of the first entry that has a name.
pub fn entry_of(alloc: Global, list: &[Entry<'_>], name: &[u8]) -> Result<Option<usize>, AllocError>
    ensures { IfOk result (λ place. place ≡ first_entry list.now name.now 0) }
{
    let mut rests = Vec::new(alloc);
    for i in 0..list.len() {
        if fits(list[i].pattern, name, &mut rests)? {
            return Ok(Some(i));
        }
    }
    Ok(None)
}
