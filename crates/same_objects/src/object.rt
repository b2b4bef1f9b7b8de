//! Whether two objects are the same.

ghost use Rattle.std.specs.Prelude.{◌≡◌, slice_get};
ghost use Rattle.std.specs.Bool.{Decides};

use crate::kind::is_same_kind;
use pickle_ops::{Change, ObjId, Object};

/// Whether two lists of parts are the same.
pub(crate) fn are_same_ids(one: &[ObjId], other: &[ObjId]) -> bool
    ensures { Decides result (one.now ≡ other.now) }
{
    one == other
}

/// Whether two changes are the same.
fn is_same_change(one: Change, other: Change) -> bool
    ensures { Decides result (one ≡ other) }
{
    match (one, other) {
        (Change::Append(id), Change::Append(with)) => id == with,
        (Change::SetItem(key, value), Change::SetItem(with, set)) => key == with && value == set,
        (Change::Add(id), Change::Add(with)) => id == with,
        (Change::Build(id), Change::Build(with)) => id == with,
        _ => false,
    }
}

/// Whether two lists have the same change at a place, or both have none.
fn is_same_at(one: &[Change], other: &[Change], place: usize) -> bool
    ensures { Decides result (slice_get one.now place ≡ slice_get other.now place) }
{
    match (one.get(place), other.get(place)) {
        (Some(first), Some(second)) => is_same_change(*first, *second),
        (None, None) => true,
        _ => false,
    }
}

/// Whether two lists of changes are the same.
fn are_same_changes(one: &[Change], other: &[Change]) -> bool
    ensures { Decides result (one.now ≡ other.now) }
{
    let count = one.len().max(other.len());
    for place in 0..count {
        if !is_same_at(one, other, place) {
            return false;
        }
    }
    true
}

/// Whether two objects are of the same kind, with the same parts, and were changed alike.
pub(crate) fn is_same_object(one: &Object, other: &Object) -> bool
    ensures { Decides result (one.now ≡ other.now) }
{
    is_same_kind(one.kind(), other.kind())
        && are_same_ids(one.parts(), other.parts())
        && are_same_changes(one.changes(), other.changes())
}
