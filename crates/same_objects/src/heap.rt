//! The first object in which two heaps differ.

ghost use Rattle.std.specs.Prelude.{◌≡◌, slice_get, MatchOption};
ghost use Rattle.std.specs.Bool.{Decides};
ghost use Rattle.same_objects.specs.Same.{IsFirstOther};

use crate::object::is_same_object;
use pickle_ops::Object;

/// Whether two heaps have the same object of this number, or both have none.
fn is_same_at(one: &[Object], other: &[Object], number: usize) -> bool
    ensures { Decides result (slice_get one.now number ≡ slice_get other.now number) }
{
    match (one.get(number), other.get(number)) {
        (Some(first), Some(second)) => is_same_object(first, second),
        (None, None) => true,
        _ => false,
    }
}

/// The first number of which the objects are not the same; none where the heaps are the same.
pub(crate) fn first_other(one: &[Object], other: &[Object]) -> Option<usize>
    ensures { MatchOption result (one.now ≡ other.now) (IsFirstOther one.now other.now) }
{
    let count = one.len().max(other.len());
    for number in 0..count {
        if !is_same_at(one, other, number) {
            return Some(number);
        }
    }
    None
}
