//! The places that are still to be looked at.

ghost use Rattle.std.specs.Prelude.{◌≡◌, ◌≤◌, length, OnOk};
ghost use Rattle.std.specs.List.{list_any};
ghost use Rattle.pickle_mixes.specs.Acting.{is_same, rank, with_place};

use crate::place::{Place, comes_before, is_same};
use std::alloc::AllocError;

/// Whether a place is among these.
fn has_place(places: &[Place], place: Place) -> bool
    ensures { result ≡ list_any (is_same place) places.now }
{
    for other in places {
        if is_same(place, *other) {
            return true;
        }
    }
    false
}

/// How many of these, from the first on, come before a place.
#[tactic(auto, unfolding(crate::specs::Acting::rank))]
fn rank(places: &[Place], place: Place) -> usize
    ensures is { result ≡ rank place places.now }
    ensures within { result ≤ length places.now }
{
    let mut count = 0;
    while count < places.len() {
        if !comes_before(places[count], place) {
            return count;
        }
        count += 1;
    }
    count
}

/// Adds a place where it belongs, if it is not there yet.
#[tactic(auto, unfolding(crate::specs::Acting::with_place))]
pub(crate) fn add_place(places: &mut Vec<Place>, place: Place) -> Result<(), AllocError>
    ensures { OnOk result (places.new.items ≡ with_place place places.old.items) }
{
    if has_place(places.as_slice(), place) {
        return Ok(());
    }
    let at = rank(places.as_slice(), place);
    places.insert(at, place)?;
    Ok(())
}
