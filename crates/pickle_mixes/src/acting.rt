//! The walk over all places.

ghost use Rattle.std.specs.Prelude.{◌≡◌, ◌<◌, ◌^◌, ◌++◌, [], length, OnOk, IfOk, MatchOption, None, Some};
ghost use Rattle.pickle_mixes.specs.Acting.{most_visits, with_acting, acting_places};

use crate::look::look;
use crate::place::{Place, first_place};
use std::alloc::{AllocError, Global};

/// The most places that may be ahead.
const MOST_AHEAD: usize = 256;

/// How many places are looked at, at most, in so many bytes: a pickle whose frames end where its items do has two ways through a frame.
fn most_visits(size: usize) -> usize
    requires { size < 2 ^ 60 }
    ensures { result ≡ most_visits size }
{
    4 * size + 1024
}

/// Keeps a place, if a loader may act there.
fn keep(acts: bool, place: Place, places: &mut Vec<Place>) -> Result<(), AllocError>
    ensures { OnOk result (places.new.items ≡ places.old.items ++ with_acting acts place []) }
{
    if acts {
        places.push(place)?;
    }
    Ok(())
}

/// At which places loaders may act that begin at the first of these bytes, do with frames at each item what any loader does, and go on
/// behind what they reach: behind STOP too, where they load all pickles. In rising order, none twice; none is answered where there are
/// too many ways. The item of each is the one that a loader takes there which keeps frames in a buffer.
pub fn acting_places(
    alloc: Global,
    many: bool,
    bytes: &[u8],
) -> Result<Option<Vec<Place>>, AllocError>
    requires small { length bytes.now < 2 ^ 60 }
    ensures { IfOk result (λ found. MatchOption found (acting_places many bytes.now ≡ None) (λ places. acting_places many bytes.now ≡ Some places.items)) }
{
    let mut acting = Vec::new(alloc);
    let mut ahead = Vec::new(alloc);
    ahead.push(first_place())?;
    let mut visits = most_visits(bytes.len());
    while 0 < visits {
        if ahead.is_empty() {
            return Ok(Some(acting));
        }
        if MOST_AHEAD < ahead.len() {
            return Ok(None);
        }
        let place = ahead.remove(0);
        let acts = look(alloc, many, bytes, place, &mut ahead)?;
        keep(acts, place, &mut acting)?;
        visits -= 1;
    }
    Ok(None)
}
