//! The text of what loaders may take that mix frames.

ghost use Rattle.std.specs.Prelude.{◌≡◌, ◌<◌, ◌≤◌, ◌^◌, length, drop, None, Some, MatchOption};
ghost use Rattle.pickle_io.specs.Device.{each};
ghost use Rattle.pickle_doc.specs.Document.{size_limit};
ghost use Rattle.pickle_calls.specs.Manner.{manner};
ghost use Rattle.pickle_further.specs.CallsText.{PutsText};
ghost use Rattle.pickle_further.specs.Parts.{first_mixed};
ghost use Rattle.pickle_mixes.specs.Acting.{acting_places};
ghost use Rattle.pickle_io.specs.Text.{◌⧺◌};
ghost use Rattle.mixes_text.specs.MixText.{place_text, found_text, goes_on, all_text, mixed_text, mixes_behind};

use crate::words::MixWorder;
use pickle_calls::Detail;
use pickle_further::{Pickles, first_mixed};
use pickle_io::{Holes, Page};
use pickle_lenient::{Frames, NotTaken, take_op};
use pickle_mixes::{Place, acting_places};
use pickle_text::TextStop;
use std::alloc::Global;

/// The bytes from an offset on.
fn rest_of(bytes: &[u8], offset: usize) -> &[u8]
    ensures { result.now ≡ drop offset bytes.now }
{
    if offset <= bytes.len() {
        bytes.split_at(offset).1
    } else {
        &[]
    }
}

/// Writes the opcode at a place.
fn write_place<T: MixWorder, S: Page>(
    alloc: Global,
    holes: &Holes,
    bytes: &[u8],
    place: Place,
    page: &mut S,
) -> Result<(), TextStop>
    requires { length bytes.now < 2 ^ 62 }
    ensures { PutsText (S.told page.old) (S.told page.new) (place_text T.mixes holes.now bytes.now place) result }
{
    match take_op(
        alloc,
        Frames::Held,
        place.left,
        rest_of(bytes, place.offset),
    ) {
        Ok(taken) => {
            T::write_taken(holes.in_file(place.offset as u64), &taken.op, page)?;
            Ok(())
        }
        Err(NotTaken::Fault(_)) => Ok(()),
        Err(NotTaken::Memory) => Err(TextStop::Memory),
    }
}

/// Writes the opcodes at these places.
fn write_places<T: MixWorder, S: Page>(
    alloc: Global,
    holes: &Holes,
    bytes: &[u8],
    places: &[Place],
    page: &mut S,
) -> Result<(), TextStop>
    requires { length bytes.now < 2 ^ 62 }
    ensures { PutsText (S.told page.old) (S.told page.new) (each (place_text T.mixes holes.now bytes.now) places.now) result }
{
    for place in places {
        write_place::<T, S>(alloc, holes, bytes, *place, page)?;
    }
    Ok(())
}

/// Writes the opcodes at these places, and how many they are.
fn write_counted<T: MixWorder, S: Page>(
    alloc: Global,
    holes: &Holes,
    bytes: &[u8],
    places: &[Place],
    page: &mut S,
) -> Result<(), TextStop>
    requires { length bytes.now < 2 ^ 62 }
    ensures { PutsText (S.told page.old) (S.told page.new) (each (place_text T.mixes holes.now bytes.now) places.now ⧺ T.mixes.below (length places.now)) result }
{
    write_places::<T, S>(alloc, holes, bytes, places, page)?;
    T::write_below(places.len() as u64, page)?;
    Ok(())
}

/// Writes what was found.
fn write_found<T: MixWorder, S: Page>(
    alloc: Global,
    holes: &Holes,
    bytes: &[u8],
    places: &[Place],
    page: &mut S,
) -> Result<(), TextStop>
    requires { length bytes.now < 2 ^ 62 }
    ensures { PutsText (S.told page.old) (S.told page.new) (found_text T.mixes holes.now bytes.now (Some places.now)) result }
{
    T::write_above(page)?;
    write_counted::<T, S>(alloc, holes, bytes, places, page)
}

/// Whether pickles behind the first STOP are read.
fn goes_on(pickles: Pickles) -> bool
    ensures { result ≡ goes_on pickles }
{
    match pickles {
        Pickles::First => false,
        Pickles::All => true,
        Pickles::OneMemo => true,
    }
}

/// Writes what loaders may take that mix frames.
#[tactic(auto, unfolding(crate::specs::MixText::all_text))]
fn write_mixed<T: MixWorder, S: Page>(
    alloc: Global,
    holes: &Holes,
    many: bool,
    bytes: &[u8],
    page: &mut S,
) -> Result<(), TextStop>
    requires { length bytes.now < 2 ^ 60 }
    ensures { PutsText (S.told page.old) (S.told page.new) (all_text T.mixes holes.now many bytes.now) result }
{
    match acting_places(alloc, many, bytes)? {
        Some(places) => write_found::<T, S>(alloc, holes, bytes, places.as_slice(), page),
        None => {
            T::write_too_many(page)?;
            Ok(())
        }
    }
}

/// Writes what loaders may take that mix frames, where frames may be mixed.
fn write_if_mixed<T: MixWorder, S: Page>(
    alloc: Global,
    detail: Detail,
    holes: &Holes,
    pickles: Pickles,
    bytes: &[u8],
    page: &mut S,
) -> Result<(), TextStop>
    requires { length bytes.now ≤ size_limit }
    ensures { PutsText (S.told page.old) (S.told page.new) (mixed_text T.mixes holes.now pickles bytes.now (first_mixed detail pickles bytes.now)) result }
{
    match first_mixed(alloc, detail, pickles, bytes)? {
        Some(_) => write_mixed::<T, S>(alloc, holes, goes_on(pickles), bytes, page),
        None => Ok(()),
    }
}

/// Writes what loaders may take that mix frames, behind lines of `calls` that end with this status: nothing where that is 0, and nothing
/// where no frames may be mixed. The bytes are what is left of a file without these holes, and the offsets that are shown are those in the
/// file. There are to be no more bytes than the limit.
///
/// `Memory` (M) where memory runs out, `Failed` where the sink fails; what was written then is a beginning of the text.
pub(crate) fn write_mixes<T: MixWorder, S: Page>(
    alloc: Global,
    detail: Detail,
    holes: &Holes,
    pickles: Pickles,
    bytes: &[u8],
    status: u8,
    page: &mut S,
) -> Result<(), TextStop>
    requires { length bytes.now ≤ size_limit }
    ensures { PutsText (S.told page.old) (S.told page.new) (mixes_behind T.mixes (manner detail holes.now) pickles bytes.now status) result }
{
    if status == 0 {
        Ok(())
    } else {
        write_if_mixed::<T, S>(alloc, detail, holes, pickles, bytes, page)
    }
}
