//! Places by their offsets.

ghost use Rattle.std.specs.Prelude.{◌≡◌, ◌≤◌, length, take};
ghost use Rattle.pickle_doc.specs.Document.{size_limit};
ghost use Rattle.pickle_doc.specs.DocUnit.{sizes};
ghost use Rattle.pickle_doc.specs.Inside.Bookmark.{IsBookmark};
ghost use Rattle.pickle_doc.specs.Inside.ByOffset.{IsAtOffset};

use crate::bookmark::Bookmark;
use crate::item::Item;
use gap_list::GapList;

/// The place with this offset, which no place before the first one here has.
fn place_from(items: &GapList<Item>, from: usize, start: u64, offset: u64) -> Option<usize>
    requires place { from ≤ length items.now.items }
    requires start { start ≡ sizes (take from items.now.items) }
    requires order { start ≤ offset }
    requires small { sizes items.now.items ≤ size_limit }
    ensures { IsAtOffset result offset items.now.items }
{
    let len = items.len();
    let mut at = start;
    for place in from..len {
        if at == offset {
            return Some(place);
        }
        if at > offset {
            return None;
        }
        at += items.at(place).op.size() as u64;
    }
    if at == offset {
        return Some(len);
    }
    None
}

/// The place with this offset, which no place after the last one here has.
fn place_back(items: &GapList<Item>, from: usize, start: u64, offset: u64) -> Option<usize>
    requires place { from ≤ length items.now.items }
    requires start { start ≡ sizes (take from items.now.items) }
    requires order { offset ≤ start }
    ensures { IsAtOffset result offset items.now.items }
{
    let mut place = from;
    let mut at = start;
    while at > offset {
        place -= 1;
        at -= items.at(place).op.size() as u64;
    }
    if at == offset {
        return Some(place);
    }
    None
}

/// The place with this offset. This goes over the items between it and a bookmark, or from the first place where that is nearer.
pub(crate) fn place_by(items: &GapList<Item>, bookmark: Bookmark, offset: u64) -> Option<usize>
    requires { IsBookmark bookmark items.now.items }
    ensures { IsAtOffset result offset items.now.items }
{
    if bookmark.offset <= offset {
        place_from(items, bookmark.place, bookmark.offset, offset)
    } else if bookmark.offset - offset <= offset {
        place_back(items, bookmark.place, bookmark.offset, offset)
    } else {
        place_from(items, 0, 0, offset)
    }
}

/// The place with this offset. This goes over the items between it and the nearest of the first place, a bookmark, and a place that
/// begins at this start. Nearness is counted in bytes: each item has one at least, so these are never fewer than the
/// items.
pub(crate) fn place_near(
    items: &GapList<Item>,
    bookmark: Bookmark,
    from: usize,
    start: u64,
    offset: u64,
) -> Option<usize>
    requires bookmark { IsBookmark bookmark items.now.items }
    requires place { from ≤ length items.now.items }
    requires start { start ≡ sizes (take from items.now.items) }
    ensures { IsAtOffset result offset items.now.items }
{
    if offset.min(offset.abs_diff(bookmark.offset)) <= offset.abs_diff(start) {
        place_by(items, bookmark, offset)
    } else if start <= offset {
        place_from(items, from, start, offset)
    } else {
        place_back(items, from, start, offset)
    }
}
