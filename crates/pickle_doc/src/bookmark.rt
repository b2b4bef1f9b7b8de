//! A place among items, and what is known there of the items before it. With it an edit goes over the items between the
//! place of the last edit and its own, and not over all that are before it.

ghost use Rattle.std.specs.Prelude.{◌≡◌, ◌+◌, ◌≤◌, if◌then◌else◌, Some, None, length, take};
ghost use Rattle.pickle_doc.specs.Document.{size_limit};
ghost use Rattle.pickle_doc.specs.DocUnit.{is_frame, sizes};
ghost use Rattle.pickle_doc.specs.Inside.Bookmark.{IsLastFrame, IsBookmark};

use crate::item::Item;
use crate::next::is_frame;
use gap_list::GapList;
use pickle_ops::Op;

/// Where a FRAME is. Its number is left out, so that this stays right where the number changes.
#[derive(Clone, Copy)]
pub struct FramePlace {
    /// How many items are before it.
    pub place: usize,
    /// The offset after it, where its first member begins.
    pub behind: u64,
}

/// A place, and what is known of the items before it. An edit there or after it leaves it right.
#[derive(Clone, Copy)]
pub struct Bookmark {
    /// How many items are before it.
    pub place: usize,
    /// How many bytes spell the items before it.
    pub offset: u64,
    /// The last FRAME before it.
    pub frame: Option<FramePlace>,
}

impl Bookmark {
    /// The first place.
    pub(crate) fn first() -> Bookmark
        ensures { result ≡ record { place = 0; offset = 0; frame = None } }
    {
        Bookmark {
            place: 0,
            offset: 0,
            frame: None,
        }
    }
}

/// The last FRAME up to an item at this place, after which this offset is: the item itself, or the one before it.
fn last_with(op: &Op, place: usize, behind: u64, before: Option<FramePlace>) -> Option<FramePlace>
    ensures { result ≡ (if is_frame op.now.opcode then Some (record { place = place; behind = behind }) else before) }
{
    if is_frame(op.opcode()) {
        Some(FramePlace { place, behind })
    } else {
        before
    }
}

/// The last FRAME before item k, which begins at this offset.
fn last_before(items: &GapList<Item>, k: usize, offset: u64) -> Option<FramePlace>
    requires place { k ≤ length items.now.items }
    requires offset { offset ≡ sizes (take k items.now.items) }
    ensures { IsLastFrame result k items.now.items }
{
    let mut place = k;
    let mut behind = offset;
    while place > 0 {
        place -= 1;
        let op = &items.at(place).op;
        if is_frame(op.opcode()) {
            return Some(FramePlace { place, behind });
        }
        behind -= op.size() as u64;
    }
    None
}

/// How many bytes spell the items from one place on and before another.
fn size_between(items: &GapList<Item>, from: usize, to: usize) -> u64
    requires order { from ≤ to }
    requires place { to ≤ length items.now.items }
    requires small { sizes items.now.items ≤ size_limit }
    ensures { sizes (take from items.now.items) + result ≡ sizes (take to items.now.items) }
{
    let mut total: u64 = 0;
    for j in from..to {
        total += items.at(j).op.size() as u64;
    }
    total
}

/// On from a bookmark to place k.
fn forward(items: &GapList<Item>, bookmark: Bookmark, k: usize) -> Bookmark
    requires bookmark { IsBookmark bookmark items.now.items }
    requires order { bookmark.place ≤ k }
    requires place { k ≤ length items.now.items }
    ensures bookmark { IsBookmark result items.now.items }
    ensures place { result.place ≡ k }
{
    let mut offset = bookmark.offset;
    let mut frame = bookmark.frame;
    for j in bookmark.place..k {
        let op = &items.at(j).op;
        offset += op.size() as u64;
        frame = last_with(op, j, offset, frame);
    }
    Bookmark {
        place: k,
        offset,
        frame,
    }
}

/// Back from a bookmark to place k, and further where the last FRAME before it has to be found.
fn back(items: &GapList<Item>, bookmark: Bookmark, k: usize) -> Bookmark
    requires bookmark { IsBookmark bookmark items.now.items }
    requires order { k ≤ bookmark.place }
    ensures bookmark { IsBookmark result items.now.items }
    ensures place { result.place ≡ k }
{
    let offset = bookmark.offset - size_between(items, k, bookmark.place);
    let frame = match bookmark.frame {
        Some(frame) => {
            if frame.place < k {
                Some(frame)
            } else {
                last_before(items, k, offset)
            }
        }
        None => None,
    };
    Bookmark {
        place: k,
        offset,
        frame,
    }
}

/// From a bookmark, or from the first place where that is nearer, to place k.
pub(crate) fn moved(items: &GapList<Item>, bookmark: Bookmark, k: usize) -> Bookmark
    requires bookmark { IsBookmark bookmark items.now.items }
    requires place { k ≤ length items.now.items }
    ensures bookmark { IsBookmark result items.now.items }
    ensures place { result.place ≡ k }
{
    if bookmark.place <= k {
        forward(items, bookmark, k)
    } else if bookmark.place - k <= k {
        back(items, bookmark, k)
    } else {
        forward(items, Bookmark::first(), k)
    }
}

/// A bookmark that is not after place k: an edit there leaves it right.
pub(crate) fn no_later(items: &GapList<Item>, bookmark: Bookmark, k: usize) -> Bookmark
    requires bookmark { IsBookmark bookmark items.now.items }
    requires place { k ≤ length items.now.items }
    ensures bookmark { IsBookmark result items.now.items }
    ensures place { result.place ≤ k }
{
    if bookmark.place <= k {
        bookmark
    } else {
        moved(items, bookmark, k)
    }
}
