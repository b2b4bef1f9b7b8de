//! Where an item begins, found from the nearest place whose offset is known.

ghost use Rattle.std.specs.Prelude.{◌≡◌, ◌+◌, ◌≤◌, length};
ghost use Rattle.pickle_doc.specs.Document.{document_bytes, size_limit};
ghost use Rattle.pickle_doc.specs.Place.{offset_of};

use pickle_doc::Document;
use pickle_session::{Past, Session};

/// How many bytes the item at a place has; none where there is no item.
#[tactic(auto, using(crate::proofs::Offsets::size_steps))]
fn size_at(document: &Document, place: usize) -> u64
    ensures { offset_of document.now.contents place + result ≡ offset_of document.now.contents (place + 1) }
{
    match document.item(place) {
        Some(op) => op.size() as u64,
        None => 0,
    }
}

/// Where the place after one begins, which begins there.
#[tactic(auto, using(crate::proofs::Offsets::offset_past))]
pub(crate) fn next_offset<A: Past>(session: &Session<A>, place: usize, offset: u64) -> u64
    requires { offset ≡ offset_of session.now.session.document place }
    ensures { result ≡ offset_of session.now.session.document (place + 1) }
{
    let document = session.document();
    if place < document.len() {
        offset + size_at(document, place)
    } else {
        offset
    }
}

/// How many bytes the items from one place on and before another have.
fn size_between(document: &Document, from: usize, to: usize) -> u64
    requires small { length (document_bytes document.now.contents) ≤ size_limit }
    requires order { from ≤ to }
    ensures { offset_of document.now.contents from + result ≡ offset_of document.now.contents to }
{
    let mut size: u64 = 0;
    for place in from..to {
        size += size_at(document, place);
    }
    size
}

/// Where the item at a place begins, or after the last the tail. This goes over the items between it and the cursor, or from the first
/// place where that is nearer.
#[tactic(auto, using(crate::proofs::Offsets::offset_cut))]
pub(crate) fn offset_at<A: Past>(session: &Session<A>, place: usize) -> u64
    ensures { result ≡ offset_of session.now.session.document place }
{
    let document = session.document();
    let cursor = session.cursor();
    let place = place.min(document.len());
    if cursor <= place {
        session.offset() + size_between(document, cursor, place)
    } else if cursor - place <= place {
        session.offset() - size_between(document, place, cursor)
    } else {
        size_between(document, 0, place)
    }
}
