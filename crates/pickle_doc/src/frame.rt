//! Putting a frame round items.

ghost use Rattle.std.specs.Prelude.{◌≡◌, ◌+◌, ◌^◌, ◌<◌, ◌≤◌, length, None};
ghost use Rattle.pickle_doc.specs.DocUnit.{flat};
ghost use Rattle.pickle_doc.specs.Document.{items_of, document_bytes, IsDocument, size_limit};
ghost use Rattle.pickle_doc.specs.Edit.{raised_next, framed, frame_fault, with_framed};
ghost use Rattle.pickle_doc.specs.Swap.{EditLeads, record_place};

use crate::document::Document;
use crate::edit::EditFault;
use crate::item::Item;
use crate::record::{EditRecord, ItemChange};
use pickle_ops::Op;

/// Why no frame can be put round this many items from item k on; none where one can, if there is memory. This takes none.
pub(crate) fn frame_fault(document: &Document, k: usize, count: usize) -> Option<EditFault>
    ensures { result ≡ frame_fault document.now.contents k count }
{
    let len = document.len();
    if k > len {
        return Some(EditFault::NoSuchItem);
    }
    if count > len - k {
        return Some(EditFault::NoSuchItem);
    }
    if document.is_loose() {
        return Some(EditFault::FrameItem);
    }
    if document.has_frame(k, count) {
        return Some(EditFault::FrameItem);
    }
    if document.is_after_stop(k) {
        return Some(EditFault::AfterStop);
    }
    if document.joined_frame(k).is_some() {
        return Some(EditFault::AlreadyFramed);
    }
    // A FRAME has nine bytes: its opcode, and eight of its number.
    document.addition_fault(9)
}

/// What puts a frame round this many items from item k on.
pub(crate) fn framing(document: &Document, k: usize, count: usize) -> EditRecord
    requires good { frame_fault document.now.contents k count ≡ None }
    requires document { IsDocument document.now.contents }
    requires small { length (document_bytes document.now.contents) ≤ size_limit }
    ensures few { document.now.contents.next < 2 ^ 32 }
    ensures place { record_place result ≡ k }
    ensures leads { EditLeads result (raised_next document.now.contents) (with_framed k count document.now.contents) }
    ensures room { length (flat (framed k count document.now.contents.next document.now.contents.units)) ≡ length (items_of document.now.contents) + 1 }
{
    let number = document.offset_of(k + count) - document.offset_of(k);
    EditRecord {
        place: k,
        change: ItemChange::Put(Item {
            id: document.next_id(),
            op: Op::frame(number),
        }),
        frame: None,
    }
}
