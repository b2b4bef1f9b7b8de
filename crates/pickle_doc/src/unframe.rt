//! Taking a frame away.

ghost use Rattle.std.specs.Prelude.{◌≡◌, ◌≤◌, false, length, nat_lt, Some, None, IsTrue};
ghost use Rattle.pickle_doc.specs.DocUnit.{is_frame, flat};
ghost use Rattle.pickle_doc.specs.Document.{items_of, document_bytes, IsDocument, size_limit};
ghost use Rattle.pickle_doc.specs.Edit.{with_units, unframed, extra_at, unframe_fault};
ghost use Rattle.pickle_doc.specs.Place.{item_at};
ghost use Rattle.pickle_doc.specs.Swap.{EditLeads, record_place};

use crate::document::Document;
use crate::edit::EditFault;
use crate::next::{frame_number, is_frame};
use crate::record::{EditRecord, ItemChange};
use pickle_ops::Op;

/// Whether the frame whose FRAME is item k has more bytes than there are after it before the tail.
fn is_open(document: &Document, k: usize, op: &Op) -> bool
    requires item { item_at document.now.contents k ≡ Some op.now }
    requires frame { IsTrue (is_frame op.now.opcode) }
    requires framed { document.now.contents.loose ≡ false }
    ensures { result ≡ nat_lt 0 (extra_at k document.now.contents.units) }
{
    let start = document.total() - document.tail().len() as u64;
    start - document.offset_of(k + 1) < frame_number(op)
}

/// Why the frame of item k cannot be taken away; none where it can. This takes no memory.
pub(crate) fn unframe_fault(document: &Document, k: usize) -> Option<EditFault>
    ensures { result ≡ unframe_fault document.now.contents k }
{
    let Some(op) = document.item(k) else {
        return Some(EditFault::NoSuchItem);
    };
    if document.is_loose() {
        return Some(EditFault::FrameItem);
    }
    if !is_frame(op.opcode()) {
        return Some(EditFault::FrameItem);
    }
    if is_open(document, k, op) {
        return Some(EditFault::OpenFrame);
    }
    None
}

/// What takes the frame away whose FRAME is item k.
pub(crate) fn unframing(document: &Document, k: usize) -> EditRecord
    requires good { unframe_fault document.now.contents k ≡ None }
    requires document { IsDocument document.now.contents }
    requires small { length (document_bytes document.now.contents) ≤ size_limit }
    ensures place { record_place result ≡ k }
    ensures leads { EditLeads result document.now.contents (with_units document.now.contents (unframed k document.now.contents.units)) }
    ensures room { length (flat (unframed k document.now.contents.units)) ≤ length (items_of document.now.contents) }
{
    EditRecord {
        place: k,
        change: ItemChange::Take,
        frame: None,
    }
}
