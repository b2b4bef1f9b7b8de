//! Putting an opcode in.

ghost use Rattle.std.specs.Prelude.{◌≡◌, ◌+◌, ◌^◌, ◌<◌, ◌≤◌, length, None};
ghost use Rattle.pickle_doc.specs.DocUnit.{flat};
ghost use Rattle.pickle_doc.specs.Document.{items_of, document_bytes, IsDocument, size_limit};
ghost use Rattle.pickle_doc.specs.Edit.{raised_next, new_item, inserted, insert_fault, with_inserted};
ghost use Rattle.pickle_doc.specs.Swap.{EditLeads, record_place};

use crate::document::Document;
use crate::edit::EditFault;
use crate::item::Item;
use crate::next::{is_frame, is_stop};
use crate::record::{EditRecord, ItemChange};
use pickle_ops::Op;

/// Why an opcode cannot be put before item k, or last; none where it can, if there is memory. This takes none.
pub(crate) fn insert_fault(document: &Document, k: usize, op: &Op) -> Option<EditFault>
    ensures { result ≡ insert_fault document.now.contents k op.now }
{
    if k > document.len() {
        return Some(EditFault::NoSuchItem);
    }
    if is_stop(op.opcode()) {
        return Some(EditFault::StopItem);
    }
    if is_frame(op.opcode()) {
        return Some(EditFault::FrameItem);
    }
    if document.is_after_stop(k) {
        return Some(EditFault::AfterStop);
    }
    document.addition_fault(op.size() as u64)
}

/// What puts an opcode before item k.
pub(crate) fn insertion(document: &Document, k: usize, op: Op) -> EditRecord
    requires good { insert_fault document.now.contents k op ≡ None }
    requires document { IsDocument document.now.contents }
    requires small { length (document_bytes document.now.contents) ≤ size_limit }
    ensures few { document.now.contents.next < 2 ^ 32 }
    ensures place { record_place result ≡ k }
    ensures leads { EditLeads result (raised_next document.now.contents) (with_inserted k op document.now.contents) }
    ensures room { length (flat (inserted k (new_item document.now.contents op) document.now.contents.units)) ≡ length (items_of document.now.contents) + 1 }
{
    let size = op.arg().len() as u64 + 1;
    let frame = document.resized(k, 0, size);
    EditRecord {
        place: k,
        change: ItemChange::Put(Item {
            id: document.next_id(),
            op,
        }),
        frame,
    }
}
