//! Replacing an item by an opcode.

ghost use Rattle.std.specs.Prelude.{◌≡◌, ◌≤◌, length, None};
ghost use Rattle.pickle_doc.specs.DocUnit.{flat};
ghost use Rattle.pickle_doc.specs.Document.{items_of, document_bytes, IsDocument, size_limit};
ghost use Rattle.pickle_doc.specs.Edit.{with_units, replaced, replace_fault};
ghost use Rattle.pickle_doc.specs.Swap.{EditLeads, record_place};

use crate::document::Document;
use crate::edit::{EditFault, plain_fault};
use crate::item::Item;
use crate::next::{is_frame, is_stop};
use crate::record::{EditRecord, ItemChange};
use pickle_ops::Op;

/// Why an opcode cannot replace item k; none where it can. This takes no memory.
pub(crate) fn replace_fault(document: &Document, k: usize, op: &Op) -> Option<EditFault>
    ensures { result ≡ replace_fault document.now.contents k op.now }
{
    let Some(old) = document.item(k) else {
        return Some(EditFault::NoSuchItem);
    };
    if is_stop(op.opcode()) {
        return Some(EditFault::StopItem);
    }
    if let Some(fault) = plain_fault(old) {
        return Some(fault);
    }
    if is_frame(op.opcode()) {
        return Some(EditFault::FrameItem);
    }
    document.size_fault(old.size() as u64, op.arg().len() as u64 + 1)
}

/// What replaces item k by an opcode.
pub(crate) fn replacement(document: &Document, k: usize, op: Op) -> EditRecord
    requires good { replace_fault document.now.contents k op ≡ None }
    requires document { IsDocument document.now.contents }
    requires small { length (document_bytes document.now.contents) ≤ size_limit }
    ensures place { record_place result ≡ k }
    ensures leads { EditLeads result document.now.contents (with_units document.now.contents (replaced k op document.now.contents.units)) }
    ensures room { length (flat (replaced k op document.now.contents.units)) ≡ length (items_of document.now.contents) }
{
    let id = document.id(k).unwrap();
    let old = document.item(k).unwrap().size() as u64;
    let size = op.arg().len() as u64 + 1;
    let frame = document.resized(k, old, size);
    EditRecord {
        place: k,
        change: ItemChange::Set(Item { id, op }),
        frame,
    }
}
