//! Taking an item out.

ghost use Rattle.std.specs.Prelude.{◌≡◌, ◌≤◌, length, None};
ghost use Rattle.pickle_doc.specs.DocUnit.{flat};
ghost use Rattle.pickle_doc.specs.Document.{items_of, document_bytes, IsDocument, size_limit};
ghost use Rattle.pickle_doc.specs.Edit.{with_units, deleted, delete_fault};
ghost use Rattle.pickle_doc.specs.Swap.{EditLeads, record_place};

use crate::document::Document;
use crate::edit::{EditFault, plain_fault};
use crate::record::{EditRecord, ItemChange};

/// Why item k cannot be taken out; none where it can. This takes no memory.
pub(crate) fn delete_fault(document: &Document, k: usize) -> Option<EditFault>
    ensures { result ≡ delete_fault document.now.contents k }
{
    match document.item(k) {
        Some(op) => plain_fault(op),
        None => Some(EditFault::NoSuchItem),
    }
}

/// What takes item k out.
pub(crate) fn deletion(document: &Document, k: usize) -> EditRecord
    requires good { delete_fault document.now.contents k ≡ None }
    requires document { IsDocument document.now.contents }
    requires small { length (document_bytes document.now.contents) ≤ size_limit }
    ensures place { record_place result ≡ k }
    ensures leads { EditLeads result document.now.contents (with_units document.now.contents (deleted k document.now.contents.units)) }
    ensures room { length (flat (deleted k document.now.contents.units)) ≤ length (items_of document.now.contents) }
{
    let size = document.item(k).unwrap().size() as u64;
    EditRecord {
        place: k,
        change: ItemChange::Take,
        frame: document.resized(k, size, 0),
    }
}
