//! Edits where a request for memory may be refused once.

use crate::document::shown::{Spelled, Wrong, make, open};
use pickle_doc::{DocFault, Document, Edit, EditFault};
use pickle_io::ToWrite;
use pickle_ops::Opcode;
use std::alloc::Global;
use std::io::Cursor;

/// What a small document writes, with the count of its items. This takes no memory.
fn held(document: &Document) -> Option<([u8; 1024], usize)> {
    let mut sink = ToWrite::new(Cursor::new([0u8; 1024]));
    match document.write_bytes(&mut sink) {
        Ok(()) => Some((sink.into_inner().into_inner(), document.len())),
        Err(_) => None,
    }
}

/// Makes an edit. Where memory runs out the document is as before, and asked again it succeeds.
fn insist(alloc: Global, document: &mut Document, edit: &Spelled) -> Result<(), Wrong> {
    let before = held(document);
    match make(alloc, document, edit) {
        Ok(_) => Ok(()),
        Err(EditFault::Memory) => {
            if held(document) != before || before.is_none() {
                return Err(Wrong::Bytes);
            }
            let _record = make(alloc, document, edit)?;
            Ok(())
        }
        Err(fault) => Err(Wrong::Refused(fault)),
    }
}

/// Reads bytes. Where memory runs out, it succeeds when it is asked again.
fn insist_on_reading(alloc: Global, many: bool, bytes: &[u8]) -> Result<Document, Wrong> {
    match open(alloc, many, bytes) {
        Err(DocFault::Memory) => Ok(open(alloc, many, bytes)?),
        other => Ok(other?),
    }
}

/// Puts an opcode in and takes it out again, so that there is room for one item.
fn make_room(alloc: Global, document: &mut Document) -> Result<(), Wrong> {
    let mut record = make(alloc, document, &Edit::Insert(0, (Opcode::None, b"")))?;
    document.swap(&mut record);
    Ok(())
}

/// Puts in an opcode before item k and an empty frame, of which the frame is taken off again. An edit that takes no memory
/// never runs out.
fn insert_and_frame(alloc: Global, document: &mut Document, k: usize) -> Result<(), Wrong> {
    insist(alloc, document, &Edit::Insert(k, (Opcode::None, b"")))?;
    insist(alloc, document, &Edit::Frame(0, 0))?;
    let _record = document.unframe(0)?;
    Ok(())
}

/// Replaces item k by an opcode with a long argument, and takes it out.
fn replace_and_delete(alloc: Global, document: &mut Document, k: usize) -> Result<(), Wrong> {
    let long: Spelled = Edit::Replace(k, (Opcode::ShortBinBytes, b"\x14abcdefghijklmnopqrst"));
    insist(alloc, document, &long)?;
    let _record = document.delete(k)?;
    Ok(())
}

/// Reads, and makes every edit, at item k, so often that the list of items grows more than once.
pub fn edit_with_little(alloc: Global, many: bool, bytes: &[u8], k: usize) -> Result<(), Wrong> {
    let mut document = insist_on_reading(alloc, many, bytes)?;
    make_room(alloc, &mut document)?;
    for _ in 0..40 {
        insert_and_frame(alloc, &mut document, k)?;
    }
    for _ in 0..20 {
        replace_and_delete(alloc, &mut document, k)?;
    }
    Ok(())
}
