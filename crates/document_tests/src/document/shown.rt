//! What a document shows, and edits that a table names.

ghost use Rattle.std.specs.Prelude.{◌≡◌, IfOk, OnErr};
ghost use Rattle.pickle_doc.specs.Swap.{LeadsWithin};

use pickle_doc::{DocFault, Document, Edit, EditFault, EditRecord, End, TailFault};
use pickle_io::{Failed, Page, ToWrite, write_all, write_decimal};
use pickle_ops::{FrontFault, Op, OpFault, Opcode, op_of};
use std::alloc::Global;
use test_equipment::{code_of, paper, taken};

/// Bytes, and what they read as: of each item the offset, the name, the identity, and the place of the FRAME whose member it is; then the
/// offset of the tail and how reading ended.
pub type Shown = (&'static [u8], &'static str);

/// An edit as a table has it: its opcode, and the bytes of the argument.
pub type Spelled = Edit<(Opcode, &'static [u8])>;

/// Bytes and what they read as, an edit that is accepted, and the same after it.
pub type Row = (
    &'static [u8],
    &'static str,
    Spelled,
    &'static [u8],
    &'static str,
);

/// Opcodes of edits.
pub const NONE: (Opcode, &[u8]) = (Opcode::None, b"");

pub const FRAME: (Opcode, &[u8]) = (Opcode::Frame, b"\0\0\0\0\0\0\0\0");

/// What was seen that should not be.
#[derive(Clone, Copy, Debug, PartialEq, Eq)]
pub enum Wrong {
    /// A test's own memory was refused.
    Memory,
    /// Other items, another tail or another end are shown.
    Items,
    /// An offset has another place.
    Offsets,
    /// The tail or the total is another.
    Tail,
    /// Other bytes are written.
    Bytes,
    /// The bytes read as another document, from this item on.
    Again(usize),
    /// The edit is refused.
    Refused(EditFault),
    /// The record has another place.
    Place,
}

impl From<Failed> for Wrong {
    fn from(_failed: Failed) -> Wrong {
        Wrong::Memory
    }
}

impl From<DocFault> for Wrong {
    fn from(_fault: DocFault) -> Wrong {
        Wrong::Memory
    }
}

impl From<EditFault> for Wrong {
    fn from(fault: EditFault) -> Wrong {
        Wrong::Refused(fault)
    }
}

/// What bytes read as, as many pickles or as one.
pub fn open(alloc: Global, many: bool, bytes: &[u8]) -> Result<Document, DocFault> {
    Document::read_in(alloc, many, false, bytes)
}

/// The bytes that a document writes.
pub fn written(alloc: Global, document: &Document) -> Result<Vec<u8>, Wrong> {
    let mut sink = ToWrite::new(Vec::new(alloc));
    document.write_bytes(&mut sink)?;
    Ok(sink.into_inner())
}

/// Whether item k of both documents is the same, identities apart.
fn is_same_item(left: &Document, right: &Document, k: usize) -> bool {
    if left.offset(k) != right.offset(k) || left.frame_of(k) != right.frame_of(k) {
        return false;
    }
    match (left.item(k), right.item(k)) {
        (Some(a), Some(b)) => a.opcode() == b.opcode() && a.arg() == b.arg(),
        (None, None) => true,
        _ => false,
    }
}

/// Whether both documents show the same, identities apart.
fn are_alike(left: &Document, right: &Document) -> Result<(), Wrong> {
    for k in 0..left.len() {
        if !is_same_item(left, right, k) {
            return Err(Wrong::Again(k));
        }
    }
    if !is_same_item(left, right, left.len()) || left.len() != right.len() {
        return Err(Wrong::Again(left.len()));
    }
    if left.tail() == right.tail() && left.end() == right.end() && left.total() == right.total() {
        Ok(())
    } else {
        Err(Wrong::Tail)
    }
}

/// Writes how reading ended.
fn write_end<S: Page>(end: End, page: &mut S) -> Result<(), Failed> {
    let End::Fault(fault, offset) = end else {
        return write_all(page, b"stopped");
    };
    write_all(page, code_of(fault).as_bytes())?;
    if let TailFault::Front(FrontFault::UnknownOpcode(byte)) = fault {
        write_all(page, b" of ")?;
        write_decimal(u64::from(byte), page)?;
    }
    write_all(page, b" at ")?;
    write_decimal(offset, page)
}

/// Writes item k, which is there, and signs after it.
fn write_item<S: Page>(document: &Document, k: usize, page: &mut S) -> Result<(), Failed> {
    write_decimal(document.offset(k).unwrap_or(u64::MAX), page)?;
    write_all(page, b" ")?;
    let name = document.item(k).map_or("", |op| op.opcode().name());
    write_all(page, name.as_bytes())?;
    write_all(page, b" #")?;
    write_decimal(u64::from(document.id(k).unwrap_or(u32::MAX)), page)?;
    if let Some(frame) = document.frame_of(k) {
        write_all(page, b" in ")?;
        write_decimal(frame as u64, page)?;
    }
    write_all(page, b"; ")
}

/// What a document shows, as a table has it.
fn text_of(alloc: Global, document: &Document) -> Result<Vec<u8>, Wrong> {
    let Ok(mut page) = paper(alloc) else {
        return Err(Wrong::Memory);
    };
    for k in 0..document.len() {
        write_item(document, k, &mut page)?;
    }
    let start = document.offset(document.len()).unwrap_or(u64::MAX);
    write_decimal(start, &mut page)?;
    write_all(&mut page, b" ")?;
    write_end(document.end(), &mut page)?;
    Ok(taken(page)?)
}

/// Whether bytes that read as one pickle go on after its STOP.
pub fn has_bytes_left(alloc: Global, bytes: &[u8]) -> Result<bool, DocFault> {
    let document = Document::read(alloc, bytes)?;
    Ok(document.end() == End::Stopped && !document.tail().is_empty())
}

/// Whether there is no item after the last one.
fn has_no_more(document: &Document) -> bool {
    let len = document.len();
    document.item(len).is_none()
        && document.id(len).is_none()
        && document.frame_of(len).is_none()
        && document.is_empty() == (len == 0)
}

/// Whether each offset up to that after the start of the tail has the place that begins there, and none where none does.
fn has_places(document: &Document, start: u64) -> bool {
    let mut next = 0_usize;
    for offset in 0..start.saturating_add(2) {
        let is_place = document.offset(next) == Some(offset);
        if document.place_at(offset) != is_place.then_some(next) {
            return false;
        }
        if is_place {
            next = next.saturating_add(1);
        }
    }
    next == document.len().saturating_add(1)
}

/// Whether a document shows this, and its bytes read as it.
pub fn shows(alloc: Global, document: &Document, want: Shown) -> Result<(), Wrong> {
    let (bytes, text) = want;
    if text_of(alloc, document)?.as_slice() != text.as_bytes() || !has_no_more(document) {
        return Err(Wrong::Items);
    }
    let start = document.offset(document.len()).unwrap_or(u64::MAX);
    if !has_places(document, start) {
        return Err(Wrong::Offsets);
    }
    let tail = bytes.get(start as usize..);
    if Some(document.tail()) != tail || document.total() != bytes.len() as u64 {
        return Err(Wrong::Tail);
    }
    if written(alloc, document)?.as_slice() != bytes {
        return Err(Wrong::Bytes);
    }
    let again = open(alloc, document.is_many(), bytes)?;
    are_alike(document, &again)
}

/// Goes to the other side of an edit, and looks at what shows there. The record leads back, and there is room for that.
pub fn swap_to(
    alloc: Global,
    document: &mut Document,
    record: &mut EditRecord,
    want: Shown,
) -> Result<(), Wrong>
    requires leads { LeadsWithin record.old document.old.contents document.old.room }
    ensures back { LeadsWithin record.new document.new.contents document.new.room }
{
    document.swap(record);
    shows(alloc, document, want)
}

/// The edit that a table has, with an opcode of its own.
fn edit_of(alloc: Global, edit: &Spelled) -> Result<Edit<Op>, OpFault> {
    Ok(match edit {
        Edit::Replace(k, (opcode, arg)) => Edit::Replace(*k, op_of(alloc, *opcode, arg)?),
        Edit::Insert(k, (opcode, arg)) => Edit::Insert(*k, op_of(alloc, *opcode, arg)?),
        Edit::Delete(k) => Edit::Delete(*k),
        Edit::Frame(k, count) => Edit::Frame(*k, *count),
        Edit::Unframe(k) => Edit::Unframe(*k),
    })
}

/// Makes an edit. The record leads back, and there is room for that.
pub fn make(alloc: Global, document: &mut Document, edit: &Spelled) -> Result<EditRecord, EditFault>
    ensures back { IfOk result (λ r. LeadsWithin r document.new.contents document.new.room) }
    ensures err { OnErr result (document.new ≡ document.old) }
{
    let Ok(edit) = edit_of(alloc, edit) else {
        return Err(EditFault::Memory);
    };
    let record = document.edit(edit)?;
    Ok(record)
}

/// Makes an edit by the call that has its name.
pub fn make_by_name(
    alloc: Global,
    document: &mut Document,
    edit: &Spelled,
) -> Result<EditRecord, EditFault> {
    let Ok(edit) = edit_of(alloc, edit) else {
        return Err(EditFault::Memory);
    };
    match edit {
        Edit::Replace(k, op) => document.replace(k, op),
        Edit::Insert(k, op) => document.insert(k, op),
        Edit::Delete(k) => document.delete(k),
        Edit::Frame(k, count) => document.frame(k, count),
        Edit::Unframe(k) => document.unframe(k),
    }
}
