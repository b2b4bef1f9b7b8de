//! Edits of a document and of a plain list side by side, at places that look random and are always the same.

ghost use Rattle.std.specs.Prelude.{◌≡◌, ℕ, ◌+◌, ◌≤◌, length, IfOk, OnOk, OnErr};
ghost use Rattle.pickle_doc.specs.Document.{Contents, items_of};
ghost use Rattle.pickle_doc.specs.Swap.{EditLeads, risen};

use crate::plain::{Kind, Part, Plain};
use crate::{Stop, written};
use pickle_doc::{Document, Edit, EditFault, EditRecord, records_lead_on, there_and_back};
use pickle_ops::{Op, Opcode, op_of};
use std::alloc::Global;
use test_equipment::Chance;

/// Opcodes to put in: the opcode, and the bytes that spell it with its argument.
const OPCODES: [(Opcode, &[u8]); 6] = [
    (Opcode::None, b"N"),
    (Opcode::BinInt1, b"K\x07"),
    (Opcode::ShortBinBytes, b"C\x03abc"),
    (Opcode::ShortBinUnicode, b"\x8c\x18abcdefghijklmnopqrstuvwx"),
    (Opcode::Stop, b"."),
    (Opcode::Frame, b"\x95\x00\x00\x00\x00\x00\x00\x00\x00"),
];

/// The opcode of a number, and how it is spelled.
fn opcode_of(number: usize) -> (Opcode, &'static [u8]) {
    OPCODES.get(number).copied().unwrap_or((Opcode::None, b"N"))
}

/// The opcode of a number, with its argument.
fn op_at(alloc: Global, number: usize) -> Result<Op, EditFault> {
    let (opcode, bytes) = opcode_of(number);
    match op_of(alloc, opcode, bytes.get(1..).unwrap_or_default()) {
        Ok(op) => Ok(op),
        Err(_) => Err(EditFault::Memory),
    }
}

/// An edit by chance, of a list of this many items; an opcode is there by its number in `OPCODES`.
fn roll(chance: &mut Chance, len: usize) -> Edit<usize> {
    let place = chance.below(len.saturating_add(2));
    let number = chance.below(OPCODES.len());
    match chance.below(8) {
        0 | 1 => Edit::Replace(place, number),
        2 | 3 => Edit::Insert(place, number),
        4 | 5 => Edit::Delete(place),
        6 => Edit::Frame(place, number),
        _ => Edit::Unframe(place),
    }
}

/// The edit with the opcode of the number.
fn edit_of(alloc: Global, edit: &Edit<usize>) -> Result<Edit<Op>, EditFault> {
    Ok(match edit {
        Edit::Replace(k, number) => Edit::Replace(*k, op_at(alloc, *number)?),
        Edit::Insert(k, number) => Edit::Insert(*k, op_at(alloc, *number)?),
        Edit::Delete(k) => Edit::Delete(*k),
        Edit::Frame(k, count) => Edit::Frame(*k, *count),
        Edit::Unframe(k) => Edit::Unframe(*k),
    })
}

/// Makes an edit of a document. The record leads back.
fn make(alloc: Global, document: &mut Document, edit: &Edit<usize>) -> Result<EditRecord, EditFault>
    ensures back { IfOk result (λ r. (n : ℕ) × EditLeads r document.new.contents (risen n document.old.contents)) }
    ensures err { OnErr result (document.new ≡ document.old) }
    ensures total { length (items_of document.old.contents) + document.old.room ≤ length (items_of document.new.contents) + document.new.room }
{
    let edit = edit_of(alloc, edit)?;
    let record = document.edit(edit)?;
    Ok(record)
}

/// Makes an edit of a plain list.
fn make_plain(plain: &mut Plain<'_>, edit: &Edit<usize>) -> Result<(), Stop> {
    match edit {
        Edit::Replace(k, number) => plain.replace(*k, opcode_of(*number).1),
        Edit::Insert(k, number) => return plain.insert(*k, opcode_of(*number).1),
        Edit::Delete(k) => plain.delete(*k),
        Edit::Frame(k, count) => return plain.frame(*k, *count),
        Edit::Unframe(k) => plain.unframe(*k),
    }
    Ok(())
}

/// Why a plain list refuses an edit.
fn plain_fault(plain: &Plain<'_>, edit: &Edit<usize>) -> Option<EditFault> {
    match edit {
        Edit::Replace(k, number) => plain.replace_fault(*k, opcode_of(*number).1),
        Edit::Insert(k, number) => plain.insert_fault(*k, opcode_of(*number).1),
        Edit::Delete(k) => plain.delete_fault(*k),
        Edit::Frame(k, count) => plain.frame_fault(*k, *count),
        Edit::Unframe(k) => plain.unframe_fault(*k),
    }
}

/// An edit by chance that is accepted. What both say of each edit that is rolled has to be the same.
fn next_edit(
    alloc: Global,
    document: &Document,
    plain: &Plain<'_>,
    chance: &mut Chance,
) -> Result<Edit<usize>, Stop> {
    for _ in 0..16 {
        let edit = roll(chance, document.len());
        let fault = document.edit_fault(&edit_of(alloc, &edit)?);
        if fault != plain_fault(plain, &edit) {
            return Err(Stop::Edits);
        }
        if fault.is_none() {
            return Ok(edit);
        }
    }
    Ok(Edit::Insert(0, 0))
}

/// Whether a document writes these bytes.
fn compare(alloc: Global, document: &Document, bytes: &[u8]) -> Result<(), Stop> {
    if written(alloc, document)?.as_slice() == bytes {
        Ok(())
    } else {
        Err(Stop::Edits)
    }
}

/// Makes this many edits of both, and compares their bytes after each; then takes them back, the last one first, and compares
/// again.
fn go_on(
    alloc: Global,
    document: &mut Document,
    plain: &mut Plain<'_>,
    chance: &mut Chance,
    more: usize,
) -> Result<(), Stop>
    ensures contents { OnOk result ((n : ℕ) × (document.new.contents ≡ risen n document.old.contents)) }
    ensures total { OnOk result (length (items_of document.old.contents) + document.old.room ≤ length (items_of document.new.contents) + document.new.room) }
{
    let before = plain.bytes(alloc)?;
    compare(alloc, document, &before)?;
    if more == 0 {
        return Ok(());
    }
    let edit = next_edit(alloc, document, plain, chance)?;
    make_plain(plain, &edit)?;
    let mut record = make(alloc, document, &edit)?;
    go_on(alloc, document, plain, chance, more - 1)?;
    records_lead_on();
    there_and_back(document, &mut record);
    document.swap(&mut record);
    compare(alloc, document, &before)?;
    Ok(())
}

/// The number in the eight bytes after a FRAME's code.
fn number_of(bytes: &[u8]) -> u64 {
    let mut number: u64 = 0;
    for byte in bytes.iter().skip(1).rev() {
        number = number.wrapping_mul(256).wrapping_add(u64::from(*byte));
    }
    number
}

/// The plain list of a document that was read from these bytes.
fn plain_of<'a>(alloc: Global, document: &Document, bytes: &'a [u8]) -> Result<Plain<'a>, Stop> {
    let mut parts = Vec::new(alloc);
    let mut rest = bytes;
    let mut left: u64 = 0;
    for k in 0..document.len() {
        let size = document.item(k).map_or(0, |op| op.size());
        let spelled = rest.get(..size).unwrap_or_default();
        rest = rest.get(size..).unwrap_or_default();
        if document.item(k).map(|op| op.opcode()) == Some(Opcode::Frame) {
            left = number_of(spelled);
            parts.push(Part {
                kind: Kind::Frame,
                bytes: &[],
            })?;
        } else {
            let kind = if left > 0 { Kind::Member } else { Kind::Loose };
            left = left.saturating_sub(size as u64);
            parts.push(Part {
                kind,
                bytes: spelled,
            })?;
        }
    }
    Ok(Plain {
        parts,
        extra: left,
        tail: rest,
    })
}

/// Edits a document that was read from these bytes, and takes the edits back.
pub fn edit_by_chance(
    alloc: Global,
    document: &mut Document,
    bytes: &[u8],
    chance: &mut Chance,
    edits: usize,
) -> Result<(), Stop> {
    let mut plain = plain_of(alloc, document, bytes)?;
    go_on(alloc, document, &mut plain, chance, edits)?;
    compare(alloc, document, bytes)
}
