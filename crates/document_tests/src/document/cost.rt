//! A document of a million items, edited at one place and at many.

ghost use Rattle.std.specs.Prelude.{◌≡◌, ◌+◌, ◌≤◌, length};

use crate::document::shown::{Wrong, written};
use pickle_doc::{Document, there_and_back};
use pickle_ops::{Opcode, op_of};
use std::alloc::Global;
use test_equipment::Chance;

/// How many items there are.
pub const ITEMS: usize = 1_000_000;

/// The bytes of a million items.
pub fn million(alloc: Global) -> Result<Vec<u8>, Wrong> {
    let mut bytes = Vec::new(alloc);
    if bytes.resize(ITEMS - 1, b'N').is_err() || bytes.push(b'.').is_err() {
        return Err(Wrong::Memory);
    }
    Ok(bytes)
}

/// Two edits at a place: an opcode is put in and taken out. Each may also be taken back and made again.
fn put_and_take(
    alloc: Global,
    document: &mut Document,
    place: usize,
    and_back: bool,
) -> Result<(), Wrong> {
    let Ok(op) = op_of(alloc, Opcode::None, b"") else {
        return Err(Wrong::Memory);
    };
    let mut record = document.insert(place, op)?;
    if and_back {
        there_and_back(document, &mut record);
    }
    let mut record = document.delete(place)?;
    if and_back {
        there_and_back(document, &mut record);
    }
    Ok(())
}

/// Opens a million items, makes this many edits, at one place or at random places, and writes the bytes, which are those
/// opened.
pub fn edit_many(
    alloc: Global,
    edits: usize,
    is_random: bool,
    and_back: bool,
) -> Result<(), Wrong> {
    let bytes = million(alloc)?;
    let mut document = Document::read(alloc, &bytes)?;
    let mut chance = Chance::new(7);
    for _ in 0..edits / 2 {
        let place = if is_random {
            chance.below(ITEMS)
        } else {
            ITEMS / 2
        };
        put_and_take(alloc, &mut document, place, and_back)?;
    }
    if written(alloc, &document)?.as_slice() == bytes.as_slice() {
        Ok(())
    } else {
        Err(Wrong::Bytes)
    }
}
