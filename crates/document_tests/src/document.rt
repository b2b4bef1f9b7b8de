//! What documents show before edits and after them.

mod cost;
mod memory;
mod rows;
mod shown;
mod worked;

use crate::document::cost::edit_many;
use crate::document::memory::edit_with_little;
use crate::document::rows::{
    BESIDE_FRAMES, EMPTY_FRAMES, FRAMES, FRAMES_THAT_LIE, IN_FRAMES, MANY, MANY_EDITS, NO_FRAMES,
};
use crate::document::shown::{
    Row, Spelled, Wrong, has_bytes_left, make, make_by_name, open, shows, swap_to,
};
use pickle_doc::{Document, Edit};
use pickle_ops::Opcode;
use std::alloc::Global;
use std::test::Fail;
use test_equipment::{LARGE, large};

/// Makes the edit of a row, takes it back, makes it again and takes it back again.
fn try_row(alloc: Global, many: bool, row: &Row) -> Result<(), Wrong> {
    let (bytes, text, edit, bytes_behind, text_behind) = row;
    let (before, after) = ((*bytes, *text), (*bytes_behind, *text_behind));
    let mut document = open(alloc, many, bytes)?;
    shows(alloc, &document, before)?;
    let mut record = make(alloc, &mut document, edit)?;
    if record.place() != edit.place() {
        return Err(Wrong::Place);
    }
    shows(alloc, &document, after)?;
    swap_to(alloc, &mut document, &mut record, before)?;
    swap_to(alloc, &mut document, &mut record, after)?;
    swap_to(alloc, &mut document, &mut record, before)
}

/// Tries a row of one pickle, and of many where that is the same: where no byte follows STOP.
fn try_in_both(alloc: Global, row: &Row) -> Result<(), Wrong> {
    try_row(alloc, false, row)?;
    if has_bytes_left(alloc, row.0)? {
        return Ok(());
    }
    try_row(alloc, true, row)
}

/// The first row that does not hold, by its bytes, and what is wrong there.
fn first_wrong<'a>(alloc: Global, rows: &'a [Row]) -> Option<(&'a [u8], Wrong)> {
    for row in rows {
        if let Err(wrong) = try_in_both(alloc, row) {
            return Some((row.0, wrong));
        }
    }
    None
}

/// The first row of many pickles that does not hold, by its bytes, and what is wrong there.
fn first_wrong_of_many<'a>(alloc: Global, rows: &'a [Row]) -> Option<(&'a [u8], Wrong)> {
    for row in rows {
        if let Err(wrong) = try_row(alloc, true, row) {
            return Some((row.0, wrong));
        }
    }
    None
}

#[test]
fn edits_in_frames(rt: HostRuntime) {
    assert_eq!(rt; first_wrong(rt.alloc(), &IN_FRAMES), None);
}

#[test]
fn edits_beside_frames(rt: HostRuntime) {
    assert_eq!(rt; first_wrong(rt.alloc(), &BESIDE_FRAMES), None);
}

#[test]
fn edits_beside_frames_that_lie(rt: HostRuntime) {
    assert_eq!(rt; first_wrong(rt.alloc(), &FRAMES_THAT_LIE), None);
}

#[test]
fn frames_come_and_go(rt: HostRuntime) {
    assert_eq!(rt; first_wrong(rt.alloc(), &FRAMES), None);
}

#[test]
fn empty_frames(rt: HostRuntime) {
    assert_eq!(rt; first_wrong(rt.alloc(), &EMPTY_FRAMES), None);
}

#[test]
fn edits_without_frames(rt: HostRuntime) {
    assert_eq!(rt; first_wrong(rt.alloc(), &NO_FRAMES), None);
}

/// Makes the edit of a row by the call that has its name.
fn try_by_name(alloc: Global, row: &Row) -> Result<(), Wrong> {
    let (bytes, _, edit, bytes_behind, text_behind) = row;
    let mut document = open(alloc, false, bytes)?;
    let record = make_by_name(alloc, &mut document, edit)?;
    if record.place() != edit.place() {
        return Err(Wrong::Place);
    }
    shows(alloc, &document, (*bytes_behind, *text_behind))
}

/// The first row that goes wrong when the call with the name of its edit makes it, by its bytes, and what is wrong there.
fn first_wrong_by_name<'a>(alloc: Global, rows: &'a [Row]) -> Option<(&'a [u8], Wrong)> {
    for row in rows {
        if let Err(wrong) = try_by_name(alloc, row) {
            return Some((row.0, wrong));
        }
    }
    None
}

#[test]
fn edits_by_their_names(rt: HostRuntime) {
    assert_eq!(rt; first_wrong_by_name(rt.alloc(), &IN_FRAMES), None);
    assert_eq!(rt; first_wrong_by_name(rt.alloc(), &BESIDE_FRAMES), None);
    assert_eq!(rt; first_wrong_by_name(rt.alloc(), &FRAMES), None);
}

#[test]
fn edits_of_many_pickles(rt: HostRuntime) {
    assert_eq!(rt; first_wrong_of_many(rt.alloc(), &MANY_EDITS), None);
}

#[test]
fn many_pickles(rt: HostRuntime) -> Result<(), Fail> {
    for (k, want) in MANY.iter().enumerate() {
        let document = Document::read_many(rt.alloc(), want.0)?;
        assert_eq!(rt; shows(rt.alloc(), &document, *want), Ok(()), "row {k}");
    }
    Ok(())
}

/// The identities of the first two items after an edit, which is taken back.
fn ids_behind(
    alloc: Global,
    document: &mut Document,
    edit: &Spelled,
) -> Result<[Option<u32>; 2], Wrong> {
    let mut record = make(alloc, document, edit)?;
    let ids = [document.id(0), document.id(1)];
    document.swap(&mut record);
    Ok(ids)
}

/// The identity of an item that was put in and taken out again is not given to another.
#[test]
fn identities_are_given_once(rt: HostRuntime) -> Result<(), Fail> {
    let mut document = Document::read(rt.alloc(), b".")?;
    let edits: [(Spelled, u32); 3] = [
        (Edit::Insert(0, (Opcode::None, b"")), 1),
        (Edit::Frame(0, 1), 2),
        (Edit::Insert(0, (Opcode::None, b"")), 3),
    ];
    for (edit, id) in &edits {
        let found = ids_behind(rt.alloc(), &mut document, edit);
        assert_eq!(rt; found, Ok([Some(*id), Some(0)]));
        assert_eq!(rt; [document.id(0), document.id(1)], [Some(0), None]);
    }
    Ok(())
}

/// How many bytes there are after an edit, which is taken back.
fn total_behind(alloc: Global, document: &mut Document, edit: &Spelled) -> Result<u64, Wrong> {
    let mut record = make(alloc, document, edit)?;
    let total = document.total();
    document.swap(&mut record);
    Ok(total)
}

/// Edits of a large document make it a little larger, or small.
#[test]
fn large_input(rt: HostRuntime) -> Result<(), Fail> {
    let bytes = large(rt.alloc())?;
    let mut document = Document::read(rt.alloc(), &bytes)?;
    let edits: [(Spelled, Result<u64, Wrong>); 3] = [
        (Edit::Insert(0, (Opcode::None, b"")), Ok(LARGE as u64 + 1)),
        (Edit::Frame(0, 2), Ok(LARGE as u64 + 9)),
        (Edit::Replace(0, (Opcode::None, b"")), Ok(2)),
    ];
    for (edit, total) in &edits {
        assert_eq!(rt; total_behind(rt.alloc(), &mut document, edit), *total);
        assert_eq!(rt; document.len(), 2);
        assert_eq!(rt; document.total(), LARGE as u64);
    }
    Ok(())
}

/// Run with each request for memory refused in turn.
#[test]
fn refused_memory(rt: HostRuntime) {
    let bytes: &[u8] = b"\x95\x04\0\0\0\0\0\0\0N0N0N.";
    assert_eq!(rt; edit_with_little(rt.alloc(), false, bytes, 1), Ok(()));
}

/// The same of two pickles, with the edits behind the first STOP.
#[test]
fn refused_memory_of_many(rt: HostRuntime) {
    let bytes: &[u8] = b"N.\x95\x04\0\0\0\0\0\0\0N0N0N.";
    assert_eq!(rt; edit_with_little(rt.alloc(), true, bytes, 3), Ok(()));
}

/// A million items are opened and written, and no more: what the four tests below have in common.
#[test]
fn a_million_items(rt: HostRuntime) {
    assert_eq!(rt; edit_many(rt.alloc(), 0, false, false), Ok(()));
}

#[test]
fn edits_at_one_place(rt: HostRuntime) {
    assert_eq!(rt; edit_many(rt.alloc(), 10_000, false, false), Ok(()));
}

#[test]
fn edits_and_swaps_at_one_place(rt: HostRuntime) {
    assert_eq!(rt; edit_many(rt.alloc(), 10_000, false, true), Ok(()));
}

#[test]
fn edits_at_random_places(rt: HostRuntime) {
    assert_eq!(rt; edit_many(rt.alloc(), 1000, true, false), Ok(()));
}

#[test]
fn edits_and_swaps_at_random_places(rt: HostRuntime) {
    assert_eq!(rt; edit_many(rt.alloc(), 1000, true, true), Ok(()));
}
