//! What a machine shows after operations, on the way forwards and on the way back, and where a request for memory is refused. Which states
//! these are is judged from outside, by the rows of equipment/conversations.txt.

mod path;
pub mod rows;

use crate::machine::path::{Fault, Noted, Pickles, Way, note_down, run, walk};
use crate::machine::rows::{ALL_SHAPES, FREE_FROM, OPCODES, SEVERAL, UNSHOWN};
use pickle_machine::Machine;
use std::alloc::Global;
use std::test::Fail;
use test_equipment::shows_state;

/// Goes a whole way forwards and back, twice, and compares what is shown at each place with what is written down.
fn walk_twice(alloc: Global, noted: &Noted) -> Result<(), Fault> {
    let mut machine = noted.pickles.machine(alloc);
    for was_there in [false, true] {
        let way = Way {
            pickles: noted.pickles,
            ops: &noted.ops,
            notes: &noted.notes,
            was_there,
        };
        walk(&mut machine, alloc, &way, 0)?;
    }
    let moves = (noted.ops.len() as u64).saturating_mul(4);
    if machine.moves() == moves {
        Ok(())
    } else {
        Err(Fault::Moves(noted.ops.len()))
    }
}

/// What is shown on the way of these bytes, where a request for memory may be refused once.
fn insist_on_notes(alloc: Global, pickles: Pickles, bytes: &[u8]) -> Result<Noted, Fault> {
    match note_down(alloc, pickles, bytes) {
        Err(Fault::Memory) => note_down(alloc, pickles, bytes),
        other => other,
    }
}

/// Compares the states that are given with what is shown on the way.
fn has_states(noted: &Noted, states: &[(usize, &str)]) -> Result<(), Fault> {
    for (place, text) in states {
        if !is_note(noted, *place, [text.as_bytes(), b"", b""]) {
            return Err(Fault::Differs(*place));
        }
    }
    Ok(())
}

/// How a way is gone.
#[derive(Clone, Copy)]
enum Trip {
    /// Forwards and back, twice.
    Twice,
    /// Forwards, or also back. The way back takes no memory, so both ask for as much.
    Once { and_back: bool },
}

/// Goes the way of bytes, where a request for memory may be refused once. The code of the last opcode.
fn try_row(alloc: Global, pickles: Pickles, bytes: &[u8], trip: Trip) -> Result<u8, Fault> {
    let noted = insist_on_notes(alloc, pickles, bytes)?;
    match trip {
        Trip::Twice => walk_twice(alloc, &noted)?,
        Trip::Once { and_back } => go(alloc, &noted, and_back)?,
    }
    Ok(noted.ops.last().map_or(0, |op| op.opcode().code()))
}

/// Goes the ways of the rows that each end in an opcode of their own; how many opcodes end one, or the first row that differs.
fn try_opcodes(alloc: Global, trip: Trip) -> Result<usize, (usize, Fault)> {
    let mut met = [false; 256];
    for (k, bytes) in OPCODES.iter().enumerate() {
        match try_row(alloc, Pickles::One, bytes, trip) {
            Ok(code) => met[usize::from(code)] = true,
            Err(fault) => return Err((k, fault)),
        }
    }
    Ok(met.iter().filter(|is_met| **is_met).count())
}

/// The first of some rows whose way goes wrong, and what is wrong there.
fn first_wrong(alloc: Global, pickles: Pickles, rows: &[&[u8]]) -> Option<(usize, Fault)> {
    for (k, bytes) in rows.iter().enumerate() {
        if let Err(fault) = try_row(alloc, pickles, bytes, Trip::Twice) {
            return Some((k, fault));
        }
    }
    None
}

/// Each row ends in an opcode of its own.
#[test]
fn ways_to_each_opcode(rt: HostRuntime) {
    assert_eq!(rt; try_opcodes(rt.alloc(), Trip::Twice), Ok(OPCODES.len()));
}

#[test]
fn states_that_no_text_shows(rt: HostRuntime) -> Result<(), Fail> {
    for (k, (bytes, states)) in UNSHOWN.iter().enumerate() {
        let noted = note_down(rt.alloc(), Pickles::One, bytes)?;
        assert_eq!(rt; walk_twice(rt.alloc(), &noted), Ok(()), "row {k}");
        assert_eq!(rt; has_states(&noted, states), Ok(()), "row {k}");
    }
    Ok(())
}

/// A mark, a thousand objects, all of them dropped with the mark, and one more object.
fn thousand(alloc: Global) -> Result<Noted, Fault> {
    let mut bytes = vec![in alloc; b'N'; 1001]?;
    bytes[0] = b'(';
    bytes.extend_from_slice(b"1N.")?;
    note_down(alloc, Pickles::One, &bytes)
}

/// Whether what is written down at a place consists of these.
fn is_note(noted: &Noted, place: usize, parts: [&[u8]; 3]) -> bool {
    let note = noted.notes.get(place).map(|note| note.as_slice());
    let mut rest = note.unwrap_or_default();
    for part in parts {
        if !rest.starts_with(part) {
            return false;
        }
        rest = rest.get(part.len()..).unwrap_or_default();
    }
    rest.is_empty() && place < noted.notes.len()
}

/// Run with each request for memory refused in turn: a step that is refused where memory runs out leaves every reader
/// as it was, and asked again it succeeds; a free step is never refused so.
#[test]
fn refused_memory(rt: HostRuntime) {
    assert_eq!(rt; first_wrong(rt.alloc(), Pickles::One, &[ALL_SHAPES]), None);
    assert_eq!(rt; try_opcodes(rt.alloc(), Trip::Twice), Ok(OPCODES.len()));
    assert_eq!(rt; first_wrong(rt.alloc(), Pickles::Several, &SEVERAL), None);
}

/// Goes a way forwards, or also back. The way back takes no memory, so both ask for as much.
fn go(alloc: Global, noted: &Noted, and_back: bool) -> Result<(), Fault> {
    let mut machine = noted.pickles.machine(alloc);
    if and_back {
        let way = Way {
            pickles: noted.pickles,
            ops: &noted.ops,
            notes: &noted.notes,
            was_there: false,
        };
        walk(&mut machine, alloc, &way, 0)
    } else {
        run(&mut machine, alloc, &noted.ops)
    }
}

/// Goes the way of every shape forwards, and the free steps at its end forwards and back as often as is said. These take no
/// memory, so any number asks for as much. They end in the state in which they begin.
fn go_freely(alloc: Global, times: usize) -> Result<(), Fault> {
    let noted = note_down(alloc, Pickles::One, ALL_SHAPES)?;
    let end = noted.notes.last().map(|note| note.as_slice());
    if !is_note(&noted, FREE_FROM, [end.unwrap_or_default(), b"", b""]) {
        return Err(Fault::Differs(FREE_FROM));
    }
    let way = Way {
        pickles: Pickles::One,
        ops: &noted.ops,
        notes: &noted.notes,
        was_there: true,
    };
    let mut machine = Machine::new(alloc);
    run(&mut machine, alloc, &noted.ops)?;
    for _ in 0..times {
        walk(&mut machine, alloc, &way, FREE_FROM)?;
    }
    Ok(())
}

/// Goes the ways of a thousand objects and of every shape.
fn go_all(alloc: Global, and_back: bool) -> Result<(), Fault> {
    let noted = thousand(alloc)?;
    go(alloc, &noted, and_back)?;
    try_row(alloc, Pickles::One, ALL_SHAPES, Trip::Once { and_back })?;
    for bytes in &SEVERAL {
        try_row(alloc, Pickles::Several, bytes, Trip::Once { and_back })?;
    }
    go_freely(alloc, if and_back { 3 } else { 0 })
}

/// Asks for memory as often as `there_and_back_again`.
#[test]
fn forwards(rt: HostRuntime) {
    let trip = Trip::Once { and_back: false };
    assert_eq!(rt; try_opcodes(rt.alloc(), trip), Ok(OPCODES.len()));
    assert_eq!(rt; go_all(rt.alloc(), false), Ok(()));
}

/// Asks for memory no more often than `forwards`: no step back asks for any, and no free step.
#[test]
fn there_and_back_again(rt: HostRuntime) {
    let trip = Trip::Once { and_back: true };
    assert_eq!(rt; try_opcodes(rt.alloc(), trip), Ok(OPCODES.len()));
    assert_eq!(rt; go_all(rt.alloc(), true), Ok(()));
}
