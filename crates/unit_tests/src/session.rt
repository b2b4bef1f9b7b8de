//! What a session shows after commands.

ghost use Rattle.std.specs.Prelude.{◌≡◌, []};

mod script;

use crate::session::script::{Counts, Given, command, open_whole, open_window};
use pickle_doc::End;
use pickle_machine::Refusal;
use pickle_ops::Opcode;
use pickle_session::{Command, Fault, Past, Reply, Session, Whole, Why};
use std::alloc::Global;
use std::test::Fail;
use test_equipment::{Comparison, LARGE, large, shows};

/// The usual dump of a list with the number 1.
const DUMP: &[u8] = b"\x80\x04\x95\x06\x00\x00\x00\x00\x00\x00\x00]\x94K\x01a.";

/// Two numbers in a tuple that is memoized.
const PAIR: &[u8] = b"K\x01K\x02\x86q\x00.";

/// The same twice, as several pickles.
const PAIRS: &[u8] = b"K\x01K\x02\x86q\x00.K\x01K\x02\x86q\x00.";

/// A list appended to itself.
const CYCLE: &[u8] = b"]2a.";

/// Sessions that keep this many of the latest records, the bytes, and commands in each.
const WINDOWS: [(usize, bool, &[u8], &[Counts]); 4] = [
    (
        2,
        false,
        PAIR,
        &[
            (Given::Goto(4), Reply::At(4), 4, 2, 4),
            (Given::Back, Reply::At(3), 3, 1, 1),
            (Given::Back, Reply::At(2), 2, 0, 1),
            (Given::Back, Reply::At(1), 1, 1, 1),
            (Given::Goto(5), Reply::At(5), 5, 2, 4),
            (Given::Goto(0), Reply::At(0), 0, 0, 0),
        ],
    ),
    (
        1,
        false,
        PAIR,
        &[
            (Given::Goto(4), Reply::At(4), 4, 1, 4),
            (Given::Back, Reply::At(3), 3, 0, 1),
            (Given::Back, Reply::At(2), 2, 1, 2),
        ],
    ),
    (
        1,
        false,
        PAIR,
        &[
            (Given::Goto(2), Reply::At(2), 2, 1, 2),
            (Given::Back, Reply::At(1), 1, 0, 1),
            (Given::Back, Reply::At(0), 0, 0, 0),
        ],
    ),
    (
        2,
        true,
        PAIRS,
        &[
            (Given::Goto(7), Reply::At(7), 7, 2, 7),
            (Given::Back, Reply::At(6), 6, 1, 1),
            (Given::Back, Reply::At(5), 5, 0, 1),
            (Given::Back, Reply::At(4), 4, 2, 4),
            (Given::Goto(10), Reply::At(10), 10, 2, 6),
            (Given::Goto(0), Reply::At(0), 0, 0, 0),
        ],
    ),
];

/// Whether a command has this reply, and these counts hold after it.
fn is_answered<P: Past>(session: &mut Session<P>, alloc: Global, row: &Counts) -> bool {
    let (given, reply, cursor, kept, work) = *row;
    let Ok(command) = command(alloc, given) else {
        return false;
    };
    let found = session.obey(alloc, &command);
    found == reply && session.cursor() == cursor && session.kept() == kept && session.work() == work
}

#[test]
fn counts_in_a_window(rt: HostRuntime) -> Result<(), Fail> {
    for (w, (count, many, bytes, rows)) in WINDOWS.iter().enumerate() {
        let mut session = open_window(rt.alloc(), *many, *count, bytes)?;
        for (k, row) in rows.iter().enumerate() {
            let is_answered = is_answered(&mut session, rt.alloc(), row);
            assert!(rt; is_answered, "row {k} of window {w}");
        }
    }
    Ok(())
}

/// Bytes, and commands to a session over them that keeps all records.
const ALL_KEPT: [(&[u8], &[Counts]); 3] = [
    (
        DUMP,
        &[
            (Given::Goto(4), Reply::At(4), 4, 4, 4),
            (Given::Run, Reply::Ran(7, Why::End), 7, 7, 3),
            (
                Given::Run,
                Reply::Refused(Fault::AtEnd(End::Stopped)),
                7,
                7,
                0,
            ),
            (Given::Goto(0), Reply::At(0), 0, 0, 7),
        ],
    ),
    // an entry of the memo that is not there
    (
        b"K\x01q\x00K\x02q\x00h\x07.",
        &[
            (Given::Goto(3), Reply::At(3), 3, 3, 3),
            (
                Given::Goto(5),
                Reply::Refused(Fault::Item(4, Refusal::NoMemoEntry(7))),
                3,
                3,
                2,
            ),
            (
                Given::Run,
                Reply::Ran(4, Why::Refused(Refusal::NoMemoEntry(7))),
                4,
                4,
                1,
            ),
            (
                Given::Run,
                Reply::Refused(Fault::Item(4, Refusal::NoMemoEntry(7))),
                4,
                4,
                0,
            ),
        ],
    ),
    // an odd number of items: as far as it, and back again
    (
        b"ccollections\nOrderedDict\n)R(K\x01K\x02Nu.",
        &[(
            Given::Goto(8),
            Reply::Refused(Fault::Item(7, Refusal::OddItems)),
            0,
            0,
            14,
        )],
    ),
];

#[test]
fn counts_with_all_records(rt: HostRuntime) -> Result<(), Fail> {
    for (b, (bytes, rows)) in ALL_KEPT.iter().enumerate() {
        let mut session = open_whole(rt.alloc(), false, bytes)?;
        for (k, row) in rows.iter().enumerate() {
            let is_answered = is_answered(&mut session, rt.alloc(), row);
            assert!(rt; is_answered, "row {k} of session {b}");
        }
    }
    Ok(())
}

/// How many objects are on the stack at a place of a mark, a thousand objects, the opcode that drops them and the mark, one
/// more object and its end.
fn height_at(place: usize) -> usize {
    if place == 1003 {
        return 1;
    }
    if place <= 1001 {
        return place.saturating_sub(1);
    }
    0
}

#[test]
fn a_thousand_heights(rt: HostRuntime) -> Result<(), Fail> {
    let mut bytes = vec![in rt.alloc(); b'N'; 1001]?;
    bytes[0] = b'(';
    bytes.extend_from_slice(b"1N.")?;
    let mut session = Session::open(rt.alloc(), Whole::new(rt.alloc()), &bytes)?;
    let reply = session.obey(rt.alloc(), &Command::Run);
    assert_eq!(rt; reply, Reply::Ran(1004, Why::End));
    assert_eq!(rt; session.work(), 1004);
    for k in 1..=1004usize {
        let place = 1004usize.saturating_sub(k);
        let reply = session.obey(rt.alloc(), &Command::Back);
        assert_eq!(rt; reply, Reply::At(place));
        let found = (
            session.work(),
            session.kept(),
            session.machine().stack_len(),
        );
        assert_eq!(rt; found, (1, place, height_at(place)), "at {place}");
    }
    assert_eq!(rt; session.machine().moves(), 2008);
    assert_eq!(rt; session.machine().objects(), 0);
    Ok(())
}

/// Whether a session's document has these bytes.
fn has_bytes<P: Past>(session: &Session<P>, bytes: &[u8]) -> bool {
    let mut written = Comparison::new(bytes);
    session.document().write_bytes(&mut written).is_ok() && written.is_whole()
}

#[test]
fn undone_and_made_again_a_thousand_times(rt: HostRuntime) -> Result<(), Fail> {
    let less: &[u8] = b"\x80\x04\x95\x05\x00\x00\x00\x00\x00\x00\x00]K\x01a.";
    let mut session = Session::open(rt.alloc(), Whole::new(rt.alloc()), DUMP)?;
    let reply = session.obey(rt.alloc(), &Command::delete(3));
    assert_eq!(rt; reply, Reply::Edited(3));
    for k in 0..1000 {
        assert!(rt; has_bytes(&session, less), "turn {k}");
        let undone = session.obey(rt.alloc(), &Command::Undo);
        assert_eq!(rt; undone, Reply::Undone(3), "turn {k}");
        assert!(rt; has_bytes(&session, DUMP), "turn {k}");
        let redone = session.obey(rt.alloc(), &Command::Redo);
        assert_eq!(rt; redone, Reply::Redone(3), "turn {k}");
    }
    Ok(())
}

/// Undoes or makes again a thousand edits at the start; how many were refused.
fn turn_a_thousand<P: Past>(session: &mut Session<P>, alloc: Global, is_undo: bool) -> usize {
    let mut refused = 0usize;
    for _ in 0..1000 {
        let (command, wanted) = if is_undo {
            (Command::Undo, Reply::Undone(0))
        } else {
            (Command::Redo, Reply::Redone(0))
        };
        if session.obey(alloc, &command) != wanted {
            refused = refused.saturating_add(1);
        }
    }
    refused
}

#[test]
fn a_thousand_insertions(rt: HostRuntime) -> Result<(), Fail> {
    let mut bytes = vec![in rt.alloc(); b'N'; 1000]?;
    bytes.push(b'.')?;
    let mut session = Session::open(rt.alloc(), Whole::new(rt.alloc()), b".")?;
    for k in 0..1000 {
        let insert = command(rt.alloc(), Given::Insert(0, Opcode::None, b""))?;
        let reply = session.obey(rt.alloc(), &insert);
        assert_eq!(rt; reply, Reply::Edited(0), "insertion {k}");
    }
    assert!(rt; has_bytes(&session, &bytes));
    assert_eq!(rt; turn_a_thousand(&mut session, rt.alloc(), true), 0);
    assert!(rt; has_bytes(&session, b"."));
    assert_eq!(rt; turn_a_thousand(&mut session, rt.alloc(), false), 0);
    assert!(rt; has_bytes(&session, &bytes));
    assert_eq!(rt; (session.undos(), session.redos()), (1000, 0));
    Ok(())
}

/// A session over a large pickle goes to its end, and an opcode more is taken in and out again.
#[test]
fn large_input(rt: HostRuntime) -> Result<(), Fail> {
    let bytes = large(rt.alloc())?;
    let mut session = Session::open(rt.alloc(), Whole::new(rt.alloc()), &bytes)?;
    let insert = (
        Given::Insert(0, Opcode::None, b""),
        Reply::Edited(0),
        0,
        0,
        0,
    );
    assert!(rt; is_answered(&mut session, rt.alloc(), &insert));
    assert_eq!(rt; session.document().total(), LARGE as u64 + 1);
    let undo = (Given::Undo, Reply::Undone(0), 0, 0, 0);
    assert!(rt; is_answered(&mut session, rt.alloc(), &undo));
    assert_eq!(rt;
        (session.undos(), session.redos(), session.offset()),
        (0, 1, 0)
    );
    let run = (Given::Run, Reply::Ran(2, Why::End), 2, 2, 2);
    assert!(rt; is_answered(&mut session, rt.alloc(), &run));
    assert_eq!(rt; session.offset(), LARGE as u64);
    assert!(rt; has_bytes(&session, &bytes));
    Ok(())
}

/// Many marks are passed on the way there and on the way back, and none is left at the start.
#[test]
fn many_marks(rt: HostRuntime) -> Result<(), Fail> {
    let mut bytes = vec![in rt.alloc(); b'('; 100_000]?;
    bytes.extend_from_slice(b"N.")?;
    let mut session = Session::open(rt.alloc(), Whole::new(rt.alloc()), &bytes)?;
    let there = session.obey(rt.alloc(), &Command::Goto(100_002));
    assert_eq!(rt; there, Reply::At(100_002));
    assert_eq!(rt; session.machine().marks_len(), 100_000);
    assert_eq!(rt; session.machine().mark(99_999), Some((99_999, 0)));
    assert_eq!(rt; session.machine().result(), Some(0));
    let home = session.obey(rt.alloc(), &Command::Goto(0));
    assert_eq!(rt; home, Reply::At(0));
    assert!(rt; shows(&session, b"at 0 of 100002: stack", &bytes));
    Ok(())
}

/// Whether a session accepts the first commands of a way.
fn go(alloc: Global, many: bool, bytes: &[u8], way: &[Given]) -> Result<bool, Fail> {
    let mut session = open_whole(alloc, many, bytes)?;
    for given in way {
        let command = command(alloc, *given)?;
        if matches!(session.obey(alloc, &command), Reply::Refused(_)) {
            return Ok(false);
        }
    }
    Ok(true)
}

/// Bytes, read as several pickles or as one, a way, and how many of its first commands may ask for memory: the first step over a dump
/// is free, and so are a step that is taken again behind the first of its pickle, and each way back.
const WAYS: [(bool, &[u8], &[Given], usize); 7] = [
    (false, DUMP, &[Given::Step, Given::Back, Given::Step], 0),
    (
        false,
        CYCLE,
        &[Given::Goto(3), Given::Back, Given::Back, Given::Step],
        1,
    ),
    (
        false,
        DUMP,
        &[
            Given::Run,
            Given::Goto(3),
            Given::Back,
            Given::Goto(2),
            Given::Clear(0),
            Given::Goto(0),
        ],
        1,
    ),
    (
        false,
        DUMP,
        &[
            Given::Delete(3),
            Given::Undo,
            Given::Redo,
            Given::Undo,
            Given::Delete(2),
            Given::Undo,
        ],
        0,
    ),
    (
        true,
        PAIRS,
        &[
            Given::Run,
            Given::Goto(7),
            Given::Back,
            Given::Goto(3),
            Given::Goto(0),
        ],
        1,
    ),
    (
        true,
        b"N.N2\x86.",
        &[Given::Goto(4), Given::Back, Given::Step, Given::Goto(0)],
        1,
    ),
    (
        true,
        b"N.N0N.",
        &[
            Given::Delete(3),
            Given::Undo,
            Given::Redo,
            Given::Undo,
            Given::Delete(4),
            Given::Undo,
        ],
        0,
    ),
];

/// Goes the ways as far as they may ask for memory.
#[test]
fn forwards(rt: HostRuntime) -> Result<(), Fail> {
    for (k, (many, bytes, way, count)) in WAYS.iter().enumerate() {
        let first = way.get(..*count).unwrap_or(way);
        assert!(rt; go(rt.alloc(), *many, bytes, first)?, "way {k}");
    }
    Ok(())
}

/// Goes the ways to their end, and asks for memory as often as `forwards`.
#[test]
fn no_memory_for_free_steps(rt: HostRuntime) -> Result<(), Fail> {
    for (k, (many, bytes, way, _)) in WAYS.iter().enumerate() {
        assert!(rt; go(rt.alloc(), *many, bytes, way)?, "way {k}");
    }
    Ok(())
}
