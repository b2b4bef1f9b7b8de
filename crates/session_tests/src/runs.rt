//! Random commands to sessions over files: forwards and back to the start, and all edits undone, which gives the opened bytes, and
//! made again. After the word `memory`, a script over each file where a request for memory may be refused.

ghost use Rattle.std.specs.Prelude.{◌≡◌, []};

use crate::memory::try_memory;
use pickle_doc::{DocFault, LIMIT};
use pickle_io::{Failed, ToWrite};
use pickle_machine::Machine;
use pickle_ops::{Op, OpFault, Opcode, op_of};
use pickle_session::{Command, Past, Reply, Session, Whole};
use std::alloc::{AllocError, AllocFailed, Global};
use std::fs::File;
use std::io::Read;
use std::{env, io};
use test_equipment::Chance;

/// How many commands are given over each file.
const COMMANDS: u32 = 300;

/// Why a file was not tried, or nothing printed of it.
#[derive(Debug, Drop)]
pub enum Stop {
    /// A file or a word could not be read, or a line not printed.
    Device,
    /// The file is too large, or there was no memory.
    Room,
    /// The session is not what it should be, after this many commands.
    Differs(u32),
}

impl From<io::Error> for Stop {
    fn from(_error: io::Error) -> Stop {
        Stop::Device
    }
}

impl From<DocFault> for Stop {
    fn from(_fault: DocFault) -> Stop {
        Stop::Room
    }
}

impl From<AllocError> for Stop {
    fn from(_error: AllocError) -> Stop {
        Stop::Room
    }
}

impl<T: Drop> From<AllocFailed<T>> for Stop {
    fn from(_error: AllocFailed<T>) -> Stop {
        Stop::Room
    }
}

impl From<OpFault> for Stop {
    fn from(_fault: OpFault) -> Stop {
        Stop::Room
    }
}

impl From<Failed> for Stop {
    fn from(_failed: Failed) -> Stop {
        Stop::Room
    }
}

/// The opcodes that are put in.
const PUT_IN: [(Opcode, &[u8]); 8] = [
    (Opcode::None, b""),
    (Opcode::BinInt1, b"\x07"),
    (Opcode::BinInt2, b"\x07\x00"),
    (Opcode::EmptyList, b""),
    (Opcode::Mark, b""),
    (Opcode::Pop, b""),
    (Opcode::Memoize, b""),
    (Opcode::Stop, b""),
];

/// A command without an operation, by a number below 13.
fn plain_command(number: usize, place: usize, ahead: usize, count: usize) -> Command {
    match number {
        0 => Command::Back,
        1 => Command::Goto(place),
        2 => Command::Goto(ahead),
        3 => Command::Run,
        4 => Command::Break(place),
        5 => Command::Clear(place),
        6 => Command::delete(place),
        7 => Command::frame(place, count),
        8 => Command::unframe(ahead),
        9 => Command::Undo,
        10 => Command::Redo,
        _ => Command::Step,
    }
}

/// An operation that is put in.
fn any_op(alloc: Global, chance: &mut Chance) -> Result<Op, OpFault> {
    let (opcode, arg) = PUT_IN[chance.below(8).min(7)];
    op_of(alloc, opcode, arg)
}

/// A command at places that are there, or one after them.
fn any_command(
    alloc: Global,
    chance: &mut Chance,
    len: usize,
    cursor: usize,
) -> Result<Command, OpFault> {
    let place = chance.below(len.saturating_add(2));
    let ahead = cursor.saturating_add(chance.below(4));
    let count = chance.below(5);
    match chance.below(16) {
        13 => Ok(Command::replace(place, any_op(alloc, chance)?)),
        14 => Ok(Command::insert(place, any_op(alloc, chance)?)),
        15 => Ok(Command::insert(ahead, any_op(alloc, chance)?)),
        number => Ok(plain_command(number, place, ahead, count)),
    }
}

/// The bytes of a session's document.
fn bytes_of<P: Past>(alloc: Global, session: &Session<P>) -> Result<Vec<u8>, Stop> {
    let mut sink = ToWrite::new(Vec::new(alloc));
    session.document().write_bytes(&mut sink)?;
    Ok(sink.into_inner())
}

/// What the counting readers of a session show.
fn counts_of(session: &Session<Whole>) -> [usize; 5] {
    let len = session.document().len();
    [
        len,
        session.cursor(),
        session.undos(),
        session.redos(),
        session.kept(),
    ]
}

/// What the counting readers of a machine show.
fn shape_of(machine: &Machine) -> ([usize; 4], u64, Option<u32>) {
    let counts = [
        machine.objects(),
        machine.stack_len(),
        machine.marks_len(),
        machine.memo_len(),
    ];
    (counts, machine.buffers(), machine.result())
}

/// Whether a session that is opened on these bytes goes to this place, and has this machine there.
fn is_reached(alloc: Global, session: &Session<Whole>, bytes: &[u8]) -> Result<bool, Stop> {
    let mut other = Session::open(alloc, Whole::new(alloc), bytes)?;
    let reply = other.obey(alloc, &Command::Goto(session.cursor()));
    Ok(
        reply == Reply::At(session.cursor())
            && other.document().len() == session.document().len()
            && shape_of(other.machine()) == shape_of(session.machine()),
    )
}

/// Gives a session one command. Refused, it changes nothing.
fn tell(
    alloc: Global,
    session: &mut Session<Whole>,
    chance: &mut Chance,
    number: u32,
) -> Result<(), Stop> {
    let command = any_command(alloc, chance, session.document().len(), session.cursor())?;
    let counts = counts_of(session);
    let bytes = bytes_of(alloc, session)?;
    let reply = session.obey(alloc, &command);
    let is_accepted = !matches!(reply, Reply::Refused(_));
    let behind = bytes_of(alloc, session)?;
    let is_edit = matches!(
        reply,
        Reply::Edited(_) | Reply::Undone(_) | Reply::Redone(_)
    );
    let is_same = behind.as_slice() == bytes.as_slice();
    if !is_edit && !is_same || !is_accepted && counts != counts_of(session) {
        return Err(Stop::Differs(number));
    }
    if session.kept() != session.cursor() {
        return Err(Stop::Differs(number));
    }
    if is_edit && !is_reached(alloc, session, &behind)? {
        return Err(Stop::Differs(number));
    }
    Ok(())
}

/// Goes to the start, undoes all edits, which gives the opened bytes, and makes all of them again.
fn go_home(alloc: Global, session: &mut Session<Whole>, bytes: &[u8]) -> Result<(), Stop> {
    let last = bytes_of(alloc, session)?;
    let edits = session.undos();
    let back = session.obey(alloc, &Command::Goto(0));
    let mut is_good = back == Reply::At(0);
    for _ in 0..edits {
        let reply = session.obey(alloc, &Command::Undo);
        is_good &= matches!(reply, Reply::Undone(_));
    }
    is_good &= bytes_of(alloc, session)?.as_slice() == bytes;
    for _ in 0..edits {
        let reply = session.obey(alloc, &Command::Redo);
        is_good &= matches!(reply, Reply::Redone(_));
    }
    is_good &= bytes_of(alloc, session)?.as_slice() == last.as_slice();
    if is_good {
        Ok(())
    } else {
        Err(Stop::Differs(COMMANDS))
    }
}

/// The bytes of a file.
pub fn bytes_at(rt: &HostRuntime, path: &str) -> Result<Vec<u8>, Stop> {
    let mut bytes = Vec::new(rt.alloc());
    File::open(rt, path)?
        .take(LIMIT as u64 + 1)
        .read_to_end(&mut bytes)?;
    Ok(bytes)
}

/// Gives a session over one file its commands.
fn try_file(rt: &HostRuntime, path: &str, chance: &mut Chance) -> Result<(), Stop> {
    let bytes = bytes_at(rt, path)?;
    let mut session = Session::open(rt.alloc(), Whole::new(rt.alloc()), &bytes)?;
    for number in 0..COMMANDS {
        tell(rt.alloc(), &mut session, chance, number)?;
    }
    go_home(rt.alloc(), &mut session, &bytes)?;
    println!(rt; "{path}: the same bytes again")?;
    Ok(())
}

/// Tries each file that the words of the command line name.
pub fn try_files(rt: &HostRuntime) -> Result<(), Stop> {
    let mut chance = Chance::new(1);
    let mut is_memory = false;
    for word in env::args(rt)?.skip(1) {
        if is_memory {
            try_memory(rt, &word)?;
        } else if word.as_str() == "memory" {
            is_memory = true;
        } else {
            try_file(rt, &word, &mut chance)?;
        }
    }
    Ok(())
}
