//! A script over a file where one request for memory may be refused: what is shown after each command is what is shown with
//! ample memory.

ghost use Rattle.std.specs.Prelude.{◌≡◌, []};

use crate::runs::{Stop, bytes_at};
use pickle_ops::{OpFault, Opcode, op_of};
use pickle_session::{Command, Fault, Past, Reply, Session, Whole, Window};
use std::alloc::Global;
use test_equipment::{Note, is_noted};

/// The commands: to the end, half way back, an edit ahead, to the end again, to the start, and the edit undone.
const COMMANDS: usize = 6;

/// Command k over this many items.
fn command(alloc: Global, k: usize, len: usize) -> Result<Command, OpFault> {
    Ok(match k {
        1 => Command::Goto(len / 2),
        2 => Command::insert(len / 2, op_of(alloc, Opcode::BinInt2, b"\x01\x00")?),
        4 => Command::Goto(0),
        5 => Command::Undo,
        _ => Command::Run,
    })
}

/// Command k, where one request for memory may be refused.
fn insist_on_command(alloc: Global, k: usize, len: usize) -> Result<Command, Stop> {
    match command(alloc, k, len) {
        Ok(command) => Ok(command),
        Err(_) => Ok(command(alloc, k, len)?),
    }
}

/// The reply to a command, and the note of the session then.
#[derive(Drop)]
struct Told {
    reply: Option<Reply>,
    note: Note,
}

/// What a session shows, and what it replied.
fn told_by<P: Past>(
    alloc: Global,
    session: &Session<P>,
    reply: Option<Reply>,
) -> Result<Told, Stop> {
    let note = Note::of(alloc, session).ok_or(Stop::Room)?;
    Ok(Told { reply, note })
}

/// What a session shows at first and after each command.
fn note_down<P: Past>(alloc: Global, session: &mut Session<P>) -> Result<Vec<Told>, Stop> {
    let len = session.document().len();
    let mut notes = Vec::new(alloc);
    notes.push(told_by(alloc, session, None)?)?;
    for k in 0..COMMANDS {
        let command = command(alloc, k, len)?;
        let reply = session.obey(alloc, &command);
        notes.push(told_by(alloc, session, Some(reply))?)?;
    }
    Ok(notes)
}

/// The note of what was told.
fn noted(told: Option<&Told>) -> Option<&Note> {
    told.map(|told| &told.note)
}

/// Whether a command may be answered by out of memory: one that goes forward or edits, and one that goes back further
/// than limited records lead.
fn may_lack<P: Past>(session: &Session<P>, k: usize) -> bool {
    match k {
        1 | 4 => session.kept() < session.cursor(),
        5 => false,
        _ => true,
    }
}

/// What is shown after command k differs.
fn differs_at(k: usize) -> Stop {
    Stop::Differs(u32::try_from(k).unwrap_or(u32::MAX))
}

/// Obeys command k. Where memory is refused, everything is as it was; and given again it is obeyed.
fn obey_noted<P: Past>(
    alloc: Global,
    session: &mut Session<P>,
    notes: &[Told],
    k: usize,
) -> Result<(), Stop> {
    let command = insist_on_command(alloc, k, session.document().len())?;
    let may_lack = may_lack(session, k);
    let mut reply = session.obey(alloc, &command);
    if reply == Reply::Refused(Fault::Memory) {
        if !may_lack || !is_noted(session, noted(notes.get(k))) {
            return Err(differs_at(k));
        }
        reply = session.obey(alloc, &command);
    }
    let told = notes.get(k.saturating_add(1));
    let wanted = told.and_then(|told| told.reply);
    if wanted == Some(reply) && is_noted(session, noted(told)) {
        Ok(())
    } else {
        Err(differs_at(k))
    }
}

/// Obeys all commands, and compares what is shown with the notes.
fn follow<P: Past>(alloc: Global, session: &mut Session<P>, notes: &[Told]) -> Result<(), Stop> {
    if !is_noted(session, noted(notes.first())) {
        return Err(Stop::Differs(0));
    }
    for k in 0..COMMANDS {
        obey_noted(alloc, session, notes, k)?;
    }
    Ok(())
}

/// A session with all records, where one request for memory may be refused.
fn open_whole(alloc: Global, bytes: &[u8]) -> Result<Session<Whole>, Stop> {
    match Session::open(alloc, Whole::new(alloc), bytes) {
        Ok(session) => Ok(session),
        Err(_) => Ok(Session::open(alloc, Whole::new(alloc), bytes)?),
    }
}

/// A session with the latest two records.
fn try_window(alloc: Global, bytes: &[u8]) -> Result<Session<Window>, Stop> {
    Ok(Session::open(alloc, Window::new(alloc, 2)?, bytes)?)
}

/// A session with the latest two records, where one request for memory may be refused.
fn open_window(alloc: Global, bytes: &[u8]) -> Result<Session<Window>, Stop> {
    match try_window(alloc, bytes) {
        Ok(session) => Ok(session),
        Err(_) => try_window(alloc, bytes),
    }
}

/// Writes down what the script shows over a file with ample memory, says so in a line, and follows the script, with all records and with
/// two. A request for memory that is made after that line may be refused.
pub fn try_memory(rt: &HostRuntime, path: &str) -> Result<(), Stop> {
    let bytes = bytes_at(rt, path)?;
    let whole = note_down(rt.alloc(), &mut open_whole(rt.alloc(), &bytes)?)?;
    let window = note_down(rt.alloc(), &mut open_window(rt.alloc(), &bytes)?)?;
    println!(rt; "noted")?;
    follow(rt.alloc(), &mut open_whole(rt.alloc(), &bytes)?, &whole)?;
    follow(rt.alloc(), &mut open_window(rt.alloc(), &bytes)?, &window)?;
    println!(rt; "as noted")?;
    Ok(())
}
