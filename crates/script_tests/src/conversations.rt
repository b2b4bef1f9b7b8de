//! Conversations with requests for memory refused. They are compared with a run with ample memory, whose answers are tried from outside.

use crate::rows::{FURTHER, ONE, SEVERAL};
use pickle_doc::{DocFault, EditFault, End};
use pickle_io::FromRead;
use pickle_script::{Stop, converse, write_reply};
use pickle_session::{Command, Fault, Past, Reply, Session, Whole, Window};
use std::alloc::Global;
use std::test::Fail;
use test_equipment::{Comparison, Drip, Note, Sip, is_noted, page_over, paper, taken, written_out};

/// Bytes, read as several pickles or as one, and the lines that are given.
#[derive(Clone, Copy)]
struct Script {
    many: bool,
    bytes: &'static [u8],
    lines: &'static [u8],
}

/// A line with its newline, what it is answered, and the status of that.
#[derive(Drop)]
struct Answer {
    line: &'static [u8],
    text: Vec<u8>,
    status: u8,
}

/// The answer to a line that finds no memory.
const LACKING: &[u8] = b"refused: M out of memory\n";

/// Bytes and the lines that are given.
type Row = (&'static [u8], &'static [u8]);

/// A session that keeps all records.
fn opened(alloc: Global, script: &Script) -> Result<Session<Whole>, DocFault> {
    Session::open_in(alloc, Whole::new(alloc), script.many, false, script.bytes)
}

/// A session that keeps the latest two records.
fn opened_in_a_window(alloc: Global, script: &Script) -> Result<Session<Window>, DocFault> {
    Session::open_in(
        alloc,
        Window::new(alloc, 2)?,
        script.many,
        false,
        script.bytes,
    )
}

/// How many of some bytes end a line.
fn count_lines(bytes: &[u8]) -> usize {
    bytes.iter().filter(|byte| **byte == b'\n').count()
}

/// The first of some lines with its newline, and those behind it.
fn split_line(lines: &[u8]) -> (&[u8], &[u8]) {
    match lines.iter().position(|byte| *byte == b'\n') {
        Some(place) => lines.split_at(place + 1),
        None => (lines, b""),
    }
}

/// Obeys a line: what it is answered, or nothing where a request for memory is refused.
fn try_line<P: Past>(
    alloc: Global,
    session: &mut Session<P>,
    line: &'static [u8],
) -> Option<Answer> {
    let mut source = FromRead::new(line);
    let mut page = paper(alloc).ok()?;
    let status = converse(alloc, session, &mut source, &mut page).ok()?;
    let text = taken(page).ok()?;
    if text.as_slice() == LACKING {
        return None;
    }
    Some(Answer { line, text, status })
}

/// What each line of a script is answered by good devices with ample memory.
fn answers_of(alloc: Global, script: &Script) -> Result<Vec<Answer>, Fail> {
    let mut answers = Vec::new(alloc);
    let mut session = opened(alloc, script)?;
    let mut rest = script.lines;
    for _ in 0..count_lines(script.lines) {
        let (line, behind) = split_line(rest);
        let answer = try_line(alloc, &mut session, line).ok_or(DocFault::Memory)?;
        answers.push(answer)?;
        rest = behind;
    }
    Ok(answers)
}

/// The words that may ask for memory where they are not refused. (`replace` and `insert` do so for what they put in, and `goto` and
/// `back` by where they lead.)
const ASKING: [&[u8]; 7] = [
    b"step", b"run", b"break", b"delete", b"frame", b"unframe", b"show",
];

/// Whether a line may find no memory that leads from one place to another over so many records. A way back finds it as far as records
/// lead, and so does a line that is refused before it asks for any.
fn may_lack(answer: &Answer, from: usize, to: usize, kept: usize) -> bool {
    let text = answer.text.as_slice();
    let is_refused = text.starts_with(b"refused: ");
    if answer.line.starts_with(b"replace") || answer.line.starts_with(b"insert") {
        return !text.starts_with(b"refused: X") || text.starts_with(b"refused: X8 ");
    }
    if answer.line.starts_with(b"goto") || answer.line.starts_with(b"back") {
        let is_far = from < to || kept < from.saturating_sub(to);
        return is_far || text.starts_with(b"refused: C3 ");
    }
    !is_refused && ASKING.iter().any(|word| answer.line.starts_with(word))
}

/// Obeys line k of a script where one request for memory may be refused: whether it is answered as with ample memory, at once or given
/// again, and is left as was noted. A session that runs out of memory for a line is as it was.
fn insist_on_line<P: Past>(
    alloc: Global,
    session: &mut Session<P>,
    wanted: &Answer,
    notes: &[Note],
    k: usize,
) -> bool {
    let from = session.cursor();
    let kept = session.kept();
    let after = notes.get(k.saturating_add(1));
    let mut is_lacking = false;
    for _ in 0..2 {
        let mut source = Drip::new(wanted.line, 7, u64::MAX);
        let Ok(mut page) = page_over(alloc, Sip::new(alloc, 7, u64::MAX)) else {
            continue;
        };
        let answer = converse(alloc, session, &mut source, &mut page);
        let answer = written_out(&mut page, answer);
        let written = page.get_ref().taken();
        if answer == Ok(wanted.status) && written == wanted.text.as_slice() {
            let may_lack = may_lack(wanted, from, session.cursor(), kept);
            return (may_lack || !is_lacking) && is_noted(session, after);
        }
        if answer == Err(Stop::Write) {
            // (the sink's own growth was refused, and the line is obeyed)
            return wanted.text.starts_with(written) && is_noted(session, after);
        }
        is_lacking = answer == Ok(1) && written == LACKING;
        let is_unread = answer == Err(Stop::Memory) && written.is_empty();
        if !is_noted(session, notes.get(k)) || !is_lacking && !is_unread {
            return false;
        }
    }
    false
}

/// Goes to the start, where one request for memory may be refused: whether it is there. Only a session that keeps fewer records than
/// the way has steps may run out of memory, and then it is as the note says.
fn insist_on_start<P: Past>(alloc: Global, session: &mut Session<P>, last: Option<&Note>) -> bool {
    let may_lack = session.kept() < session.cursor();
    let mut reply = session.obey(alloc, &Command::Goto(0));
    if reply == Reply::Refused(Fault::Memory) && may_lack && is_noted(session, last) {
        reply = session.obey(alloc, &Command::Goto(0));
    }
    reply == Reply::At(0)
}

/// Goes to the start and undoes all edits: whether the bytes are those that were opened. No undoing runs out of memory.
fn go_home<P: Past>(
    alloc: Global,
    session: &mut Session<P>,
    script: &Script,
    last: Option<&Note>,
) -> bool {
    let mut is_home = insist_on_start(alloc, session, last);
    for _ in 0..session.undos() {
        let reply = session.obey(alloc, &Command::Undo);
        is_home &= matches!(reply, Reply::Undone(_));
    }
    let mut written = Comparison::new(script.bytes);
    let is_written = session.document().write_bytes(&mut written).is_ok();
    is_home && session.undos() == 0 && is_written && written.is_whole()
}

/// Notes of a session at first, after each line, and at home, where the lines are answered as they are to be.
fn note_down<P: Past>(
    alloc: Global,
    session: &mut Session<P>,
    script: &Script,
    answers: &[Answer],
) -> Option<Vec<Note>> {
    let mut notes = Vec::new(alloc);
    notes.push(Note::of(alloc, session)?).ok()?;
    for wanted in answers {
        let answer = try_line(alloc, session, wanted.line)?;
        if answer.text.as_slice() != wanted.text.as_slice() {
            return None;
        }
        notes.push(Note::of(alloc, session)?).ok()?;
    }
    if !go_home(alloc, session, script, None) {
        return None;
    }
    notes.push(Note::of(alloc, session)?).ok()?;
    Some(notes)
}

/// A script with the answers to its lines, and the notes of a session that keeps all records and of one that keeps two.
#[derive(Drop)]
struct Noted {
    script: Script,
    answers: Vec<Answer>,
    whole: Vec<Note>,
    window: Vec<Note>,
}

/// What is noted of a script with ample memory.
fn noted_of(alloc: Global, script: &Script) -> Result<Noted, Fail> {
    let answers = answers_of(alloc, script)?;
    let mut whole = opened(alloc, script)?;
    let whole = note_down(alloc, &mut whole, script, &answers).ok_or(DocFault::Memory)?;
    let mut window = opened_in_a_window(alloc, script)?;
    let window = note_down(alloc, &mut window, script, &answers).ok_or(DocFault::Memory)?;
    Ok(Noted {
        script: *script,
        answers,
        whole,
        window,
    })
}

/// Obeys all lines of a script and goes home, where one request for memory may be refused: whether all is as it was noted.
fn follow<P: Past>(alloc: Global, session: &mut Session<P>, noted: &Noted, notes: &[Note]) -> bool {
    let count = noted.answers.len();
    for (k, wanted) in noted.answers.iter().enumerate() {
        if !insist_on_line(alloc, session, wanted, notes, k) {
            return false;
        }
    }
    go_home(alloc, session, &noted.script, notes.get(count))
        && is_noted(session, notes.get(count.saturating_add(1)))
}

/// Whether a script is followed where one request for memory may be refused: in a session that keeps all records, and in one that
/// keeps two.
fn is_followed(alloc: Global, noted: &Noted) -> Result<bool, DocFault> {
    let mut session = match opened(alloc, &noted.script) {
        Err(DocFault::Memory) => opened(alloc, &noted.script)?,
        session => session?,
    };
    let mut window = match opened_in_a_window(alloc, &noted.script) {
        Err(DocFault::Memory) => opened_in_a_window(alloc, &noted.script)?,
        window => window?,
    };
    Ok(
        follow(alloc, &mut session, noted, &noted.whole)
            && follow(alloc, &mut window, noted, &noted.window),
    )
}

/// Notes of the scripts of some rows. Then says so in a line: a request for memory that is made after it may be refused.
fn all_noted(rt: &HostRuntime, rows: &[Row], many: bool) -> Result<Vec<Noted>, Fail> {
    let mut all = Vec::new(rt.alloc());
    for (bytes, lines) in rows {
        let script = Script { many, bytes, lines };
        all.push(noted_of(rt.alloc(), &script)?)?;
    }
    println!(rt; "noted")?;
    Ok(all)
}

/// The first script of some rows that is not followed as it was noted.
fn first_unfollowed(alloc: Global, all: &[Noted]) -> Result<Option<usize>, DocFault> {
    for (k, noted) in all.iter().enumerate() {
        if !is_followed(alloc, noted)? {
            return Ok(Some(k));
        }
    }
    Ok(None)
}

/// Run with each request for memory after the line refused in turn.
#[test]
fn refused_memory(rt: HostRuntime) -> Result<(), Fail> {
    let all = all_noted(&rt, &ONE, false)?;
    assert_eq!(rt; first_unfollowed(rt.alloc(), &all)?, None);
    Ok(())
}

/// The same of further scripts.
#[test]
fn refused_memory_of_further(rt: HostRuntime) -> Result<(), Fail> {
    let all = all_noted(&rt, &FURTHER, false)?;
    assert_eq!(rt; first_unfollowed(rt.alloc(), &all)?, None);
    Ok(())
}

/// The same over several pickles.
#[test]
fn refused_memory_of_many(rt: HostRuntime) -> Result<(), Fail> {
    let all = all_noted(&rt, &SEVERAL, true)?;
    assert_eq!(rt; first_unfollowed(rt.alloc(), &all)?, None);
    Ok(())
}

/// The same over bytes of one pickle that are read as several.
#[test]
fn refused_memory_of_one_as_many(rt: HostRuntime) -> Result<(), Fail> {
    let all = all_noted(&rt, &ONE, true)?;
    assert_eq!(rt; first_unfollowed(rt.alloc(), &all)?, None);
    Ok(())
}

#[test]
fn refused_memory_of_further_as_many(rt: HostRuntime) -> Result<(), Fail> {
    let all = all_noted(&rt, &FURTHER, true)?;
    assert_eq!(rt; first_unfollowed(rt.alloc(), &all)?, None);
    Ok(())
}

/// An answer that only a document has of more items than a test can make.
#[test]
fn too_many_items(rt: HostRuntime) -> Result<(), Fail> {
    let mut page = paper(rt.alloc())?;
    let reply = Reply::Refused(Fault::Edit(EditFault::TooManyItems));
    write_reply(End::Stopped, reply, &mut page)?;
    let text: &[u8] = b"refused: C9 E7 too many items\n";
    assert_eq!(rt; taken(page)?.as_slice(), text);
    Ok(())
}
