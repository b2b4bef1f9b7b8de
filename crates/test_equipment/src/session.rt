//! What a session shows as a text, by its readers, and notes of it.

use crate::pages::{paper, taken};
use crate::state::{Comparison, write_state};
use pickle_io::{Failed, Page, ToWrite, write_all, write_decimal};
use pickle_session::{Past, Session};
use std::alloc::Global;

/// Writes a blank and a number.
fn write_number<S: Page>(number: usize, page: &mut S) -> Result<(), Failed> {
    write_all(page, b" ")?;
    write_decimal(number as u64, page)
}

/// Writes what a session shows, but for its bytes, records and counters: the cursor and the number of items, how many edits
/// can be undone and made again, the places with a breakpoint, and the state of the machine.
pub fn write_session<P: Past, S: Page>(session: &Session<P>, page: &mut S) -> Result<(), Failed> {
    write_all(page, b"at")?;
    write_number(session.cursor(), page)?;
    write_all(page, b" of")?;
    write_number(session.document().len(), page)?;
    if session.undos() > 0 || session.redos() > 0 {
        write_all(page, b", edits")?;
        write_number(session.undos(), page)?;
        write_number(session.redos(), page)?;
    }
    write_breaks(session, page)?;
    write_all(page, b": ")?;
    write_state(session.machine(), page)
}

/// Writes the places with a breakpoint. There is none at the end.
fn write_breaks<P: Past, S: Page>(session: &Session<P>, page: &mut S) -> Result<(), Failed> {
    let mut is_first = true;
    for place in 0..=session.document().len() {
        if session.has_break(place) {
            if is_first {
                write_all(page, b", breaks")?;
            }
            is_first = false;
            write_number(place, page)?;
        }
    }
    Ok(())
}

/// Whether a session shows this, and has these bytes. It takes no memory.
pub fn shows<P: Past>(session: &Session<P>, shown: &[u8], bytes: &[u8]) -> bool {
    let mut compared = Comparison::new(shown);
    let mut written = Comparison::new(bytes);
    let is_compared = write_session(session, &mut compared).is_ok();
    let is_written = session.document().write_bytes(&mut written).is_ok();
    let offset = session.document().offset(session.cursor());
    offset == Some(session.offset())
        && is_compared
        && is_written
        && compared.is_whole()
        && written.is_whole()
}

/// What a session shows, with its bytes and the number of records that it keeps, written down to be compared with what it shows later.
#[derive(Drop)]
pub struct Note {
    shown: Vec<u8>,
    bytes: Vec<u8>,
    kept: usize,
}

impl Note {
    /// The note of a session as it is; none where memory runs out.
    pub fn of<P: Past>(alloc: Global, session: &Session<P>) -> Option<Note> {
        let mut shown = paper(alloc).ok()?;
        write_session(session, &mut shown).ok()?;
        let mut bytes = ToWrite::new(Vec::new(alloc));
        session.document().write_bytes(&mut bytes).ok()?;
        Some(Note {
            shown: taken(shown).ok()?,
            bytes: bytes.into_inner(),
            kept: session.kept(),
        })
    }
}

/// Whether a session is as a note says; no session is where there is none. It takes no memory.
pub fn is_noted<P: Past>(session: &Session<P>, note: Option<&Note>) -> bool {
    match note {
        Some(note) => session.kept() == note.kept && shows(session, &note.shown, &note.bytes),
        None => false,
    }
}
