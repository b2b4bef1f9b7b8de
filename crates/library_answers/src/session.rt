//! Sessions by handle: opened, asked line by line, and closed.

ghost use Rattle.std.specs.Prelude.{◌≡◌, ◌≤◌, ◌<◌, ◌↔◌, ◌&&◌, [], nat_le, None, length, IfOk, Err};
ghost use Rattle.pickle_doc.specs.Document.{size_limit};
ghost use Rattle.pickle_script.specs.declared.stop.Stop.TheVariants as stops;
ghost use Rattle.library_answers.specs.Asked.{are_modes};
ghost use Rattle.library_answers.specs.Handle.{IsNew, OpensNew, Opens, AsksOpen, AsksOpenJson, Asks, AsksJson, AsksAgain, AreBytes, AsksBytes, most_steps};
ghost use Rattle.library_answers.specs.Answer.{Puts, Fills};

use crate::asked;
use crate::conversation::{Conversation, Lack};
use crate::fill::{DONE, LOST, NO_TASK, OUT_OF_MEMORY, Written, number_of, put};
use crate::handle::{Handle, put_in, take};
use pickle_script::Stop;
use std::alloc::Global;

/// The most steps that may be remembered, where not all are.
const MOST_STEPS: usize = 1_000_000;

/// A session of an input that is read as the options say.
fn open_box(
    alloc: Global,
    options: u32,
    window: usize,
    bytes: &[u8],
) -> Result<Box<Conversation>, Stop>
    requires few { window ≤ 1000000 }
    ensures opened { IfOk result (λ b. IsNew options window bytes.now b.value) }
    ensures large { (result ≡ Err stops.TooLarge) ↔ (size_limit < length bytes.now) }
{
    let (many, loose) = (asked::is_many(options), asked::is_loose(options));
    let talk = Conversation::open(alloc, window, many, loose, bytes)?;
    match Box::new(alloc, talk) {
        Ok(talk) => Ok(talk),
        Err(_) => Err(Stop::Memory),
    }
}

/// Opens a session in a handle that is closed.
fn open_new(alloc: Global, options: u32, window: usize, bytes: &[u8], handle: &mut Handle) -> u8
    requires few { window ≤ 1000000 }
    requires closed { handle.old.talk ≡ None }
    ensures { OpensNew options window bytes.now handle.old.talk handle.new.talk result }
{
    match open_box(alloc, options, window, bytes) {
        Ok(talk) => {
            put_in(handle, talk);
            DONE
        }
        Err(stop) => number_of(stop),
    }
}

/// Whether a session may be opened with these.
fn are_allowed(options: u32, window: usize) -> bool
    ensures { result ≡ (are_modes options && nat_le window most_steps) }
{
    asked::are_modes(options) && window <= MOST_STEPS
}

/// Opens a session in a handle, as the options and the window say, if none is open in it.
pub fn open(alloc: Global, options: u32, window: usize, bytes: &[u8], handle: &mut Handle) -> u8
    ensures { Opens options window bytes.now handle.old.talk handle.new.talk result }
{
    if !are_allowed(options, window) {
        return NO_TASK;
    }
    match take(alloc, handle) {
        Some(talk) => {
            put_in(handle, talk);
            NO_TASK
        }
        None => open_new(alloc, options, window, bytes, handle),
    }
}

/// Asks a session a line, and puts its text at the start of `out`.
fn ask_open(
    alloc: Global,
    talk: &mut Conversation,
    line: &[u8],
    out: &mut [u8],
    written: &mut Written,
) -> u8
    ensures { AsksOpen line.now talk.old talk.new out.old out.new written.new result }
{
    match talk.ask(alloc, line) {
        Ok(()) => put(talk.text(), talk.status(), out, written),
        Err(Lack::Room) => OUT_OF_MEMORY,
        Err(Lack::Text) => LOST,
    }
}

/// Asks the session of a handle a line, and puts its text at the start of `out`.
pub fn ask(
    alloc: Global,
    handle: &mut Handle,
    line: &[u8],
    out: &mut [u8],
    written: &mut Written,
) -> u8
    ensures { Asks line.now handle.old.talk handle.new.talk out.old out.new written.new result }
{
    match take(alloc, handle) {
        Some(mut talk) => {
            let answer = ask_open(alloc, &mut talk, line, out, written);
            put_in(handle, talk);
            answer
        }
        None => NO_TASK,
    }
}

/// Asks a session a line, and puts the line of JSON that answers it at the start of `out`.
fn ask_open_json(
    alloc: Global,
    talk: &mut Conversation,
    line: &[u8],
    out: &mut [u8],
    written: &mut Written,
) -> u8
    ensures { AsksOpenJson line.now talk.old talk.new out.old out.new written.new result }
{
    match talk.ask_json(alloc, line) {
        Ok(()) => put(talk.text(), talk.status(), out, written),
        Err(Lack::Room) => OUT_OF_MEMORY,
        Err(Lack::Text) => LOST,
    }
}

/// Asks the session of a handle a line, and puts the line of JSON that answers it at the start of `out`.
pub fn ask_json(
    alloc: Global,
    handle: &mut Handle,
    line: &[u8],
    out: &mut [u8],
    written: &mut Written,
) -> u8
    ensures { AsksJson line.now handle.old.talk handle.new.talk out.old out.new written.new result }
{
    match take(alloc, handle) {
        Some(mut talk) => {
            let answer = ask_open_json(alloc, &mut talk, line, out, written);
            put_in(handle, talk);
            answer
        }
        None => NO_TASK,
    }
}

/// Puts the text of the latest line at the start of `out` once more.
pub fn ask_again(alloc: Global, handle: &mut Handle, out: &mut [u8], written: &mut Written) -> u8
    ensures { AsksAgain handle.old.talk handle.new.talk out.old out.new written.new result }
{
    match take(alloc, handle) {
        Some(talk) => {
            let answer = put(talk.text(), talk.status(), out, written);
            put_in(handle, talk);
            answer
        }
        None => NO_TASK,
    }
}

/// Puts the bytes of a session's document at the start of `out`.
fn put_bytes(alloc: Global, talk: &Conversation, out: &mut [u8], written: &mut Written) -> u8
    ensures { Fills (AreBytes talk.now) [] out.old out.new written.new result }
{
    match talk.bytes(alloc) {
        Ok(bytes) => put(bytes.as_slice(), 0, out, written),
        // (all else is that memory ran out)
        Err(_) => OUT_OF_MEMORY,
    }
}

/// Puts the bytes of the document of the session of a handle at the start of `out`.
pub fn ask_bytes(alloc: Global, handle: &mut Handle, out: &mut [u8], written: &mut Written) -> u8
    ensures { AsksBytes handle.old.talk handle.new.talk out.old out.new written.new result }
{
    match take(alloc, handle) {
        Some(talk) => {
            let answer = put_bytes(alloc, &talk, out, written);
            put_in(handle, talk);
            answer
        }
        None => NO_TASK,
    }
}

/// Closes the session of a handle, if one is open, and gives back all its memory.
pub fn close(alloc: Global, handle: &mut Handle) -> u8
    ensures closed { handle.new.talk ≡ None }
    ensures done { result ≡ 0 }
{
    let _closed = take(alloc, handle);
    DONE
}
