//! The line that `calls` prints for one item.

ghost use Rattle.std.specs.Prelude.{◌≡◌, ◌≤◌, [], length, IfOk};
ghost use Rattle.pickle_io.specs.Holes.{in_file};
ghost use Rattle.pickle_doc.specs.Document.{size_limit};
ghost use Rattle.pickle_calls.specs.CallsLine.{line_of};
ghost use Rattle.pickle_gate.specs.Line.{IsLineAt};

use pickle_calls::{Before, Detail, Event, Naming, event_of, write_line};
use pickle_doc::{ItemSource, Items, NextRef, is_stop};
use pickle_io::{Buffered, Holes, Sink, ToWrite};
use pickle_machine::{Inspect, Refusal, Slim};
use pickle_ops::{ObjId, Row};
use std::alloc::{AllocError, Global};

/// The line of an event, in memory.
fn line_of<M: Inspect>(
    alloc: Global,
    offset: u64,
    naming: Naming,
    machine: &M,
    event: Option<Event>,
) -> Result<Vec<u8>, AllocError>
    ensures { IfOk result (λ line. line.items ≡ line_of (in_file [] offset) naming (M.state machine.now).heap event) }
{
    let holes = Holes::new(alloc);
    let mut page = Buffered::new(alloc, ToWrite::new(Vec::new(alloc)))?;
    if write_line(&holes, offset, naming, machine, event, &mut page).is_err()
        || page.flush().is_err()
    {
        return Err(AllocError);
    }
    Ok(page.into_inner().into_inner())
}

/// The line that `calls` prints for the item at a place of the pickle that the bytes are, with arguments cut; nothing where it prints none.
/// The items before it are run once more for that. There are to be no more bytes than the limit. It fails only where memory runs out.
pub fn line_at(alloc: Global, bytes: &[u8], place: usize) -> Result<Vec<u8>, AllocError>
    requires { length bytes.now ≤ size_limit }
    ensures { IfOk result (λ line. IsLineAt bytes.now place line.items) }
{
    let mut reader = Items::new(bytes);
    let mut machine = Slim::new(alloc, false, bytes);
    let mut naming = Naming::begin(Detail::Cut, 0);
    let mut offset = 0;
    'items: for at in 0..bytes.len() {
        match reader.next() {
            NextRef::Tail(_) => return Ok(Vec::new(alloc)),
            NextRef::Item(op) => {
                let row = Row::of_ref(&op);
                let before = Before::of(&machine);
                if let Err(refusal) = machine.step(alloc, row, &op) {
                    if refusal == Refusal::Memory {
                        return Err(AllocError);
                    }
                    return Ok(Vec::new(alloc));
                }
                if at == place {
                    let event = event_of(row, before, &machine);
                    return line_of(alloc, offset, naming, &machine, event);
                }
                if is_stop(op.opcode()) {
                    return Ok(Vec::new(alloc));
                }
                naming = naming.after(row, machine.objects() as ObjId);
                offset += op.size() as u64;
            }
        }
    }
    Ok(Vec::new(alloc))
}
