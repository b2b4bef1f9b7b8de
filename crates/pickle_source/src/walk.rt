//! Reads a pickle for its source.

ghost use Rattle.std.specs.Prelude.{◌≡◌, ◌≢◌, ◌+◌, ◌-◌, ◌^◌, ◌<◌, ◌≤◌, ⊤, length, Ok, Some, OnOk, OnErr, IfOk, IfErr};
ghost use Rattle.pickle_ops.specs.Row.{row_of};
ghost use Rattle.pickle_doc.specs.Unread.{Unread};
ghost use Rattle.pickle_machine.specs.State.{start};
ghost use Rattle.pickle_machine.specs.Move.{move, refusal_at};
ghost use Rattle.pickle_text.specs.Source.{GivesDocument};
ghost use Rattle.pickle_text.specs.Inside.Part.{IsPart};
ghost use Rattle.pickle_source.specs.Tale.{TaleOf};
ghost use Rattle.pickle_source.specs.Inside.Noted.{HasNoted};

use crate::act::{Act, protocol_after};
use crate::fact::Fact;
use crate::notes::Notes;
use pickle_calls::Before;
use pickle_doc::{ItemSource, NextRef, ends_reading, is_stop};
use pickle_machine::{Machine, Refusal};
use pickle_ops::{OpRef, Row};
use pickle_text::{Closing, ITEMS_OF_A_PART, Part, TextStop, closing_at};
use std::alloc::Global;

/// What the reading of a pickle leaves for its source, beside the machine.
#[derive(Drop)]
pub struct Tale {
    /// What is known of each object, by its number.
    pub facts: Vec<Fact>,
    /// What the opcodes do that the source may tell, in their order.
    pub acts: Vec<Act>,
    /// How the run ended.
    pub closing: Closing,
}

/// How far a machine was stepped over the items of a source.
#[derive(Drop)]
struct SoFar<I> {
    reader: I,
    place: usize,
    offset: u64,
    protocol: u64,
    /// Whether STOP was the last of them.
    stop: bool,
}

/// Steps a machine over an item, whose row this is, and keeps no record. Refused, it changes nothing. `Refusal::Memory` comes also where
/// there is no memory for a copy of the item's bytes, which an object keeps.
#[inline(always)]
fn step_over(
    alloc: Global,
    row: Row,
    op: &OpRef<'_>,
    place: usize,
    machine: &mut Machine,
) -> Result<(), Refusal>
    requires heap { length machine.old.state.heap < 2 ^ 32 - 1 }
    requires row { row ≡ row_of op.now }
    ensures ok { OnOk result (move op.now place machine.old.state ≡ Ok machine.new.state) }
    ensures objects { length machine.new.state.heap ≤ length machine.old.state.heap + 1 }
    ensures err { OnErr result (machine.new.state ≡ machine.old.state) }
    ensures refused { IfErr result (λ e. e ≢ Refusal.Memory → refusal_at op.now machine.old.state ≡ Some e) }
{
    machine.step_as(alloc, row, op, place)
}

/// Steps a machine over the items of one part, from how far it was stepped on, and notes what they do. There are `total` bytes.
#[inline(never)]
fn walk_part<'a, I: ItemSource<'a>>(
    alloc: Global,
    many: bool,
    total: u64,
    from: SoFar<I>,
    machine: &mut Machine,
    notes: &mut Notes,
) -> Result<Part<SoFar<I>, Closing>, TextStop>
    requires { (begun : Unread) × HasNoted many begun total I.unread machine.old.state notes.old.facts.items notes.old.acts.items from }
    ensures closes { (begun : Unread) → HasNoted many begun total I.unread machine.old.state notes.old.facts.items notes.old.acts.items from
        → IfOk result (IsPart (HasNoted many begun total I.unread machine.new.state notes.new.facts.items notes.new.acts.items)
        (TaleOf many begun.loose begun.rest machine.new.state notes.new.facts.items notes.new.acts.items)) }
    ensures memory { IfErr result (λ e. e ≡ TextStop.Memory) }
    ensures less { IfOk result (IsPart (λ far. length (I.unread far.reader).rest < length (I.unread from.reader).rest) (λ _. ⊤)) }
{
    let SoFar {
        mut reader,
        place: first,
        mut offset,
        mut protocol,
        mut stop,
    } = from;
    let end = first + ITEMS_OF_A_PART;
    'items: for place in first..end {
        match reader.next() {
            NextRef::Tail(fault) => {
                let left = reader.unread_len();
                return Ok(Part::End(closing_at(stop, left, fault, total - left)));
            }
            NextRef::Item(op) => {
                let row = Row::of_ref(&op);
                let before = Before::of(machine);
                if let Err(refusal) = step_over(alloc, row, &op, place, machine) {
                    if refusal == Refusal::Memory {
                        return Err(TextStop::Memory);
                    }
                    return Ok(Part::End(Closing::Refused(place, refusal)));
                }
                notes.note(offset, protocol, row, before, machine)?;
                protocol = protocol_after(row, protocol);
                offset += op.size() as u64;
                if ends_reading(many, op.opcode()) {
                    return Ok(Part::End(Closing::Stopped));
                }
                stop = is_stop(op.opcode());
            }
        }
    }
    Ok(Part::More(SoFar {
        reader,
        place: end,
        offset,
        protocol,
        stop,
    }))
}

/// Reads the items that a source gives from the first on, as several pickles or as one. A machine that has done nothing runs them, as far as
/// they have moves, and then has all their objects. The source is to give a document that is not too large.
///
/// `Memory` where there is no memory for a step or for what is noted of it.
pub fn walk_items<'a, I: ItemSource<'a>>(
    alloc: Global,
    many: bool,
    source: I,
    machine: &mut Machine,
) -> Result<Tale, TextStop>
    requires start { machine.old.state ≡ start many }
    requires document { GivesDocument many (I.unread source) }
    ensures tale { IfOk result (λ t. TaleOf many (I.unread source).loose (I.unread source).rest machine.new.state t.facts.items t.acts.items t.closing) }
    ensures memory { IfErr result (λ e. e ≡ TextStop.Memory) }
{
    let total = source.unread_len();
    let mut notes = Notes::new(alloc);
    let mut far = SoFar {
        reader: source,
        place: 0,
        offset: 0,
        protocol: 0,
        stop: false,
    };
    'parts: loop {
        match walk_part(alloc, many, total, far, machine, &mut notes)? {
            Part::More(next) => far = next,
            Part::End(closing) => {
                let Notes { facts, acts } = notes;
                return Ok(Tale {
                    facts,
                    acts,
                    closing,
                });
            }
        }
    }
}
