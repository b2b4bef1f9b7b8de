//! What an opcode does that the source may tell.

ghost use Rattle.std.specs.Prelude.{◌≡◌, ◌-◌, ◌<◌, ◌^◌, drop, length, slice_get};
ghost use Rattle.std.specs.Option.{option_map_or};
ghost use Rattle.pickle_calls.specs.Event.{before_of, top_of, taken_count, filled_count, event_of};
ghost use Rattle.pickle_source.specs.Act.{count_of, changes_at, last_of, made_at, held_of, fill_of, what_of, before_those, first_of, protocol_after};

use crate::value::is_short_value;
use pickle_calls::{Before, Event, event_of};
use pickle_machine::Machine;
use pickle_ops::{Change, Filling, ObjId, Row};

/// What an opcode does that the source may tell.
#[derive(Clone, Copy)]
pub enum What {
    /// It reaches out of the pickle.
    Reached(Event),
    /// It makes this object, which may have a name.
    Made(ObjId),
    /// It puts so many changes into this object.
    Filled(ObjId, usize),
    /// It gives this object as a result.
    Result(ObjId),
}

/// What the opcode at an offset does.
#[derive(Clone, Copy)]
pub struct Act {
    /// The offset, in bytes.
    pub offset: u64,
    /// The protocol that PROTO gave, by which names are read; 0 where there was none.
    pub protocol: u64,
    /// How many changes of the object that is filled come before its own; of a result, how many
    /// there are with it.
    pub first: usize,
    /// What it does.
    pub what: What,
}

/// How many items, pairs or members a step put into an object: this was looked at before it, and that after it.
pub(crate) fn count_of(filling: Filling, before: Before, after: Before) -> usize
    ensures { result ≡ count_of filling before after }
{
    let taken = before.size.saturating_sub(after.size);
    match filling {
        Filling::SetItem => taken / 2,
        _ => taken,
    }
}

/// What was done to the object of this number.
pub fn changes_at(machine: &Machine, id: ObjId) -> &[Change]
    ensures { result.now ≡ changes_at machine.now.state.heap id }
{
    match machine.object(id) {
        Some(object) => object.changes(),
        None => &[],
    }
}

/// The last changes, this many of them.
pub(crate) fn last_of(count: usize, changes: &[Change]) -> &[Change]
    ensures { result.now ≡ last_of count changes.now }
{
    &changes[changes.len().saturating_sub(count)..]
}

/// What a step does that put so many changes into this object.
fn filled(count: usize, id: ObjId) -> Option<What>
    ensures { result ≡ fill_of count id }
{
    if count == 0 {
        return None;
    }
    Some(What::Filled(id, count))
}

/// What a step does that makes the object of this number, if it made one that may have a name.
fn made(id: ObjId, machine: &Machine) -> Option<What>
    ensures { result ≡ made_at machine.now.state.heap id }
{
    match machine.object(id) {
        Some(object) => {
            if is_short_value(object.kind()) {
                None
            } else {
                Some(What::Made(id))
            }
        }
        None => None,
    }
}

/// What a step of this row does that stays in the pickle.
fn held_of(row: Row, before: Before, after: Before, machine: &Machine) -> Option<What>
    ensures { result ≡ held_of row before after machine.now.state.heap }
{
    match row {
        Row::Change(filling) => filled(count_of(filling, before, after), after.top),
        Row::CutChange(filling) => filled(count_of(filling, before, after), after.top),
        Row::Stop => Some(What::Result(before.top)),
        _ => made(before.next, machine),
    }
}

/// How many changes of the object that a step put so many into come before these.
fn before_those(count: usize, id: ObjId, machine: &Machine) -> usize
    ensures { result ≡ before_those count machine.now.state.heap id }
{
    changes_at(machine, id).len().saturating_sub(count)
}

/// How many changes of the object that a step of this row fills come before those of the step; of a result, how many there are with it.
pub(crate) fn first_of(row: Row, before: Before, machine: &Machine) -> usize
    requires { length machine.now.state.heap < 2 ^ 32 }
    ensures { result ≡ first_of row before machine.now.state }
{
    let after = Before::of(machine);
    match row {
        Row::Change(filling) => {
            before_those(count_of(filling, before, after), after.top, machine)
        }
        Row::CutChange(filling) => {
            before_those(count_of(filling, before, after), after.top, machine)
        }
        Row::Stop => machine.results().len(),
        _ => 0,
    }
}

/// The protocol by which names are read after a step of this row.
pub(crate) fn protocol_after(row: Row, protocol: u64) -> u64
    ensures { result ≡ protocol_after row protocol }
{
    match row {
        Row::Protocol(protocol) => protocol,
        Row::Stop => 0,
        _ => protocol,
    }
}

/// What a step of this row does that the source may tell: this was looked at before it, and this is the machine after it.
pub(crate) fn what_of(row: Row, before: Before, machine: &Machine) -> Option<What>
    requires { length machine.now.state.heap < 2 ^ 32 }
    ensures { result ≡ what_of row before machine.now.state }
{
    match event_of(row, before, machine) {
        Some(event) => Some(What::Reached(event)),
        None => held_of(row, before, Before::of(machine), machine),
    }
}
