//! What is noted while a pickle is read: the facts of its objects, and what its opcodes do that the source may tell.

ghost use Rattle.std.specs.Prelude.{◌≡◌, ◌<◌, ◌^◌, ◌++◌, ◌∷◌, [], length, nat_lt, set, slice_get, if◌then◌else◌, OnOk};
ghost use Rattle.std.specs.Option.{option_map_or};
ghost use Rattle.pickle_calls.specs.Event.{before_of};
ghost use Rattle.pickle_source.specs.Fact.{fact_at, filled};
ghost use Rattle.pickle_source.specs.Act.{last_of};
ghost use Rattle.pickle_source.specs.Tale.{at_fact, given, filled_by, filled_at, made_facts, noted};

use crate::act::{Act, count_of, first_of, last_of, what_of};
use crate::fact::{Fact, fact_at, fact_of, filled};
use pickle_calls::Before;
use pickle_machine::Machine;
use pickle_ops::{Filling, ObjId, Object, Row};
use std::alloc::{AllocError, Global};

/// What is noted while a pickle is read.
#[derive(Drop)]
pub struct Notes {
    /// What is known of each object, by its number.
    pub facts: Vec<Fact>,
    /// What the opcodes do that the source may tell, in their order.
    pub acts: Vec<Act>,
}

/// The pickle fetches the object of this number again, so that it has a name.
fn note_fetched(id: ObjId, facts: &mut Vec<Fact>)
    ensures { facts.new.items ≡ at_fact given facts.old.items id }
{
    let place = id as usize;
    if place < facts.len() {
        let fact = fact_at(facts.as_slice(), id);
        facts[place] = Fact {
            named: true,
            depth: fact.depth,
            plain: fact.plain,
        };
    }
}

/// What is known of an object after its last changes, so many of them, were put into it so.
fn filled_fact(facts: &[Fact], filling: Filling, count: usize, id: ObjId, object: &Object) -> Fact
    ensures { result ≡ filled facts.now filling object.now.kind (last_of count object.now.changes) (fact_at facts.now id) }
{
    let changes = last_of(count, object.changes());
    filled(facts, filling, object.kind(), changes, fact_at(facts, id))
}

/// The last changes of an object, so many of them, were put into it so.
fn note_object(object: &Object, filling: Filling, count: usize, id: ObjId, facts: &mut Vec<Fact>)
    ensures { facts.new.items ≡ filled_by filling count facts.old.items id object.now }
{
    let place = id as usize;
    if place < facts.len() {
        let fact = filled_fact(facts.as_slice(), filling, count, id, object);
        facts[place] = fact;
    }
}

/// The last changes of the object of this number, so many of them, were put into it so.
fn note_filled(machine: &Machine, filling: Filling, count: usize, id: ObjId, facts: &mut Vec<Fact>)
    ensures { facts.new.items ≡ filled_at machine.now.state.heap filling count facts.old.items id }
{
    if let Some(object) = machine.object(id) {
        note_object(object, filling, count, id, facts);
    }
}

/// The object of this number was made, if it is there.
fn note_made(machine: &Machine, id: ObjId, facts: &mut Vec<Fact>) -> Result<(), AllocError>
    ensures { OnOk result (facts.new.items ≡ made_facts machine.now.state.heap id facts.old.items) }
{
    match machine.object(id) {
        Some(object) => {
            let fact = fact_of(facts.as_slice(), object);
            facts.push(fact)?;
            Ok(())
        }
        None => Ok(()),
    }
}

/// What is known after a step of this row: this was looked at before it, and this is the machine after it.
fn note_facts(
    row: Row,
    before: Before,
    machine: &Machine,
    facts: &mut Vec<Fact>,
) -> Result<(), AllocError>
    requires { length machine.now.state.heap < 2 ^ 32 }
    ensures { OnOk result (facts.new.items ≡ noted row before machine.now.state facts.old.items) }
{
    let after = Before::of(machine);
    match row {
        Row::Change(filling) => {
            let count = count_of(filling, before, after);
            note_filled(machine, filling, count, after.top, facts);
            Ok(())
        }
        Row::CutChange(filling) => {
            let count = count_of(filling, before, after);
            note_filled(machine, filling, count, after.top, facts);
            Ok(())
        }
        Row::Get(_) => {
            note_fetched(after.top, facts);
            Ok(())
        }
        Row::Dup => {
            note_fetched(after.top, facts);
            Ok(())
        }
        _ => note_made(machine, before.next, facts),
    }
}

impl Notes {
    ghost use Rattle.std.specs.Prelude.{◌≡◌, ◌<◌, ◌^◌, [], length, OnOk};
    ghost use Rattle.pickle_source.specs.Tale.{noted, noted_act};

    /// Nothing was read.
    pub fn new(alloc: Global) -> Notes
        ensures facts { result.facts.items ≡ [] }
        ensures acts { result.acts.items ≡ [] }
    {
        Notes {
            facts: Vec::new(alloc),
            acts: Vec::new(alloc),
        }
    }

    /// After a step of this row, whose opcode is at this offset and is read by this protocol: this was looked at before it, and this is the machine after it.
    pub fn note(
        &mut self,
        offset: u64,
        protocol: u64,
        row: Row,
        before: Before,
        machine: &Machine,
    ) -> Result<(), AllocError>
        requires { length machine.now.state.heap < 2 ^ 32 }
        ensures facts { OnOk result (self.new.facts.items ≡ noted row before machine.now.state self.old.facts.items) }
        ensures acts { OnOk result (self.new.acts.items ≡ noted_act offset protocol row before machine.now.state self.old.acts.items) }
    {
        note_facts(row, before, machine, &mut self.facts)?;
        match what_of(row, before, machine) {
            Some(what) => {
                let first = first_of(row, before, machine);
                self.acts.push(Act {
                    offset,
                    protocol,
                    first,
                    what,
                })?;
                Ok(())
            }
            None => Ok(()),
        }
    }
}
