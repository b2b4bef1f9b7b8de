//! The machine that moves as loaders do. Its memo has keys of any size.

ghost use Rattle.std.specs.Prelude.{◌≡◌, ◌+◌, IfSome, OnOk, OnErr};
ghost use Rattle.std.specs.Ordering.{nat_cmp};
ghost use Rattle.std.specs.BTreeMap.{insert_entry};
ghost use Rattle.pickle_further.specs.Far.{with_far, IsApart, counted, ComesTo};

use pickle_lenient::{Number, is_far};
use pickle_machine::{Inspect, LoaderMove, Machine, Refusal};
use pickle_ops::{Class, Look, ObjId, Op, Opcode, Row};
use std::alloc::{AllocError, Global};
use std::collections::BTreeMap;
use std::marker::Model;

/// A machine, and beside it the entries of its memo whose keys have more than 64 bits.
#[derive(Drop)]
pub struct LoaderMachine {
    machine: Machine,
    far: BTreeMap<Number, ObjId>,
}

impl Model for LoaderMachine {
    ghost use Rattle.pickle_machine.specs.Held.{Held};
    ghost use Rattle.pickle_further.specs.Far.{with_far, IsApart};

    ghost Value = { Held };

    ghost view = { λ m. record m.machine { state = with_far m.far.entries m.machine.state } };

    ghost invariant = { λ m. IsApart m.far.entries m.machine.state };
}

/// How many entries there are in all; none where they are too many to be counted.
fn count_of(near: usize, far: usize) -> Option<u64>
    ensures { IfSome result (λ n. n ≡ near + far) }
{
    (near as u64).checked_add(far as u64)
}

/// Maps a key to an object. An error comes only where memory runs out, and changes nothing.
fn put_in(far: &mut BTreeMap<Number, ObjId>, number: Number, id: ObjId) -> Result<(), AllocError>
    ensures ok { OnOk result (far.new.entries ≡ insert_entry nat_cmp far.old.entries number id) }
    ensures err { OnErr result (far.new.entries ≡ far.old.entries) }
{
    match far.insert(number, id) {
        Ok(_) => Ok(()),
        Err(_) => Err(AllocError),
    }
}

impl Inspect for LoaderMachine {
    ghost state = { λ m. m.state };

    fn objects(&self) -> usize {
        self.machine.objects()
    }

    fn class_at(&self, id: ObjId) -> Option<Class> {
        self.machine.class_at(id)
    }

    fn look(&self, id: ObjId) -> Option<Look<'_>> {
        self.machine.look(id)
    }

    fn stack_len(&self) -> usize {
        self.machine.stack_len()
    }

    fn stack_at(&self, i: usize) -> Option<ObjId> {
        self.machine.stack_at(i)
    }
}

#[tactic(auto, using(crate::proofs::Fars::far_rules))]
impl LoaderMachine {
    ghost use Rattle.std.specs.Prelude.{◌≡◌, ◌≢◌, ◌+◌, ◌-◌, ◌<◌, ◌≤◌, ◌^◌, true, false, length, IfOk, IfErr, IfSome, OnOk, Ok, Some};
    ghost use Rattle.pickle_machine.specs.Move.{fresh, refusal_of};
    ghost use Rattle.pickle_machine.specs.Loader.{loader_move, move_as, cleared};
    ghost use Rattle.pickle_further.specs.Far.{counted, ComesTo};

    /// The same with this machine.
    pub fn new(alloc: Global, machine: Machine) -> LoaderMachine
        ensures { result ≡ machine }
    {
        prove!(machine.has_short_keys());
        LoaderMachine {
            machine,
            far: BTreeMap::new(alloc),
        }
    }

    /// How a loader moves at this opcode, whose row this is.
    pub fn loader_move(&self, opcode: Opcode, row: Row) -> LoaderMove
        ensures { result ≡ loader_move opcode row (fresh self.now.state) }
    {
        self.machine.loader_move(opcode, row)
    }

    /// The row as which the machine moves: its own memo does not have all entries. None where they are too many to be counted.
    fn counted(&self, row: Row) -> Option<Row>
        ensures { IfSome result (λ r. r ≡ counted row self.now.state.memo) }
    {
        match row {
            Row::Memoize => match count_of(self.machine.memo_len(), self.far.len()) {
                Some(key) => Some(Row::Put(key)),
                None => None,
            },
            _ => Some(row),
        }
    }

    /// One step within a pickle.
    fn step_within(&mut self, alloc: Global, row: Row, op: &Op, place: usize) -> Result<(), Refusal>
        requires heap { length self.old.state.heap < 2 ^ 32 - 1 }
        requires within { self.old.state.stopped ≡ false }
        ensures ok { OnOk result (move_as row op.now place self.old.state ≡ Ok self.new.state) }
        ensures refused { IfErr result (λ e. e ≢ Refusal.Memory → refusal_of row (fresh self.old.state) ≡ Some e) }
        ensures objects { length self.new.state.heap ≤ length self.old.state.heap + 1 }
    {
        let Some(own) = self.counted(row) else {
            return Err(Refusal::Memory);
        };
        prove!(!is_far(own));
        let _objects = self.machine.objects();
        self.machine.step_as(alloc, own, &op.by_ref(), place)?;
        prove!(self.machine.has_short_keys());
        Ok(())
    }

    /// One step as the first of a further pickle, which begins with an empty memo.
    fn step_first(&mut self, alloc: Global, row: Row, op: &Op, place: usize) -> Result<(), Refusal>
        requires heap { length self.old.state.heap < 2 ^ 32 - 1 }
        requires stopped { self.old.state.stopped ≡ true }
        ensures ok { OnOk result (move_as row op.now place self.old.state ≡ Ok self.new.state) }
        ensures refused { IfErr result (λ e. e ≢ Refusal.Memory → refusal_of row (fresh self.old.state) ≡ Some e) }
        ensures objects { length self.new.state.heap ≤ length self.old.state.heap + 1 }
    {
        self.far.clear();
        self.machine.step_as(alloc, row, &op.by_ref(), place)?;
        prove!(self.machine.has_short_keys());
        Ok(())
    }

    /// One step forwards as a row that need not be the operation's own: what it makes is of the operation's kind.
    pub fn step_as(&mut self, alloc: Global, row: Row, op: &Op, place: usize) -> Result<(), Refusal>
        requires { length self.old.state.heap < 2 ^ 32 - 1 }
        ensures ok { OnOk result (move_as row op.now place self.old.state ≡ Ok self.new.state) }
        ensures refused { IfErr result (λ e. e ≢ Refusal.Memory → refusal_of row (fresh self.old.state) ≡ Some e) }
        ensures objects { length self.new.state.heap ≤ length self.old.state.heap + 1 }
    {
        if self.has_stopped() {
            self.step_first(alloc, row, op, place)
        } else {
            self.step_within(alloc, row, op, place)
        }
    }

    /// Whether the last move was STOP, where several pickles are read.
    fn has_stopped(&self) -> bool
        ensures { result ≡ self.now.state.stopped }
    {
        self.machine.has_stopped()
    }

    /// GET of a number of more than 64 bits: whether the memo has it.
    pub fn get_far(&mut self, number: Number) -> Result<bool, AllocError>
        requires { 2 ^ 64 ≤ number }
        ensures ok { IfOk result (ComesTo (Row.Get number) self.old.state self.new.state) }
        ensures heap { self.new.state.heap ≡ self.old.state.heap }
    {
        if self.machine.has_stopped() {
            return Ok(false);
        }
        match self.far.get(&number) {
            None => Ok(false),
            Some(id) => {
                self.machine.put_on(*id)?;
                Ok(true)
            }
        }
    }

    /// PUT of a number of more than 64 bits: whether there is a top.
    pub fn put_far(&mut self, number: Number) -> Result<bool, AllocError>
        requires { 2 ^ 64 ≤ number }
        ensures ok { IfOk result (ComesTo (Row.Put number) self.old.state self.new.state) }
        ensures heap { self.new.state.heap ≡ self.old.state.heap }
    {
        if self.machine.has_stopped() {
            return Ok(false);
        }
        let _objects = self.machine.objects();
        match self.machine.top() {
            None => Ok(false),
            Some(id) => {
                put_in(&mut self.far, number, id)?;
                Ok(true)
            }
        }
    }

    /// What an unpickler does that loads again after STOP: the stack, the marks and the result begin anew, and objects, memo and the
    /// count of buffers stay.
    pub fn clear_stack(&mut self)
        ensures { self.new ≡ record self.old { state = cleared self.old.state } }
    {
        self.machine.clear_stack();
    }
}
