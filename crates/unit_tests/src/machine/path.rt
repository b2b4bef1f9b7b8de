//! The way through operations forwards, with what is seen at each place written down, and the way back.

ghost use Rattle.std.specs.Prelude.{◌≡◌, IfOk, OnOk, OnErr};
ghost use Rattle.pickle_machine.specs.Held.{KeepsRooms, Fits};
ghost use Rattle.pickle_machine.specs.Back.{Leads};

use pickle_io::Failed;
use pickle_machine::{Machine, Refusal, StepRecord};
use pickle_ops::{Op, OpFault, Opcode, read_op};
use std::alloc::{AllocError, AllocFailed, Global};
use test_equipment::{paper, shows_state, taken, write_state};

/// What was seen that should not be, and at which place.
#[derive(Clone, Copy, Debug, PartialEq, Eq)]
pub enum Fault {
    /// The bytes are no operation.
    Bytes(OpFault),
    /// A test's own memory was refused.
    Memory,
    /// The machine refused the operation, or `check` did.
    Refused(usize, Refusal),
    /// A free step ran out of memory.
    NotFree(usize),
    /// The state is not what was written down.
    Differs(usize),
    /// A move was not counted as one.
    Moves(usize),
    /// There are too many objects for a test.
    Objects,
}

impl From<OpFault> for Fault {
    fn from(fault: OpFault) -> Fault {
        match fault {
            OpFault::Memory => Fault::Memory,
            other => Fault::Bytes(other),
        }
    }
}

impl From<Failed> for Fault {
    fn from(_failed: Failed) -> Fault {
        Fault::Memory
    }
}

impl From<AllocError> for Fault {
    fn from(_error: AllocError) -> Fault {
        Fault::Memory
    }
}

impl<T: Drop> From<AllocFailed<T>> for Fault {
    fn from(_error: AllocFailed<T>) -> Fault {
        Fault::Memory
    }
}

/// The operations that the bytes spell, to their end.
fn ops_of(alloc: Global, bytes: &[u8]) -> Result<Vec<Op>, Fault> {
    let mut ops = Vec::new(alloc);
    let mut rest = bytes;
    for _ in 0..bytes.len() {
        if !rest.is_empty() {
            let (op, size) = read_op(alloc, rest)?;
            ops.push(op)?;
            rest = rest.get(size..).unwrap_or_default();
        }
    }
    Ok(ops)
}

/// The whole state of a machine as a text.
pub fn state_of(alloc: Global, machine: &Machine) -> Result<Vec<u8>, Fault> {
    let mut page = paper(alloc)?;
    write_state(machine, &mut page)?;
    Ok(taken(page)?)
}

/// One step of a machine whose objects are few.
fn take_step(
    machine: &mut Machine,
    alloc: Global,
    op: &Op,
    place: usize,
) -> Result<StepRecord, Fault>
    ensures leads { IfOk result (λ r. Leads r machine.new.state machine.old.state) }
    ensures fits { OnOk result (Fits machine.old.state machine.new) }
    ensures err { OnErr result (machine.new.state ≡ machine.old.state) }
    ensures rooms { KeepsRooms machine.old machine.new }
{
    if machine.objects() >= 1_000_000 {
        return Err(Fault::Objects);
    }
    if let Some(refusal) = machine.check(op) {
        return Err(Fault::Refused(place, refusal));
    }
    match machine.step(alloc, op, place) {
        Ok(record) => Ok(record),
        Err(refusal) => Err(Fault::Refused(place, refusal)),
    }
}

/// Steps through operations to their end.
pub fn run(machine: &mut Machine, alloc: Global, ops: &[Op]) -> Result<(), Fault> {
    for (place, op) in ops.iter().enumerate() {
        let _record = take_step(machine, alloc, op, place)?;
    }
    Ok(())
}

/// Steps through operations to their end, and writes down the state at each place.
fn notes_of(machine: &mut Machine, alloc: Global, ops: &[Op]) -> Result<Vec<Vec<u8>>, Fault> {
    let mut notes = Vec::new(alloc);
    notes.push(state_of(alloc, machine)?)?;
    for (place, op) in ops.iter().enumerate() {
        let _record = take_step(machine, alloc, op, place)?;
        notes.push(state_of(alloc, machine)?)?;
    }
    Ok(notes)
}

/// How many pickles a machine is made for.
#[derive(Clone, Copy, Debug, PartialEq, Eq)]
pub enum Pickles {
    One,
    Several,
}

impl Pickles {
    /// The machine for this many pickles that has done nothing.
    pub fn machine(self, alloc: Global) -> Machine {
        match self {
            Pickles::One => Machine::new(alloc),
            Pickles::Several => Machine::new_many(alloc),
        }
    }
}

/// Operations, and the state of a machine at each place of them.
#[derive(Drop)]
pub struct Noted {
    pub pickles: Pickles,
    pub ops: Vec<Op>,
    pub notes: Vec<Vec<u8>>,
}

/// The operations that the bytes spell, and the states of a machine that has done nothing before. Out of memory is
/// `Fault::Memory`, also where the machine met it.
pub fn note_down(alloc: Global, pickles: Pickles, bytes: &[u8]) -> Result<Noted, Fault> {
    let ops = ops_of(alloc, bytes)?;
    let mut machine = pickles.machine(alloc);
    match notes_of(&mut machine, alloc, &ops) {
        Ok(notes) => Ok(Noted {
            pickles,
            ops,
            notes,
        }),
        Err(Fault::Refused(_, Refusal::Memory)) => Err(Fault::Memory),
        Err(fault) => Err(fault),
    }
}

/// Whether the machine shows at a place what was written down there. It takes no memory.
fn compare(machine: &Machine, notes: &[Vec<u8>], place: usize) -> Result<(), Fault> {
    match notes.get(place) {
        Some(note) if shows_state(machine, note.as_slice()) => Ok(()),
        _ => Err(Fault::Differs(place)),
    }
}

/// Whether a step of this opcode asks for no memory. Some do so only where the stack had this height before.
fn is_free(opcode: Opcode, was_there: bool) -> bool {
    match opcode {
        Opcode::Proto | Opcode::Frame | Opcode::Pop => true,
        Opcode::Dup | Opcode::Get | Opcode::BinGet | Opcode::LongBinGet => was_there,
        Opcode::Mark => was_there,
        _ => false,
    }
}

/// Operations, what is written down at each place of them, and whether the machine went through them before.
#[derive(Clone, Copy)]
pub struct Way<'a> {
    pub pickles: Pickles,
    pub ops: &'a [Op],
    pub notes: &'a [Vec<u8>],
    pub was_there: bool,
}

impl Way<'_> {
    /// Whether a further pickle begins at a place.
    fn begins(&self, place: usize) -> bool {
        let before = place.checked_sub(1).and_then(|before| self.ops.get(before));
        self.pickles == Pickles::Several && before.is_some_and(|op| op.opcode() == Opcode::Stop)
    }
}

/// One step of the way. Where memory runs out, the machine shows what it showed before and has
/// counted no move; and asked again it succeeds.
fn insist_on_step(
    machine: &mut Machine,
    alloc: Global,
    way: &Way<'_>,
    op: &Op,
    place: usize,
) -> Result<StepRecord, Fault>
    ensures leads { IfOk result (λ r. Leads r machine.new.state machine.old.state) }
    ensures fits { OnOk result (Fits machine.old.state machine.new) }
    ensures err { OnErr result (machine.new.state ≡ machine.old.state) }
    ensures rooms { KeepsRooms machine.old machine.new }
{
    let moves = machine.moves();
    let fault = match take_step(machine, alloc, op, place) {
        Ok(record) => return Ok(record),
        Err(fault) => fault,
    };
    if fault != Fault::Refused(place, Refusal::Memory) {
        return Err(fault);
    }
    if is_free(op.opcode(), way.was_there) && !way.begins(place) {
        return Err(Fault::NotFree(place));
    }
    compare(machine, way.notes, place)?;
    if machine.moves() != moves {
        return Err(Fault::Moves(place));
    }
    take_step(machine, alloc, op, place)
}

/// Goes from a place on to the end and back by the records of the steps, and compares the state at each place in both
/// directions. The steps back take no memory, and neither do the comparisons.
pub fn walk(machine: &mut Machine, alloc: Global, way: &Way<'_>, place: usize) -> Result<(), Fault>
    ensures state { machine.new.state ≡ machine.old.state }
    ensures rooms { KeepsRooms machine.old machine.new }
{
    compare(machine, way.notes, place)?;
    if place >= way.ops.len() {
        return Ok(());
    }
    let start = machine.moves();
    let record = insist_on_step(machine, alloc, way, &way.ops[place], place)?;
    let after = machine.moves();
    let further = walk(machine, alloc, way, place + 1);
    let turned = machine.moves();
    machine.unstep(record);
    further?;
    compare(machine, way.notes, place)?;
    if after != start.saturating_add(1) || machine.moves() != turned.saturating_add(1) {
        return Err(Fault::Moves(place));
    }
    Ok(())
}
