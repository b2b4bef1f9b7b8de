//! What loaders do with the next item.

ghost use Rattle.std.specs.Prelude.{◌≡◌, ℕ, drop, true, false, ◌≢◌, ◌<◌, ◌≤◌, ◌+◌, ◌^◌, ◌-◌, if◌then◌else◌, None, Some, length, IfOk, IfErr, Ok, Err};
ghost use Rattle.pickle_machine.specs.State.{State};
ghost use Rattle.pickle_machine.specs.Move.{fresh};
ghost use Rattle.pickle_machine.specs.Loader.{loader_move, cleared};
ghost use Rattle.pickle_calls.specs.Event.{before_of};
ghost use Rattle.pickle_doc.specs.DocUnit.{frame_op};
ghost use Rattle.pickle_lenient.specs.Row.{is_far};
ghost use Rattle.pickle_further.specs.Far.{near_item, far_gone};
ghost use Rattle.pickle_further.specs.Going.{Standing, moved_so, used_op, event_by, stops, stopped_after, closing_after, keeps, nothing, gone_as, going};
ghost use Rattle.pickle_calls.specs.declared.naming.Naming.{Naming};
ghost use Rattle.pickle_further.specs.Inside.{standing, Goes, EndsAtFault};

use crate::machine::LoaderMachine;
use crate::way::{Pickles, Spot, Way};
use pickle_calls::{Before, Event, event_of};
use pickle_doc::{TailFault, is_stop};
use pickle_lenient::{NotTaken, RowKind, Taken, take_op};
use pickle_machine::{LoaderMove, Refusal};
use pickle_ops::{FrontFault, Op, Opcode, Row, op_of};
use pickle_text::{Closing, TextStop};
use std::alloc::Global;

/// What an item comes to.
#[derive(Clone, Copy)]
pub struct Gone {
    /// Its event, if it has one.
    pub event: Option<Event>,
    /// Its row.
    pub row: Row,
    /// How many bytes it took, 0 where it did not move.
    pub size: usize,
    /// How many bytes of the buffer it left.
    pub left: u64,
    /// Whether bytes were lost.
    pub lost: bool,
    /// Why it ended there, if it did.
    pub closing: Option<Closing>,
}

/// It ends before this item.
fn nothing(closing: Closing) -> Gone
    ensures { result ≡ nothing closing }
{
    Gone {
        event: None,
        row: Row::Nothing,
        size: 0,
        left: 0,
        lost: false,
        closing: Some(closing),
    }
}

/// Moves as a loader does, as a row once or twice.
fn move_so(
    alloc: Global,
    m: LoaderMove,
    op: &Op,
    place: usize,
    machine: &mut LoaderMachine,
) -> Result<(), Refusal>
    requires { length machine.old.state.heap < 2 ^ 32 - 2 }
    ensures ok { IfOk result (λ _. moved_so m op.now place machine.old.state ≡ Ok machine.new.state) }
    ensures refused { IfErr result (λ e. e ≢ Refusal.Memory → moved_so m op.now place machine.old.state ≡ Err e) }
    ensures objects { length machine.new.state.heap ≤ length machine.old.state.heap + 2 }
{
    machine.step_as(alloc, m.row, op, place)?;
    if m.again {
        machine.step_as(alloc, m.row, op, place)?;
    }
    Ok(())
}

/// The event of a move: what went into an object is shown as well where the machine would refuse it.
fn event_by(m: LoaderMove, before: Before, machine: &LoaderMachine) -> Option<Event>
    ensures { (s : State) → before ≡ before_of s → result ≡ event_by m s machine.now.state m.fill }
{
    match m.fill {
        Some(fill) => Some(Event::Filled(fill.filling, fill.count, fill.target)),
        None => event_of(m.row, before, machine),
    }
}

/// Whether it ends after STOP, with so many bytes behind it.
fn stops(pickles: Pickles, more: usize) -> bool
    ensures { result ≡ stops pickles more }
{
    match pickles {
        Pickles::First => true,
        Pickles::All => more == 0,
        Pickles::OneMemo => more == 0,
    }
}

/// Whether it ends at STOP after this opcode.
fn stopped_after(pickles: Pickles, opcode: Opcode, more: usize) -> Option<Closing>
    ensures { result ≡ stopped_after pickles opcode more }
{
    if is_stop(opcode) && stops(pickles, more) {
        Some(Closing::Stopped)
    } else {
        None
    }
}

/// Why it ends after this item, if it does, when there are so many bytes behind it.
fn closing_after(
    pickles: Pickles,
    opcode: Opcode,
    place: usize,
    more: usize,
    last: Option<Refusal>,
) -> Option<Closing>
    ensures { result ≡ closing_after pickles opcode place more last }
{
    match last {
        Some(refusal) => Some(Closing::Refused(place, refusal)),
        None => stopped_after(pickles, opcode, more),
    }
}

/// The operation of INST that imports only: GLOBAL with the same lines.
fn import_of(alloc: Global, op: &Op) -> Result<Op, TextStop>
    ensures ok { IfOk result (λ o. o ≡ record { opcode = Opcode.Global; arg = op.now.arg }) }
    ensures err { IfErr result (λ e. e ≡ TextStop.Memory) }
{
    match op_of(alloc, Opcode::Global, op.arg()) {
        Ok(op) => Ok(op),
        Err(_) => Err(TextStop::Memory),
    }
}

/// The operation whose kind is made.
fn used_op(alloc: Global, m: LoaderMove, op: Op) -> Result<Op, TextStop>
    ensures ok { IfOk result (λ o. o ≡ used_op m op) }
    ensures err { IfErr result (λ e. e ≡ TextStop.Memory) }
{
    if m.imports {
        import_of(alloc, &op)
    } else {
        Ok(op)
    }
}

/// Whether the stack is to begin anew, and the memo stays.
fn keeps(pickles: Pickles, opcode: Opcode) -> bool
    ensures { result ≡ keeps pickles opcode }
{
    match pickles {
        Pickles::OneMemo => is_stop(opcode),
        _ => false,
    }
}

/// Where it is so, the stack begins anew, and the memo stays.
fn clear_after(anew: bool, machine: &mut LoaderMachine)
    ensures state { machine.new.state ≡ (if anew then cleared machine.old.state else machine.old.state) }
    ensures heap { machine.new.state.heap ≡ machine.old.state.heap }
{
    if anew {
        machine.clear_stack();
    }
}

/// An item that was read, of a row of the machine.
#[derive(Drop)]
struct NearItem {
    /// The operation.
    op: Op,
    /// The row as which it moves.
    row: Row,
    /// How many bytes it took.
    size: usize,
    /// How many bytes of the buffer are left.
    left: u64,
    /// Whether bytes are lost.
    lost: bool,
}

/// Goes over such an item.
fn go_near(
    alloc: Global,
    way: Way,
    item: NearItem,
    more: usize,
    place: usize,
    machine: &mut LoaderMachine,
) -> Result<Gone, TextStop>
    requires heap { length machine.old.state.heap < 2 ^ 32 - 2 }
    requires near { is_far item.row ≡ false }
    ensures ok { IfOk result (λ g. (p : Standing) → p.state ≡ machine.old.state → p.at.place ≡ place → length (drop item.size p.rest) ≡ more
        → Goes (gone_as way p (near_item item) (loader_move item.op.opcode item.row (fresh p.state))) g machine.new.state) }
    ensures size { IfOk result (λ g. g.size ≤ item.size) }
    ensures err { IfErr result (λ e. e ≡ TextStop.Memory) }
    ensures objects { length machine.new.state.heap ≤ length machine.old.state.heap + 2 }
{
    let m = machine.loader_move(item.op.opcode(), item.row);
    let anew = keeps(way.pickles, item.op.opcode());
    let before = Before::of(machine);
    let closing = closing_after(way.pickles, item.op.opcode(), place, more, m.last);
    let (row, size, left, lost) = (item.row, item.size, item.left, item.lost);
    let op = used_op(alloc, m, item.op)?;
    match move_so(alloc, m, &op, place, machine) {
        Err(refusal) => {
            if refusal == Refusal::Memory {
                return Err(TextStop::Memory);
            }
            Ok(nothing(Closing::Refused(place, refusal)))
        }
        Ok(()) => {
            let event = event_by(m, before, machine);
            clear_after(anew, machine);
            Ok(Gone {
                event,
                row,
                size,
                left,
                lost,
                closing,
            })
        }
    }
}

/// What GET or PUT of a number of more than 64 bits comes to, if it is done.
fn far_gone(done: bool, size: usize, left: u64, lost: bool, offset: u64) -> Gone
    ensures is { result ≡ far_gone done size left lost offset }
    ensures size { result.size ≤ size }
{
    if done {
        Gone {
            event: None,
            row: Row::Nothing,
            size,
            left,
            lost,
            closing: None,
        }
    } else {
        nothing(Closing::Fault(TailFault::Front(FrontFault::BadArgument), offset))
    }
}

/// Goes over an item that was read, which is one of those.
fn go_over(
    alloc: Global,
    way: Way,
    item: Taken,
    more: usize,
    at: Spot,
    machine: &mut LoaderMachine,
) -> Result<Gone, TextStop>
    requires heap { length machine.old.state.heap < 2 ^ 32 - 2 }
    requires far { is_far item.row ≡ true → item.op ≡ frame_op 0 }
    ensures ok { IfOk result (λ g. (p : Standing) → p.state ≡ machine.old.state → p.at ≡ at → length (drop item.size p.rest) ≡ more
        → Goes (gone_as way p item (loader_move item.op.opcode item.row (fresh p.state))) g machine.new.state) }
    ensures size { IfOk result (λ g. g.size ≤ item.size) }
    ensures err { IfErr result (λ e. e ≡ TextStop.Memory) }
    ensures objects { length machine.new.state.heap ≤ length machine.old.state.heap + 2 }
{
    let (size, left, lost) = (item.size, item.left, item.lost);
    let op = item.op;
    match item.row.into_kind() {
        RowKind::Near(row) => {
            let near = NearItem {
                op,
                row,
                size,
                left,
                lost,
            };
            go_near(alloc, way, near, more, at.place, machine)
        }
        RowKind::FarGet(number) => {
            let done = machine.get_far(number)?;
            Ok(far_gone(done, size, left, lost, at.offset))
        }
        RowKind::FarPut(number) => {
            let done = machine.put_far(number)?;
            Ok(far_gone(done, size, left, lost, at.offset))
        }
    }
}

/// Nothing was read: it ends at the fault, or memory ran out.
fn not_taken(stop: NotTaken, offset: u64) -> Result<Gone, TextStop>
    ensures ok { IfOk result (EndsAtFault stop offset) }
    ensures size { IfOk result (λ g. g.size ≡ 0) }
    ensures err { IfErr result (λ e. e ≡ TextStop.Memory) }
{
    match stop {
        NotTaken::Fault(fault) => Ok(nothing(Closing::Fault(TailFault::Front(fault), offset))),
        NotTaken::Memory => Err(TextStop::Memory),
    }
}

/// Goes over the next item.
pub fn go(
    alloc: Global,
    way: Way,
    rest: &[u8],
    at: Spot,
    machine: &mut LoaderMachine,
) -> Result<Gone, TextStop>
    requires heap { length machine.old.state.heap < 2 ^ 32 - 2 }
    requires small { length rest.now < 2 ^ 62 }
    ensures ok { IfOk result (λ g. (naming : Naming) → Goes (going way (standing machine.old.state rest.now at naming)) g machine.new.state) }
    ensures size { IfOk result (λ g. g.size ≤ length rest.now) }
    ensures some { IfOk result (λ g. g.closing ≡ None → 0 < g.size) }
    ensures err { IfErr result (λ e. e ≡ TextStop.Memory) }
    ensures objects { length machine.new.state.heap ≤ length machine.old.state.heap + 2 }
{
    match take_op(alloc, way.frames, at.left, rest) {
        Ok(item) => {
            let more = rest.len() - item.size;
            go_over(alloc, way, item, more, at, machine)
        }
        Err(stop) => not_taken(stop, at.offset),
    }
}
