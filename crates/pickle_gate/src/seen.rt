//! Which steps have an event. What most of them do is of no object of whose making or filling an event tells, as its class says: the loop of
//! the gate asks for no more there.

ghost use Rattle.std.specs.Prelude.{◌≡◌, ◌<◌, ◌^◌, ◌||◌, not, length, true, None};
ghost use Rattle.pickle_ops.specs.Class.{is_any, class_meets};
ghost use Rattle.pickle_machine.specs.State.{State};
ghost use Rattle.pickle_calls.specs.Event.{before_of, top_of, filled_event, event_of};
ghost use Rattle.pickle_gate.specs.Quiet.{IsUnseen, puts_items, filling_of};

use pickle_calls::Before;
use pickle_machine::Inspect;
use pickle_ops::{Class, Demand, Filling, ObjId, Row};

/// What is looked at of the machine before a step of this row, as far as the event of the step asks for it.
#[inline(always)]
pub fn looked_before<M: Inspect>(row: Row, machine: &M) -> Before
    requires { length (M.state machine.now).heap < 2 ^ 32 }
    ensures { (t : State) → event_of row result t ≡ event_of row (before_of (M.state machine.now)) t }
{
    match row {
        Row::Change(_) => Before::of(machine),
        Row::CutChange(_) => Before::of(machine),
        _ => Before {
            next: machine.objects() as ObjId,
            size: 0,
            top: 0,
        },
    }
}

/// Whether no event tells of objects of this class.
#[inline(always)]
fn is_unseen(class: Class) -> bool
    ensures { result ≡ not (is_any class || class_meets Demand.ReadOnly class) }
{
    !(class.is_opaque() || class.meets(Demand::ReadOnly))
}

/// Whether no event tells of the object of this number, by its class.
#[tactic(auto, using(crate::proofs::Quiet::quiet_rules))]
#[inline(always)]
fn is_unseen_at<M: Inspect>(machine: &M, id: ObjId) -> bool
    ensures { result ≡ true → IsUnseen (M.state machine.now).heap id }
{
    match machine.class_at(id) {
        Some(class) => is_unseen(class),
        None => true,
    }
}

/// The object on top of the stack, or 0 where there is none.
#[inline(always)]
fn top_of<M: Inspect>(machine: &M) -> ObjId
    ensures { result ≡ top_of (M.state machine.now) }
{
    match machine.stack_at(machine.stack_len().saturating_sub(1)) {
        Some(id) => id,
        None => 0,
    }
}

/// Whether items go into an object so, and no state.
#[inline(always)]
fn puts_items(filling: Filling) -> bool
    ensures { result ≡ puts_items filling }
{
    !matches!(filling, Filling::Build)
}

/// Whether a step that put objects into the top so has no event, by the class of the top.
#[tactic(auto, using(crate::proofs::Quiet::quiet_rules))]
#[inline(always)]
fn fills_unseen<M: Inspect>(filling: Filling, machine: &M) -> bool
    ensures { (b : Before) → result ≡ true → None ≡ filled_event filling b (M.state machine.now) }
{
    if !puts_items(filling) {
        return false;
    }
    is_unseen_at(machine, top_of(machine))
}

/// How a row puts objects into another, if it does.
#[inline(always)]
fn filling_of(row: Row) -> Option<Filling>
    ensures { result ≡ filling_of row }
{
    match row {
        Row::Change(filling) => Some(filling),
        Row::CutChange(filling) => Some(filling),
        _ => None,
    }
}

/// Whether a step of this row has no event, by the class of the object that it made or filled: this was looked at before it, and this is the
/// machine after it.
#[tactic(auto, using(crate::proofs::Quiet::quiet_rules))]
#[inline(always)]
pub fn is_quiet<M: Inspect>(row: Row, before: Before, machine: &M) -> bool
    ensures { result ≡ true → None ≡ event_of row before (M.state machine.now) }
{
    match filling_of(row) {
        Some(filling) => fills_unseen(filling, machine),
        None => is_unseen_at(machine, before.next),
    }
}
