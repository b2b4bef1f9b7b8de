//! What objects are made of, and which objects may be states.

ghost use Rattle.std.specs.Prelude.{◌≡◌, ◌&&◌, not, slice_get};
ghost use Rattle.std.specs.List.{list_all};
ghost use Rattle.std.specs.Option.{option_map};
ghost use Rattle.pickle_ops.specs.KindRef.{kind_view};
ghost use Rattle.pickle_gate.specs.Gate.{maker, maker_by, is_plain_at, are_plain, may_name, may_name_at, has_not, halves_may, halves_may_at, may_be_state};
ghost use Rattle.pickle_gate.specs.Kept.{is_named};

use crate::packed::Packed;
use pickle_allow::{arguments_of, is_held};
use pickle_calls::Event;
use pickle_machine::Inspect;
use pickle_ops::{KindRef, Look, ObjId};

/// The most arguments of a call whose answer is a state.
const MOST_ARGUMENTS: usize = 8;

/// What an object is made of, if a call or `__new__` makes it.
fn maker(look: Look<'_>) -> Option<ObjId>
    ensures { result ≡ maker (kind_view look.entry.kind) look.entry.parts.now }
{
    match look.kind {
        KindRef::Call => look.parts.first().copied(),
        KindRef::New => look.parts.first().copied(),
        KindRef::NewEx => look.parts.first().copied(),
        KindRef::Obj => look.parts.first().copied(),
        _ => None,
    }
}

/// What the object of this number is made of.
#[tactic(auto, using(crate::proofs::Looked::state_rules))]
fn maker_at<M: Inspect>(machine: &M, id: ObjId) -> Option<ObjId>
    ensures { result ≡ maker_by (M.state machine.now).heap (Some (Event.Made id)) }
{
    match machine.look(id) {
        Some(look) => maker(look),
        None => None,
    }
}

/// What the object is made of that an event makes.
pub fn maker_by<M: Inspect>(machine: &M, event: Option<Event>) -> Option<ObjId>
    ensures { result ≡ maker_by (M.state machine.now).heap event }
{
    match event {
        Some(Event::Made(id)) => maker_at(machine, id),
        Some(Event::State(_, _)) => None,
        Some(Event::Filled(_, _, _)) => None,
        None => None,
    }
}

/// Whether a state may name attributes.
fn may_name(look: Look<'_>) -> bool
    ensures { result ≡ may_name (kind_view look.entry.kind) look.entry.parts.now }
{
    match look.kind {
        KindRef::Tuple => look.parts.len() == 2,
        KindRef::Dict => true,
        _ => look.kind.class().is_opaque(),
    }
}

/// Whether the object of this number, as a state, may name attributes.
#[tactic(auto, using(crate::proofs::Looked::state_rules))]
pub fn may_name_at<M: Inspect>(machine: &M, value: ObjId) -> bool
    ensures { result ≡ may_name_at (M.state machine.now).heap value }
{
    match machine.look(value) {
        Some(look) => may_name(look),
        None => false,
    }
}

/// Whether an object may have attributes by its state.
fn is_named(keeps: &[Packed], id: ObjId) -> bool
    ensures { result ≡ is_named keeps.now id }
{
    match keeps.get(id as usize) {
        Some(packed) => packed.kept().named,
        None => false,
    }
}

/// Whether an object has no attributes by a state of its own.
fn has_none(keeps: &[Packed], id: ObjId) -> bool
    ensures { result ≡ has_not (is_named keeps.now) id }
{
    !is_named(keeps, id)
}

/// Whether the object of this number is there, and holds nothing that the pickle made.
#[tactic(auto, using(crate::proofs::Looked::state_rules))]
fn is_plain_at<M: Inspect>(machine: &M, id: ObjId) -> bool
    ensures { result ≡ is_plain_at (M.state machine.now).heap id }
{
    match machine.look(id) {
        Some(look) => !is_held(look.kind),
        None => false,
    }
}

/// Whether objects are there, and hold nothing that the pickle made.
fn all_plain<M: Inspect>(machine: &M, ids: &[ObjId]) -> bool
    ensures { result ≡ list_all (is_plain_at (M.state machine.now).heap) ids.now }
{
    ids.iter().all(|id| is_plain_at(machine, *id))
}

/// Whether there are arguments, which are few, and hold nothing that the pickle made.
fn are_plain<M: Inspect>(machine: &M, arguments: Option<&[ObjId]>) -> bool
    ensures { result ≡ are_plain (M.state machine.now).heap (option_map (λ t. t.now) arguments.entry) }
{
    match arguments {
        Some(ids) => ids.len() <= MOST_ARGUMENTS && all_plain(machine, ids),
        None => false,
    }
}

/// Whether an object may be a state, if it has no attributes by one of its own: by its halves, if it is a pair, or may be one.
fn halves_may<M: Inspect>(keeps: &[Packed], machine: &M, look: Look<'_>) -> bool
    ensures { result ≡ halves_may (is_named keeps.now) (M.state machine.now).heap (kind_view look.entry.kind) look.entry.parts.now }
{
    match look.kind {
        KindRef::Tuple => {
            look.parts.len() != 2 || look.parts.iter().all(|id| has_none(keeps, *id))
        }
        KindRef::Call => are_plain(machine, arguments_of(machine, look)),
        KindRef::New => are_plain(machine, arguments_of(machine, look)),
        KindRef::NewEx => false,
        KindRef::Obj => are_plain(machine, arguments_of(machine, look)),
        KindRef::Inst(_) => are_plain(machine, arguments_of(machine, look)),
        _ => true,
    }
}

/// Whether the object of this number may be a state, if it has no attributes by one of its own.
#[tactic(auto, using(crate::proofs::Looked::state_rules))]
fn halves_may_at<M: Inspect>(keeps: &[Packed], machine: &M, value: ObjId) -> bool
    ensures { result ≡ halves_may_at (is_named keeps.now) (M.state machine.now).heap value }
{
    match machine.look(value) {
        Some(look) => halves_may(keeps, machine, look),
        None => true,
    }
}

/// Whether the object of this number may be a state.
pub fn may_be_state<M: Inspect>(keeps: &[Packed], machine: &M, value: ObjId) -> bool
    ensures { result ≡ may_be_state (is_named keeps.now) (M.state machine.now).heap value }
{
    has_none(keeps, value) && halves_may_at(keeps, machine, value)
}
