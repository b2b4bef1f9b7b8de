//! What a step does that whoever reads a pickle is to know.

ghost use Rattle.std.specs.Prelude.{◌≡◌, slice_get, false};
ghost use Rattle.std.specs.Option.{option_map_or};
ghost use Rattle.pickle_ops.specs.Kind.{is_opaque};
ghost use Rattle.pickle_ops.specs.KindRef.{kind_view, looked};
ghost use Rattle.pickle_machine.specs.Loader.{views, view_at, loose_at};
ghost use Rattle.pickle_calls.specs.Event.{top_of, part, is_foreign, object_is, is_view, is_shown, made_event, filled_count, touches, into, filled_event, taken_count, event_of};

use pickle_machine::Inspect;
use pickle_ops::{Demand, Filling, KindRef, Look, ObjId, Row};

/// What a step does that whoever reads a pickle is to know.
#[derive(Clone, Copy)]
pub enum Event {
    /// It makes this object, which comes from elsewhere or from a call, or is a view of such a one.
    Made(ObjId),
    /// It makes the first object the state of the second.
    State(ObjId, ObjId),
    /// It puts items, pairs or members into an object: how, how many, and into which. Never by BUILD, which sets a state.
    Filled(Filling, usize, ObjId),
}

/// What is looked at of a machine before it steps. With the state after it these three say the event: the record of the
/// step is not read, whose form is the machine's own.
#[derive(Clone, Copy)]
pub struct Before {
    /// The number of the object that is made next: there are as many.
    pub next: ObjId,
    /// How many objects the stack has.
    pub size: usize,
    /// The top, or 0 where there is none. Only BUILD asks, and it is refused without a top.
    pub top: ObjId,
}

/// The object on top of the stack, or 0 where there is none. After a step that fills an object there is one: that object.
fn top_of<M: Inspect>(machine: &M) -> ObjId
    ensures { result ≡ top_of (M.state machine.now) }
{
    match machine.stack_at(machine.stack_len().saturating_sub(1)) {
        Some(id) => id,
        None => 0,
    }
}

impl Before {
    ghost use Rattle.std.specs.Prelude.{◌≡◌, ◌<◌, ◌^◌, length};
    ghost use Rattle.pickle_calls.specs.Event.{before_of};

    /// What is looked at of this machine.
    pub fn of<M: Inspect>(machine: &M) -> Before
        requires { length (M.state machine.now).heap < 2 ^ 32 }
        ensures { result ≡ before_of (M.state machine.now) }
    {
        Before {
            next: machine.objects() as ObjId,
            size: machine.stack_len(),
            top: top_of(machine),
        }
    }
}

/// The part of this number, or object 0 where there is none. An object has all the parts that are asked for: a call two or three, a
/// persistent object or a view one, a global of the stack two.
pub fn part(number: usize, parts: &[ObjId]) -> ObjId
    ensures { result ≡ part number parts.now }
{
    match parts.get(number) {
        Some(id) => *id,
        None => 0,
    }
}

/// Whether an object comes from elsewhere or from a call and is no buffer.
fn is_foreign(kind: KindRef<'_>) -> bool
    ensures { result ≡ is_foreign (kind_view kind.entry) }
{
    match kind {
        KindRef::Buffer(_) => false,
        _ => kind.class().is_opaque(),
    }
}

/// Whether the object of this number is there and comes from elsewhere or from a call.
#[tactic(auto, using(crate::proofs::Looks::look_rules))]
fn is_opaque_at<M: Inspect>(machine: &M, id: ObjId) -> bool
    ensures { result ≡ object_is is_opaque (M.state machine.now).heap id }
{
    match machine.class_at(id) {
        Some(class) => class.is_opaque(),
        None => false,
    }
}

/// Whether the object of this number is there and comes from elsewhere or from a call and is no buffer.
#[tactic(auto, using(crate::proofs::Looks::look_rules))]
fn is_foreign_at<M: Inspect>(machine: &M, id: ObjId) -> bool
    ensures { result ≡ object_is is_foreign (M.state machine.now).heap id }
{
    match machine.look(id) {
        Some(look) => is_foreign(look.kind),
        None => false,
    }
}

/// Whether an object is a view of one that comes from elsewhere or from a call, be it a buffer.
fn is_opaque_view<M: Inspect>(machine: &M, look: Look<'_>) -> bool
    ensures { result ≡ views (M.state machine.now).heap (kind_view look.entry.kind) look.entry.parts.now }
{
    match look.kind {
        KindRef::ReadOnly => match look.parts.get(0) {
            Some(id) => is_opaque_at(machine, *id),
            None => false,
        },
        _ => false,
    }
}

/// Whether the object of this number is there and is such a view.
#[tactic(auto, using(crate::proofs::Looks::look_rules))]
fn is_opaque_view_at<M: Inspect>(machine: &M, id: ObjId) -> bool
    ensures { result ≡ view_at (M.state machine.now).heap id }
{
    match machine.look(id) {
        Some(look) => is_opaque_view(machine, look),
        None => false,
    }
}

/// Whether the object of this number comes from elsewhere or from a call, or is a view of such a one: where that is read only already,
/// a loader leaves it in the view's place. Its class says it of most objects, so that few are looked at.
#[tactic(auto, using(crate::proofs::Looks::look_rules))]
fn is_loose_at<M: Inspect>(machine: &M, id: ObjId) -> bool
    ensures { result ≡ loose_at (M.state machine.now).heap id }
{
    match machine.class_at(id) {
        Some(class) => {
            class.is_opaque() || (class.meets(Demand::ReadOnly) && is_opaque_view_at(machine, id))
        }
        None => false,
    }
}

/// Whether an object is a view of one that comes from elsewhere or from a call and is no buffer. It is shown, since a
/// loader would make it, although nothing can be put into it. A buffer comes from the program, and has its line
/// already.
fn is_view<M: Inspect>(machine: &M, look: Look<'_>) -> bool
    ensures { result ≡ is_view (M.state machine.now).heap (looked look.entry) }
{
    match look.kind {
        KindRef::ReadOnly => is_foreign_at(machine, part(0, look.parts)),
        _ => false,
    }
}

/// Whether the object of this number is there and is such a view.
#[tactic(auto, using(crate::proofs::Looks::look_rules))]
fn is_view_at<M: Inspect>(machine: &M, id: ObjId) -> bool
    ensures { result ≡ option_map_or (is_view (M.state machine.now).heap) (slice_get (M.state machine.now).heap id) false }
{
    match machine.look(id) {
        Some(look) => is_view(machine, look),
        None => false,
    }
}

/// Whether the object of this number is there and its making is shown.
#[tactic(auto, using(crate::proofs::Looks::look_rules))]
#[inline(always)]
fn is_shown_at<M: Inspect>(machine: &M, id: ObjId) -> bool
    ensures { result ≡ option_map_or (is_shown (M.state machine.now).heap) (slice_get (M.state machine.now).heap id) false }
{
    match machine.class_at(id) {
        Some(class) => {
            class.is_opaque() || (class.meets(Demand::ReadOnly) && is_view_at(machine, id))
        }
        None => false,
    }
}

/// The event of a step that made the object of this number, if it made one.
#[inline(always)]
#[tactic(auto, using(crate::proofs::Looks::look_rules))]
fn made_event<M: Inspect>(machine: &M, id: ObjId) -> Option<Event>
    ensures { result ≡ made_event (M.state machine.now).heap id }
{
    if is_shown_at(machine, id) {
        Some(Event::Made(id))
    } else {
        None
    }
}

/// How many objects a step took off the stack.
fn taken_count<M: Inspect>(before: Before, machine: &M) -> usize
    ensures { result ≡ taken_count before (M.state machine.now) }
{
    before.size.saturating_sub(machine.stack_len())
}

/// How many items, pairs or members these objects are.
fn filled_count(filling: Filling, objects: usize) -> usize
    ensures { result ≡ filled_count filling objects }
{
    match filling {
        Filling::SetItem => objects / 2,
        _ => objects,
    }
}

/// Whether so many items, pairs or members are shown that go into the object of this number: to append or add, be it nothing, asks the object
/// for its method, and so does a view that is the object itself; to set nothing does nothing.
fn touches<M: Inspect>(filling: Filling, count: usize, machine: &M, id: ObjId) -> bool
    ensures { result ≡ touches filling count (M.state machine.now).heap id }
{
    match filling {
        Filling::Append => is_loose_at(machine, id),
        Filling::Add => is_loose_at(machine, id),
        _ => count > 0 && is_opaque_at(machine, id),
    }
}

/// The event of a step that put items, pairs or members of this count into the top, if they are shown.
fn into<M: Inspect>(filling: Filling, count: usize, machine: &M) -> Option<Event>
    ensures { result ≡ into filling count (M.state machine.now) }
{
    if touches(filling, count, machine, top_of(machine)) {
        Some(Event::Filled(filling, count, top_of(machine)))
    } else {
        None
    }
}

/// The event of a step that put objects into another.
#[inline(never)]
fn filled_event<M: Inspect>(filling: Filling, before: Before, machine: &M) -> Option<Event>
    ensures { result ≡ filled_event filling before (M.state machine.now) }
{
    let count = filled_count(filling, taken_count(before, machine));
    match filling {
        Filling::Build => Some(Event::State(before.top, top_of(machine))),
        _ => into(filling, count, machine),
    }
}

/// The event of a step of this row, if any: this was looked at before it, and this is the machine after it.
#[inline(always)]
pub fn event_of<M: Inspect>(row: Row, before: Before, machine: &M) -> Option<Event>
    ensures { result ≡ event_of row before (M.state machine.now) }
{
    match row {
        Row::Change(filling) => filled_event(filling, before, machine),
        Row::CutChange(filling) => filled_event(filling, before, machine),
        _ => made_event(machine, before.next),
    }
}
