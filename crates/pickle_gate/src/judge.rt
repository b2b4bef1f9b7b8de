//! What a list says of one object that is made, or that something is put into.

ghost use Rattle.std.specs.Prelude.{◌≡◌, ◌&&◌, slice_get, slice_set, Some, IfOk, OnOk};
ghost use Rattle.std.specs.Option.{option_map};
ghost use Rattle.pickle_ops.specs.KindRef.{kind_view};
ghost use Rattle.pickle_ops.specs.Row.{row_of};
ghost use Rattle.pickle_allow.specs.Source.{import_name};
ghost use Rattle.pickle_allow.specs.Arguments.{limits_of, may_be_given, may_be_set};
ghost use Rattle.pickle_gate.specs.Gate.{protocol_said, may_name_at, may_be_state};
ghost use Rattle.pickle_gate.specs.Kept.{kept_at, is_named, may_change, named, found_made, made_by, callee, called, instance, making, allowed_if, only_if, judged_event, set_ready, set_used, ready_by, used_by, nothing_kept, kept_behind, KeepsBehind, protocol_here};

use crate::packed::{Kept, Packed};
use crate::seen::is_quiet;
use crate::state::{maker_by, may_be_state, may_name_at};
use pickle_allow::{
    Entry, Grant, Use, Uses, extension_word, grant_of, import_name, line_text, may_be_given,
    may_be_set, part_text,
};
use pickle_calls::{Before, Event, event_of};
use pickle_machine::Inspect;
use pickle_ops::{KindRef, Look, ObjId, OpRef, Opcode, Row};
use std::alloc::{AllocError, Global};

/// Nothing may be done.
const NO_USES: Uses = Uses {
    call: false,
    new: false,
    state: false,
    fill: false,
};

/// Nothing is granted, and nothing was done.
const NOTHING: Kept = Kept {
    grant: Grant {
        now: NO_USES,
        made: NO_USES,
    },
    ready: false,
    used: false,
    named: false,
};

/// What came of an object that is made.
#[derive(Clone, Copy)]
pub enum Made {
    /// It is not allowed.
    Forbidden,
    /// It is, and this is kept of it.
    Allowed(Kept),
}

/// The protocol that PROTO in front says, or 0.
fn protocol_said(op: &OpRef<'_>) -> u64
    ensures { result ≡ protocol_said (Some op.now) }
{
    if matches!(op.opcode(), Opcode::Proto) {
        op.number()
    } else {
        0
    }
}

/// The protocol that imports go by behind an item at this place, from that before it.
pub fn protocol_here(place: usize, op: &OpRef<'_>, before: u64) -> u64
    ensures { result ≡ protocol_here place op.now before }
{
    if place == 0 {
        protocol_said(op)
    } else {
        before
    }
}

/// What is kept of an object.
fn kept_at(keeps: &[Packed], id: ObjId) -> Kept
    ensures { result ≡ kept_at keeps.now id }
{
    match keeps.get(id as usize) {
        Some(packed) => packed.kept(),
        None => NOTHING,
    }
}

/// Whether something may be put into an object.
fn may_change(keeps: &[Packed], what: Use, id: ObjId) -> bool
    ensures { result ≡ may_change what (kept_at keeps.now id) }
{
    let kept = kept_at(keeps, id);
    kept.grant.now.has(what) && !(kept.ready || kept.used)
}

/// What is kept of what has a name, if a list has it.
fn named(alloc: Global, list: &[Entry<'_>], name: &[u8]) -> Result<Made, AllocError>
    ensures { IfOk result (λ m. m ≡ named list.now name.now) }
{
    match grant_of(alloc, list, name)? {
        Some(grant) => Ok(Made::Allowed(Kept {
            grant,
            ready: false,
            used: false,
            named: false,
        })),
        None => Ok(Made::Forbidden),
    }
}

/// What is kept of an import by these names.
fn imported(
    alloc: Global,
    list: &[Entry<'_>],
    protocol: u64,
    from: Option<&[u8]>,
    name: Option<&[u8]>,
) -> Result<Made, AllocError>
    ensures { IfOk result (λ m. m ≡ found_made list.now (import_name protocol (option_map (λ t. t.now) from.entry) (option_map (λ t. t.now) name.entry))) }
{
    match import_name(alloc, protocol, from, name)? {
        Some(name) => named(alloc, list, name.as_slice()),
        None => Ok(Made::Forbidden),
    }
}

/// What is kept of what is called, the first part of an object.
fn callee(keeps: &[Packed], parts: &[ObjId]) -> Kept
    ensures { result ≡ callee keeps.now (slice_get parts.now 0) }
{
    match parts.get(0) {
        Some(id) => kept_at(keeps, *id),
        None => NOTHING,
    }
}

/// What is kept of an object that is made of this one.
fn made_by(maker: Kept) -> Kept
    ensures { result ≡ made_by maker }
{
    Kept {
        grant: Grant {
            now: maker.grant.made,
            made: maker.grant.made,
        },
        ready: maker.ready,
        used: false,
        named: maker.named,
    }
}

/// What is kept of what a call makes.
fn called(keeps: &[Packed], what: Use, parts: &[ObjId]) -> Made
    ensures { result ≡ called keeps.now what parts.now }
{
    let kept = callee(keeps, parts);
    if kept.grant.now.has(what) {
        Made::Allowed(made_by(kept))
    } else {
        Made::Forbidden
    }
}

/// What is kept of a new instance. None is made of what has its state.
fn instance(keeps: &[Packed], what: Use, parts: &[ObjId]) -> Made
    ensures { result ≡ instance keeps.now what parts.now }
{
    let kept = callee(keeps, parts);
    if kept.grant.now.has(what) && !kept.ready {
        Made::Allowed(made_by(kept))
    } else {
        Made::Forbidden
    }
}

/// What is kept of an object that is made.
fn make<M: Inspect>(
    alloc: Global,
    list: &[Entry<'_>],
    protocol: u64,
    machine: &M,
    keeps: &[Packed],
    look: Look<'_>,
) -> Result<Made, AllocError>
    ensures { IfOk result (λ m. m ≡ making list.now protocol (M.state machine.now).heap keeps.now (kind_view look.entry.kind) look.entry.parts.now) }
{
    match look.kind {
        KindRef::Global(names) => {
            let from = line_text(names.first())?;
            let name = line_text(names.second())?;
            imported(alloc, list, protocol, from, name)
        }
        KindRef::StackGlobal => {
            let from = part_text(machine, look.parts, 0)?;
            let name = part_text(machine, look.parts, 1)?;
            imported(alloc, list, protocol, from, name)
        }
        KindRef::Ext(code) => named(alloc, list, extension_word(alloc, code)?.as_slice()),
        KindRef::PersistentLine(_) => named(alloc, list, b"persistent"),
        KindRef::Persistent => named(alloc, list, b"persistent"),
        KindRef::Buffer(_) => named(alloc, list, b"buffer"),
        KindRef::Call => Ok(called(keeps, Use::Call, look.parts)),
        KindRef::New => Ok(instance(keeps, Use::New, look.parts)),
        KindRef::NewEx => Ok(instance(keeps, Use::New, look.parts)),
        KindRef::Obj => Ok(instance(keeps, Use::Call, look.parts)),
        KindRef::Inst(_) => Ok(Made::Forbidden),
        _ => Ok(Made::Allowed(NOTHING)),
    }
}

/// What is kept of an object that is made, if its arguments are allowed.
fn make_given<M: Inspect>(
    alloc: Global,
    list: &[Entry<'_>],
    limits: &[Entry<'_>],
    protocol: u64,
    machine: &M,
    keeps: &[Packed],
    look: Look<'_>,
) -> Result<Made, AllocError>
    requires { limits.now ≡ limits_of list.now }
    ensures { IfOk result (λ m. m ≡ only_if (may_be_given list.now protocol (M.state machine.now).heap (kind_view look.entry.kind) look.entry.parts.now) (making list.now protocol (M.state machine.now).heap keeps.now (kind_view look.entry.kind) look.entry.parts.now)) }
{
    let made = make(alloc, list, protocol, machine, keeps, look)?;
    if may_be_given(alloc, list, limits, protocol, machine, look)? {
        Ok(made)
    } else {
        Ok(Made::Forbidden)
    }
}

/// What comes of a state: whether it may be given one, and this one.
fn set<M: Inspect>(
    alloc: Global,
    list: &[Entry<'_>],
    limits: &[Entry<'_>],
    protocol: u64,
    machine: &M,
    keeps: &[Packed],
    value: ObjId,
    target: ObjId,
) -> Result<Made, AllocError>
    requires { limits.now ≡ limits_of list.now }
    ensures { IfOk result (λ m. m ≡ allowed_if (may_change Use.State (kept_at keeps.now target) && (may_be_state (is_named keeps.now) (M.state machine.now).heap value && may_be_set list.now protocol (M.state machine.now).heap value target))) }
{
    if !may_change(keeps, Use::State, target) {
        return Ok(Made::Forbidden);
    }
    if !may_be_state(keeps, machine, value) {
        return Ok(Made::Forbidden);
    }
    let good = may_be_set(alloc, list, limits, protocol, machine, value, target)?;
    Ok(allowed_if(good))
}

/// What comes of an event that made nothing.
fn allowed_if(good: bool) -> Made
    ensures { result ≡ allowed_if good }
{
    if good {
        Made::Allowed(NOTHING)
    } else {
        Made::Forbidden
    }
}

/// What comes of the event of a step: whether it is allowed, and what is kept of the object that it made. A name is decoded and matched once,
/// where it is imported, and once more where it is called, if the list limits arguments. `limits` are the entries that limit something.
#[tactic(auto, using(crate::proofs::Looked::judge_rules))]
fn judge<M: Inspect>(
    alloc: Global,
    list: &[Entry<'_>],
    limits: &[Entry<'_>],
    protocol: u64,
    machine: &M,
    keeps: &[Packed],
    event: Option<Event>,
) -> Result<Made, AllocError>
    requires { limits.now ≡ limits_of list.now }
    ensures { IfOk result (λ m. m ≡ judged_event list.now protocol (M.state machine.now).heap keeps.now event) }
{
    match event {
        None => Ok(Made::Allowed(NOTHING)),
        Some(Event::Made(id)) => match machine.look(id) {
            Some(look) => make_given(alloc, list, limits, protocol, machine, keeps, look),
            None => Ok(Made::Allowed(NOTHING)),
        },
        Some(Event::State(value, target)) => {
            set(alloc, list, limits, protocol, machine, keeps, value, target)
        }
        Some(Event::Filled(_, _, target)) => Ok(allowed_if(may_change(keeps, Use::Fill, target))),
    }
}

/// Keeps of an object that it has its state, which may name attributes.
#[tactic(auto, using(crate::proofs::Ready::ready_rules))]
fn keep_ready(keeps: &mut Vec<Packed>, target: ObjId, names: bool)
    ensures { keeps.new.items ≡ slice_set keeps.old.items target (set_ready names (kept_at keeps.old.items target)) }
{
    let kept = kept_at(keeps.as_slice(), target);
    let at = target as usize;
    if at < keeps.len() {
        keeps[at] = Packed::of(Kept {
            grant: kept.grant,
            ready: true,
            used: kept.used,
            named: kept.named || names,
        });
    }
}

/// Keeps of an object that something was made of it.
#[tactic(auto, using(crate::proofs::Ready::ready_rules))]
fn keep_used(keeps: &mut Vec<Packed>, id: ObjId)
    ensures { keeps.new.items ≡ slice_set keeps.old.items id (set_used (kept_at keeps.old.items id)) }
{
    let kept = kept_at(keeps.as_slice(), id);
    let at = id as usize;
    if at < keeps.len() {
        keeps[at] = Packed::of(Kept {
            grant: kept.grant,
            ready: kept.ready,
            used: true,
            named: kept.named,
        });
    }
}

/// Keeps of the object that an event gives a state, if it gives one, that it has it.
fn keep_event<M: Inspect>(keeps: &mut Vec<Packed>, machine: &M, event: Option<Event>)
    ensures { keeps.new.items ≡ ready_by (M.state machine.now).heap event keeps.old.items }
{
    match event {
        Some(Event::State(value, target)) => {
            keep_ready(keeps, target, may_name_at(machine, value));
        }
        Some(Event::Made(_)) => {}
        Some(Event::Filled(_, _, _)) => {}
        None => {}
    }
}

/// Keeps of what an object is made of, if it is made of something, that it was.
fn keep_maker(keeps: &mut Vec<Packed>, maker: Option<ObjId>)
    ensures { keeps.new.items ≡ used_by maker keeps.old.items }
{
    match maker {
        Some(id) => keep_used(keeps, id),
        None => {}
    }
}

/// Keeps this of the newest object, if nothing is kept of it yet, and of what it is made of that it was; else what the event of the step gives a
/// state.
fn keep<M: Inspect>(
    keeps: &mut Vec<Packed>,
    machine: &M,
    kept: Kept,
    event: Option<Event>,
) -> Result<(), AllocError>
    ensures { OnOk result (keeps.new.items ≡ kept_behind (M.state machine.now).heap kept event keeps.old.items) }
{
    if keeps.len() < machine.objects() {
        keep_maker(keeps, maker_by(machine, event));
        keeps.push(Packed::of(kept))?;
        return Ok(());
    }
    keep_event(keeps, machine, event);
    Ok(())
}

/// Keeps nothing of the newest object, if nothing is kept of it yet.
#[inline(always)]
fn keep_nothing<M: Inspect>(keeps: &mut Vec<Packed>, machine: &M) -> Result<(), AllocError>
    ensures { OnOk result (keeps.new.items ≡ kept_behind (M.state machine.now).heap nothing_kept None keeps.old.items) }
{
    if keeps.len() < machine.objects() {
        keeps.push(Packed::nothing())?;
    }
    Ok(())
}

/// Whether the event of a step of this operation is allowed, if it has one: this was looked at before it, and this is the machine after it. What
/// is kept of the object that it made is kept.
#[tactic(auto, using(crate::proofs::Quiet::kept_rules))]
#[inline(never)]
fn allow_event<M: Inspect>(
    alloc: Global,
    list: &[Entry<'_>],
    limits: &[Entry<'_>],
    protocol: u64,
    machine: &M,
    op: &OpRef<'_>,
    before: Before,
    keeps: &mut Vec<Packed>,
) -> Result<bool, AllocError>
    requires { limits.now ≡ limits_of list.now }
    ensures { IfOk result (KeepsBehind list.now protocol (row_of op.now) before (M.state machine.now) keeps.old.items keeps.new.items) }
{
    let event = event_of(Row::of_ref(op), before, machine);
    let made = judge(
        alloc,
        list,
        limits,
        protocol,
        machine,
        keeps.as_slice(),
        event,
    )?;
    match made {
        Made::Forbidden => Ok(false),
        Made::Allowed(kept) => {
            keep(keeps, machine, kept, event)?;
            Ok(true)
        }
    }
}

/// The same once more. A function that is not inlined takes this, so that the first need not be in memory.
#[inline(always)]
fn again(before: Before) -> Before
    ensures { result ≡ before }
{
    Before {
        next: before.next,
        size: before.size,
        top: before.top,
    }
}

/// The same, where this is the row of the operation. Most steps have no event, which is seen at once.
#[tactic(auto, using(crate::proofs::Quiet::kept_rules))]
#[inline(always)]
pub fn allow_step<M: Inspect>(
    alloc: Global,
    list: &[Entry<'_>],
    limits: &[Entry<'_>],
    protocol: u64,
    machine: &M,
    op: &OpRef<'_>,
    row: Row,
    before: Before,
    keeps: &mut Vec<Packed>,
) -> Result<bool, AllocError>
    requires limits { limits.now ≡ limits_of list.now }
    requires row { row ≡ row_of op.now }
    ensures { IfOk result (KeepsBehind list.now protocol row before (M.state machine.now) keeps.old.items keeps.new.items) }
{
    if is_quiet(row, before, machine) {
        keep_nothing(keeps, machine)?;
        return Ok(true);
    }
    let good = allow_event(
        alloc,
        list,
        limits,
        protocol,
        machine,
        &op.again(),
        again(before),
        keeps,
    )?;
    Ok(good)
}
