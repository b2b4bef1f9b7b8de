//! The lines, one for each event.

ghost use Rattle.pickle_io.specs.Text.{◌⧺◌};
ghost use Rattle.std.specs.Prelude.{◌≡◌, drop};
ghost use Rattle.pickle_io.specs.Holes.{in_file};
ghost use Rattle.pickle_names.specs.Value.{whole_text};
ghost use Rattle.pickle_ops.specs.KindRef.{kind_view, looked};
ghost use Rattle.pickle_io.specs.Device.{Writes};
ghost use Rattle.pickle_calls.specs.Brief.{value_text};
ghost use Rattle.pickle_calls.specs.Event.{part};
ghost use Rattle.pickle_calls.specs.CallsLine.{inst_text, call_text, call_with_text, obj_text, made_words, made_text, made_at, state_text, fill_keyword, fill_link, filled_text, event_text, event_line, line_of};

use crate::brief::{write_briefs, write_value};
use crate::event::{Event, part};
use crate::name::{
    inst_pair, write_global_after, write_name, write_names_after, write_stack_after,
};
use crate::naming::Naming;
use pickle_io::{Failed, Holes, Page, write_all};
use pickle_machine::Inspect;
use pickle_names::{Coding, write_text};
use pickle_ops::{Filling, KindRef, Look, ObjId};
use pickle_text::{write_id, write_right, write_with_id, write_with_number, write_with_signed};

/// Writes that a member of a module is imported and called.
fn write_inst<M: Inspect, S: Page>(
    naming: Naming,
    machine: &M,
    first: &[u8],
    second: &[u8],
    parts: &[ObjId],
    page: &mut S,
) -> Result<(), Failed>
    ensures { Writes (S.told page.old) (S.told page.new) result (inst_text naming (M.state machine.now).heap first.now second.now parts.now) }
{
    write_names_after(b"inst ", naming, None, inst_pair(first, second), page)?;
    write_all(page, b" ")?;
    write_briefs(naming, machine, parts, page)
}

/// Writes a call, or a new instance, after a keyword.
#[tactic(auto, using(pickle_io::proofs::Devices::text_steps), unfolding(crate::specs::CallsLine::call_text))]
fn write_call<M: Inspect, S: Page>(
    keyword: &[u8],
    naming: Naming,
    machine: &M,
    parts: &[ObjId],
    page: &mut S,
) -> Result<(), Failed>
    ensures { Writes (S.told page.old) (S.told page.new) result (call_text naming keyword.now (M.state machine.now).heap parts.now) }
{
    let called = part(0, parts);
    write_all(page, keyword)?;
    write_name(naming, machine, called, page)?;
    write_all(page, b" ")?;
    write_value(naming, machine, part(1, parts), page)
}

/// Writes a new instance that is given arguments with names.
fn write_call_with<M: Inspect, S: Page>(
    naming: Naming,
    machine: &M,
    parts: &[ObjId],
    page: &mut S,
) -> Result<(), Failed>
    ensures { Writes (S.told page.old) (S.told page.new) result (call_with_text naming (M.state machine.now).heap parts.now) }
{
    write_call(b"new ", naming, machine, parts, page)?;
    write_all(page, b" ")?;
    write_value(naming, machine, part(2, parts), page)
}

/// The parts but the first.
fn after_first(parts: &[ObjId]) -> &[ObjId]
    ensures { result.now ≡ drop 1 parts.now }
{
    match parts.split_first() {
        Some((_, rest)) => rest,
        None => parts,
    }
}

/// Writes a call whose arguments are after the class.
fn write_obj<M: Inspect, S: Page>(
    naming: Naming,
    machine: &M,
    parts: &[ObjId],
    page: &mut S,
) -> Result<(), Failed>
    ensures { Writes (S.told page.old) (S.told page.new) result (obj_text naming (M.state machine.now).heap parts.now) }
{
    write_all(page, b"call ")?;
    write_name(naming, machine, part(0, parts), page)?;
    write_all(page, b" ")?;
    write_briefs(naming, machine, after_first(parts), page)
}

/// Writes a keyword and an object as a value.
fn write_value_after<M: Inspect, S: Page>(
    keyword: &[u8],
    naming: Naming,
    machine: &M,
    id: ObjId,
    page: &mut S,
) -> Result<(), Failed>
    ensures { Writes (S.told page.old) (S.told page.new) result (keyword.now ⧺ value_text naming (M.state machine.now).heap id) }
{
    write_all(page, keyword)?;
    write_value(naming, machine, id, page)
}

/// Writes a keyword and a text of ASCII.
fn write_ascii_after<S: Page>(keyword: &[u8], text: &[u8], page: &mut S) -> Result<(), Failed>
    ensures { Writes (S.told page.old) (S.told page.new) result (keyword.now ⧺ whole_text Coding.Ascii text.now) }
{
    write_all(page, keyword)?;
    write_text(Coding::Ascii, text, page)
}

/// Writes what made an object of this kind with these parts.
#[tactic(auto, using(pickle_io::proofs::Devices::text_steps), unfolding(crate::specs::CallsLine::made_words))]
fn write_made_words<M: Inspect, S: Page>(
    naming: Naming,
    machine: &M,
    kind: KindRef<'_>,
    parts: &[ObjId],
    page: &mut S,
) -> Result<(), Failed>
    ensures { Writes (S.told page.old) (S.told page.new) result (made_words naming (M.state machine.now).heap (kind_view kind.entry) parts.now) }
{
    match kind {
        KindRef::Global(names) => {
            write_global_after(
                b"import ",
                naming,
                None,
                names.first(),
                names.second(),
                page,
            )
        }
        KindRef::StackGlobal => write_stack_after(b"import ", naming, None, machine, parts, page),
        KindRef::Ext(code) => write_with_signed(b"import ext ", code, page),
        KindRef::Inst(names) => write_inst(
            naming,
            machine,
            names.first(),
            names.second(),
            parts,
            page,
        ),
        KindRef::Call => write_call(b"call ", naming, machine, parts, page),
        KindRef::New => write_call(b"new ", naming, machine, parts, page),
        KindRef::NewEx => write_call_with(naming, machine, parts, page),
        KindRef::Obj => write_obj(naming, machine, parts, page),
        KindRef::PersistentLine(text) => write_ascii_after(b"persistent ", text, page),
        KindRef::Persistent => write_value_after(
            b"persistent ",
            naming,
            machine,
            part(0, parts),
            page,
        ),
        KindRef::Buffer(number) => write_with_number(b"buffer ", number, page),
        KindRef::ReadOnly => write_with_id(b"readonly ", u64::from(part(0, parts)), page),
        _ => Ok(()),
    }
}

/// Writes what made an object, and its number.
fn write_made_object<M: Inspect, S: Page>(
    naming: Naming,
    machine: &M,
    id: ObjId,
    look: Look<'_>,
    page: &mut S,
) -> Result<(), Failed>
    ensures { Writes (S.told page.old) (S.told page.new) result (made_text naming (M.state machine.now).heap id (looked look.entry)) }
{
    write_made_words(naming, machine, look.kind, look.parts, page)?;
    write_all(page, b" as ")?;
    write_id(u64::from(id), page)
}

/// Writes what made the object of this number.
#[tactic(auto, using(pickle_io::proofs::Devices::text_steps, crate::proofs::Looks::look_rules))]
fn write_made<M: Inspect, S: Page>(
    naming: Naming,
    machine: &M,
    id: ObjId,
    page: &mut S,
) -> Result<(), Failed>
    ensures { Writes (S.told page.old) (S.told page.new) result (made_at naming (M.state machine.now).heap id) }
{
    match machine.look(id) {
        Some(look) => write_made_object(naming, machine, id, look, page),
        None => Ok(()),
    }
}

/// Writes that an object becomes the state of another.
fn write_state<M: Inspect, S: Page>(
    naming: Naming,
    machine: &M,
    value: ObjId,
    target: ObjId,
    page: &mut S,
) -> Result<(), Failed>
    ensures { Writes (S.told page.old) (S.told page.new) result (state_text naming (M.state machine.now).heap value target) }
{
    write_value_after(b"state ", naming, machine, value, page)?;
    write_all(page, b" to ")?;
    write_id(u64::from(target), page)
}

/// The keyword of what goes into an object.
#[tactic(auto, unfolding(crate::specs::CallsLine::fill_keyword))]
fn fill_keyword(filling: Filling) -> &'static str
    ensures { result.now ≡ fill_keyword filling }
{
    match filling {
        Filling::Append => "append ",
        Filling::SetItem => "set ",
        Filling::Add => "add ",
        Filling::Build => "",
    }
}

/// The word before the object that something goes into.
#[tactic(auto, unfolding(crate::specs::CallsLine::fill_link))]
fn fill_link(filling: Filling) -> &'static str
    ensures { result.now ≡ fill_link filling }
{
    match filling {
        Filling::Append => " to ",
        Filling::SetItem => " in ",
        Filling::Add => " to ",
        Filling::Build => "",
    }
}

/// Writes how many go into which object.
fn write_filled<S: Page>(
    filling: Filling,
    count: usize,
    target: ObjId,
    page: &mut S,
) -> Result<(), Failed>
    ensures { Writes (S.told page.old) (S.told page.new) result (filled_text filling count target) }
{
    write_with_number(fill_keyword(filling).as_bytes(), count as u64, page)?;
    write_all(page, fill_link(filling).as_bytes())?;
    write_id(u64::from(target), page)
}

/// Writes an event, by the objects after the step.
#[tactic(auto, unfolding(crate::specs::CallsLine::event_text))]
fn write_event<M: Inspect, S: Page>(
    naming: Naming,
    machine: &M,
    event: Event,
    page: &mut S,
) -> Result<(), Failed>
    ensures { Writes (S.told page.old) (S.told page.new) result (event_text naming (M.state machine.now).heap event) }
{
    match event {
        Event::Made(id) => write_made(naming, machine, id, page),
        Event::State(value, target) => write_state(naming, machine, value, target, page),
        Event::Filled(filling, count, target) => write_filled(filling, count, target, page),
    }
}

/// Writes the line of an event whose item is at this offset.
#[inline(never)]
fn write_event_line<M: Inspect, S: Page>(
    offset: u64,
    naming: Naming,
    machine: &M,
    event: Event,
    page: &mut S,
) -> Result<(), Failed>
    ensures { Writes (S.told page.old) (S.told page.new) result (event_line offset naming (M.state machine.now).heap event) }
{
    write_right(offset, page)?;
    write_all(page, b": ")?;
    write_event(naming, machine, event, page)?;
    write_all(page, b"\n")
}

/// Writes the line of a step, if it has an event. The offset is that without the holes of the file, and the line has that in the file.
#[tactic(auto, using(pickle_io::proofs::Devices::text_steps))]
#[inline(always)]
pub fn write_line<M: Inspect, S: Page>(
    holes: &Holes,
    offset: u64,
    naming: Naming,
    machine: &M,
    event: Option<Event>,
    page: &mut S,
) -> Result<(), Failed>
    ensures { Writes (S.told page.old) (S.told page.new) result (line_of (in_file holes.now offset) naming (M.state machine.now).heap event) }
{
    match event {
        Some(event) => write_event_line(holes.in_file(offset), naming, machine, event, page),
        None => Ok(()),
    }
}
