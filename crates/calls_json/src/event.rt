//! The line of an event. `Failed` where the sink fails; a beginning of the line was written then.

ghost use Rattle.std.specs.Prelude.{◌≡◌, [], drop};
ghost use Rattle.pickle_io.specs.Device.{Writes};
ghost use Rattle.pickle_io.specs.Holes.{in_file};
ghost use Rattle.json_lines.specs.Line.{fields_text};
ghost use Rattle.pickle_ops.specs.KindRef.{kind_view};
ghost use Rattle.line_buffer.specs.Line.{line_text, held_by};
ghost use Rattle.calls_json.specs.EventFields.{begun_at, ended_with, extension_fields, callee_kind, callee_fields, made_word, inst_fields, call_fields, call_with_fields, obj_fields, buffer_fields, made_fields, made_line, absent_line, made_at, state_line, fill_word, count_fields, filled_line, event_with, event_line, line_of};

use crate::names::{write_id, write_names};
use crate::said::{Operand, Said};
use crate::text::write_whole;
use crate::value::{write_operand, write_parts};
use json_lines::{begin_line, end_line, write_integer_field, write_number_field};
use line_buffer::LineBuffer;
use pickle_calls::{Event, Naming, global_pair, inst_pair, part_at, stack_pair, write_line};
use pickle_io::{Failed, Holes, Page};
use pickle_json::write_shown;
use pickle_machine::Inspect;
use pickle_names::Coding;
use pickle_ops::{Filling, KindRef, ObjId};

/// Writes the code of an extension.
#[tactic(auto, unfolding(crate::specs::EventFields::extension_fields))]
fn write_extension<P: Page>(code: i64, page: &mut P) -> Result<(), Failed>
    ensures { Writes (P.told page.old) (P.told page.new) result (fields_text (extension_fields code)) }
{
    write_integer_field("extension", i128::from(code), page)
}

/// Writes what an object of this kind is called by.
#[tactic(auto, unfolding(crate::specs::EventFields::callee_kind))]
fn write_callee_kind<M: Inspect, P: Page>(
    naming: Naming,
    machine: &M,
    id: ObjId,
    kind: KindRef<'_>,
    parts: &[ObjId],
    page: &mut P,
) -> Result<(), Failed>
    ensures { Writes (P.told page.old) (P.told page.new) result (fields_text (callee_kind naming (M.state machine.now).heap id (kind_view kind.entry) parts.now)) }
{
    match kind {
        KindRef::Global(names) => write_names(
            "callee",
            naming,
            Some(id),
            global_pair(names.first(), names.second()),
            page,
        ),
        KindRef::StackGlobal => write_names(
            "callee",
            naming,
            Some(id),
            stack_pair(machine, parts),
            page,
        ),
        KindRef::Ext(code) => write_extension(code, page),
        _ => write_id("callee", id, page),
    }
}

/// Writes what is called.
#[tactic(auto, using(crate::proofs::Looked::look_rules))]
fn write_callee<M: Inspect, P: Page>(
    naming: Naming,
    machine: &M,
    id: ObjId,
    page: &mut P,
) -> Result<(), Failed>
    ensures { Writes (P.told page.old) (P.told page.new) result (fields_text (callee_fields naming (M.state machine.now).heap id)) }
{
    match machine.look(id) {
        Some(look) => write_callee_kind(naming, machine, id, look.kind, look.parts, page),
        None => write_id("callee", id, page),
    }
}

/// What made an object of this kind.
#[tactic(auto, unfolding(crate::specs::EventFields::made_word))]
fn made_word(kind: KindRef<'_>) -> &'static str
    ensures { result.now ≡ made_word (kind_view kind.entry) }
{
    match kind {
        KindRef::Global(_) => "import",
        KindRef::StackGlobal => "import",
        KindRef::Ext(_) => "import",
        KindRef::Inst(_) => "inst",
        KindRef::Call => "call",
        KindRef::New => "new",
        KindRef::NewEx => "new",
        KindRef::Obj => "call",
        KindRef::PersistentLine(_) => "persistent",
        KindRef::Persistent => "persistent",
        KindRef::Buffer(_) => "buffer",
        KindRef::ReadOnly => "readonly",
        _ => "made",
    }
}

/// Writes a member of a module that is imported and called.
fn write_inst<M: Inspect, P: Page>(
    naming: Naming,
    machine: &M,
    first: &[u8],
    second: &[u8],
    parts: &[ObjId],
    page: &mut P,
) -> Result<(), Failed>
    ensures { Writes (P.told page.old) (P.told page.new) result (fields_text (inst_fields naming (M.state machine.now).heap first.now second.now parts.now)) }
{
    write_names("callee", naming, None, inst_pair(first, second), page)?;
    write_parts(Operand::Args, naming, machine, parts, page)
}

/// Writes what is called, and the arguments.
fn write_call<M: Inspect, P: Page>(
    naming: Naming,
    machine: &M,
    parts: &[ObjId],
    page: &mut P,
) -> Result<(), Failed>
    ensures { Writes (P.told page.old) (P.told page.new) result (fields_text (call_fields naming (M.state machine.now).heap parts.now)) }
{
    write_callee(naming, machine, part_at(0, parts), page)?;
    write_operand(Operand::Args, naming, machine, part_at(1, parts), page)
}

/// Writes the same with arguments that have names.
fn write_call_with<M: Inspect, P: Page>(
    naming: Naming,
    machine: &M,
    parts: &[ObjId],
    page: &mut P,
) -> Result<(), Failed>
    ensures { Writes (P.told page.old) (P.told page.new) result (fields_text (call_with_fields naming (M.state machine.now).heap parts.now)) }
{
    write_call(naming, machine, parts, page)?;
    write_operand(Operand::Keywords, naming, machine, part_at(2, parts), page)
}

/// The parts but the first.
fn after_first(parts: &[ObjId]) -> &[ObjId]
    ensures { result.now ≡ drop 1 parts.now }
{
    match parts.split_first() {
        Some((_, rest)) => rest,
        None => parts,
    }
}

/// Writes the class, and the arguments after it.
fn write_obj<M: Inspect, P: Page>(
    naming: Naming,
    machine: &M,
    parts: &[ObjId],
    page: &mut P,
) -> Result<(), Failed>
    ensures { Writes (P.told page.old) (P.told page.new) result (fields_text (obj_fields naming (M.state machine.now).heap parts.now)) }
{
    write_callee(naming, machine, part_at(0, parts), page)?;
    write_parts(Operand::Args, naming, machine, after_first(parts), page)
}

/// Writes the number of a buffer.
#[tactic(auto, unfolding(crate::specs::EventFields::buffer_fields))]
fn write_buffer<P: Page>(number: u64, page: &mut P) -> Result<(), Failed>
    ensures { Writes (P.told page.old) (P.told page.new) result (fields_text (buffer_fields number)) }
{
    write_number_field("number", number, page)
}

/// Writes what made an object of this kind.
#[tactic(auto, using(json_lines::proofs::Lines::fields_steps), unfolding(crate::specs::EventFields::made_fields))]
fn write_made_fields<M: Inspect, P: Page>(
    naming: Naming,
    machine: &M,
    kind: KindRef<'_>,
    parts: &[ObjId],
    page: &mut P,
) -> Result<(), Failed>
    ensures { Writes (P.told page.old) (P.told page.new) result (fields_text (made_fields naming (M.state machine.now).heap (kind_view kind.entry) parts.now)) }
{
    match kind {
        KindRef::Global(names) => write_names(
            "callee",
            naming,
            None,
            global_pair(names.first(), names.second()),
            page,
        ),
        KindRef::StackGlobal => {
            write_names("callee", naming, None, stack_pair(machine, parts), page)
        }
        KindRef::Ext(code) => write_extension(code, page),
        KindRef::Inst(names) => write_inst(
            naming,
            machine,
            names.first(),
            names.second(),
            parts,
            page,
        ),
        KindRef::Call => write_call(naming, machine, parts, page),
        KindRef::New => write_call(naming, machine, parts, page),
        KindRef::NewEx => write_call_with(naming, machine, parts, page),
        KindRef::Obj => write_obj(naming, machine, parts, page),
        KindRef::PersistentLine(text) => write_whole(Said::Line, Coding::Ascii, text, page),
        KindRef::Persistent => write_operand(Operand::Id, naming, machine, part_at(0, parts), page),
        KindRef::Buffer(number) => write_buffer(number, page),
        KindRef::ReadOnly => write_id("of", part_at(0, parts), page),
        _ => Ok(()),
    }
}

/// Begins a line: its kind, and where the item is.
fn begin_event<P: Page>(kind: &str, offset: u64, page: &mut P) -> Result<(), Failed>
    ensures { Writes (P.told page.old) (P.told page.new) result (begun_at kind.now offset) }
{
    begin_line(kind, page)?;
    write_number_field("offset", offset, page)
}

/// Ends a line with its object, and the line for people.
fn end_event<P: Page>(id: ObjId, line: &LineBuffer, page: &mut P) -> Result<(), Failed>
    ensures { Writes (P.told page.old) (P.told page.new) result (ended_with id (line_text (held_by line.now))) }
{
    write_id("object", id, page)?;
    write_shown(line, page)?;
    end_line(page)
}

/// Writes the line of an object that was made.
fn write_made_line<M: Inspect, P: Page>(
    offset: u64,
    line: &LineBuffer,
    naming: Naming,
    machine: &M,
    id: ObjId,
    kind: KindRef<'_>,
    parts: &[ObjId],
    page: &mut P,
) -> Result<(), Failed>
    ensures { Writes (P.told page.old) (P.told page.new) result (made_line offset (line_text (held_by line.now)) naming (M.state machine.now).heap id (kind_view kind.entry) parts.now) }
{
    begin_event(made_word(kind), offset, page)?;
    write_made_fields(naming, machine, kind, parts, page)?;
    end_event(id, line, page)
}

/// Writes the line of an object that is not there.
fn write_absent_line<P: Page>(
    offset: u64,
    line: &LineBuffer,
    id: ObjId,
    page: &mut P,
) -> Result<(), Failed>
    ensures { Writes (P.told page.old) (P.told page.new) result (absent_line offset (line_text (held_by line.now)) id) }
{
    begin_event("made", offset, page)?;
    end_event(id, line, page)
}

/// Writes the line of the object of this number.
#[tactic(auto, using(crate::proofs::Looked::look_rules))]
fn write_made<M: Inspect, P: Page>(
    offset: u64,
    line: &LineBuffer,
    naming: Naming,
    machine: &M,
    id: ObjId,
    page: &mut P,
) -> Result<(), Failed>
    ensures { Writes (P.told page.old) (P.told page.new) result (made_at offset (line_text (held_by line.now)) naming (M.state machine.now).heap id) }
{
    match machine.look(id) {
        Some(look) => write_made_line(
            offset, line, naming, machine, id, look.kind, look.parts, page,
        ),
        None => write_absent_line(offset, line, id, page),
    }
}

/// Writes the line of an object that becomes the state of another.
fn write_state<M: Inspect, P: Page>(
    offset: u64,
    line: &LineBuffer,
    naming: Naming,
    machine: &M,
    value: ObjId,
    target: ObjId,
    page: &mut P,
) -> Result<(), Failed>
    ensures { Writes (P.told page.old) (P.told page.new) result (state_line offset (line_text (held_by line.now)) naming (M.state machine.now).heap value target) }
{
    begin_event("state", offset, page)?;
    write_operand(Operand::State, naming, machine, value, page)?;
    end_event(target, line, page)
}

/// What goes into an object.
#[tactic(auto, unfolding(crate::specs::EventFields::fill_word))]
fn fill_word(filling: Filling) -> &'static str
    ensures { result.now ≡ fill_word filling }
{
    match filling {
        Filling::Append => "append",
        Filling::SetItem => "set",
        Filling::Add => "add",
        Filling::Build => "build",
    }
}

/// Writes how many go into an object.
#[tactic(auto, unfolding(crate::specs::EventFields::count_fields))]
fn write_count<P: Page>(count: usize, page: &mut P) -> Result<(), Failed>
    ensures { Writes (P.told page.old) (P.told page.new) result (fields_text (count_fields count)) }
{
    write_number_field("count", count as u64, page)
}

/// Writes the line of what goes into an object.
fn write_filled<P: Page>(
    offset: u64,
    line: &LineBuffer,
    filling: Filling,
    count: usize,
    target: ObjId,
    page: &mut P,
) -> Result<(), Failed>
    ensures { Writes (P.told page.old) (P.told page.new) result (filled_line offset (line_text (held_by line.now)) filling count target) }
{
    begin_event(fill_word(filling), offset, page)?;
    write_count(count, page)?;
    end_event(target, line, page)
}

/// Writes the line of an event whose item is at this offset, with the line for people that the buffer holds.
#[tactic(auto, unfolding(crate::specs::EventFields::event_with))]
fn write_event_with<M: Inspect, P: Page>(
    offset: u64,
    line: &LineBuffer,
    naming: Naming,
    machine: &M,
    event: Event,
    page: &mut P,
) -> Result<(), Failed>
    ensures { Writes (P.told page.old) (P.told page.new) result (event_with offset (line_text (held_by line.now)) naming (M.state machine.now).heap event) }
{
    match event {
        Event::Made(id) => write_made(offset, line, naming, machine, id, page),
        Event::State(value, target) => {
            write_state(offset, line, naming, machine, value, target, page)
        }
        Event::Filled(filling, count, target) => {
            write_filled(offset, line, filling, count, target, page)
        }
    }
}

/// Writes the line of an event, whose item is at this offset without the holes of the file.
#[tactic(auto, unfolding(crate::specs::EventFields::event_line))]
#[inline(never)]
fn write_event<M: Inspect, P: Page>(
    holes: &Holes,
    offset: u64,
    naming: Naming,
    machine: &M,
    event: Event,
    page: &mut P,
) -> Result<(), Failed>
    ensures { Writes (P.told page.old) (P.told page.new) result (event_line (in_file holes.now offset) naming (M.state machine.now).heap event) }
{
    let mut line = LineBuffer::new();
    // (what it has no room for is not shown)
    let _ = write_line(holes, offset, naming, machine, Some(event), &mut line);
    write_event_with(holes.in_file(offset), &line, naming, machine, event, page)
}

/// Writes the line of a step, if it has an event. The offset is that without the holes of the file, and the line has that in the file.
#[tactic(auto, using(pickle_io::proofs::Devices::text_steps))]
#[inline(always)]
pub fn write_event_line<M: Inspect, P: Page>(
    holes: &Holes,
    offset: u64,
    naming: Naming,
    machine: &M,
    event: Option<Event>,
    page: &mut P,
) -> Result<(), Failed>
    ensures { Writes (P.told page.old) (P.told page.new) result (line_of (in_file holes.now offset) naming (M.state machine.now).heap event) }
{
    match event {
        Some(event) => write_event(holes, offset, naming, machine, event, page),
        None => Ok(()),
    }
}
