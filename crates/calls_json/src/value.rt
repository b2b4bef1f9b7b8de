//! Objects in brief, and operands. `Failed` where the sink fails; a beginning of the text was written then.

ghost use Rattle.std.specs.Prelude.{◌≡◌, ◌∷◌, ◌-◌, length, take};
ghost use Rattle.pickle_io.specs.Device.{Writes, each};
ghost use Rattle.json_lines.specs.Json.{value_text};
ghost use Rattle.json_lines.specs.Line.{field, fields_text, name_text};
ghost use Rattle.pickle_ops.specs.KindRef.{kind_view};
ghost use Rattle.calls_json.specs.SaidNames.{operand_name};
ghost use Rattle.calls_json.specs.ValueFields.{kind_word, double_fields, code_fields, kind_fields, kind_json, id_json, brief_json, briefs_json, briefs_text, next_brief, all_parts, parts_left, first_parts, shown_parts, parts_fields, one_field, operand_kind, no_operand, operand_fields};

use crate::names::{write_id, write_names};
use crate::said::{Operand, operand_more, operand_name};
use crate::text::{write_integer, write_long, write_payload, write_text};
use json_lines::{
    begin_line, write_hex_field, write_integer_field, write_number_field, write_string,
};
use pickle_calls::{Detail, Naming, front, global_pair, inner, stack_pair};
use pickle_io::{Failed, Page, write_all};
use pickle_machine::Inspect;
use pickle_names::Coding;
use pickle_ops::{KindRef, ObjId};

/// At how many objects an operand is cut, as in the texts for people.
const MOST_OBJECTS: usize = 16;

/// What kind of value an object of this kind is.
#[tactic(auto, unfolding(crate::specs::ValueFields::kind_word))]
fn kind_word(kind: KindRef<'_>) -> &'static str
    ensures { result.now ≡ kind_word (kind_view kind.entry) }
{
    match kind {
        KindRef::None => "none",
        KindRef::True => "true",
        KindRef::False => "false",
        KindRef::Int(_) => "int",
        KindRef::Long(_) => "int",
        KindRef::IntLine(_) => "int-line",
        KindRef::LongLine(_) => "long-line",
        KindRef::FloatLine(_) => "float-line",
        KindRef::Float(_) => "float",
        KindRef::LegacyString(_) => "string",
        KindRef::LegacyLine(_) => "string",
        KindRef::Text(_) => "text",
        KindRef::TextLine(_) => "text",
        KindRef::Bytes(_) => "bytes",
        KindRef::ByteArray(_) => "bytearray",
        KindRef::Global(_) => "global",
        KindRef::StackGlobal => "global",
        KindRef::Ext(_) => "extension",
        KindRef::Tuple => "object",
        KindRef::List => "object",
        KindRef::Set => "object",
        KindRef::FrozenSet => "object",
        KindRef::Dict => "object",
        KindRef::Call => "object",
        KindRef::New => "object",
        KindRef::NewEx => "object",
        KindRef::Inst(_) => "object",
        KindRef::Obj => "object",
        KindRef::PersistentLine(_) => "object",
        KindRef::Persistent => "object",
        KindRef::Buffer(_) => "object",
        KindRef::ReadOnly => "object",
    }
}

/// Writes the bytes of a double.
#[tactic(auto, unfolding(crate::specs::ValueFields::double_fields))]
fn write_double<P: Page>(bytes: &[u8], page: &mut P) -> Result<(), Failed>
    ensures { Writes (P.told page.old) (P.told page.new) result (fields_text (double_fields bytes.now)) }
{
    write_hex_field("f8_hex", bytes, page)
}

/// Writes the code of an extension.
#[tactic(auto, unfolding(crate::specs::ValueFields::code_fields))]
fn write_code<P: Page>(code: i64, page: &mut P) -> Result<(), Failed>
    ensures { Writes (P.told page.old) (P.told page.new) result (fields_text (code_fields code)) }
{
    write_integer_field("number", i128::from(code), page)
}

/// Writes what an object of this kind is.
#[tactic(auto, using(json_lines::proofs::Lines::fields_steps), unfolding(crate::specs::ValueFields::kind_fields))]
fn write_kind_fields<M: Inspect, P: Page>(
    naming: Naming,
    machine: &M,
    id: ObjId,
    kind: KindRef<'_>,
    parts: &[ObjId],
    page: &mut P,
) -> Result<(), Failed>
    ensures { Writes (P.told page.old) (P.told page.new) result (fields_text (kind_fields naming (M.state machine.now).heap id (kind_view kind.entry) parts.now)) }
{
    let detail = naming.detail;
    match kind {
        KindRef::None => Ok(()),
        KindRef::True => Ok(()),
        KindRef::False => Ok(()),
        KindRef::Int(number) => write_integer(i128::from(number), page),
        KindRef::Long(bytes) => write_long(detail, bytes, page),
        KindRef::IntLine(text) => write_payload(detail, text, page),
        KindRef::LongLine(text) => write_payload(detail, text, page),
        KindRef::FloatLine(text) => write_payload(detail, text, page),
        KindRef::Float(bytes) => write_double(bytes, page),
        KindRef::LegacyString(text) => write_text(detail, Coding::Ascii, text, page),
        KindRef::LegacyLine(text) => write_text(detail, Coding::StringEscape, inner(text), page),
        KindRef::Text(text) => write_text(detail, Coding::AnyUtf8, text, page),
        KindRef::TextLine(text) => write_text(detail, Coding::RawEscape, text, page),
        KindRef::Bytes(bytes) => write_payload(detail, bytes, page),
        KindRef::ByteArray(bytes) => write_payload(detail, bytes, page),
        KindRef::Global(names) => write_names(
            "object",
            naming,
            Some(id),
            global_pair(names.first(), names.second()),
            page,
        ),
        KindRef::StackGlobal => write_names(
            "object",
            naming,
            Some(id),
            stack_pair(machine, parts),
            page,
        ),
        KindRef::Ext(code) => write_code(code, page),
        KindRef::Tuple => write_id("object", id, page),
        KindRef::List => write_id("object", id, page),
        KindRef::Set => write_id("object", id, page),
        KindRef::FrozenSet => write_id("object", id, page),
        KindRef::Dict => write_id("object", id, page),
        KindRef::Call => write_id("object", id, page),
        KindRef::New => write_id("object", id, page),
        KindRef::NewEx => write_id("object", id, page),
        KindRef::Inst(_) => write_id("object", id, page),
        KindRef::Obj => write_id("object", id, page),
        KindRef::PersistentLine(_) => write_id("object", id, page),
        KindRef::Persistent => write_id("object", id, page),
        KindRef::Buffer(_) => write_id("object", id, page),
        KindRef::ReadOnly => write_id("object", id, page),
    }
}

/// Writes an object of this kind with these parts in brief.
fn write_kind<M: Inspect, P: Page>(
    naming: Naming,
    machine: &M,
    id: ObjId,
    kind: KindRef<'_>,
    parts: &[ObjId],
    page: &mut P,
) -> Result<(), Failed>
    ensures { Writes (P.told page.old) (P.told page.new) result (value_text (kind_json naming (M.state machine.now).heap id (kind_view kind.entry) parts.now)) }
{
    begin_line(kind_word(kind), page)?;
    write_kind_fields(naming, machine, id, kind, parts, page)?;
    write_all(page, b"}")
}

/// Writes an object that is not there.
fn write_absent<P: Page>(id: ObjId, page: &mut P) -> Result<(), Failed>
    ensures { Writes (P.told page.old) (P.told page.new) result (value_text (id_json id)) }
{
    begin_line("object", page)?;
    write_id("object", id, page)?;
    write_all(page, b"}")
}

/// Writes the object of this number in brief.
#[tactic(auto, using(crate::proofs::Looked::look_rules))]
fn write_brief<M: Inspect, P: Page>(
    naming: Naming,
    machine: &M,
    id: ObjId,
    page: &mut P,
) -> Result<(), Failed>
    ensures { Writes (P.told page.old) (P.told page.new) result (value_text (brief_json naming (M.state machine.now).heap id)) }
{
    match machine.look(id) {
        Some(look) => write_kind(naming, machine, id, look.kind, look.parts, page),
        None => write_absent(id, page),
    }
}

/// Writes one object more, after a comma.
fn write_next<M: Inspect, P: Page>(
    naming: Naming,
    machine: &M,
    id: ObjId,
    page: &mut P,
) -> Result<(), Failed>
    ensures { Writes (P.told page.old) (P.told page.new) result (next_brief naming (M.state machine.now).heap id) }
{
    write_all(page, b",")?;
    write_brief(naming, machine, id, page)
}

/// Writes objects, each after a comma.
#[tactic(auto, using(pickle_io::proofs::Devices::each_steps))]
fn write_all_next<M: Inspect, P: Page>(
    naming: Naming,
    machine: &M,
    ids: &[ObjId],
    page: &mut P,
) -> Result<(), Failed>
    ensures { Writes (P.told page.old) (P.told page.new) result (each (next_brief naming (M.state machine.now).heap) ids.now) }
{
    for id in ids {
        write_next(naming, machine, *id, page)?;
    }
    Ok(())
}

/// Writes an object, and others after it.
fn write_some<M: Inspect, P: Page>(
    naming: Naming,
    machine: &M,
    first: ObjId,
    rest: &[ObjId],
    page: &mut P,
) -> Result<(), Failed>
    ensures { Writes (P.told page.old) (P.told page.new) result (briefs_text naming (M.state machine.now).heap (first ∷ rest.now)) }
{
    write_brief(naming, machine, first, page)?;
    write_all_next(naming, machine, rest, page)
}

/// Writes objects with commas between them.
#[tactic(auto, using(crate::proofs::Values::no_briefs))]
fn write_joined<M: Inspect, P: Page>(
    naming: Naming,
    machine: &M,
    ids: &[ObjId],
    page: &mut P,
) -> Result<(), Failed>
    ensures { Writes (P.told page.old) (P.told page.new) result (briefs_text naming (M.state machine.now).heap ids.now) }
{
    match ids.split_first() {
        None => Ok(()),
        Some((first, rest)) => write_some(naming, machine, *first, rest, page),
    }
}

/// Writes an array of objects.
#[tactic(auto, using(crate::proofs::Values::array_steps))]
fn write_array<M: Inspect, P: Page>(
    naming: Naming,
    machine: &M,
    ids: &[ObjId],
    page: &mut P,
) -> Result<(), Failed>
    ensures { Writes (P.told page.old) (P.told page.new) result (value_text (briefs_json naming (M.state machine.now).heap ids.now)) }
{
    write_all(page, b"[")?;
    write_joined(naming, machine, ids, page)?;
    write_all(page, b"]")
}

/// Writes what is before the value of an operand.
fn write_name<P: Page>(operand: Operand, page: &mut P) -> Result<(), Failed>
    ensures { Writes (P.told page.old) (P.told page.new) result (name_text (operand_name operand)) }
{
    write_all(page, b",")?;
    write_string(operand_name(operand), page)?;
    write_all(page, b":")
}

/// Writes objects as an operand.
fn write_all_parts<M: Inspect, P: Page>(
    operand: Operand,
    naming: Naming,
    machine: &M,
    ids: &[ObjId],
    page: &mut P,
) -> Result<(), Failed>
    ensures { Writes (P.told page.old) (P.told page.new) result (fields_text (all_parts operand naming (M.state machine.now).heap ids.now)) }
{
    write_name(operand, page)?;
    write_array(naming, machine, ids, page)
}

/// Writes how many parts of an operand were cut off, if any.
#[tactic(auto, using(json_lines::proofs::Lines::fields_steps), unfolding(crate::specs::ValueFields::parts_left))]
fn write_left<P: Page>(operand: Operand, count: usize, page: &mut P) -> Result<(), Failed>
    ensures { Writes (P.told page.old) (P.told page.new) result (fields_text (parts_left operand count)) }
{
    if count == 0 {
        Ok(())
    } else {
        write_number_field(operand_more(operand), count as u64, page)
    }
}

/// Writes the first objects as an operand, and how many more there are.
fn write_first_parts<M: Inspect, P: Page>(
    operand: Operand,
    naming: Naming,
    machine: &M,
    ids: &[ObjId],
    page: &mut P,
) -> Result<(), Failed>
    ensures { Writes (P.told page.old) (P.told page.new) result (fields_text (first_parts operand naming (M.state machine.now).heap ids.now)) }
{
    write_all_parts(operand, naming, machine, front(ids, MOST_OBJECTS), page)?;
    write_left(operand, ids.len().saturating_sub(MOST_OBJECTS), page)
}

/// Writes the first objects as an operand, or all.
#[tactic(auto, unfolding(crate::specs::ValueFields::parts_fields, crate::specs::ValueFields::shown_parts))]
pub(crate) fn write_parts<M: Inspect, P: Page>(
    operand: Operand,
    naming: Naming,
    machine: &M,
    ids: &[ObjId],
    page: &mut P,
) -> Result<(), Failed>
    ensures { Writes (P.told page.old) (P.told page.new) result (fields_text (parts_fields operand naming (M.state machine.now).heap ids.now)) }
{
    match naming.detail {
        Detail::Cut => write_first_parts(operand, naming, machine, ids, page),
        Detail::Full => write_all_parts(operand, naming, machine, ids, page),
    }
}

/// Writes an object of this kind as an operand, in brief.
fn write_one<M: Inspect, P: Page>(
    operand: Operand,
    naming: Naming,
    machine: &M,
    id: ObjId,
    kind: KindRef<'_>,
    parts: &[ObjId],
    page: &mut P,
) -> Result<(), Failed>
    ensures { Writes (P.told page.old) (P.told page.new) result (fields_text (one_field operand naming (M.state machine.now).heap id (kind_view kind.entry) parts.now)) }
{
    write_name(operand, page)?;
    write_kind(naming, machine, id, kind, parts, page)
}

/// Writes an object of this kind as an operand: the parts of a tuple, or what it is in brief.
#[tactic(auto, unfolding(crate::specs::ValueFields::operand_kind))]
fn write_operand_kind<M: Inspect, P: Page>(
    operand: Operand,
    naming: Naming,
    machine: &M,
    id: ObjId,
    kind: KindRef<'_>,
    parts: &[ObjId],
    page: &mut P,
) -> Result<(), Failed>
    ensures { Writes (P.told page.old) (P.told page.new) result (fields_text (operand_kind operand naming (M.state machine.now).heap id (kind_view kind.entry) parts.now)) }
{
    match kind {
        KindRef::Tuple => write_parts(operand, naming, machine, parts, page),
        _ => write_one(operand, naming, machine, id, kind, parts, page),
    }
}

/// Writes an object that is not there as an operand.
fn write_no_operand<P: Page>(operand: Operand, id: ObjId, page: &mut P) -> Result<(), Failed>
    ensures { Writes (P.told page.old) (P.told page.new) result (fields_text (no_operand operand id)) }
{
    write_name(operand, page)?;
    write_absent(id, page)
}

/// Writes the object of this number as an operand.
#[tactic(auto, using(crate::proofs::Looked::look_rules))]
pub(crate) fn write_operand<M: Inspect, P: Page>(
    operand: Operand,
    naming: Naming,
    machine: &M,
    id: ObjId,
    page: &mut P,
) -> Result<(), Failed>
    ensures { Writes (P.told page.old) (P.told page.new) result (fields_text (operand_fields operand naming (M.state machine.now).heap id)) }
{
    match machine.look(id) {
        Some(look) => {
            write_operand_kind(operand, naming, machine, id, look.kind, look.parts, page)
        }
        None => write_no_operand(operand, id, page),
    }
}
