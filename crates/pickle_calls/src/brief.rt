//! Objects in brief.

ghost use Rattle.std.specs.Prelude.{◌≡◌, ◌≤◌, ◌∷◌};
ghost use Rattle.pickle_names.specs.Value.{decode};
ghost use Rattle.pickle_ops.specs.KindRef.{kind_view};
ghost use Rattle.pickle_names.specs.Reading.{IsReading};
ghost use Rattle.pickle_io.specs.Device.{Writes, each};
ghost use Rattle.pickle_calls.specs.Brief.{over_text, cut_quoted, cut_after, cut_decoded, cut_text, cut_long, shown_quoted, payload_after, shown_text, text_after, shown_long, long_after, kind_brief, brief_text, next_brief, comma_list, more_text, cut_list, shown_list, briefs_text, kind_value, value_text};

use crate::beginning::front;
use crate::name::{inner, write_global_after, write_stack_after};
use crate::naming::{Detail, Naming};
use pickle_io::{Failed, Page, write_all, write_quoted};
use pickle_machine::Inspect;
use pickle_names::{Coding, Reading, read, write_text, write_value as write_text_value};
use pickle_ops::{KindRef, ObjId, write_long};
use pickle_text::{write_id, write_with_float, write_with_number, write_with_signed};

/// At how many bytes a payload is cut. A name is shown whole, since names are what is looked for.
const MOST_BYTES: usize = 64;

/// At how many objects a list is cut.
const MOST_OBJECTS: usize = 16;

/// Writes how many bytes more there are, if any.
#[tactic(auto, using(pickle_io::proofs::Devices::text_steps), unfolding(crate::specs::Brief::over_text))]
fn write_over<S: Page>(count: usize, page: &mut S) -> Result<(), Failed>
    ensures { Writes (S.told page.old) (S.told page.new) result (over_text count) }
{
    if count == 0 {
        Ok(())
    } else {
        write_with_number(b"+", count as u64, page)
    }
}

/// Writes the first bytes of a payload in quotes, and how many more there are.
fn write_cut<S: Page>(text: &[u8], page: &mut S) -> Result<(), Failed>
    ensures { Writes (S.told page.old) (S.told page.new) result (cut_quoted text.now) }
{
    write_quoted(front(text, MOST_BYTES), page)?;
    write_over(text.len().saturating_sub(MOST_BYTES), page)
}

/// Writes a keyword, and the first bytes of a payload in quotes with how many more there are.
fn write_cut_after<S: Page>(keyword: &[u8], text: &[u8], page: &mut S) -> Result<(), Failed>
    ensures { Writes (S.told page.old) (S.told page.new) result (cut_after keyword.now text.now) }
{
    write_all(page, keyword)?;
    write_cut(text, page)
}

/// At how many characters a text is cut.
const MOST_CHARACTERS: usize = 64;

/// Writes the first characters of a text by their value, and how many more bytes there are.
fn write_cut_value<S: Page>(
    reading: Reading,
    coding: Coding,
    text: &[u8],
    page: &mut S,
) -> Result<(), Failed>
    requires { IsReading coding 64 text.now reading }
    ensures { Writes (S.told page.old) (S.told page.new) result (cut_decoded (decode coding 64 text.now)) }
{
    write_text_value(reading, coding, MOST_CHARACTERS, text, page)?;
    write_over(reading.left, page)
}

/// Writes the first characters of a text by their value, or where one of them cannot be read, the first bytes.
fn write_cut_text<S: Page>(coding: Coding, text: &[u8], page: &mut S) -> Result<(), Failed>
    ensures { Writes (S.told page.old) (S.told page.new) result (cut_text coding text.now) }
{
    let reading = read(coding, MOST_CHARACTERS, text);
    if reading.good {
        write_cut_value(reading, coding, text, page)
    } else {
        write_cut_after(b"raw ", text, page)
    }
}

/// Writes a long number by its first bytes, and how many more there are.
fn write_cut_long<S: Page>(bytes: &[u8], page: &mut S) -> Result<(), Failed>
    ensures { Writes (S.told page.old) (S.told page.new) result (cut_long bytes.now) }
{
    write_long(front(bytes, MOST_BYTES), page)?;
    write_over(bytes.len().saturating_sub(MOST_BYTES), page)
}

/// Writes a payload in quotes, cut or in full.
#[tactic(auto, unfolding(crate::specs::Brief::shown_quoted))]
fn write_shown<S: Page>(detail: Detail, text: &[u8], page: &mut S) -> Result<(), Failed>
    ensures { Writes (S.told page.old) (S.told page.new) result (shown_quoted detail text.now) }
{
    match detail {
        Detail::Cut => write_cut(text, page),
        Detail::Full => write_quoted(text, page),
    }
}

/// Writes a keyword, and a payload in quotes, cut or in full.
fn write_payload_after<S: Page>(
    detail: Detail,
    keyword: &[u8],
    text: &[u8],
    page: &mut S,
) -> Result<(), Failed>
    ensures { Writes (S.told page.old) (S.told page.new) result (payload_after detail keyword.now text.now) }
{
    write_all(page, keyword)?;
    write_shown(detail, text, page)
}

/// Writes a text by its value, cut or in full.
#[tactic(auto, unfolding(crate::specs::Brief::shown_text))]
fn write_shown_text<S: Page>(
    detail: Detail,
    coding: Coding,
    text: &[u8],
    page: &mut S,
) -> Result<(), Failed>
    ensures { Writes (S.told page.old) (S.told page.new) result (shown_text detail coding text.now) }
{
    match detail {
        Detail::Cut => write_cut_text(coding, text, page),
        Detail::Full => write_text(coding, text, page),
    }
}

/// Writes a keyword, and a text by its value, cut or in full.
fn write_text_after<S: Page>(
    detail: Detail,
    keyword: &[u8],
    coding: Coding,
    text: &[u8],
    page: &mut S,
) -> Result<(), Failed>
    ensures { Writes (S.told page.old) (S.told page.new) result (text_after detail keyword.now coding text.now) }
{
    write_all(page, keyword)?;
    write_shown_text(detail, coding, text, page)
}

/// Writes a long number, cut or in full.
#[tactic(auto, unfolding(crate::specs::Brief::shown_long))]
fn write_shown_long<S: Page>(detail: Detail, bytes: &[u8], page: &mut S) -> Result<(), Failed>
    ensures { Writes (S.told page.old) (S.told page.new) result (shown_long detail bytes.now) }
{
    match detail {
        Detail::Cut => write_cut_long(bytes, page),
        Detail::Full => write_long(bytes, page),
    }
}

/// Writes a keyword, and a long number, cut or in full.
fn write_long_after<S: Page>(detail: Detail, bytes: &[u8], page: &mut S) -> Result<(), Failed>
    ensures { Writes (S.told page.old) (S.told page.new) result (long_after detail bytes.now) }
{
    write_all(page, b"int ")?;
    write_shown_long(detail, bytes, page)
}

/// Writes an object of this kind with these parts in brief.
#[tactic(auto, unfolding(crate::specs::Brief::kind_brief, pickle_text::specs::Words::kind_text))]
fn write_kind_brief<M: Inspect, S: Page>(
    naming: Naming,
    machine: &M,
    id: ObjId,
    kind: KindRef<'_>,
    parts: &[ObjId],
    page: &mut S,
) -> Result<(), Failed>
    ensures { Writes (S.told page.old) (S.told page.new) result (kind_brief naming (M.state machine.now).heap id (kind_view kind.entry) parts.now) }
{
    let detail = naming.detail;
    match kind {
        KindRef::None => write_all(page, b"none"),
        KindRef::True => write_all(page, b"true"),
        KindRef::False => write_all(page, b"false"),
        KindRef::Int(number) => write_with_signed(b"int ", number, page),
        KindRef::Long(bytes) => write_long_after(detail, bytes, page),
        KindRef::IntLine(text) => write_payload_after(detail, b"int-line ", text, page),
        KindRef::LongLine(text) => write_payload_after(detail, b"long-line ", text, page),
        KindRef::FloatLine(text) => write_payload_after(detail, b"float-line ", text, page),
        KindRef::Float(bytes) => write_with_float(b"float ", bytes, page),
        KindRef::LegacyString(text) => {
            write_text_after(detail, b"string ", Coding::Ascii, text, page)
        }
        KindRef::LegacyLine(text) => {
            write_text_after(detail, b"string ", Coding::StringEscape, inner(text), page)
        }
        KindRef::Text(text) => write_shown_text(detail, Coding::AnyUtf8, text, page),
        KindRef::TextLine(text) => write_shown_text(detail, Coding::RawEscape, text, page),
        KindRef::Bytes(bytes) => write_payload_after(detail, b"bytes ", bytes, page),
        KindRef::ByteArray(bytes) => write_payload_after(detail, b"bytearray ", bytes, page),
        KindRef::Global(names) => {
            write_global_after(
                b"global ",
                naming,
                Some(id),
                names.first(),
                names.second(),
                page,
            )
        }
        KindRef::StackGlobal => write_stack_after(
            b"global ",
            naming,
            Some(id),
            machine,
            parts,
            page,
        ),
        KindRef::Ext(code) => write_with_signed(b"ext ", code, page),
        _ => write_id(u64::from(id), page),
    }
}

/// Writes the object of this number in brief.
#[tactic(auto, using(crate::proofs::Looks::look_rules))]
fn write_brief<M: Inspect, S: Page>(
    naming: Naming,
    machine: &M,
    id: ObjId,
    page: &mut S,
) -> Result<(), Failed>
    ensures { Writes (S.told page.old) (S.told page.new) result (brief_text naming (M.state machine.now).heap id) }
{
    match machine.look(id) {
        Some(look) => write_kind_brief(naming, machine, id, look.kind, look.parts, page),
        None => write_id(u64::from(id), page),
    }
}

/// Writes one object more in brief, after a comma.
fn write_next<M: Inspect, S: Page>(
    naming: Naming,
    machine: &M,
    id: ObjId,
    page: &mut S,
) -> Result<(), Failed>
    ensures { Writes (S.told page.old) (S.told page.new) result (next_brief naming (M.state machine.now).heap id) }
{
    write_all(page, b", ")?;
    write_brief(naming, machine, id, page)
}

/// Writes objects in brief, each after a comma.
#[tactic(auto, using(pickle_io::proofs::Devices::each_steps))]
fn write_all_next<M: Inspect, S: Page>(
    naming: Naming,
    machine: &M,
    ids: &[ObjId],
    page: &mut S,
) -> Result<(), Failed>
    ensures { Writes (S.told page.old) (S.told page.new) result (each (next_brief naming (M.state machine.now).heap) ids.now) }
{
    for id in ids {
        write_next(naming, machine, *id, page)?;
    }
    Ok(())
}

/// Writes an object in brief, and others after it.
fn write_some<M: Inspect, S: Page>(
    naming: Naming,
    machine: &M,
    first: ObjId,
    rest: &[ObjId],
    page: &mut S,
) -> Result<(), Failed>
    ensures { Writes (S.told page.old) (S.told page.new) result (comma_list naming (M.state machine.now).heap (first ∷ rest.now)) }
{
    write_brief(naming, machine, first, page)?;
    write_all_next(naming, machine, rest, page)
}

/// Writes objects in brief with commas between them.
#[tactic(auto, using(pickle_io::proofs::Devices::text_steps))]
fn write_joined<M: Inspect, S: Page>(
    naming: Naming,
    machine: &M,
    ids: &[ObjId],
    page: &mut S,
) -> Result<(), Failed>
    ensures { Writes (S.told page.old) (S.told page.new) result (comma_list naming (M.state machine.now).heap ids.now) }
{
    match ids.split_first() {
        None => Ok(()),
        Some((first, rest)) => write_some(naming, machine, *first, rest, page),
    }
}

/// Writes how many objects more there are, if any.
#[tactic(auto, using(pickle_io::proofs::Devices::text_steps), unfolding(crate::specs::Brief::more_text))]
fn write_more<S: Page>(count: usize, page: &mut S) -> Result<(), Failed>
    ensures { Writes (S.told page.old) (S.told page.new) result (more_text count) }
{
    if count == 0 {
        Ok(())
    } else {
        write_with_number(b", +", count as u64, page)
    }
}

/// Writes the first objects, and how many more there are.
fn write_cut_list<M: Inspect, S: Page>(
    naming: Naming,
    machine: &M,
    ids: &[ObjId],
    page: &mut S,
) -> Result<(), Failed>
    ensures { Writes (S.told page.old) (S.told page.new) result (cut_list naming (M.state machine.now).heap ids.now) }
{
    write_joined(naming, machine, front(ids, MOST_OBJECTS), page)?;
    write_more(ids.len().saturating_sub(MOST_OBJECTS), page)
}

/// Writes the first objects, or all.
#[tactic(auto, unfolding(crate::specs::Brief::shown_list))]
fn write_shown_list<M: Inspect, S: Page>(
    naming: Naming,
    machine: &M,
    ids: &[ObjId],
    page: &mut S,
) -> Result<(), Failed>
    ensures { Writes (S.told page.old) (S.told page.new) result (shown_list naming.detail naming (M.state machine.now).heap ids.now) }
{
    match naming.detail {
        Detail::Cut => write_cut_list(naming, machine, ids, page),
        Detail::Full => write_joined(naming, machine, ids, page),
    }
}

/// Writes objects in brackets.
#[tactic(auto, using(pickle_io::proofs::Devices::text_steps), unfolding(crate::specs::Brief::briefs_text))]
pub fn write_briefs<M: Inspect, S: Page>(
    naming: Naming,
    machine: &M,
    ids: &[ObjId],
    page: &mut S,
) -> Result<(), Failed>
    ensures { Writes (S.told page.old) (S.told page.new) result (briefs_text naming (M.state machine.now).heap ids.now) }
{
    write_all(page, b"(")?;
    write_shown_list(naming, machine, ids, page)?;
    write_all(page, b")")
}

/// Writes an object of this kind with these parts as a value.
#[tactic(auto, unfolding(crate::specs::Brief::kind_value))]
fn write_kind_value<M: Inspect, S: Page>(
    naming: Naming,
    machine: &M,
    id: ObjId,
    kind: KindRef<'_>,
    parts: &[ObjId],
    page: &mut S,
) -> Result<(), Failed>
    ensures { Writes (S.told page.old) (S.told page.new) result (kind_value naming (M.state machine.now).heap id (kind_view kind.entry) parts.now) }
{
    match kind {
        KindRef::Tuple => write_briefs(naming, machine, parts, page),
        _ => write_kind_brief(naming, machine, id, kind, parts, page),
    }
}

/// Writes the object of this number as a value: the parts of a tuple, or what it is in brief.
#[tactic(auto, using(crate::proofs::Looks::look_rules))]
pub fn write_value<M: Inspect, S: Page>(
    naming: Naming,
    machine: &M,
    id: ObjId,
    page: &mut S,
) -> Result<(), Failed>
    ensures { Writes (S.told page.old) (S.told page.new) result (value_text naming (M.state machine.now).heap id) }
{
    match machine.look(id) {
        Some(look) => write_kind_value(naming, machine, id, look.kind, look.parts, page),
        None => write_id(u64::from(id), page),
    }
}
