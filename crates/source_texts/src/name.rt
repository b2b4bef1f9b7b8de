//! Names of objects in the source.

ghost use Rattle.std.specs.Prelude.{◌≡◌, slice_get, None, Some};
ghost use Rattle.std.specs.Option.{option_map, option_map_or};
ghost use Rattle.pickle_io.specs.Text.{◌⧺◌};
ghost use Rattle.pickle_io.specs.Device.{Writes};
ghost use Rattle.pickle_calls.specs.Event.{part};
ghost use Rattle.source_texts.specs.Name.{own_name, spelled_bytes, bytes_at, member_of, member_name, named_by, kind_name, name_text};

use crate::literals::Literals;
use pickle_calls::part_at;
use pickle_io::{Failed, Page, write_all, write_decimal};
use pickle_machine::Machine;
use pickle_ops::{Kind, ObjId};

/// Writes the name of an object by its number alone.
pub(crate) fn write_own_name<S: Page>(id: ObjId, page: &mut S) -> Result<(), Failed>
    ensures { Writes (S.told page.old) (S.told page.new) result (own_name id) }
{
    write_all(page, b"_")?;
    write_decimal(u64::from(id), page)
}

/// The bytes of an object of this kind, if it is a text.
fn spelled_bytes(kind: &Kind) -> Option<&[u8]>
    ensures { option_map (λ b. b.now) result ≡ spelled_bytes kind.now }
{
    match kind {
        Kind::Text(bytes) => Some(bytes.as_slice()),
        Kind::LegacyString(bytes) => Some(bytes.as_slice()),
        Kind::TextLine(bytes) => Some(bytes.as_slice()),
        _ => None,
    }
}

/// The bytes of the object of this number, if it is a text.
pub(crate) fn bytes_at(machine: &Machine, id: ObjId) -> Option<&[u8]>
    ensures { option_map (λ b. b.now) result ≡ bytes_at machine.now.state.heap id }
{
    match machine.object(id) {
        Some(object) => spelled_bytes(object.kind()),
        None => None,
    }
}

/// The member that an object of this kind with these parts is imported as, if its name is a text.
fn member_of<'a>(machine: &'a Machine, kind: &'a Kind, parts: &[ObjId]) -> Option<&'a [u8]>
    ensures { option_map (λ b. b.now) result ≡ member_of machine.now.state.heap kind.now parts.now }
{
    match kind {
        Kind::Global(names) => Some(names.second()),
        Kind::StackGlobal => bytes_at(machine, part_at(1, parts)),
        _ => None,
    }
}

/// Writes the name of a member that is a name in Python, and the number of the object.
fn write_numbered<S: Page>(member: &[u8], id: ObjId, page: &mut S) -> Result<(), Failed>
    ensures { Writes (S.told page.old) (S.told page.new) result (member.now ⧺ own_name id) }
{
    write_all(page, member)?;
    write_own_name(id, page)
}

/// Writes the name that an import of a member has for the object of this number.
#[tactic(auto, unfolding(crate::specs::Name::member_name))]
pub(crate) fn write_member_name<L: Literals, S: Page>(
    literals: &L,
    member: &[u8],
    id: ObjId,
    page: &mut S,
) -> Result<(), Failed>
    ensures { Writes (S.told page.old) (S.told page.new) result (member_name (L.names literals.now) member.now id) }
{
    if literals.is_name(member) {
        write_numbered(member, id, page)
    } else {
        write_own_name(id, page)
    }
}

/// Writes the name of an object that is imported as this member, if its name is a text.
pub(crate) fn write_named<L: Literals, S: Page>(
    literals: &L,
    member: Option<&[u8]>,
    id: ObjId,
    page: &mut S,
) -> Result<(), Failed>
    ensures { Writes (S.told page.old) (S.told page.new) result (named_by (L.names literals.now) id (option_map (λ b. b.now) member.entry)) }
{
    match member {
        Some(member) => write_member_name(literals, member, id, page),
        None => write_own_name(id, page),
    }
}

/// Writes the name of an object of this kind with these parts.
#[tactic(auto, unfolding(crate::specs::Name::kind_name))]
fn write_kind_name<L: Literals, S: Page>(
    literals: &L,
    machine: &Machine,
    id: ObjId,
    kind: &Kind,
    parts: &[ObjId],
    page: &mut S,
) -> Result<(), Failed>
    ensures { Writes (S.told page.old) (S.told page.new) result (kind_name (L.names literals.now) machine.now.state.heap id kind.now parts.now) }
{
    write_named(literals, member_of(machine, kind, parts), id, page)
}

/// Writes the name of the object of this number. `Failed` where the sink fails; a beginning of the name was written then.
#[tactic(auto, unfolding(crate::specs::Name::name_text))]
pub(crate) fn write_name<L: Literals, S: Page>(
    literals: &L,
    machine: &Machine,
    id: ObjId,
    page: &mut S,
) -> Result<(), Failed>
    ensures { Writes (S.told page.old) (S.told page.new) result (name_text (L.names literals.now) machine.now.state.heap id) }
{
    match machine.object(id) {
        Some(object) => {
            write_kind_name(literals, machine, id, object.kind(), object.parts(), page)
        }
        None => write_own_name(id, page),
    }
}
