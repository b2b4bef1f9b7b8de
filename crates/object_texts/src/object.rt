//! The text of an object, and the lines of all objects.

ghost use Rattle.pickle_io.specs.Device.{Writes, each};
ghost use Rattle.object_texts.specs.ObjectText.{next_text, some_parts, parts_text, set_text, change_text, object_text, object_line, objects_text};

use crate::kind::write_kind;
use pickle_io::{Failed, Page, write_all};
use pickle_machine::Machine;
use pickle_ops::{Change, ObjId, Object};
use pickle_text::{write_id, write_with_id};

/// Writes one object more, by its number after a blank.
pub(crate) fn write_next<S: Page>(id: ObjId, page: &mut S) -> Result<(), Failed>
    ensures { Writes (S.told page.old) (S.told page.new) result (next_text id) }
{
    write_all(page, b" ")?;
    write_id(u64::from(id), page)
}

/// Writes objects by their numbers, each after a blank.
#[tactic(auto, using(pickle_io::proofs::Devices::each_steps))]
pub fn write_all_next<S: Page>(ids: &[ObjId], page: &mut S) -> Result<(), Failed>
    ensures { Writes (S.told page.old) (S.told page.new) result (each next_text ids.now) }
{
    for id in ids {
        write_next(*id, page)?;
    }
    Ok(())
}

/// Writes the parts of an object that has some.
#[tactic(auto, using(pickle_io::proofs::Devices::text_steps), unfolding(crate::specs::ObjectText::some_parts))]
fn write_some_parts<S: Page>(first: ObjId, rest: &[ObjId], page: &mut S) -> Result<(), Failed>
    ensures { Writes (S.told page.old) (S.told page.new) result (some_parts first rest.now) }
{
    write_all(page, b" (")?;
    write_id(u64::from(first), page)?;
    write_all_next(rest, page)?;
    write_all(page, b")")
}

/// Writes the parts of an object, if it has any.
#[tactic(auto, using(pickle_io::proofs::Devices::text_steps))]
fn write_parts<S: Page>(parts: &[ObjId], page: &mut S) -> Result<(), Failed>
    ensures { Writes (S.told page.old) (S.told page.new) result (parts_text parts.now) }
{
    match parts.split_first() {
        None => Ok(()),
        Some((first, rest)) => write_some_parts(*first, rest, page),
    }
}

/// Writes that a key was mapped to a value.
#[tactic(auto, using(pickle_io::proofs::Devices::text_steps), unfolding(crate::specs::ObjectText::set_text))]
fn write_set<S: Page>(key: ObjId, value: ObjId, page: &mut S) -> Result<(), Failed>
    ensures { Writes (S.told page.old) (S.told page.new) result (set_text key value) }
{
    write_all(page, b" [")?;
    write_id(u64::from(key), page)?;
    write_all(page, b"]=")?;
    write_id(u64::from(value), page)
}

/// Writes what was done to an object.
#[tactic(auto, using(pickle_io::proofs::Devices::text_steps), unfolding(crate::specs::ObjectText::change_text))]
fn write_change<S: Page>(change: Change, page: &mut S) -> Result<(), Failed>
    ensures { Writes (S.told page.old) (S.told page.new) result (change_text change) }
{
    match change {
        Change::Append(id) => write_with_id(b" +", u64::from(id), page),
        Change::SetItem(key, value) => write_set(key, value, page),
        Change::Add(id) => write_with_id(b" &", u64::from(id), page),
        Change::Build(id) => write_with_id(b" !", u64::from(id), page),
    }
}

/// Writes all that was done to an object, the earliest first.
#[tactic(auto, using(pickle_io::proofs::Devices::each_steps))]
fn write_changes<S: Page>(changes: &[Change], page: &mut S) -> Result<(), Failed>
    ensures { Writes (S.told page.old) (S.told page.new) result (each change_text changes.now) }
{
    for change in changes {
        write_change(*change, page)?;
    }
    Ok(())
}

/// Writes an object: `#` and its number, the word of its kind with what its opcode gave it, its parts in brackets, and what was
/// done to it: ` +#v` for an item put after the others, ` [#k]=#v` for a key mapped to a value, ` &#v` for a member of a set,
/// ` !#s` for a state. It takes no memory. `Failed` where the sink fails; a beginning of the text was written then.
pub fn write_object<S: Page>(id: u64, object: &Object, page: &mut S) -> Result<(), Failed>
    ensures { Writes (S.told page.old) (S.told page.new) result (object_text id object.now) }
{
    write_id(id, page)?;
    write_all(page, b" ")?;
    write_kind(object.kind(), page)?;
    write_parts(object.parts(), page)?;
    write_changes(object.changes(), page)
}

/// Writes the line of an object.
fn write_object_line<S: Page>(id: u64, object: &Object, page: &mut S) -> Result<(), Failed>
    ensures { Writes (S.told page.old) (S.told page.new) result (object_line id object.now) }
{
    write_object(id, object, page)?;
    write_all(page, b"\n")
}

/// Writes the lines of all objects of a machine, by rising number. It takes no memory. `Failed` where the sink fails; a beginning
/// of the lines was written then.
#[tactic(auto, unfolding(crate::specs::ObjectText::objects_text))]
pub fn write_objects<S: Page>(machine: &Machine, page: &mut S) -> Result<(), Failed>
    ensures { Writes (S.told page.old) (S.told page.new) result (objects_text machine.now.state.heap) }
{
    for (id, object) in machine.heap().iter().enumerate() {
        write_object_line(id as u64, object, page)?;
    }
    Ok(())
}
