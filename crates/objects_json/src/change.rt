//! What was done to an object. `Failed` where the sink fails; a beginning of the text was written then.

ghost use Rattle.std.specs.Prelude.{◌≡◌, ◌∷◌};
ghost use Rattle.json_lines.specs.Json.{value_text};
ghost use Rattle.json_lines.specs.Line.{field, fields_text};
ghost use Rattle.pickle_io.specs.Device.{Writes, each};
ghost use Rattle.objects_json.specs.ObjectFields.{value_fields, pair_fields, change_word, change_fields, change_json, changes_json, changes_fields, changes_text, next_change};

use json_lines::{begin_line, write_name, write_number_field};
use pickle_io::{Failed, Page, write_all};
use pickle_ops::{Change, ObjId};

/// Writes the object that was put in.
#[tactic(auto, unfolding(crate::specs::ObjectFields::value_fields))]
fn write_value<P: Page>(id: ObjId, page: &mut P) -> Result<(), Failed>
    ensures { Writes (P.told page.old) (P.told page.new) result (fields_text (value_fields id)) }
{
    write_number_field("value", u64::from(id), page)
}

/// Writes a key and the object to which it was mapped.
fn write_pair<P: Page>(key: ObjId, value: ObjId, page: &mut P) -> Result<(), Failed>
    ensures { Writes (P.told page.old) (P.told page.new) result (fields_text (pair_fields key value)) }
{
    write_number_field("key", u64::from(key), page)?;
    write_value(value, page)
}

/// The word of a change.
#[tactic(auto, unfolding(crate::specs::ObjectFields::change_word))]
fn word_of(change: Change) -> &'static str
    ensures { result.now ≡ change_word change }
{
    match change {
        Change::Append(_) => "append",
        Change::SetItem(_, _) => "set",
        Change::Add(_) => "add",
        Change::Build(_) => "state",
    }
}

/// Writes what was put in.
#[tactic(auto, unfolding(crate::specs::ObjectFields::change_fields))]
fn write_change_fields<P: Page>(change: Change, page: &mut P) -> Result<(), Failed>
    ensures { Writes (P.told page.old) (P.told page.new) result (fields_text (change_fields change)) }
{
    match change {
        Change::Append(id) => write_value(id, page),
        Change::SetItem(key, value) => write_pair(key, value, page),
        Change::Add(id) => write_value(id, page),
        Change::Build(id) => write_value(id, page),
    }
}

/// Writes a change.
fn write_change<P: Page>(change: Change, page: &mut P) -> Result<(), Failed>
    ensures { Writes (P.told page.old) (P.told page.new) result (value_text (change_json change)) }
{
    begin_line(word_of(change), page)?;
    write_change_fields(change, page)?;
    write_all(page, b"}")
}

/// Writes one change more, after a comma.
fn write_next<P: Page>(change: Change, page: &mut P) -> Result<(), Failed>
    ensures { Writes (P.told page.old) (P.told page.new) result (next_change change) }
{
    write_all(page, b",")?;
    write_change(change, page)
}

/// Writes changes, each after a comma.
#[tactic(auto, using(pickle_io::proofs::Devices::each_steps))]
fn write_all_next<P: Page>(changes: &[Change], page: &mut P) -> Result<(), Failed>
    ensures { Writes (P.told page.old) (P.told page.new) result (each next_change changes.now) }
{
    for change in changes {
        write_next(*change, page)?;
    }
    Ok(())
}

/// Writes a change, and others after it.
fn write_joined<P: Page>(first: Change, rest: &[Change], page: &mut P) -> Result<(), Failed>
    ensures { Writes (P.told page.old) (P.told page.new) result (changes_text (first ∷ rest.now)) }
{
    write_change(first, page)?;
    write_all_next(rest, page)
}

/// Writes an array of a change, and others after it.
#[tactic(auto, using(crate::proofs::Changes::array_steps))]
fn write_array<P: Page>(first: Change, rest: &[Change], page: &mut P) -> Result<(), Failed>
    ensures { Writes (P.told page.old) (P.told page.new) result (value_text (changes_json (first ∷ rest.now))) }
{
    write_all(page, b"[")?;
    write_joined(first, rest, page)?;
    write_all(page, b"]")
}

/// Writes a change, and others after it, as a field.
fn write_some<P: Page>(first: Change, rest: &[Change], page: &mut P) -> Result<(), Failed>
    ensures { Writes (P.told page.old) (P.told page.new) result (fields_text (changes_fields (first ∷ rest.now))) }
{
    write_name("changes", page)?;
    write_array(first, rest, page)
}

/// Writes all that was done to an object, the earliest first, if anything was.
#[tactic(auto, using(json_lines::proofs::Lines::fields_steps))]
pub fn write_changes<P: Page>(changes: &[Change], page: &mut P) -> Result<(), Failed>
    ensures { Writes (P.told page.old) (P.told page.new) result (fields_text (changes_fields changes.now)) }
{
    match changes.split_first() {
        None => Ok(()),
        Some((first, rest)) => write_some(*first, rest, page),
    }
}
