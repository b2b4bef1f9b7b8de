//! The line of an object. `Failed` where the sink fails; a beginning of the line was written then.

ghost use Rattle.json_lines.specs.Line.{fields_text};
ghost use Rattle.pickle_io.specs.Device.{Writes};
ghost use Rattle.objects_json.specs.ObjectFields.{parts_fields, head_fields, rest_fields, object_fields, object_line};

use crate::change::write_changes;
use crate::kind::{word_of, write_kind_fields};
use json_lines::{begin_line, end_line, write_number_field, write_numbers_field, write_text_field};
use pickle_io::{Failed, Page};
use pickle_ops::{Change, Kind, ObjId, Object};

/// Writes the objects that it was made of, if there are any.
#[tactic(auto, using(json_lines::proofs::Lines::fields_steps))]
fn write_parts<P: Page>(parts: &[ObjId], page: &mut P) -> Result<(), Failed>
    ensures { Writes (P.told page.old) (P.told page.new) result (fields_text (parts_fields parts.now)) }
{
    if parts.is_empty() {
        Ok(())
    } else {
        write_numbers_field("parts", parts, page)
    }
}

/// Writes its number, and its kind.
fn write_head<P: Page>(id: u64, kind: &Kind, page: &mut P) -> Result<(), Failed>
    ensures { Writes (P.told page.old) (P.told page.new) result (fields_text (head_fields id kind.now)) }
{
    write_number_field("object", id, page)?;
    write_text_field("is", word_of(kind), page)
}

/// Writes what it was made of, and what was done to it.
fn write_rest<P: Page>(parts: &[ObjId], changes: &[Change], page: &mut P) -> Result<(), Failed>
    ensures { Writes (P.told page.old) (P.told page.new) result (fields_text (rest_fields parts.now changes.now)) }
{
    write_parts(parts, page)?;
    write_changes(changes, page)
}

/// Writes the fields of an object. `Failed` where the sink fails; a beginning of the fields was written then.
pub fn write_object_fields<P: Page>(id: u64, object: &Object, page: &mut P) -> Result<(), Failed>
    ensures { Writes (P.told page.old) (P.told page.new) result (fields_text (object_fields id object.now)) }
{
    write_head(id, object.kind(), page)?;
    write_kind_fields(object.kind(), page)?;
    write_rest(object.parts(), object.changes(), page)
}

/// Writes the line of an object. `Failed` where the sink fails; a beginning of the line was written then.
pub fn write_object<P: Page>(id: u64, object: &Object, page: &mut P) -> Result<(), Failed>
    ensures { Writes (P.told page.old) (P.told page.new) result (object_line id object.now) }
{
    begin_line("object", page)?;
    write_object_fields(id, object, page)?;
    end_line(page)
}
