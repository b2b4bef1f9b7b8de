//! The line of what the step over the item before the cursor did. `Failed` where the sink fails; a beginning of the text was written then.

ghost use Rattle.std.specs.Prelude.{◌≡◌, ◌<◌, codes};
ghost use Rattle.pickle_ops.specs.Row.{row_of};
ghost use Rattle.pickle_io.specs.Device.{Writes};
ghost use Rattle.json_lines.specs.Json.{value_text};
ghost use Rattle.json_lines.specs.Line.{fields_text};
ghost use Rattle.pickle_machine.specs.Doing.{told_by};
ghost use Rattle.pickle_session.specs.Allowed.{kept_of};
ghost use Rattle.debug_json.specs.Array.{object_json};
ghost use Rattle.debug_json.specs.StepFields.{optional_field, flag_field, object_fields, marking_fields, change_fields, one_change, changed_field, stored_fields, one_entry, stored_field, doing_fields, stepped_fields, step_fields, step_line, no_step_words, no_step_fields, no_step_line};

use crate::items::{write_argument, write_head};
use crate::offset::offset_at;
use crate::place::write_reached;
use crate::refused::write_place;
use json_lines::{
    begin_line, end_line, write_bool_field, write_name, write_number_field, write_numbers_field,
};
use pickle_io::{Failed, Page, write_all};
use pickle_json::write_coded;
use pickle_machine::{Machine, StepRecord, Stored, sets_mark};
use pickle_ops::{ObjId, Op};
use pickle_session::{Past, Session};

/// Writes a number, where there is one.
#[tactic(auto, using(json_lines::proofs::Lines::fields_steps), unfolding(crate::specs::StepFields::optional_field))]
fn write_optional<P: Page>(name: &str, found: Option<usize>, page: &mut P) -> Result<(), Failed>
    ensures { Writes (P.told page.old) (P.told page.new) result (fields_text (optional_field name.now found)) }
{
    match found {
        None => Ok(()),
        Some(number) => write_number_field(name, number as u64, page),
    }
}

/// Writes an object, where there is one.
#[tactic(auto, using(json_lines::proofs::Lines::fields_steps), unfolding(crate::specs::StepFields::optional_field))]
fn write_optional_id<P: Page>(name: &str, found: Option<ObjId>, page: &mut P) -> Result<(), Failed>
    ensures { Writes (P.told page.old) (P.told page.new) result (fields_text (optional_field name.now found)) }
{
    match found {
        None => Ok(()),
        Some(id) => write_number_field(name, id as u64, page),
    }
}

/// Writes what is so, and leaves out what is not.
#[tactic(auto, using(json_lines::proofs::Lines::fields_steps), unfolding(crate::specs::StepFields::flag_field))]
fn write_flag<P: Page>(name: &str, is_so: bool, page: &mut P) -> Result<(), Failed>
    ensures { Writes (P.told page.old) (P.told page.new) result (fields_text (flag_field name.now is_so)) }
{
    if is_so {
        write_bool_field(name, true, page)
    } else {
        Ok(())
    }
}

/// Writes whether a further pickle began, and which objects a step made, put on the stack and took.
fn write_objects<P: Page>(
    machine: &Machine,
    op: &Op,
    step: &StepRecord,
    page: &mut P,
) -> Result<(), Failed>
    ensures { Writes (P.told page.old) (P.told page.new) result (fields_text (object_fields (told_by (row_of op.now) step.now machine.now.state))) }
{
    write_flag("begins", step.begins(), page)?;
    write_optional("made", machine.made_by(step), page)?;
    write_optional_id("pushed", machine.pushed_by(step), page)?;
    write_numbers_field("took", machine.taken_by(step), page)
}

/// Writes what a step did to marks.
fn write_marking<P: Page>(
    machine: &Machine,
    op: &Op,
    step: &StepRecord,
    page: &mut P,
) -> Result<(), Failed>
    ensures { Writes (P.told page.old) (P.told page.new) result (fields_text (marking_fields (told_by (row_of op.now) step.now machine.now.state))) }
{
    write_optional("cut_mark", step.cut_mark(), page)?;
    write_flag("set_mark", sets_mark(op), page)
}

/// Writes an object, and how many changes it got.
fn write_change_fields<P: Page>(change: (ObjId, usize), page: &mut P) -> Result<(), Failed>
    ensures { Writes (P.told page.old) (P.told page.new) result (fields_text (change_fields change)) }
{
    write_number_field("object", change.0 as u64, page)?;
    write_number_field("changes", change.1 as u64, page)
}

/// Writes the same as an object of JSON.
fn write_change<P: Page>(change: (ObjId, usize), page: &mut P) -> Result<(), Failed>
    ensures { Writes (P.told page.old) (P.told page.new) result (value_text (object_json (codes "change") (change_fields change))) }
{
    begin_line("change", page)?;
    write_change_fields(change, page)?;
    write_all(page, b"}")
}

/// Writes the same as a field.
fn write_one_change<P: Page>(change: (ObjId, usize), page: &mut P) -> Result<(), Failed>
    ensures { Writes (P.told page.old) (P.told page.new) result (fields_text (one_change change)) }
{
    write_name("changed", page)?;
    write_change(change, page)
}

/// Writes the object that a step changed, where it got a change.
#[tactic(auto, using(json_lines::proofs::Lines::fields_steps), unfolding(crate::specs::StepFields::changed_field))]
fn write_changed<P: Page>(found: Option<(ObjId, usize)>, page: &mut P) -> Result<(), Failed>
    ensures { Writes (P.told page.old) (P.told page.new) result (fields_text (changed_field found)) }
{
    match found {
        None => Ok(()),
        Some(change) => {
            if 0 < change.1 {
                write_one_change(change, page)
            } else {
                Ok(())
            }
        }
    }
}

/// Writes an entry of the memo, and the object that was under its key.
fn write_stored_fields<P: Page>(entry: Stored, page: &mut P) -> Result<(), Failed>
    ensures { Writes (P.told page.old) (P.told page.new) result (fields_text (stored_fields entry)) }
{
    write_number_field("memo", entry.key, page)?;
    write_number_field("object", entry.object as u64, page)?;
    write_optional_id("before", entry.before, page)
}

/// Writes the same as an object of JSON.
fn write_entry<P: Page>(entry: Stored, page: &mut P) -> Result<(), Failed>
    ensures { Writes (P.told page.old) (P.told page.new) result (value_text (object_json (codes "entry") (stored_fields entry))) }
{
    begin_line("entry", page)?;
    write_stored_fields(entry, page)?;
    write_all(page, b"}")
}

/// Writes the same as a field.
fn write_one_entry<P: Page>(entry: Stored, page: &mut P) -> Result<(), Failed>
    ensures { Writes (P.told page.old) (P.told page.new) result (fields_text (one_entry entry)) }
{
    write_name("memo", page)?;
    write_entry(entry, page)
}

/// Writes the entry that a step put into the memo, where it put one there.
#[tactic(auto, using(json_lines::proofs::Lines::fields_steps), unfolding(crate::specs::StepFields::stored_field))]
fn write_stored<P: Page>(found: Option<Stored>, page: &mut P) -> Result<(), Failed>
    ensures { Writes (P.told page.old) (P.told page.new) result (fields_text (stored_field found)) }
{
    match found {
        None => Ok(()),
        Some(entry) => write_one_entry(entry, page),
    }
}

/// Writes what a step over an operation did, right after which the machine is.
fn write_doing<P: Page>(
    machine: &Machine,
    op: &Op,
    step: &StepRecord,
    page: &mut P,
) -> Result<(), Failed>
    ensures { Writes (P.told page.old) (P.told page.new) result (fields_text (doing_fields (told_by (row_of op.now) step.now machine.now.state))) }
{
    write_objects(machine, op, step, page)?;
    write_marking(machine, op, step, page)?;
    write_changed(step.changed(), page)?;
    write_stored(machine.stored_by(step), page)
}

/// Writes the same with the item, which is before the cursor, and with what its step reached.
#[tactic(auto, using(json_lines::proofs::Lines::fields_steps))]
fn write_stepped<A: Past, P: Page>(
    session: &Session<A>,
    place: usize,
    op: &Op,
    step: &StepRecord,
    page: &mut P,
) -> Result<(), Failed>
    ensures { Writes (P.told page.old) (P.told page.new) result (fields_text (stepped_fields session.now.session session.now.machine.state place op.now (told_by (row_of op.now) step.now session.now.machine.state))) }
{
    let machine = session.machine();
    write_place(place, page)?;
    write_head(op, offset_at(session, place), page)?;
    write_argument(op, page)?;
    write_doing(machine, op, step, page)?;
    write_reached(machine, page)
}

/// Writes what the step over the item before the cursor did, whose record is kept.
#[tactic(auto, using(crate::proofs::Stepping::step_steps))]
fn write_step_fields<A: Past, P: Page>(session: &Session<A>, page: &mut P) -> Result<(), Failed>
    requires { 0 < kept_of session.now }
    ensures { Writes (P.told page.old) (P.told page.new) result (fields_text (step_fields session.now.session session.now.machine.state)) }
{
    let machine = session.machine();
    let place = session.cursor().saturating_sub(1);
    match session.step_at(place) {
        None => Ok(()),
        Some(step) => match session.document().item(place) {
            None => Ok(()),
            Some(op) => write_stepped(session, place, op, step, page),
        },
    }
}

/// Writes the line of what the step over the item before the cursor did, whose record is kept.
pub(crate) fn write_step<A: Past, P: Page>(session: &Session<A>, page: &mut P) -> Result<(), Failed>
    requires { 0 < kept_of session.now }
    ensures { Writes (P.told page.old) (P.told page.new) result (step_line session.now.session session.now.machine.state) }
{
    begin_line("step", page)?;
    write_step_fields(session, page)?;
    end_line(page)
}

/// What is said where no record of the step is kept.
#[tactic(auto, unfolding(crate::specs::StepFields::no_step_words))]
fn no_step_words() -> &'static str
    ensures { result.now ≡ no_step_words }
{
    "no record of the step"
}

/// Writes that no record of the step is kept.
#[tactic(auto, unfolding(crate::specs::StepFields::no_step_fields))]
fn write_no_step_fields<P: Page>(page: &mut P) -> Result<(), Failed>
    ensures { Writes (P.told page.old) (P.told page.new) result (fields_text no_step_fields) }
{
    write_coded("V3", no_step_words(), page)
}

/// Writes the line that no record of the step is kept.
pub(crate) fn write_no_step<P: Page>(page: &mut P) -> Result<(), Failed>
    ensures { Writes (P.told page.old) (P.told page.new) result no_step_line }
{
    begin_line("refused", page)?;
    write_no_step_fields(page)?;
    end_line(page)
}
