//! The line of the stack. `Failed` where the sink fails; a beginning of the text was written then.

ghost use Rattle.std.specs.Prelude.{length};
ghost use Rattle.pickle_io.specs.Device.{Writes, each_below};
ghost use Rattle.pickle_io.specs.Text.{◌⧺◌};
ghost use Rattle.json_lines.specs.Json.{value_text};
ghost use Rattle.json_lines.specs.Line.{fields_text};
ghost use Rattle.pickle_machine.specs.State.{stack_of, marks_of};
ghost use Rattle.debug_json.specs.Array.{array_json, lead, nth_text};
ghost use Rattle.debug_json.specs.ShownFields.{id_json, mark_fields, mark_json, ids_field, marks_field, stack_fields, stack_line};

use crate::value::{write_lead, write_number};
use json_lines::{begin_line, end_line, write_name, write_number_field};
use pickle_io::{Failed, Page, write_all};
use pickle_machine::Machine;
use pickle_ops::ObjId;

/// Writes the number of an object.
#[tactic(auto, unfolding(crate::specs::ShownFields::id_json))]
fn write_id<P: Page>(i: usize, id: ObjId, page: &mut P) -> Result<(), Failed>
    ensures { Writes (P.told page.old) (P.told page.new) result (value_text (id_json i id)) }
{
    write_number(u64::from(id), page)
}

/// Writes the number of an object behind those before it.
fn write_next_id<P: Page>(i: usize, id: ObjId, page: &mut P) -> Result<(), Failed>
    ensures { Writes (P.told page.old) (P.told page.new) result (lead i ⧺ value_text (id_json i id)) }
{
    write_lead(i, page)?;
    write_id(i, id, page)
}

/// Writes the object at a place of the stack, if there is one.
#[tactic(auto, using(crate::proofs::Arrays::nth_steps))]
fn write_nth_id<P: Page>(machine: &Machine, i: usize, page: &mut P) -> Result<(), Failed>
    ensures { Writes (P.told page.old) (P.told page.new) result (nth_text id_json (stack_of machine.now.state) i) }
{
    match machine.stack_at(i) {
        None => Ok(()),
        Some(id) => write_next_id(i, id, page),
    }
}

/// Writes the objects of the stack.
#[tactic(auto, using(pickle_io::proofs::Devices::below_steps))]
fn write_ids<P: Page>(machine: &Machine, page: &mut P) -> Result<(), Failed>
    ensures { Writes (P.told page.old) (P.told page.new) result (each_below (nth_text id_json (stack_of machine.now.state)) (length (stack_of machine.now.state))) }
{
    for i in 0..machine.stack_len() {
        write_nth_id(machine, i, page)?;
    }
    Ok(())
}

/// Writes an array of the objects of the stack.
#[tactic(auto, using(crate::proofs::Arrays::array_steps))]
fn write_id_array<P: Page>(machine: &Machine, page: &mut P) -> Result<(), Failed>
    ensures { Writes (P.told page.old) (P.told page.new) result (value_text (array_json id_json (stack_of machine.now.state))) }
{
    write_all(page, b"[")?;
    write_ids(machine, page)?;
    write_all(page, b"]")
}

/// Writes the field of the objects of the stack.
fn write_ids_field<P: Page>(machine: &Machine, page: &mut P) -> Result<(), Failed>
    ensures { Writes (P.told page.old) (P.told page.new) result (fields_text (ids_field machine.now.state)) }
{
    write_name("stack", page)?;
    write_id_array(machine, page)
}

/// Writes the item of a mark, and how many objects are below it.
fn write_mark_fields<P: Page>(mark: (usize, usize), page: &mut P) -> Result<(), Failed>
    ensures { Writes (P.told page.old) (P.told page.new) result (fields_text (mark_fields mark)) }
{
    write_number_field("item", mark.0 as u64, page)?;
    write_number_field("below", mark.1 as u64, page)
}

/// Writes a mark.
fn write_mark<P: Page>(i: usize, mark: (usize, usize), page: &mut P) -> Result<(), Failed>
    ensures { Writes (P.told page.old) (P.told page.new) result (value_text (mark_json i mark)) }
{
    begin_line("mark", page)?;
    write_mark_fields(mark, page)?;
    write_all(page, b"}")
}

/// Writes a mark behind those before it.
fn write_next_mark<P: Page>(i: usize, mark: (usize, usize), page: &mut P) -> Result<(), Failed>
    ensures { Writes (P.told page.old) (P.told page.new) result (lead i ⧺ value_text (mark_json i mark)) }
{
    write_lead(i, page)?;
    write_mark(i, mark, page)
}

/// Writes a mark by its number, if there is one.
#[tactic(auto, using(crate::proofs::Arrays::nth_steps))]
fn write_nth_mark<P: Page>(machine: &Machine, i: usize, page: &mut P) -> Result<(), Failed>
    ensures { Writes (P.told page.old) (P.told page.new) result (nth_text mark_json (marks_of machine.now.state.marked) i) }
{
    match machine.mark(i) {
        None => Ok(()),
        Some(mark) => write_next_mark(i, mark, page),
    }
}

/// Writes the marks.
#[tactic(auto, using(pickle_io::proofs::Devices::below_steps))]
fn write_marks<P: Page>(machine: &Machine, page: &mut P) -> Result<(), Failed>
    ensures { Writes (P.told page.old) (P.told page.new) result (each_below (nth_text mark_json (marks_of machine.now.state.marked)) (length (marks_of machine.now.state.marked))) }
{
    for i in 0..machine.marks_len() {
        write_nth_mark(machine, i, page)?;
    }
    Ok(())
}

/// Writes an array of the marks.
#[tactic(auto, using(crate::proofs::Arrays::array_steps))]
fn write_mark_array<P: Page>(machine: &Machine, page: &mut P) -> Result<(), Failed>
    ensures { Writes (P.told page.old) (P.told page.new) result (value_text (array_json mark_json (marks_of machine.now.state.marked))) }
{
    write_all(page, b"[")?;
    write_marks(machine, page)?;
    write_all(page, b"]")
}

/// Writes the field of the marks.
fn write_marks_field<P: Page>(machine: &Machine, page: &mut P) -> Result<(), Failed>
    ensures { Writes (P.told page.old) (P.told page.new) result (fields_text (marks_field machine.now.state)) }
{
    write_name("marks", page)?;
    write_mark_array(machine, page)
}

/// Writes what is on the stack.
fn write_stack_fields<P: Page>(machine: &Machine, page: &mut P) -> Result<(), Failed>
    ensures { Writes (P.told page.old) (P.told page.new) result (fields_text (stack_fields machine.now.state)) }
{
    write_ids_field(machine, page)?;
    write_marks_field(machine, page)
}

/// Writes the line of the stack.
pub(crate) fn write_stack<P: Page>(machine: &Machine, page: &mut P) -> Result<(), Failed>
    ensures { Writes (P.told page.old) (P.told page.new) result (stack_line machine.now.state) }
{
    begin_line("stack", page)?;
    write_stack_fields(machine, page)?;
    end_line(page)
}
