//! The lines of all objects, of those of a range and of one. `Failed` where the sink fails; a beginning of the text was written then.

ghost use Rattle.std.specs.Prelude.{◌-◌, ◌≤◌, length};
ghost use Rattle.pickle_io.specs.Device.{Writes, each_below};
ghost use Rattle.pickle_io.specs.Text.{◌⧺◌};
ghost use Rattle.json_lines.specs.Json.{value_text};
ghost use Rattle.json_lines.specs.Line.{fields_text};
ghost use Rattle.debug_json.specs.Array.{array_json, range_json, lead, placed_text, range_text};
ghost use Rattle.debug_json.specs.ShownFields.{heap_json, heap_fields, heap_line, show_line};
ghost use Rattle.debug_json.specs.OwnFields.{some_heap_fields, some_heap_line};

use crate::value::write_lead;
use json_lines::{begin_line, end_line, write_name};
use objects_json::{write_object, write_object_fields};
use pickle_io::{Failed, Page, write_all};
use pickle_ops::Object;

/// Writes an object.
fn write_value<P: Page>(id: usize, object: &Object, page: &mut P) -> Result<(), Failed>
    ensures { Writes (P.told page.old) (P.told page.new) result (value_text (heap_json id object.now)) }
{
    begin_line("object", page)?;
    write_object_fields(id as u64, object, page)?;
    write_all(page, b"}")
}

/// Writes an object behind so many others.
fn write_next<P: Page>(i: usize, id: usize, object: &Object, page: &mut P) -> Result<(), Failed>
    ensures { Writes (P.told page.old) (P.told page.new) result (lead i ⧺ value_text (heap_json id object.now)) }
{
    write_lead(i, page)?;
    write_value(id, object, page)
}

/// Writes the object of a number behind so many others, if there is one.
#[tactic(auto, using(crate::proofs::Ranges::placed_steps))]
fn write_placed<P: Page>(heap: &[Object], i: usize, id: usize, page: &mut P) -> Result<(), Failed>
    ensures { Writes (P.told page.old) (P.told page.new) result (placed_text heap_json heap.now i id) }
{
    match heap.get(id) {
        None => Ok(()),
        Some(object) => write_next(i, id, object, page),
    }
}

/// Writes the objects from one number on and before another.
#[tactic(auto, using(pickle_io::proofs::Devices::below_steps))]
fn write_heap_between<P: Page>(
    heap: &[Object],
    from: usize,
    to: usize,
    page: &mut P,
) -> Result<(), Failed>
    requires order { from ≤ to }
    ensures { Writes (P.told page.old) (P.told page.new) result (each_below (range_text heap_json heap.now from) (to - from)) }
{
    for i in 0..to - from {
        write_placed(heap, i, from + i, page)?;
    }
    Ok(())
}

/// Writes an array of the objects from one number on and before another, which are all there.
#[tactic(auto, using(crate::proofs::Ranges::range_steps))]
fn write_whole_range<P: Page>(
    heap: &[Object],
    from: usize,
    to: usize,
    page: &mut P,
) -> Result<(), Failed>
    requires order { from ≤ to }
    requires within { to ≤ length heap.now }
    ensures { Writes (P.told page.old) (P.told page.new) result (value_text (range_json heap_json from to heap.now)) }
{
    write_all(page, b"[")?;
    write_heap_between(heap, from, to, page)?;
    write_all(page, b"]")
}

/// Writes an array of the objects from one number on and before another, as far as there are any.
#[tactic(auto, using(crate::proofs::Ranges::cut_steps))]
fn write_range<P: Page>(heap: &[Object], from: usize, to: usize, page: &mut P) -> Result<(), Failed>
    ensures { Writes (P.told page.old) (P.told page.new) result (value_text (range_json heap_json from to heap.now)) }
{
    let end = to.min(heap.len());
    write_whole_range(heap, from.min(end), end, page)
}

/// Writes an array of all objects.
#[tactic(auto, using(crate::proofs::Ranges::cut_steps))]
fn write_array<P: Page>(heap: &[Object], page: &mut P) -> Result<(), Failed>
    ensures { Writes (P.told page.old) (P.told page.new) result (value_text (array_json heap_json heap.now)) }
{
    write_whole_range(heap, 0, heap.len(), page)
}

/// Writes the field of objects.
fn write_field<P: Page>(heap: &[Object], page: &mut P) -> Result<(), Failed>
    ensures { Writes (P.told page.old) (P.told page.new) result (fields_text (heap_fields heap.now)) }
{
    write_name("objects", page)?;
    write_array(heap, page)
}

/// Writes the line of objects.
pub(crate) fn write_objects<P: Page>(heap: &[Object], page: &mut P) -> Result<(), Failed>
    ensures { Writes (P.told page.old) (P.told page.new) result (heap_line heap.now) }
{
    begin_line("objects", page)?;
    write_field(heap, page)?;
    end_line(page)
}

/// Writes the field of a range of objects.
fn write_some_field<P: Page>(
    heap: &[Object],
    from: usize,
    to: usize,
    page: &mut P,
) -> Result<(), Failed>
    ensures { Writes (P.told page.old) (P.told page.new) result (fields_text (some_heap_fields heap.now from to)) }
{
    write_name("objects", page)?;
    write_range(heap, from, to, page)
}

/// Writes the line of the objects from one number on and before another.
pub(crate) fn write_some_objects<P: Page>(
    heap: &[Object],
    from: usize,
    to: usize,
    page: &mut P,
) -> Result<(), Failed>
    ensures { Writes (P.told page.old) (P.told page.new) result (some_heap_line heap.now from to) }
{
    begin_line("objects", page)?;
    write_some_field(heap, from, to, page)?;
    end_line(page)
}

/// Writes the line of the object of a number, if there is one.
#[tactic(auto, using(crate::proofs::Arrays::show_steps))]
pub(crate) fn write_show<P: Page>(heap: &[Object], number: u64, page: &mut P) -> Result<(), Failed>
    ensures { Writes (P.told page.old) (P.told page.new) result (show_line heap.now number) }
{
    match heap.get(number as usize) {
        None => Ok(()),
        Some(object) => write_object(number, object, page),
    }
}
