//! All objects that the items of a pickle make.

ghost use Rattle.std.specs.Prelude.{◌≡◌, ◌≤◌, length, Err, IfOk};
ghost use Rattle.json_lines.specs.Line.{fields_text};
ghost use Rattle.pickle_io.specs.Device.{Writes, each};
ghost use Rattle.pickle_doc.specs.Document.{size_limit};
ghost use Rattle.pickle_text.specs.Closing.{closing_status};
ghost use Rattle.pickle_text.specs.Source.{GivesDocument};
ghost use Rattle.objects_json.specs.Objects.{result_line, stopped_line, item_refused_fields, refused_line, fault_line, closing_line, heap_lines, objects_text, WroteObjects, BrokeObjects};

use crate::object::write_object;
use json_lines::{begin_line, end_line, write_number_field};
use object_texts::walk_items;
use pickle_doc::{ItemSource, Items, TailFault};
use pickle_io::{Failed, Page};
use pickle_json::{write_how, write_refused_fields, write_tail_fields};
use pickle_machine::{Machine, Refusal};
use pickle_ops::ObjId;
use pickle_text::{Closing, TextStop, status_of};
use std::alloc::Global;

/// Writes the lines of all objects of a machine, by rising number.
#[tactic(auto, unfolding(crate::specs::Objects::heap_lines))]
fn write_heap<P: Page>(machine: &Machine, page: &mut P) -> Result<(), Failed>
    ensures { Writes (P.told page.old) (P.told page.new) result (heap_lines machine.now.state.heap) }
{
    for (id, object) in machine.heap().iter().enumerate() {
        write_object(id as u64, object, page)?;
    }
    Ok(())
}

/// Writes the line of a result.
fn write_result<P: Page>(id: ObjId, page: &mut P) -> Result<(), Failed>
    ensures { Writes (P.told page.old) (P.told page.new) result (result_line id) }
{
    begin_line("result", page)?;
    write_number_field("object", u64::from(id), page)?;
    end_line(page)
}

/// Writes the lines of results.
#[tactic(auto, using(pickle_io::proofs::Devices::each_steps))]
fn write_results<P: Page>(ids: &[ObjId], page: &mut P) -> Result<(), Failed>
    ensures { Writes (P.told page.old) (P.told page.new) result (each result_line ids.now) }
{
    for id in ids {
        write_result(*id, page)?;
    }
    Ok(())
}

/// Writes the last line after STOP.
fn write_stopped<P: Page>(page: &mut P) -> Result<(), Failed>
    ensures { Writes (P.told page.old) (P.told page.new) result stopped_line }
{
    begin_line("end", page)?;
    write_how("stopped", page)?;
    end_line(page)
}

/// Writes why the item at this place is refused.
fn write_item_refused<P: Page>(place: usize, refusal: Refusal, page: &mut P) -> Result<(), Failed>
    ensures { Writes (P.told page.old) (P.told page.new) result (fields_text (item_refused_fields place refusal)) }
{
    write_refused_fields(refusal, None, page)?;
    write_number_field("item", place as u64, page)
}

/// Writes the last line where an item is refused.
fn write_refused<P: Page>(place: usize, refusal: Refusal, page: &mut P) -> Result<(), Failed>
    ensures { Writes (P.told page.old) (P.told page.new) result (refused_line place refusal) }
{
    begin_line("end", page)?;
    write_item_refused(place, refusal, page)?;
    end_line(page)
}

/// Writes the last line where the bytes from this offset on are no further item.
fn write_fault<P: Page>(fault: TailFault, offset: u64, page: &mut P) -> Result<(), Failed>
    ensures { Writes (P.told page.old) (P.told page.new) result (fault_line fault offset) }
{
    begin_line("end", page)?;
    write_tail_fields(fault, offset, None, page)?;
    end_line(page)
}

/// Writes the last line.
#[tactic(auto, unfolding(crate::specs::Objects::closing_line))]
fn write_closing<P: Page>(closing: Closing, page: &mut P) -> Result<(), Failed>
    ensures { Writes (P.told page.old) (P.told page.new) result (closing_line closing) }
{
    match closing {
        Closing::Stopped => write_stopped(page),
        Closing::Refused(place, refusal) => write_refused(place, refusal, page),
        Closing::Fault(fault, offset) => write_fault(fault, offset, page),
    }
}

/// Writes the lines of all objects of a machine, one for each result, and a last one that says how the run ended.
fn write_all_lines<P: Page>(machine: &Machine, closing: Closing, page: &mut P) -> Result<(), Failed>
    ensures { Writes (P.told page.old) (P.told page.new) result (objects_text machine.now.state.heap machine.now.state.results closing) }
{
    write_heap(machine, page)?;
    write_results(machine.results(), page)?;
    write_closing(closing, page)
}

/// The same, and answers the status.
fn write_report<P: Page>(machine: &Machine, closing: Closing, page: &mut P) -> Result<u8, Failed>
    ensures text { Writes (P.told page.old) (P.told page.new) result (objects_text machine.now.state.heap machine.now.state.results closing) }
    ensures status { IfOk result (λ status. status ≡ closing_status closing) }
{
    write_all_lines(machine, closing, page)?;
    Ok(status_of(closing))
}

/// Writes what the items make that a source gives from the first on, as several pickles or as one, and answers the status, as the report for
/// people does: a line for each object, one for each result, and a last one that says how the run ended. A machine of its own runs the items
/// from nothing, to the end or to the first that is refused; no item and no step is kept. The source is to give a document that is not too
/// large.
///
/// `Memory` (M) where memory runs out: nothing was written. `Failed` where the sink fails: what was written then is a beginning of the lines.
fn lines_of_items<'a, I: ItemSource<'a>, P: Page>(
    alloc: Global,
    many: bool,
    source: I,
    page: &mut P,
) -> Result<u8, TextStop>
    requires { GivesDocument many (I.unread source) }
    ensures ok { IfOk result (WroteObjects many (I.unread source).loose (I.unread source).rest (P.told page.old) (P.told page.new)) }
    ensures failed { result ≡ Err TextStop.Failed → BrokeObjects many (I.unread source).loose (I.unread source).rest (P.told page.old) (P.told page.new) }
    ensures memory { result ≡ Err TextStop.Memory → page.new ≡ page.old }
{
    let mut machine = Machine::start(alloc, many);
    let closing = walk_items(alloc, many, source, &mut machine)?;
    let status = write_report(&machine, closing, page)?;
    Ok(status)
}

/// Writes what the pickle that the bytes are makes, or the several pickles do, with all items loose or with their frames, and answers the
/// status, as `lines_of_items` does. There are to be no more bytes than the limit.
pub fn objects_lines<P: Page>(
    alloc: Global,
    many: bool,
    loose: bool,
    bytes: &[u8],
    page: &mut P,
) -> Result<u8, TextStop>
    requires { length bytes.now ≤ size_limit }
    ensures ok { IfOk result (WroteObjects many loose bytes.now (P.told page.old) (P.told page.new)) }
    ensures failed { result ≡ Err TextStop.Failed → BrokeObjects many loose bytes.now (P.told page.old) (P.told page.new) }
    ensures memory { result ≡ Err TextStop.Memory → page.new ≡ page.old }
{
    lines_of_items(alloc, many, Items::new_as(loose, bytes), page)
}
