//! The report of a document.

ghost use Rattle.std.specs.Prelude.{◌≡◌, ◌≢◌, ◌+◌, ◌-◌, ◌^◌, ◌<◌, ◌≤◌, ⊤, length, Ok, Err, OnOk, OnErr, IfOk, IfErr};
ghost use Rattle.pickle_doc.specs.Document.{size_limit};
ghost use Rattle.pickle_ops.specs.Row.{row_of};
ghost use Rattle.pickle_machine.specs.State.{start};
ghost use Rattle.pickle_machine.specs.Move.{move, refusal_at};
ghost use Rattle.pickle_io.specs.Device.{Writes, each};
ghost use Rattle.pickle_text.specs.Source.{GivesDocument};
ghost use Rattle.object_texts.specs.Report.{result_line, report_text, WroteReport, BrokeReport, IsReported, BreaksReport};
ghost use Rattle.pickle_text.specs.Closing.{closing_status, closing_at};
ghost use Rattle.object_texts.specs.Inside.Ending.{EndsIn};
ghost use Rattle.pickle_doc.specs.Unread.{Unread};
ghost use Rattle.pickle_text.specs.Inside.Part.{IsPart};
ghost use Rattle.object_texts.specs.Inside.Stepped.{HasStepped};

use crate::object::{write_next, write_objects};
use pickle_doc::{
    Document, DocumentItems, ItemSource, Items, NextRef, TailFault, ends_reading, is_stop,
};
use pickle_io::{Failed, Page, write_all};
use pickle_machine::{Machine, Refusal};
use pickle_ops::{ObjId, OpRef, Row};
use pickle_text::{Closing, ITEMS_OF_A_PART, Part, TextStop, closing_at, status_of, write_closing};
use std::alloc::Global;

/// Writes the line of a result.
fn write_result<S: Page>(id: ObjId, page: &mut S) -> Result<(), Failed>
    ensures { Writes (S.told page.old) (S.told page.new) result (result_line id) }
{
    write_all(page, b"result")?;
    write_next(id, page)?;
    write_all(page, b"\n")
}

/// Writes the lines of results.
#[tactic(auto, using(pickle_io::proofs::Devices::each_steps))]
fn write_results<S: Page>(ids: &[ObjId], page: &mut S) -> Result<(), Failed>
    ensures { Writes (S.told page.old) (S.told page.new) result (each result_line ids.now) }
{
    for id in ids {
        write_result(*id, page)?;
    }
    Ok(())
}

/// Writes all objects, the results, and how the run that made them ended.
fn write_lines<S: Page>(machine: &Machine, closing: Closing, page: &mut S) -> Result<(), Failed>
    ensures { Writes (S.told page.old) (S.told page.new) result (report_text machine.now.state.heap machine.now.state.results closing) }
{
    write_objects(machine, page)?;
    write_results(machine.results(), page)?;
    write_closing(closing, page)
}

/// Writes the lines of all objects of a machine, one for each result, and a closing line where something is refused or at fault, and
/// answers the status: 1 with such a line, else 0. It takes no memory. `Failed` where the sink fails; a beginning of the lines was
/// written then.
fn write_report<S: Page>(machine: &Machine, closing: Closing, page: &mut S) -> Result<u8, Failed>
    ensures text { Writes (S.told page.old) (S.told page.new) result (report_text machine.now.state.heap machine.now.state.results closing) }
    ensures status { IfOk result (λ status. status ≡ closing_status closing) }
{
    write_lines(machine, closing, page)?;
    Ok(status_of(closing))
}

/// Steps a machine over an item, whose row this is, and keeps no record. Refused, it changes nothing. `Refusal::Memory` comes also where
/// there is no memory for a copy of the item's bytes, which an object keeps.
#[inline(always)]
pub fn step_over(
    alloc: Global,
    row: Row,
    op: &OpRef<'_>,
    place: usize,
    machine: &mut Machine,
) -> Result<(), Refusal>
    requires heap { length machine.old.state.heap < 2 ^ 32 - 1 }
    requires row { row ≡ row_of op.now }
    ensures ok { OnOk result (move op.now place machine.old.state ≡ Ok machine.new.state) }
    ensures objects { length machine.new.state.heap ≤ length machine.old.state.heap + 1 }
    ensures err { OnErr result (machine.new.state ≡ machine.old.state) }
    ensures refused { IfErr result (λ e. e ≢ Refusal.Memory → refusal_at op.now machine.old.state ≡ Some e) }
{
    machine.step_as(alloc, row, op, place)
}

/// How far a machine was stepped over the items of a source.
#[derive(Drop)]
struct SoFar<I> {
    reader: I,
    place: usize,
    /// Whether STOP was the last of them.
    stop: bool,
}

/// Steps a machine over the items of one part, from how far it was stepped on. There are `total` bytes.
#[inline(never)]
fn walk_part<'a, I: ItemSource<'a>>(
    alloc: Global,
    many: bool,
    total: u64,
    from: SoFar<I>,
    machine: &mut Machine,
) -> Result<Part<SoFar<I>, Closing>, TextStop>
    requires { (begun : Unread) × HasStepped many begun total I.unread machine.old.state from }
    ensures closes { (begun : Unread) → HasStepped many begun total I.unread machine.old.state from
        → IfOk result (IsPart (HasStepped many begun total I.unread machine.new.state)
        (EndsIn many begun.loose begun.rest machine.new.state)) }
    ensures memory { IfErr result (λ e. e ≡ TextStop.Memory) }
    ensures less { IfOk result (IsPart (λ far. length (I.unread far.reader).rest < length (I.unread from.reader).rest) (λ _. ⊤)) }
{
    let SoFar {
        mut reader,
        place: first,
        mut stop,
    } = from;
    let end = first + ITEMS_OF_A_PART;
    'items: for place in first..end {
        match reader.next() {
            NextRef::Tail(fault) => {
                let left = reader.unread_len();
                return Ok(Part::End(closing_at(stop, left, fault, total - left)));
            }
            NextRef::Item(op) => {
                let row = Row::of_ref(&op);
                if let Err(refusal) = step_over(alloc, row, &op, place, machine) {
                    if refusal == Refusal::Memory {
                        return Err(TextStop::Memory);
                    }
                    return Ok(Part::End(Closing::Refused(place, refusal)));
                }
                if ends_reading(many, op.opcode()) {
                    return Ok(Part::End(Closing::Stopped));
                }
                stop = is_stop(op.opcode());
            }
        }
    }
    Ok(Part::More(SoFar {
        reader,
        place: end,
        stop,
    }))
}

/// Steps a machine that has done nothing over the items that a source gives from the first on, as far as they have moves, and says
/// how the run ended. `Memory` where there is no memory for a step.
pub fn walk_items<'a, I: ItemSource<'a>>(
    alloc: Global,
    many: bool,
    source: I,
    machine: &mut Machine,
) -> Result<Closing, TextStop>
    requires start { machine.old.state ≡ start many }
    requires document { GivesDocument many (I.unread source) }
    ensures closes { IfOk result (EndsIn many (I.unread source).loose (I.unread source).rest machine.new.state) }
    ensures memory { IfErr result (λ e. e ≡ TextStop.Memory) }
{
    let total = source.unread_len();
    let mut far = SoFar {
        reader: source,
        place: 0,
        stop: false,
    };
    'parts: loop {
        match walk_part(alloc, many, total, far, machine)? {
            Part::More(next) => far = next,
            Part::End(closing) => return Ok(closing),
        }
    }
}

/// Writes the report of the items that a source gives from the first on, as several pickles or as one, and answers its status. A
/// machine of its own runs the items from nothing, to the end or to the first that is refused; no item and no step is kept. Then
/// come the lines of all objects that they made, a line `result #n` for each result, and where an item is refused or the tail has a
/// fault one line more: `refused: item K: ` and why, or `fault: ` and why with the offset of the tail. The status is 1 with such a
/// line, else 0. The source is to give a document that is not too large.
///
/// `Memory` where there is no memory for a step, and then nothing was written. `Failed` where the sink fails; a beginning of the report
/// was written then.
pub fn report_of_items<'a, I: ItemSource<'a>, S: Page>(
    alloc: Global,
    many: bool,
    source: I,
    page: &mut S,
) -> Result<u8, TextStop>
    requires { GivesDocument many (I.unread source) }
    ensures ok { IfOk result (IsReported many (I.unread source).loose (I.unread source).rest (S.told page.old) (S.told page.new)) }
    ensures failed { result ≡ Err TextStop.Failed → BreaksReport many (I.unread source).loose (I.unread source).rest (S.told page.old) (S.told page.new) }
    ensures memory { result ≡ Err TextStop.Memory → page.new ≡ page.old }
{
    let mut machine = Machine::start(alloc, many);
    let closing = walk_items(alloc, many, source, &mut machine)?;
    let status = write_report(&machine, closing, page)?;
    Ok(status)
}

/// Writes the report of the pickle that the bytes are, or of the several pickles, with all items loose or with their frames, and answers
/// its status, as `report_of_items` does.
/// There are to be no more bytes than the limit.
pub fn report_of_bytes<S: Page>(
    alloc: Global,
    many: bool,
    loose: bool,
    bytes: &[u8],
    page: &mut S,
) -> Result<u8, TextStop>
    requires { length bytes.now ≤ size_limit }
    ensures ok { IfOk result (IsReported many loose bytes.now (S.told page.old) (S.told page.new)) }
    ensures failed { result ≡ Err TextStop.Failed → BreaksReport many loose bytes.now (S.told page.old) (S.told page.new) }
    ensures memory { result ≡ Err TextStop.Memory → page.new ≡ page.old }
{
    report_of_items(alloc, many, Items::new_as(loose, bytes), page)
}

/// Writes the report of a document, in its mode, and answers its status, as `report_of_items` does.
///
/// `Memory` where there is no memory for a step, and then nothing was written. `Failed` where the sink fails; a beginning of the report
/// was written then.
pub fn write_document_report<S: Page>(
    alloc: Global,
    document: &Document,
    page: &mut S,
) -> Result<u8, TextStop>
    ensures ok { IfOk result (WroteReport document.now.contents (S.told page.old) (S.told page.new)) }
    ensures failed { result ≡ Err TextStop.Failed → BrokeReport document.now.contents (S.told page.old) (S.told page.new) }
    ensures memory { result ≡ Err TextStop.Memory → page.new ≡ page.old }
{
    let items = DocumentItems::new(document);
    report_of_items(alloc, document.is_many(), items, page)
}
