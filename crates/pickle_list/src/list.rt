//! The listing of items, one after another.

ghost use Rattle.std.specs.Prelude.{◌≡◌, ◌≤◌, ◌<◌, ◌-◌, ◌^◌, ◌==◌, ◌||◌, ⊤, [], if◌then◌else◌, length, not, None, OnOk, IfOk, IfErr};
ghost use Rattle.pickle_io.specs.Device.{Writes};
ghost use Rattle.pickle_io.specs.Text.{◌⧺◌};
ghost use Rattle.pickle_doc.specs.Document.{size_limit};
ghost use Rattle.pickle_machine.specs.State.{stack_size};
ghost use Rattle.pickle_machine.specs.Move.{next_of, refusal_of, fresh};
ghost use Rattle.pickle_machine.specs.Outline.{outline, sample};
ghost use Rattle.pickle_text.specs.ReportLine.{fault_line};
ghost use Rattle.pickle_list.specs.Line.{item_line_in, refused_line, left_line, protocol_line};
ghost use Rattle.pickle_text.specs.Closing.{kept_line};
ghost use Rattle.pickle_list.specs.Inside.Marks.{followed, followed_by};
ghost use Rattle.pickle_list.specs.Inside.Answer.{IsAnswer};
ghost use Rattle.pickle_text.specs.Inside.Part.{IsPart};
ghost use Rattle.pickle_list.specs.Inside.Listed.{Begun, HasListed};
ghost use Rattle.pickle_text.specs.Source.{GivesDocument};
ghost use Rattle.pickle_list.specs.Written.{WroteListing, CutListing, IsListed, IsListedIn, CutsListing, CutsListingIn};

use crate::arg_writer::{ArgWriter, ShortArgs};
use crate::highest::Highest;
use crate::line::{write_left_line, write_protocol, write_refused};
use crate::offset::Offset;
use crate::put::{write_bare_item, write_item};
use pickle_doc::{Document, DocumentItems, ItemSource, Items, NextRef, TailFault, is_stop};
use pickle_io::{Failed, Page};
use pickle_machine::{Lean, Refusal};
use pickle_ops::{Class, OpRef, Row};
use pickle_text::{ITEMS_OF_A_PART, Part, TextStop, write_fault, write_kept_line};
use std::alloc::{AllocError, Global};

/// How far the items of a source are listed.
#[derive(Drop)]
struct SoFar<I> {
    reader: I,
    lean: Lean,
    /// The offsets of the open marks, which are kept besides the machine so that a note costs no search.
    opened: Vec<u64>,
    highest: Highest,
    offset: Offset,
    place: usize,
}

/// Writes the lines after all items where bytes are left that are no further item.
fn write_fault_end<P: Page>(
    fault: TailFault,
    offset: u64,
    highest: Option<u32>,
    page: &mut P,
) -> Result<(), Failed>
    ensures { Writes (P.told page.old) (P.told page.new) result (fault_line fault offset ⧺ protocol_line highest) }
{
    write_fault(fault, offset, page)?;
    write_protocol(highest, page)
}

/// Writes the lines after the last STOP, behind which there are `kept` bytes.
fn write_last_end<P: Page>(kept: u64, highest: Option<u32>, page: &mut P) -> Result<(), Failed>
    ensures { Writes (P.told page.old) (P.told page.new) result (kept_line kept ⧺ protocol_line highest) }
{
    write_kept_line(kept, page)?;
    write_protocol(highest, page)
}

/// Whether a STOP ends the listing, with this many bytes behind it.
fn is_last(many: bool, kept: u64) -> bool
    ensures { result ≡ (not many || kept == 0) }
{
    !many || kept == 0
}

/// Writes the lines after the line of an item that is refused.
fn write_refused_end<P: Page>(
    refusal: Refusal,
    highest: Option<u32>,
    page: &mut P,
) -> Result<(), Failed>
    ensures { Writes (P.told page.old) (P.told page.new) result (refused_line refusal ⧺ protocol_line highest) }
{
    write_refused(refusal, page)?;
    write_protocol(highest, page)
}

/// Writes the line of an item that is refused, and the lines after it. An item that is refused has no note.
#[inline(never)]
fn write_refused_item<A: ArgWriter, P: Page>(
    op: &OpRef<'_>,
    offset: &Offset,
    marks: usize,
    refusal: Refusal,
    highest: Option<u32>,
    page: &mut P,
) -> Result<(), Failed>
    requires { marks < 2 ^ 32 }
    ensures { Writes (P.told page.old) (P.told page.new) result (item_line_in A.texts op.now offset.now marks None ⧺ (refused_line refusal ⧺ protocol_line highest)) }
{
    write_bare_item::<A, P>(op, offset, marks, page)?;
    write_refused_end(refusal, highest, page)
}

/// What a listing comes to that ends with this status, where its last lines were written or the sink failed.
fn answer<I: Drop>(closed: Result<(), Failed>, status: u8) -> Result<Part<SoFar<I>, u8>, TextStop>
    ensures { IsAnswer closed (Part.End status) result }
{
    closed?;
    Ok(Part::End(status))
}

/// What becomes of the offsets of the open marks by a row that is to move. Asking the row takes less than counting the marks before and
/// after.
#[inline(always)]
fn follow_marks(
    row: Row,
    lean: &Lean,
    opened: &mut Vec<u64>,
    offset: &Offset,
) -> Result<(), AllocError>
    ensures ok { OnOk result (opened.new.items ≡ followed_by row lean.now opened.old.items offset.now) }
{
    if let Row::Mark = row {
        opened.push(offset.number())?;
    } else if lean.takes_mark(row) {
        opened.pop();
    }
    Ok(())
}

/// Moves the outline by an item that is not refused, and follows its marks.
#[inline(always)]
fn perform(
    lean: &mut Lean,
    opened: &mut Vec<u64>,
    row: Row,
    class: Class,
    place: usize,
    offset: &Offset,
) -> Result<(), AllocError>
    requires heap { length lean.old.heap < 2 ^ 32 - 1 }
    requires good { refusal_of row lean.old ≡ None }
    ensures moved { OnOk result (lean.new ≡ outline (next_of row (sample class) place lean.old)) }
    ensures marks { OnOk result (opened.new.items ≡ followed opened.old.items (length lean.old.marked) (length lean.new.marked) offset.now) }
{
    follow_marks(row, lean, opened, offset)?;
    lean.perform(row, class, place)
}

/// Makes ready for the next move: after STOP, where several pickles are listed, the next one begins, and no mark is open.
fn refresh(lean: &mut Lean, opened: &mut Vec<u64>)
    ensures fresh { lean.new ≡ outline (fresh lean.old) }
    ensures marks { opened.new.items ≡ (if lean.old.stopped then [] else opened.old.items) }
{
    if lean.has_stopped() {
        opened.clear();
    }
    lean.refresh();
}

/// Writes what STOP left. Where several pickles are listed, the next one begins, and no mark is open.
#[inline(never)]
fn end_pickle<P: Page>(lean: &mut Lean, opened: &mut Vec<u64>, page: &mut P) -> Result<(), Failed>
    ensures text { Writes (P.told page.old) (P.told page.new) result (left_line (stack_size lean.old) (length lean.old.marked)) }
    ensures fresh { OnOk result (lean.new ≡ outline (fresh lean.old)) }
    ensures marks { OnOk result (opened.new.items ≡ (if lean.old.stopped then [] else opened.old.items)) }
{
    write_left_line(lean.stack_len(), lean.marks_len(), page)?;
    refresh(lean, opened);
    Ok(())
}

/// Writes the listing of the items of one part, from how far they are listed on.
#[inline(never)]
fn list_part<'a, A: ArgWriter, I: ItemSource<'a>, S: Page>(
    many: bool,
    from: SoFar<I>,
    page: &mut S,
) -> Result<Part<SoFar<I>, u8>, TextStop>
    requires { (begun : Begun) × HasListed A.texts many begun I.unread (S.told page.old) from }
    ensures ok { (begun : Begun) → HasListed A.texts many begun I.unread (S.told page.old) from
        → IfOk result (IsPart (HasListed A.texts many begun I.unread (S.told page.new))
        (IsListedIn A.texts many begun.unread.loose begun.unread.rest begun.told (S.told page.new))) }
    ensures err { (begun : Begun) → HasListed A.texts many begun I.unread (S.told page.old) from
        → IfErr result (CutsListingIn A.texts many begun.unread.loose begun.unread.rest begun.told (S.told page.new)) }
    ensures less { IfOk result (IsPart (λ far. length (I.unread far.reader).rest < length (I.unread from.reader).rest) (λ _. ⊤)) }
{
    let SoFar {
        mut reader,
        mut lean,
        mut opened,
        mut highest,
        mut offset,
        mut place,
    } = from;
    let end = place + ITEMS_OF_A_PART;
    'items: loop {
        match reader.next() {
            NextRef::Tail(fault) => {
                let at = offset.number();
                return answer(write_fault_end(fault, at, highest.get(), page), 1);
            }
            NextRef::Item(op) => {
                let row = Row::of_ref(&op);
                // The machine is asked before it takes the item, whose line is written first. The line of a refused item
                // has no note.
                if let Some(refusal) = lean.refusal(row) {
                    let marks = lean.marks_len();
                    highest.raise(op.opcode().protocol());
                    let most = highest.get();
                    return answer(
                        write_refused_item::<A, S>(
                            &op.again(),
                            &offset,
                            marks,
                            refusal,
                            most,
                            page,
                        ),
                        1,
                    );
                }
                write_item::<A, S>(&op, &offset, row, &lean, &opened, page)?;
                // After the line: next to the row the compiler makes it a jump of its own.
                highest.raise(op.opcode().protocol());
                let class = Class::of(op.opcode());
                perform(&mut lean, &mut opened, row, class, place, &offset)?;
                place += 1;
                if is_stop(op.opcode()) {
                    offset.advance(op.size() as u64);
                    end_pickle(&mut lean, &mut opened, page)?;
                    let kept = reader.unread_len();
                    if is_last(many, kept) {
                        return answer(write_last_end(kept, highest.get(), page), 0);
                    }
                    continue;
                }
                // A part ends where the hundreds of the offset change, so that most items need not be counted against its end.
                if offset.advance(op.size() as u64) && place >= end {
                    return Ok(Part::More(SoFar {
                        reader,
                        lean,
                        opened,
                        highest,
                        offset,
                        place,
                    }));
                }
            }
        }
    }
}

/// Writes the listing of the items that a source gives from the first on, as many pickles or as one, and answers its status: 1 where an
/// item is refused or the bytes have a fault, else 0. The source is to give a document that is not too
/// large.
///
/// `Memory` (M) comes when memory runs out, `Failed` from the sink; what was written then is a beginning of the listing.
pub fn list_items<'a, A: ArgWriter, I: ItemSource<'a>, S: Page>(
    alloc: Global,
    many: bool,
    source: I,
    page: &mut S,
) -> Result<u8, TextStop>
    requires { GivesDocument many (I.unread source) }
    ensures ok { IfOk result (IsListedIn A.texts many (I.unread source).loose (I.unread source).rest (S.told page.old) (S.told page.new)) }
    ensures err { IfErr result (CutsListingIn A.texts many (I.unread source).loose (I.unread source).rest (S.told page.old) (S.told page.new)) }
{
    let mut far = SoFar {
        reader: source,
        lean: Lean::new(alloc, many),
        opened: Vec::new(alloc),
        highest: Highest::none(),
        offset: Offset::at(0),
        place: 0,
    };
    'parts: loop {
        match list_part::<A, I, S>(many, far, page)? {
            Part::More(next) => far = next,
            Part::End(status) => return Ok(status),
        }
    }
}

/// Writes the listing of the pickle that the bytes are, or of the several pickles, which are not too many, with all items loose or with
/// their frames, and answers its status, as `list_items` does. No item is kept.
pub fn list_bytes_with<A: ArgWriter, S: Page>(
    alloc: Global,
    many: bool,
    loose: bool,
    bytes: &[u8],
    page: &mut S,
) -> Result<u8, TextStop>
    requires { length bytes.now ≤ size_limit }
    ensures ok { IfOk result (IsListedIn A.texts many loose bytes.now (S.told page.old) (S.told page.new)) }
    ensures err { IfErr result (CutsListingIn A.texts many loose bytes.now (S.told page.old) (S.told page.new)) }
{
    let items = Items::new_as(loose, bytes);
    list_items::<A, Items<'_>, S>(alloc, many, items, page)
}

/// The same with each argument's own text.
pub fn list_bytes<S: Page>(
    alloc: Global,
    many: bool,
    loose: bool,
    bytes: &[u8],
    page: &mut S,
) -> Result<u8, TextStop>
    requires { length bytes.now ≤ size_limit }
    ensures ok { IfOk result (IsListed many loose bytes.now (S.told page.old) (S.told page.new)) }
    ensures err { IfErr result (CutsListing many loose bytes.now (S.told page.old) (S.told page.new)) }
{
    list_bytes_with::<ShortArgs, S>(alloc, many, loose, bytes, page)
}

/// Writes the listing of a document, in its mode, and answers its status: 1 where an item is refused or the tail has a fault, else 0.
/// The machine that it asks is its own.
///
/// `Memory` (M) comes when memory runs out, `Failed` from the sink; what was written then is a beginning of the listing.
pub fn write_listing<S: Page>(
    alloc: Global,
    document: &Document,
    page: &mut S,
) -> Result<u8, TextStop>
    ensures listed { IfOk result (WroteListing document.now.contents (S.told page.old) (S.told page.new)) }
    ensures stopped { IfErr result (CutListing document.now.contents (S.told page.old) (S.told page.new)) }
{
    let items = DocumentItems::new(document);
    list_items::<ShortArgs, DocumentItems<'_>, S>(alloc, document.is_many(), items, page)
}
