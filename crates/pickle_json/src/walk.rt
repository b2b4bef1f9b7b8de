//! Steps over items.

ghost use Rattle.std.specs.Prelude.{◌≡◌, ◌≤◌, ◌<◌, ◌-◌, ◌^◌, ◌==◌, ◌||◌, [], if◌then◌else◌, length, not, None, OnOk};
ghost use Rattle.pickle_io.specs.Device.{Writes};
ghost use Rattle.pickle_io.specs.Text.{◌⧺◌};
ghost use Rattle.pickle_machine.specs.State.{stack_size};
ghost use Rattle.pickle_machine.specs.Move.{next_of, refusal_of, fresh};
ghost use Rattle.pickle_machine.specs.Outline.{outline, sample};
ghost use Rattle.pickle_list.specs.Line.{raised};
ghost use Rattle.pickle_list.specs.Inside.Marks.{followed, followed_by};
ghost use Rattle.pickle_json.specs.ItemFields.{item_line};
ghost use Rattle.pickle_json.specs.EndFields.{left_line, refused_end};

use crate::ends::{write_left, write_refused_end};
use crate::item::write_item;
use pickle_io::{Failed, Page};
use pickle_machine::{Lean, Refusal};
use pickle_ops::{Class, OpRef, Row};
use std::alloc::AllocError;

/// The higher of the protocols so far and of one opcode more.
pub fn raise(highest: Option<u8>, protocol: u8) -> Option<u8>
    ensures { result ≡ raised highest protocol }
{
    match highest {
        None => Some(protocol),
        Some(most) => Some(most.max(protocol)),
    }
}

/// Whether a STOP ends the listing, with this many bytes behind it.
pub fn is_last(many: bool, kept: u64) -> bool
    ensures { result ≡ (not many || kept == 0) }
{
    !many || kept == 0
}

/// What becomes of the offsets of the open marks by a row that is to move.
fn follow_marks(row: Row, lean: &Lean, opened: &mut Vec<u64>, offset: u64) -> Result<(), AllocError>
    ensures ok { OnOk result (opened.new.items ≡ followed_by row lean.now opened.old.items offset) }
{
    if let Row::Mark = row {
        opened.push(offset)?;
    } else if lean.takes_mark(row) {
        opened.pop();
    }
    Ok(())
}

/// Moves the outline by an item that is not refused, and follows its marks.
pub fn perform(
    lean: &mut Lean,
    opened: &mut Vec<u64>,
    row: Row,
    class: Class,
    place: usize,
    offset: u64,
) -> Result<(), AllocError>
    requires heap { length lean.old.heap < 2 ^ 32 - 1 }
    requires good { refusal_of row lean.old ≡ None }
    ensures moved { OnOk result (lean.new ≡ outline (next_of row (sample class) place lean.old)) }
    ensures marks { OnOk result (opened.new.items ≡ followed opened.old.items (length lean.old.marked) (length lean.new.marked) offset) }
{
    follow_marks(row, lean, opened, offset)?;
    lean.perform(row, class, place)
}

/// Makes ready for the next move: after STOP, where several pickles are listed, the next one begins, and no mark is open.
fn refresh(lean: &mut Lean, opened: &mut Vec<u64>)
    ensures fresh { lean.new ≡ outline (fresh lean.old) }
    ensures marks { opened.new.items ≡ (if lean.old.stopped then [] else opened.old.items) }
{
    if lean.has_stopped() {
        opened.clear();
    }
    lean.refresh();
}

/// Writes what STOP left. Where several pickles are listed, the next one begins, and no mark is open.
pub fn end_pickle<P: Page>(
    lean: &mut Lean,
    opened: &mut Vec<u64>,
    page: &mut P,
) -> Result<(), Failed>
    ensures text { Writes (P.told page.old) (P.told page.new) result (left_line (stack_size lean.old) (length lean.old.marked)) }
    ensures fresh { OnOk result (lean.new ≡ outline (fresh lean.old)) }
    ensures marks { OnOk result (opened.new.items ≡ (if lean.old.stopped then [] else opened.old.items)) }
{
    write_left(lean.stack_len(), lean.marks_len(), page)?;
    refresh(lean, opened);
    Ok(())
}

/// Writes the line of an item that is refused, and the last line. An item that is refused has no note.
pub fn write_refused_item<P: Page>(
    op: &OpRef<'_>,
    offset: u64,
    marks: usize,
    refusal: Refusal,
    highest: Option<u8>,
    page: &mut P,
) -> Result<(), Failed>
    ensures { Writes (P.told page.old) (P.told page.new) result (item_line op.now offset marks None ⧺ refused_end refusal highest) }
{
    write_item(op, offset, marks, None, page)?;
    write_refused_end(refusal, highest, page)
}
