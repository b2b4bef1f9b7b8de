//! The listing of items as JSON Lines, one after another.

ghost use Rattle.std.specs.Prelude.{◌≡◌, ◌≤◌, length, IfOk, IfErr};
ghost use Rattle.pickle_doc.specs.Document.{size_limit};
ghost use Rattle.pickle_list.specs.Inside.Answer.{IsAnswer};
ghost use Rattle.pickle_text.specs.Source.{GivesDocument};
ghost use Rattle.pickle_json.specs.Written.{IsListed, CutsListing};

use crate::ends::{write_fault_end, write_stopped_end};
use crate::item::write_item;
use crate::note::note_of;
use crate::walk::{end_pickle, is_last, perform, raise, write_refused_item};
use pickle_doc::{ItemSource, Items, NextRef, is_stop};
use pickle_io::{Failed, Page};
use pickle_machine::Lean;
use pickle_ops::{Class, Row};
use pickle_text::TextStop;
use std::alloc::Global;

/// What a listing comes to that ends with this status, where its last lines were written or the sink failed.
fn answer(closed: Result<(), Failed>, status: u8) -> Result<u8, TextStop>
    ensures { IsAnswer closed status result }
{
    closed?;
    Ok(status)
}

/// Writes the listing of the items that a source gives from the first on, as many pickles or as one, and answers its status: 1 where an
/// item is refused or the bytes have a fault, else 0. The source is to give a document that is not too large.
///
/// `Memory` (M) comes when memory runs out, `Failed` from the sink; what was written then is a beginning of the listing.
pub fn list_items<'a, I: ItemSource<'a>, S: Page>(
    alloc: Global,
    many: bool,
    source: I,
    page: &mut S,
) -> Result<u8, TextStop>
    requires { GivesDocument many (I.unread source) }
    ensures ok { IfOk result (IsListed many (I.unread source).loose (I.unread source).rest (S.told page.old) (S.told page.new)) }
    ensures err { IfErr result (CutsListing many (I.unread source).loose (I.unread source).rest (S.told page.old) (S.told page.new)) }
{
    let mut reader = source;
    let mut lean = Lean::new(alloc, many);
    let mut opened = Vec::new(alloc);
    let mut highest = None;
    let mut offset = 0;
    let mut place = 0;
    'items: loop {
        match reader.next() {
            NextRef::Tail(fault) => {
                return answer(write_fault_end(fault, offset, highest, page), 1);
            }
            NextRef::Item(op) => {
                let row = Row::of_ref(&op);
                let marks = lean.marks_len();
                highest = raise(highest, op.opcode().protocol());
                // The machine is asked before it takes the item, whose line is written first.
                if let Some(refusal) = lean.refusal(row) {
                    return answer(
                        write_refused_item(&op, offset, marks, refusal, highest, page),
                        1,
                    );
                }
                write_item(&op, offset, marks, note_of(&op, row, &lean, &opened), page)?;
                perform(
                    &mut lean,
                    &mut opened,
                    row,
                    Class::of(op.opcode()),
                    place,
                    offset,
                )?;
                place += 1;
                offset += op.size() as u64;
                if is_stop(op.opcode()) {
                    end_pickle(&mut lean, &mut opened, page)?;
                    let kept = reader.unread_len();
                    if is_last(many, kept) {
                        return answer(write_stopped_end(kept, highest, page), 0);
                    }
                    continue;
                }
            }
        }
    }
}

/// Writes the listing of the pickle that the bytes are, or of the several pickles, which are not too many, with all items loose or with
/// their frames, and answers its status, as `list_items` does. No item is kept.
pub fn list_bytes<S: Page>(
    alloc: Global,
    many: bool,
    loose: bool,
    bytes: &[u8],
    page: &mut S,
) -> Result<u8, TextStop>
    requires { length bytes.now ≤ size_limit }
    ensures ok { IfOk result (IsListed many loose bytes.now (S.told page.old) (S.told page.new)) }
    ensures err { IfErr result (CutsListing many loose bytes.now (S.told page.old) (S.told page.new)) }
{
    list_items(alloc, many, Items::new_as(loose, bytes), page)
}
