//! The line of an item.

ghost use Rattle.std.specs.Prelude.{◌≡◌, ◌≤◌, ◌<◌, ◌^◌, ◌+◌, ◌-◌, ◌*◌, ◌++◌, length, codes, unwrap_or, [], None, Some, OnOk};
ghost use Rattle.pickle_ops.specs.Table.{name_of};
ghost use Rattle.pickle_io.specs.Text.{◌⧺◌};
ghost use Rattle.pickle_io.specs.Device.{Wrote, Writes};
ghost use Rattle.pickle_ops.specs.Row.{row_of};
ghost use Rattle.pickle_text.specs.Column.{blanks, left_aligned, newline};
ghost use Rattle.pickle_list.specs.Line.{offset_column, code_column, note_text, described, named_in, item_line_in};
ghost use Rattle.pickle_list.specs.Listing.{note_with};
ghost use Rattle.pickle_list.specs.Inside.Marks.{last_element};

use crate::arg_writer::ArgWriter;
use crate::column::code_block;
use crate::note::{Note, note_of};
use crate::offset::{Offset, push_offset};
use pickle_io::{Failed, Page, push_decimal};
use pickle_machine::Lean;
use pickle_ops::{OpRef, Opcode, Row, opcodes};
use pickle_text::write_blanks;

/// Writes where an item is, a colon, the code of its opcode and four blanks for each open mark.
#[inline(always)]
fn write_head<P: Page>(
    opcode: Opcode,
    offset: &Offset,
    marks: usize,
    page: &mut P,
) -> Result<(), Failed>
    requires { marks < 2 ^ 32 }
    ensures text { Writes (P.told page.old) (P.told page.new) result (offset_column offset.now ⧺ code_column opcode ⧺ blanks (4 * marks)) }
    ensures room { OnOk result (160 ≤ P.room page.new) }
{
    page.make_room()?;
    push_offset(offset, code_block(opcode), 7, page);
    write_blanks(4 * marks, page)
}

/// Puts the name of an opcode.
#[tactic(auto, using(crate::proofs::PageLines::name_there))]
#[inline(always)]
fn push_name<P: Page>(opcode: Opcode, page: &mut P)
    requires { 16 ≤ P.room page.old }
    ensures text { Wrote (P.told page.old) (P.told page.new) (name_of opcode) }
    ensures room { P.room page.old ≤ P.room page.new + 16 }
{
    page.push_front(filled_name(opcode), name_len(opcode));
}

/// Puts the name of an opcode, filled to ten places, and a blank.
#[tactic(auto, using(crate::proofs::PageLines::filled_there))]
#[inline(always)]
fn push_filled<P: Page>(opcode: Opcode, page: &mut P)
    requires { 17 ≤ P.room page.old }
    ensures text { Wrote (P.told page.old) (P.told page.new) (left_aligned 10 (name_of opcode) ⧺ codes " ") }
    ensures room { P.room page.old ≤ P.room page.new + 17 }
{
    page.push_two(filled_name(opcode), name_len(opcode).max(10), b" ", 1);
}

/// Puts a note.
#[tactic(auto, using(pickle_io::proofs::Devices::text_steps), unfolding(crate::specs::Line::mark_text, crate::specs::Line::as_text))]
#[inline(always)]
fn push_note<P: Page>(note: Note, page: &mut P)
    requires { 40 ≤ P.room page.old }
    ensures text { Wrote (P.told page.old) (P.told page.new) (note_text note) }
    ensures room { P.room page.old ≤ P.room page.new + 30 }
{
    match note {
        Note::MarkAt(offset) => {
            page.push_text(b"(MARK at ");
            push_decimal(offset, page);
            page.push(b')');
        }
        Note::As(key) => {
            page.push_text(b"(as ");
            push_decimal(key, page);
            page.push(b')');
        }
    }
}

/// Writes the name of an operation, and its argument where that has a text.
#[tactic(auto, using(pickle_io::proofs::Devices::text_steps, crate::proofs::Names::name_steps))]
#[inline(always)]
fn write_name<A: ArgWriter, P: Page>(op: &OpRef<'_>, page: &mut P) -> Result<(), Failed>
    requires { 160 ≤ P.room page.old }
    ensures text { Writes (P.told page.old) (P.told page.new) result (described (name_of op.now.opcode) (A.texts.text op.now) None) }
    ensures room { OnOk result (1 ≤ P.room page.new) }
{
    if op.has_arg_text() {
        push_filled(op.opcode(), page);
        A::write_text(op, page)
    } else {
        push_name(op.opcode(), page);
        Ok(())
    }
}

/// Writes the name of an operation, its argument and a note.
#[tactic(auto, using(pickle_io::proofs::Devices::text_steps))]
fn write_arg_and_note<A: ArgWriter, P: Page>(
    op: &OpRef<'_>,
    note: Note,
    page: &mut P,
) -> Result<(), Failed>
    requires { 160 ≤ P.room page.old }
    ensures text { Writes (P.told page.old) (P.told page.new) result (described (name_of op.now.opcode) (Some (unwrap_or (A.texts.text op.now) [])) (Some note)) }
    ensures room { OnOk result (1 ≤ P.room page.new) }
{
    push_filled(op.opcode(), page);
    A::write_text(op, page)?;
    page.push(b' ');
    push_note(note, page);
    Ok(())
}

/// Writes the name of an operation and a note.
#[tactic(auto, using(pickle_io::proofs::Devices::text_steps))]
fn write_name_and_note<P: Page>(op: &OpRef<'_>, note: Note, page: &mut P) -> Result<(), Failed>
    requires { 160 ≤ P.room page.old }
    ensures text { Writes (P.told page.old) (P.told page.new) result (left_aligned 10 (name_of op.now.opcode) ⧺ codes " " ⧺ note_text note) }
    ensures room { OnOk result (1 ≤ P.room page.new) }
{
    push_filled(op.opcode(), page);
    push_note(note, page);
    Ok(())
}

/// Writes the name of an operation, its argument where that has a text, and a note.
#[tactic(auto, using(crate::proofs::Names::name_steps))]
fn write_noted<A: ArgWriter, P: Page>(
    op: &OpRef<'_>,
    note: Note,
    page: &mut P,
) -> Result<(), Failed>
    requires { 160 ≤ P.room page.old }
    ensures text { Writes (P.told page.old) (P.told page.new) result (described (name_of op.now.opcode) (A.texts.text op.now) (Some note)) }
    ensures room { OnOk result (1 ≤ P.room page.new) }
{
    if op.has_arg_text() {
        write_arg_and_note::<A, P>(op, note, page)
    } else {
        write_name_and_note(op, note, page)
    }
}

/// Writes the name of an operation, its argument where that has a text, and a note where there is one.
#[tactic(auto, unfolding(crate::specs::Line::named_in))]
#[inline(always)]
fn write_named<A: ArgWriter, P: Page>(
    op: &OpRef<'_>,
    note: Option<Note>,
    page: &mut P,
) -> Result<(), Failed>
    requires { 160 ≤ P.room page.old }
    ensures text { Writes (P.told page.old) (P.told page.new) result (named_in A.texts op.now note) }
    ensures room { OnOk result (1 ≤ P.room page.new) }
{
    match note {
        None => write_name::<A, P>(op, page),
        Some(note) => write_noted::<A, P>(&op.again(), note, page),
    }
}

/// Writes the name of an operation, its argument where that has a text, and a note where there is one, and ends the line.
#[tactic(auto, using(pickle_io::proofs::Devices::text_steps))]
#[inline(always)]
fn write_rest<A: ArgWriter, P: Page>(
    op: &OpRef<'_>,
    note: Option<Note>,
    page: &mut P,
) -> Result<(), Failed>
    requires { 160 ≤ P.room page.old }
    ensures { Writes (P.told page.old) (P.told page.new) result (named_in A.texts op.now note ⧺ newline) }
{
    write_named::<A, P>(op, note, page)?;
    page.push(b'\n');
    Ok(())
}

/// Writes the line of an item at this offset, with its note. This is the outline of the state before it; `opened` has the offsets of the
/// open marks, the topmost last.
#[inline(always)]
pub fn write_item<A: ArgWriter, P: Page>(
    op: &OpRef<'_>,
    offset: &Offset,
    row: Row,
    lean: &Lean,
    opened: &Vec<u64>,
    page: &mut P,
) -> Result<(), Failed>
    requires row { row ≡ row_of op.now }
    requires marks { length lean.now.marked < 2 ^ 32 }
    ensures { Writes (P.told page.old) (P.told page.new) result
        (item_line_in A.texts op.now offset.now (length lean.now.marked) (note_with op.now lean.now (last_element opened.now.items))) }
{
    write_head(op.opcode(), offset, lean.marks_len(), page)?;
    // No earlier: it is used at once, and takes no register while the head is written.
    let note = note_of(op, row, lean, opened);
    write_rest::<A, P>(op, note, page)
}

/// Writes the line of an item that is refused, at this offset, before which `marks` marks are open. It has no note.
pub fn write_bare_item<A: ArgWriter, P: Page>(
    op: &OpRef<'_>,
    offset: &Offset,
    marks: usize,
    page: &mut P,
) -> Result<(), Failed>
    requires { marks < 2 ^ 32 }
    ensures { Writes (P.told page.old) (P.told page.new) result (item_line_in A.texts op.now offset.now marks None) }
{
    write_head(op.opcode(), offset, marks, page)?;
    write_rest::<A, P>(op, None, page)
}

macro_rules! filled_name {
    (() { $code:literal $name:literal $protocol:literal $form:ident $row:tt $kind:tt $cells:literal $filled:literal $($rest:tt)* }) => { $filled };
}

macro_rules! name_len {
    (() { $code:literal $name:literal $protocol:literal $form:ident $row:tt $kind:tt $cells:literal $filled:literal $len:literal }) => { $len };
}

/// The name of an opcode, filled to sixteen places.
#[inline(always)]
fn filled_name(opcode: Opcode) -> &'static [u8; 16]
    ensures { result.now ≡ name_of opcode ++ blanks (16 - length (name_of opcode)) }
{
    opcodes!(match opcode => filled_name!())
}

/// How long the name of an opcode is.
#[inline(always)]
fn name_len(opcode: Opcode) -> usize
    ensures value { result ≡ length (name_of opcode) }
    ensures short { result ≤ 16 }
{
    opcodes!(match opcode => name_len!())
}
