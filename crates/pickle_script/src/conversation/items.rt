//! The items of a session's document, a line each.

ghost use Rattle.std.specs.Prelude.{◌≡◌, ◌+◌, ◌≤◌, length, IfOk};
ghost use Rattle.pickle_io.specs.Device.{Writes};
ghost use Rattle.pickle_doc.specs.Document.{document_bytes, size_limit};
ghost use Rattle.pickle_doc.specs.Place.{offset_of};
ghost use Rattle.pickle_script.specs.PlaceText.{sign_if, signs, op_text, place_columns, session_line, session_line_at, items_text};

use pickle_io::{Failed, Page, write_all};
use pickle_ops::{Op, write_arg_text};
use pickle_session::{Past, Session};
use pickle_text::write_right;

/// A sign where something holds, else a blank.
fn sign_if(sign: u8, holds: bool) -> u8
    ensures { result ≡ sign_if sign holds }
{
    if holds { sign } else { b' ' }
}

/// `>` at the cursor, `*` with a breakpoint.
fn signs(at_cursor: bool, breaks: bool) -> [u8; 2]
    ensures { result ≡ signs at_cursor breaks }
{
    [sign_if(b'>', at_cursor), sign_if(b'*', breaks)]
}

/// Writes a place and an offset, each at the right of a column.
fn write_columns<S: Page>(place: usize, offset: u64, page: &mut S) -> Result<(), Failed>
    ensures { Writes (S.told page.old) (S.told page.new) result (place_columns place offset) }
{
    write_right(place as u64, page)?;
    write_all(page, b" ")?;
    write_right(offset, page)
}

/// Writes the name of an opcode, and after a blank the text of its argument where there is one.
#[tactic(auto, using(pickle_io::proofs::Devices::text_steps, crate::proofs::PlaceLemmas::name_steps), unfolding(crate::specs::PlaceText::op_text))]
pub(crate) fn write_op<S: Page>(op: &Op, page: &mut S) -> Result<(), Failed>
    ensures { Writes (S.told page.old) (S.told page.new) result (op_text op.now) }
{
    if op.has_arg_text() {
        write_all(page, op.opcode().name().as_bytes())?;
        write_all(page, b" ")?;
        write_arg_text(op, page)
    } else {
        write_all(page, op.opcode().name().as_bytes())
    }
}

/// Writes the line of the item at a place, which begins at this offset.
#[tactic(auto, using(pickle_io::proofs::Devices::text_steps), unfolding(crate::specs::PlaceText::session_line))]
fn write_item<P: Past, S: Page>(
    session: &Session<P>,
    place: usize,
    offset: u64,
    op: &Op,
    page: &mut S,
) -> Result<(), Failed>
    requires { offset ≡ offset_of session.now.session.document place }
    ensures { Writes (S.told page.old) (S.told page.new) result (session_line session.now.session place op.now) }
{
    let at_cursor = place == session.cursor();
    write_all(page, &signs(at_cursor, session.has_break(place)))?;
    write_columns(place, offset, page)?;
    write_all(page, b": ")?;
    write_op(op, page)?;
    write_all(page, b"\n")
}

/// Writes the line of the item at a place, and answers the offset of the place after it.
#[tactic(auto, using(pickle_io::proofs::Devices::text_steps, crate::proofs::PlaceLemmas::offset_steps), unfolding(crate::specs::PlaceText::session_line_at))]
fn write_line_at<P: Past, S: Page>(
    session: &Session<P>,
    place: usize,
    offset: u64,
    page: &mut S,
) -> Result<u64, Failed>
    requires small { length (document_bytes session.now.session.document) ≤ size_limit }
    requires offset { offset ≡ offset_of session.now.session.document place }
    ensures line { Writes (S.told page.old) (S.told page.new) result (session_line_at session.now.session place) }
    ensures offset { IfOk result (λ next. next ≡ offset_of session.now.session.document (place + 1)) }
{
    match session.document().item(place) {
        None => Ok(offset),
        Some(op) => {
            let next = offset + op.size() as u64;
            write_item(session, place, offset, op, page)?;
            Ok(next)
        }
    }
}

/// Writes a line for each item: `>` at the cursor, `*` with a breakpoint, its place, its offset, its name, and the text of
/// its argument where there is one. It takes no memory, and time linear in the items. Where the sink fails, a beginning of the
/// lines was written.
#[tactic(auto, using(pickle_io::proofs::Devices::below_steps), unfolding(crate::specs::PlaceText::items_text))]
pub fn write_items<P: Past, S: Page>(session: &Session<P>, page: &mut S) -> Result<(), Failed>
    ensures { Writes (S.told page.old) (S.told page.new) result (items_text session.now.session) }
{
    let mut offset: u64 = 0;
    let len = session.document().len();
    for place in 0..len {
        offset = write_line_at(session, place, offset, page)?;
    }
    Ok(())
}
