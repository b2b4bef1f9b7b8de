//! The lines of the items of a session's document, and of those of a range. `Failed` where the sink fails; a beginning of the text was written then.

ghost use Rattle.std.specs.Prelude.{◌≡◌, ◌+◌, ◌-◌, ◌≤◌, length, IfOk};
ghost use Rattle.pickle_io.specs.Device.{Writes, each_below};
ghost use Rattle.pickle_io.specs.Text.{◌⧺◌};
ghost use Rattle.json_lines.specs.Json.{value_text};
ghost use Rattle.json_lines.specs.Line.{fields_text};
ghost use Rattle.pickle_ops.specs.Table.{form_of};
ghost use Rattle.pickle_ops.specs.Text.{is_long};
ghost use Rattle.pickle_doc.specs.Document.{document_bytes, size_limit};
ghost use Rattle.pickle_doc.specs.Place.{ops_of, offset_of};
ghost use Rattle.pickle_session.specs.Session.{len_of};
ghost use Rattle.pickle_json.specs.ItemFields.{form_fields, arg_fields, head_fields};
ghost use Rattle.debug_json.specs.Array.{array_json, range_json, lead, placed_text, range_text};
ghost use Rattle.debug_json.specs.ItemsFields.{sign_fields, item_fields, item_json, items_fields, items_line};
ghost use Rattle.debug_json.specs.OwnFields.{some_items_fields, some_items_line};

use crate::offset::offset_at;
use crate::refused::write_place;
use crate::value::write_lead;
use json_lines::{
    begin_line, end_line, write_bool_field, write_name, write_number_field, write_text_field,
};
use pickle_io::{Failed, Page, write_all};
use pickle_json::{write_any_payload, write_double, write_integer, write_long, write_names};
use pickle_ops::{Form, Op, Opcode};
use pickle_session::{Past, Session};

/// Whether an argument is a number in two's complement.
fn is_long(opcode: Opcode) -> bool
    ensures { result ≡ is_long opcode }
{
    match opcode {
        Opcode::Long1 => true,
        Opcode::Long4 => true,
        _ => false,
    }
}

/// Writes the module and the name of an argument.
fn write_two<P: Page>(op: &Op, page: &mut P) -> Result<(), Failed>
    requires { form_of op.now.opcode ≡ Form.Two }
    ensures { Writes (P.told page.old) (P.told page.new) result (fields_text (form_fields Form.Two op.now.arg)) }
{
    let (first, second) = op.texts();
    write_names(first, second, page)
}

/// Writes the argument of a form, where there is one.
#[tactic(auto, using(json_lines::proofs::Lines::fields_steps, crate::proofs::Itemized::argument_steps))]
fn write_form<P: Page>(op: &Op, page: &mut P) -> Result<(), Failed>
    ensures { Writes (P.told page.old) (P.told page.new) result (fields_text (form_fields (form_of op.now.opcode) op.now.arg)) }
{
    match op.opcode().form() {
        Form::Empty => Ok(()),
        Form::Uint1 | Form::Uint2 | Form::Uint4 | Form::Uint8 | Form::Decimal => {
            write_integer(i128::from(op.number()), page)
        }
        Form::Int4 => write_integer(i128::from(op.signed()), page),
        Form::Float8 => write_double(op.payload(), page),
        Form::Two => write_two(op, page),
        Form::Line | Form::Quoted | Form::Bytes1 | Form::Bytes4 | Form::Bytes8 | Form::String4 => {
            write_any_payload(op.payload(), page)
        }
    }
}

/// Writes the argument of an operation, where there is one.
#[tactic(auto, unfolding(pickle_json::specs::ItemFields::arg_fields))]
pub(crate) fn write_argument<P: Page>(op: &Op, page: &mut P) -> Result<(), Failed>
    ensures { Writes (P.told page.old) (P.told page.new) result (fields_text (arg_fields op.now)) }
{
    if is_long(op.opcode()) {
        write_long(op.payload(), page)
    } else {
        write_form(op, page)
    }
}

/// Writes where an operation is, and its name.
pub(crate) fn write_head<P: Page>(op: &Op, offset: u64, page: &mut P) -> Result<(), Failed>
    ensures { Writes (P.told page.old) (P.told page.new) result (fields_text (head_fields op.now offset)) }
{
    write_number_field("offset", offset, page)?;
    write_text_field("opcode", op.opcode().name(), page)
}

/// Writes whether the cursor is at an item, and whether the item has a breakpoint.
fn write_signs<P: Page>(at_cursor: bool, breaks: bool, page: &mut P) -> Result<(), Failed>
    ensures { Writes (P.told page.old) (P.told page.new) result (fields_text (sign_fields at_cursor breaks)) }
{
    write_bool_field("cursor", at_cursor, page)?;
    write_bool_field("breakpoint", breaks, page)
}

/// Writes the item at a place, which begins at this offset.
#[tactic(auto, using(json_lines::proofs::Lines::fields_steps))]
fn write_item_fields<A: Past, P: Page>(
    session: &Session<A>,
    place: usize,
    offset: u64,
    op: &Op,
    page: &mut P,
) -> Result<(), Failed>
    requires { offset ≡ offset_of session.now.session.document place }
    ensures { Writes (P.told page.old) (P.told page.new) result (fields_text (item_fields session.now.session place op.now)) }
{
    let at_cursor = place == session.cursor();
    write_place(place, page)?;
    write_head(op, offset, page)?;
    write_argument(op, page)?;
    write_signs(at_cursor, session.has_break(place), page)
}

/// Writes the same as an object.
fn write_item<A: Past, P: Page>(
    session: &Session<A>,
    place: usize,
    offset: u64,
    op: &Op,
    page: &mut P,
) -> Result<(), Failed>
    requires { offset ≡ offset_of session.now.session.document place }
    ensures { Writes (P.told page.old) (P.told page.new) result (value_text (item_json session.now.session place op.now)) }
{
    begin_line("opcode", page)?;
    write_item_fields(session, place, offset, op, page)?;
    write_all(page, b"}")
}

/// Writes the same behind so many items before it.
fn write_next<A: Past, P: Page>(
    session: &Session<A>,
    i: usize,
    place: usize,
    offset: u64,
    op: &Op,
    page: &mut P,
) -> Result<(), Failed>
    requires { offset ≡ offset_of session.now.session.document place }
    ensures { Writes (P.told page.old) (P.told page.new) result (lead i ⧺ value_text (item_json session.now.session place op.now)) }
{
    write_lead(i, page)?;
    write_item(session, place, offset, op, page)
}

/// Writes the item at a place behind so many items, if there is one, and answers the offset of the place after it.
#[tactic(auto, using(crate::proofs::Ranges::placed_steps, pickle_script::proofs::PlaceLemmas::offset_steps))]
fn write_placed<A: Past, P: Page>(
    session: &Session<A>,
    i: usize,
    place: usize,
    offset: u64,
    page: &mut P,
) -> Result<u64, Failed>
    requires small { length (document_bytes session.now.session.document) ≤ size_limit }
    requires offset { offset ≡ offset_of session.now.session.document place }
    ensures line { Writes (P.told page.old) (P.told page.new) result (placed_text (item_json session.now.session) (ops_of session.now.session.document) i place) }
    ensures next { IfOk result (λ next. next ≡ offset_of session.now.session.document (place + 1)) }
{
    match session.document().item(place) {
        None => Ok(offset),
        Some(op) => {
            let next = offset + op.size() as u64;
            write_next(session, i, place, offset, op, page)?;
            Ok(next)
        }
    }
}

/// Writes the items from one place on and before another.
#[tactic(auto, using(pickle_io::proofs::Devices::below_steps, crate::proofs::Offsets::range_steps))]
fn write_items_between<A: Past, P: Page>(
    session: &Session<A>,
    from: usize,
    to: usize,
    page: &mut P,
) -> Result<(), Failed>
    requires small { length (document_bytes session.now.session.document) ≤ size_limit }
    requires order { from ≤ to }
    ensures { Writes (P.told page.old) (P.told page.new) result (each_below (range_text (item_json session.now.session) (ops_of session.now.session.document) from) (to - from)) }
{
    let mut offset = offset_at(session, from);
    for i in 0..to - from {
        offset = write_placed(session, i, from + i, offset, page)?;
    }
    Ok(())
}

/// Writes an array of the items from one place on and before another, which are all there.
#[tactic(auto, using(crate::proofs::Ranges::range_steps, crate::proofs::Offsets::within_ops))]
fn write_whole_range<A: Past, P: Page>(
    session: &Session<A>,
    from: usize,
    to: usize,
    page: &mut P,
) -> Result<(), Failed>
    requires small { length (document_bytes session.now.session.document) ≤ size_limit }
    requires order { from ≤ to }
    requires within { to ≤ len_of session.now.session.document }
    ensures { Writes (P.told page.old) (P.told page.new) result (value_text (range_json (item_json session.now.session) from to (ops_of session.now.session.document))) }
{
    write_all(page, b"[")?;
    write_items_between(session, from, to, page)?;
    write_all(page, b"]")
}

/// Writes an array of the items from one place on and before another, as far as there are any.
#[tactic(auto, using(crate::proofs::Ranges::cut_steps, crate::proofs::Offsets::ops_steps))]
fn write_range<A: Past, P: Page>(
    session: &Session<A>,
    from: usize,
    to: usize,
    page: &mut P,
) -> Result<(), Failed>
    ensures { Writes (P.told page.old) (P.told page.new) result (value_text (range_json (item_json session.now.session) from to (ops_of session.now.session.document))) }
{
    let end = to.min(session.document().len());
    write_whole_range(session, from.min(end), end, page)
}

/// Writes an array of all items.
#[tactic(auto, using(crate::proofs::Ranges::cut_steps, crate::proofs::Offsets::ops_steps))]
fn write_array<A: Past, P: Page>(session: &Session<A>, page: &mut P) -> Result<(), Failed>
    ensures { Writes (P.told page.old) (P.told page.new) result (value_text (array_json (item_json session.now.session) (ops_of session.now.session.document))) }
{
    write_whole_range(session, 0, session.document().len(), page)
}

/// Writes the field of all items.
fn write_field<A: Past, P: Page>(session: &Session<A>, page: &mut P) -> Result<(), Failed>
    ensures { Writes (P.told page.old) (P.told page.new) result (fields_text (items_fields session.now.session)) }
{
    write_name("items", page)?;
    write_array(session, page)
}

/// Writes the line of all items, in time linear in them.
pub(crate) fn write_items<A: Past, P: Page>(
    session: &Session<A>,
    page: &mut P,
) -> Result<(), Failed>
    ensures { Writes (P.told page.old) (P.told page.new) result (items_line session.now.session) }
{
    begin_line("items", page)?;
    write_field(session, page)?;
    end_line(page)
}

/// Writes the field of a range of items.
fn write_some_field<A: Past, P: Page>(
    session: &Session<A>,
    from: usize,
    to: usize,
    page: &mut P,
) -> Result<(), Failed>
    ensures { Writes (P.told page.old) (P.told page.new) result (fields_text (some_items_fields session.now.session from to)) }
{
    write_name("items", page)?;
    write_range(session, from, to, page)
}

/// Writes the line of the items from one place on and before another. This goes over these items, and over those that `offset_at` goes over.
pub(crate) fn write_some_items<A: Past, P: Page>(
    session: &Session<A>,
    from: usize,
    to: usize,
    page: &mut P,
) -> Result<(), Failed>
    ensures { Writes (P.told page.old) (P.told page.new) result (some_items_line session.now.session from to) }
{
    begin_line("items", page)?;
    write_some_field(session, from, to, page)?;
    end_line(page)
}
