//! The line of an item. `Failed` where the sink fails; a beginning of the text was written then.

ghost use Rattle.std.specs.Prelude.{◌≡◌, ◌≤◌, ◌+◌, true, length, codes, OnOk};
ghost use Rattle.std.specs.List.{list_all};
ghost use Rattle.json_lines.specs.Json.{is_plain};
ghost use Rattle.pickle_io.specs.Device.{Wrote, Writes};
ghost use Rattle.pickle_io.specs.Text.{◌⧺◌};
ghost use Rattle.pickle_ops.specs.Argument.{long_of};
ghost use Rattle.pickle_ops.specs.Table.{name_of, form_of};
ghost use Rattle.json_lines.specs.Line.{field, whole, begun, fields_text};
ghost use Rattle.pickle_json.specs.ItemFields.{number_name, number_fields, integer_fields, payload_fields, double_fields, lowest_first_fields, long_fields, names_fields, form_fields, arg_fields, note_fields, head_fields, rest_fields, item_fields, item_line, opcode_begun, opcode_named, argument_named, digits_named, marks_named, mark_named, memo_named};

use crate::note::Note;
use byteorder::{ByteOrder, LittleEndian};
use json_lines::{
    are_plain, push_digits, push_whole, write_bytes_field, write_hex_field, write_integer_field,
};
use pickle_io::{Failed, Page, push_decimal};
use pickle_ops::{Form, OpRef, Opcode};

/// 2^53. A whole number from here on is a string, since readers that take numbers as doubles would round it: an argument is then one
/// under another name.
const EXACT: u64 = 9_007_199_254_740_992;

/// The name of the field that has the number of an argument.
#[tactic(auto, unfolding(crate::specs::ItemFields::number_name))]
fn number_name(exact: bool) -> &'static str
    ensures { result.now ≡ number_name exact }
{
    if exact { "argument" } else { "argument_digits" }
}

/// What is before the number of a line's offset.
#[tactic(auto, unfolding(crate::specs::ItemFields::opcode_begun))]
#[inline(always)]
fn opcode_begun() -> &'static str
    ensures text { result.now ≡ opcode_begun }
    ensures len { length result.now ≡ 26 }
{
    "{\"kind\":\"opcode\",\"offset\":"
}

/// What is before the name of an opcode.
#[tactic(auto, unfolding(crate::specs::ItemFields::opcode_named))]
#[inline(always)]
fn opcode_named() -> &'static str
    ensures text { result.now ≡ opcode_named }
    ensures len { length result.now ≡ 11 }
{
    ",\"opcode\":\""
}

/// What is before an argument.
#[tactic(auto, unfolding(crate::specs::ItemFields::argument_named))]
#[inline(always)]
fn argument_named() -> &'static str
    ensures text { result.now ≡ argument_named }
    ensures len { length result.now ≡ 12 }
{
    ",\"argument\":"
}

/// What is before the digits of an argument.
#[tactic(auto, unfolding(crate::specs::ItemFields::digits_named))]
#[inline(always)]
fn digits_named() -> &'static str
    ensures text { result.now ≡ digits_named }
    ensures len { length result.now ≡ 19 }
{
    ",\"argument_digits\":"
}

/// What is before the number of marks.
#[tactic(auto, unfolding(crate::specs::ItemFields::marks_named))]
#[inline(always)]
fn marks_named() -> &'static str
    ensures text { result.now ≡ marks_named }
    ensures len { length result.now ≡ 9 }
{
    ",\"marks\":"
}

/// What is before the offset of a mark.
#[tactic(auto, unfolding(crate::specs::ItemFields::mark_named))]
#[inline(always)]
fn mark_named() -> &'static str
    ensures text { result.now ≡ mark_named }
    ensures len { length result.now ≡ 8 }
{
    ",\"mark\":"
}

/// What is before a key of the memo.
#[tactic(auto, unfolding(crate::specs::ItemFields::memo_named))]
#[inline(always)]
fn memo_named() -> &'static str
    ensures text { result.now ≡ memo_named }
    ensures len { length result.now ≡ 8 }
{
    ",\"memo\":"
}

/// Puts the number of an argument.
#[tactic(auto, using(crate::proofs::Pieces::number_steps))]
#[inline(always)]
fn push_number<P: Page>(number: u64, page: &mut P)
    requires { 41 ≤ P.room page.old }
    ensures text { Wrote (P.told page.old) (P.told page.new) (fields_text (number_fields number)) }
    ensures room { P.room page.old ≤ P.room page.new + 41 }
{
    if number < EXACT {
        page.push_text(argument_named().as_bytes());
        push_decimal(number, page);
    } else {
        page.push_text(digits_named().as_bytes());
        push_digits(number, page);
    }
}

/// Writes the number of an argument, which may be below 0.
#[tactic(auto, using(crate::proofs::Pieces::roomy_steps), unfolding(crate::specs::ItemFields::integer_fields))]
pub fn write_integer<P: Page>(number: i128, page: &mut P) -> Result<(), Failed>
    ensures text { Writes (P.told page.old) (P.told page.new) result (fields_text (integer_fields number)) }
    ensures room { OnOk result (256 ≤ P.room page.new) }
{
    let exact = number.unsigned_abs() < u128::from(EXACT);
    write_integer_field(number_name(exact), number, page)?;
    page.make_room()
}

/// Puts a short text between quotation marks.
#[tactic(auto, using(pickle_io::proofs::Devices::text_steps))]
#[inline(always)]
fn push_quoted<P: Page>(text: &[u8], page: &mut P)
    requires short { length text.now ≤ 96 }
    requires room { 98 ≤ P.room page.old }
    ensures text { Wrote (P.told page.old) (P.told page.new) (codes "\"" ⧺ text.now ⧺ codes "\"") }
    ensures room { P.room page.old ≤ P.room page.new + 98 }
{
    page.push(b'"');
    page.push_text(text);
    page.push(b'"');
}

/// Puts a short argument whose bytes all stand for themselves.
#[tactic(auto, using(crate::proofs::Pieces::plain_steps))]
#[inline(always)]
fn push_plain<P: Page>(bytes: &[u8], page: &mut P)
    requires plain { list_all is_plain bytes.now ≡ true }
    requires short { length bytes.now ≤ 96 }
    requires room { 110 ≤ P.room page.old }
    ensures text { Wrote (P.told page.old) (P.told page.new) (fields_text (payload_fields bytes.now)) }
    ensures room { P.room page.old ≤ P.room page.new + 110 }
{
    page.push_text(argument_named().as_bytes());
    push_quoted(bytes, page);
}

/// Writes the bytes of an argument: as text where they are UTF-8, else in hexadecimal.
pub fn write_any_payload<P: Page>(bytes: &[u8], page: &mut P) -> Result<(), Failed>
    ensures text { Writes (P.told page.old) (P.told page.new) result (fields_text (payload_fields bytes.now)) }
    ensures room { OnOk result (256 ≤ P.room page.new) }
{
    write_bytes_field("argument", "argument_hex", bytes, page)?;
    page.make_room()
}

/// Writes the bytes of an argument: as text where they are UTF-8, else in hexadecimal.
#[inline(always)]
fn write_payload<P: Page>(bytes: &[u8], page: &mut P) -> Result<(), Failed>
    requires { 176 ≤ P.room page.old }
    ensures text { Writes (P.told page.old) (P.told page.new) result (fields_text (payload_fields bytes.now)) }
    ensures room { OnOk result (66 ≤ P.room page.new) }
{
    if bytes.len() <= 96 && are_plain(bytes) {
        push_plain(bytes, page);
        Ok(())
    } else {
        write_any_payload(bytes, page)
    }
}

/// Writes the bytes of a double.
#[tactic(auto, unfolding(crate::specs::ItemFields::double_fields))]
fn write_eight<P: Page>(bytes: &[u8], page: &mut P) -> Result<(), Failed>
    ensures { Writes (P.told page.old) (P.told page.new) result (fields_text (double_fields bytes.now)) }
{
    write_hex_field("argument_f8_hex", bytes, page)
}

/// Writes the bytes of a double.
pub fn write_double<P: Page>(bytes: &[u8], page: &mut P) -> Result<(), Failed>
    ensures text { Writes (P.told page.old) (P.told page.new) result (fields_text (double_fields bytes.now)) }
    ensures room { OnOk result (256 ≤ P.room page.new) }
{
    write_eight(bytes, page)?;
    page.make_room()
}

/// Writes the bytes of a number in two's complement.
fn write_lowest_first<P: Page>(bytes: &[u8], page: &mut P) -> Result<(), Failed>
    ensures text { Writes (P.told page.old) (P.told page.new) result (fields_text (lowest_first_fields bytes.now)) }
    ensures room { OnOk result (256 ≤ P.room page.new) }
{
    write_hex_field("argument_le_hex", bytes, page)?;
    page.make_room()
}

/// Writes a module and a name.
pub fn write_names<P: Page>(first: &[u8], second: &[u8], page: &mut P) -> Result<(), Failed>
    ensures { Writes (P.told page.old) (P.told page.new) result (fields_text (names_fields first.now second.now)) }
{
    write_bytes_field("module", "module_hex", first, page)?;
    write_bytes_field("name", "name_hex", second, page)
}

/// Writes the module and the name of an argument.
#[tactic(auto, using(crate::proofs::Pieces::roomy_steps))]
fn write_two<P: Page>(op: &OpRef<'_>, page: &mut P) -> Result<(), Failed>
    requires { form_of op.now.opcode ≡ Form.Two }
    ensures text { Writes (P.told page.old) (P.told page.new) result (fields_text (form_fields Form.Two op.now.arg)) }
    ensures room { OnOk result (256 ≤ P.room page.new) }
{
    let (first, second) = op.texts();
    write_names(first, second, page)?;
    page.make_room()
}

/// Writes the argument of a form, where there is one. There is room for a short one, and for what comes behind it.
#[tactic(auto, using(json_lines::proofs::Lines::fields_steps))]
#[inline(always)]
fn write_form<P: Page>(op: &OpRef<'_>, page: &mut P) -> Result<(), Failed>
    requires { 176 ≤ P.room page.old }
    ensures text { Writes (P.told page.old) (P.told page.new) result (fields_text (form_fields (form_of op.now.opcode) op.now.arg)) }
    ensures room { OnOk result (66 ≤ P.room page.new) }
{
    match op.form() {
        Form::Empty => Ok(()),
        Form::Uint1 | Form::Uint2 | Form::Uint4 | Form::Uint8 | Form::Decimal => {
            push_number(op.number(), page);
            Ok(())
        }
        Form::Int4 => write_integer(i128::from(op.signed()), page),
        Form::Float8 => write_double(op.payload(), page),
        Form::Two => write_two(op, page),
        Form::Line | Form::Quoted | Form::Bytes1 | Form::Bytes4 | Form::Bytes8 | Form::String4 => {
            write_payload(op.payload(), page)
        }
    }
}

/// The number of up to sixteen bytes in two's complement, the lowest first; 0 where there are none.
fn long_of(bytes: &[u8]) -> i128
    requires { length bytes.now ≤ 16 }
    ensures { result ≡ long_of bytes.now }
{
    if bytes.is_empty() {
        0
    } else {
        LittleEndian::read_int128(bytes, bytes.len())
    }
}

/// Writes a number in two's complement.
#[tactic(auto, unfolding(crate::specs::ItemFields::long_fields))]
pub fn write_long<P: Page>(bytes: &[u8], page: &mut P) -> Result<(), Failed>
    ensures text { Writes (P.told page.old) (P.told page.new) result (fields_text (long_fields bytes.now)) }
    ensures room { OnOk result (256 ≤ P.room page.new) }
{
    if bytes.len() <= 16 {
        write_integer(long_of(bytes), page)
    } else {
        write_lowest_first(bytes, page)
    }
}

/// Writes the argument of an operation, where there is one. There is room for a short one, and for what comes behind it.
#[tactic(auto, unfolding(crate::specs::ItemFields::arg_fields))]
#[inline(always)]
fn write_argument<P: Page>(op: &OpRef<'_>, page: &mut P) -> Result<(), Failed>
    requires { 176 ≤ P.room page.old }
    ensures text { Writes (P.told page.old) (P.told page.new) result (fields_text (arg_fields op.now)) }
    ensures room { OnOk result (66 ≤ P.room page.new) }
{
    if op.is_long() {
        write_long(op.payload(), page)
    } else {
        write_form(op, page)
    }
}

/// Writes the argument of an operation, where there is one. It makes room for itself.
#[tactic(auto, using(pickle_io::proofs::Devices::page_steps))]
pub(crate) fn write_arg_fields<P: Page>(op: &OpRef<'_>, page: &mut P) -> Result<(), Failed>
    ensures { Writes (P.told page.old) (P.told page.new) result (fields_text (arg_fields op.now)) }
{
    page.make_room()?;
    write_argument(op, page)
}

/// Puts a note, where there is one.
#[tactic(auto, using(crate::proofs::Pieces::note_steps))]
#[inline(always)]
fn push_note<P: Page>(note: Option<Note>, page: &mut P)
    requires { 30 ≤ P.room page.old }
    ensures text { Wrote (P.told page.old) (P.told page.new) (fields_text (note_fields note)) }
    ensures room { P.room page.old ≤ P.room page.new + 30 }
{
    match note {
        None => {}
        Some(Note::MarkAt(offset)) => {
            page.push_text(mark_named().as_bytes());
            push_whole(offset, page);
        }
        Some(Note::As(key)) => {
            page.push_text(memo_named().as_bytes());
            push_whole(key, page);
        }
    }
}

/// Puts how many marks are open before an item.
#[tactic(auto, using(crate::proofs::Pieces::marks_steps))]
#[inline(always)]
fn push_marks<P: Page>(marks: usize, page: &mut P)
    requires { 31 ≤ P.room page.old }
    ensures text { Wrote (P.told page.old) (P.told page.new) (fields_text (field (codes "marks") (whole marks))) }
    ensures room { P.room page.old ≤ P.room page.new + 31 }
{
    page.push_text(marks_named().as_bytes());
    push_whole(marks as u64, page);
}

/// Puts what comes behind the argument of an item.
#[tactic(auto, using(pickle_io::proofs::Devices::text_steps))]
#[inline(always)]
fn push_rest<P: Page>(marks: usize, note: Option<Note>, page: &mut P)
    requires { 66 ≤ P.room page.old }
    ensures { Wrote (P.told page.old) (P.told page.new) (fields_text (field (codes "marks") (whole marks)) ⧺ fields_text (note_fields note) ⧺ codes "}\n") }
{
    push_marks(marks, page);
    push_note(note, page);
    page.push_text(b"}\n");
}

/// The name of an opcode.
#[tactic(auto, using(crate::proofs::Pieces::name_short))]
#[inline(always)]
fn name_of(opcode: Opcode) -> &'static str
    ensures text { result.now ≡ name_of opcode }
    ensures short { length result.now ≤ 20 }
{
    opcode.name()
}

/// Puts the beginning of the line of an item: where it is, and its opcode.
#[tactic(auto, using(crate::proofs::Pieces::head_steps))]
#[inline(always)]
fn push_head<P: Page>(op: &OpRef<'_>, offset: u64, page: &mut P)
    requires { 80 ≤ P.room page.old }
    ensures text { Wrote (P.told page.old) (P.told page.new) (begun (codes "opcode") ⧺ fields_text (head_fields op.now offset)) }
    ensures room { P.room page.old ≤ P.room page.new + 80 }
{
    page.push_text(opcode_begun().as_bytes());
    push_whole(offset, page);
    page.push_text(opcode_named().as_bytes());
    page.push_text(name_of(op.opcode()).as_bytes());
    page.push(b'"');
}

/// Writes the line of an item at this offset, before which `marks` marks are open.
#[tactic(auto, using(crate::proofs::Pieces::item_steps))]
pub fn write_item<P: Page>(
    op: &OpRef<'_>,
    offset: u64,
    marks: usize,
    note: Option<Note>,
    page: &mut P,
) -> Result<(), Failed>
    ensures { Writes (P.told page.old) (P.told page.new) result (item_line op.now offset marks note) }
{
    page.make_room()?;
    push_head(op, offset, page);
    write_argument(op, page)?;
    push_rest(marks, note, page);
    Ok(())
}
