//! Why a line is refused. `Failed` where the sink fails; a beginning of the text was written then.

ghost use Rattle.std.specs.Prelude.{◌≡◌, codes};
ghost use Rattle.pickle_io.specs.Device.{Writes};
ghost use Rattle.json_lines.specs.Json.{value_text};
ghost use Rattle.json_lines.specs.Line.{fields_text};
ghost use Rattle.objects_json.specs.Objects.{item_refused_fields};
ghost use Rattle.debug_json.specs.Array.{object_json};
ghost use Rattle.debug_json.specs.RefusedFields.{end_fields, end_field, item_field, place_field, edit_code, edit_words, fault_code, fault_words, fault_rest, fault_fields, op_code, op_words, syntax_code, syntax_words, syntax_rest, syntax_fields, no_object_words, no_object_fields, no_item_words, no_item_fields, refused_command, refused_syntax, no_object_line, no_item_line};

use json_lines::{begin_line, end_line, write_name, write_number_field, write_text_field};
use pickle_doc::{EditFault, End};
use pickle_io::{Failed, Page, write_all};
use pickle_json::{write_coded, write_how, write_refused_fields, write_tail_fields};
use pickle_machine::Refusal;
use pickle_ops::{FrontFault, OpFault};
use pickle_script::Syntax;
use pickle_session::Fault;

/// Writes how a document ends.
pub(crate) fn write_end_fields<P: Page>(end: End, page: &mut P) -> Result<(), Failed>
    ensures { Writes (P.told page.old) (P.told page.new) result (fields_text (end_fields end)) }
{
    match end {
        End::Stopped => write_how("stopped", page),
        End::Fault(fault, offset) => write_tail_fields(fault, offset, None, page),
    }
}

/// Writes how a document ends, as an object.
fn write_end_object<P: Page>(end: End, page: &mut P) -> Result<(), Failed>
    ensures { Writes (P.told page.old) (P.told page.new) result (value_text (object_json (codes "end") (end_fields end))) }
{
    begin_line("end", page)?;
    write_end_fields(end, page)?;
    write_all(page, b"}")
}

/// Writes how a document ends, as a field.
pub(crate) fn write_end<P: Page>(end: End, page: &mut P) -> Result<(), Failed>
    ensures { Writes (P.told page.old) (P.told page.new) result (fields_text (end_field end)) }
{
    write_name("end", page)?;
    write_end_object(end, page)
}

/// Writes why the item at a place is refused, and which it is.
fn write_item_fields<P: Page>(place: usize, refusal: Refusal, page: &mut P) -> Result<(), Failed>
    ensures { Writes (P.told page.old) (P.told page.new) result (fields_text (item_refused_fields place refusal)) }
{
    write_refused_fields(refusal, None, page)?;
    write_number_field("item", place as u64, page)
}

/// Writes the same as an object.
fn write_item_object<P: Page>(place: usize, refusal: Refusal, page: &mut P) -> Result<(), Failed>
    ensures { Writes (P.told page.old) (P.told page.new) result (value_text (object_json (codes "end") (item_refused_fields place refusal))) }
{
    begin_line("end", page)?;
    write_item_fields(place, refusal, page)?;
    write_all(page, b"}")
}

/// Writes the same as a field.
fn write_item<P: Page>(place: usize, refusal: Refusal, page: &mut P) -> Result<(), Failed>
    ensures { Writes (P.told page.old) (P.told page.new) result (fields_text (item_field place refusal)) }
{
    write_name("end", page)?;
    write_item_object(place, refusal, page)
}

/// Writes a place.
#[tactic(auto, unfolding(crate::specs::RefusedFields::place_field))]
pub(crate) fn write_place<P: Page>(place: usize, page: &mut P) -> Result<(), Failed>
    ensures { Writes (P.told page.old) (P.told page.new) result (fields_text (place_field place)) }
{
    write_number_field("place", place as u64, page)
}

/// The code of the fault of an edit.
#[tactic(auto, unfolding(crate::specs::RefusedFields::edit_code))]
fn code_of_edit(fault: EditFault) -> &'static str
    ensures { result.now ≡ edit_code fault }
{
    match fault {
        EditFault::NoSuchItem => "E1",
        EditFault::StopItem => "E2",
        EditFault::FrameItem => "E3",
        EditFault::AfterStop => "E4",
        EditFault::OpenFrame => "E5",
        EditFault::AlreadyFramed => "E6",
        EditFault::TooManyItems => "E7",
        EditFault::TooLarge => "E8",
        EditFault::Memory => "M",
    }
}

/// The words of the fault of an edit.
#[tactic(auto, unfolding(crate::specs::RefusedFields::edit_words))]
fn words_of_edit(fault: EditFault) -> &'static str
    ensures { result.now ≡ edit_words fault }
{
    match fault {
        EditFault::NoSuchItem => "no such item",
        EditFault::StopItem => "stop item",
        EditFault::FrameItem => "frame item",
        EditFault::AfterStop => "after stop",
        EditFault::OpenFrame => "open frame",
        EditFault::AlreadyFramed => "already framed",
        EditFault::TooManyItems => "too many items",
        EditFault::TooLarge => "too large",
        EditFault::Memory => "out of memory",
    }
}

/// The code of the fault of a command.
#[tactic(auto, unfolding(crate::specs::RefusedFields::fault_code))]
fn code_of_fault(fault: Fault) -> &'static str
    ensures { result.now ≡ fault_code fault }
{
    match fault {
        Fault::AtStart => "C1",
        Fault::AtEnd(_) => "C2",
        Fault::Item(_, _) => "C3",
        Fault::NoSuchPlace => "C4",
        Fault::BehindCursor => "C5",
        Fault::NothingToUndo => "C6",
        Fault::NothingToRedo => "C7",
        Fault::EditBehindCursor(_) => "C8",
        Fault::Edit(_) => "C9",
        Fault::Memory => "M",
    }
}

/// The words of the fault of a command.
#[tactic(auto, unfolding(crate::specs::RefusedFields::fault_words))]
fn words_of_fault(fault: Fault) -> &'static str
    ensures { result.now ≡ fault_words fault }
{
    match fault {
        Fault::AtStart => "at the start",
        Fault::AtEnd(_) => "at the end",
        Fault::Item(_, _) => "item refused",
        Fault::NoSuchPlace => "no such place",
        Fault::BehindCursor => "behind the cursor",
        Fault::NothingToUndo => "nothing to undo",
        Fault::NothingToRedo => "nothing to redo",
        Fault::EditBehindCursor(_) => "edit behind the cursor",
        Fault::Edit(fault) => words_of_edit(fault),
        Fault::Memory => "out of memory",
    }
}

/// Writes what the fault of a command is about.
#[tactic(auto, using(json_lines::proofs::Lines::fields_steps), unfolding(crate::specs::RefusedFields::fault_rest))]
fn write_fault_rest<P: Page>(fault: Fault, page: &mut P) -> Result<(), Failed>
    ensures { Writes (P.told page.old) (P.told page.new) result (fields_text (fault_rest fault)) }
{
    match fault {
        Fault::AtEnd(end) => write_end(end, page),
        Fault::Item(place, refusal) => write_item(place, refusal, page),
        Fault::EditBehindCursor(place) => write_place(place, page),
        Fault::Edit(fault) => write_text_field("edit", code_of_edit(fault), page),
        Fault::AtStart => Ok(()),
        Fault::NoSuchPlace => Ok(()),
        Fault::BehindCursor => Ok(()),
        Fault::NothingToUndo => Ok(()),
        Fault::NothingToRedo => Ok(()),
        Fault::Memory => Ok(()),
    }
}

/// Writes why a command is refused.
fn write_fault<P: Page>(fault: Fault, page: &mut P) -> Result<(), Failed>
    ensures { Writes (P.told page.old) (P.told page.new) result (fields_text (fault_fields fault)) }
{
    write_coded(code_of_fault(fault), words_of_fault(fault), page)?;
    write_fault_rest(fault, page)
}

/// Writes the line of a command that is refused.
pub(crate) fn write_refused_command<P: Page>(fault: Fault, page: &mut P) -> Result<(), Failed>
    ensures { Writes (P.told page.old) (P.told page.new) result (refused_command fault) }
{
    begin_line("refused", page)?;
    write_fault(fault, page)?;
    end_line(page)
}

/// The code of the fault of an opcode.
#[tactic(auto, unfolding(crate::specs::RefusedFields::op_code, pickle_json::specs::EndFields::fault_code))]
fn code_of_op(fault: OpFault) -> &'static str
    ensures { result.now ≡ op_code fault }
{
    match fault {
        OpFault::Front(FrontFault::Ended) => "F1",
        OpFault::Front(FrontFault::UnknownOpcode(_)) => "F2",
        OpFault::Front(FrontFault::Truncated) => "F3",
        OpFault::Front(FrontFault::NegativeLength) => "F4",
        OpFault::Front(FrontFault::BadArgument) => "F5",
        OpFault::TooLong => "F9",
        OpFault::Memory => "M",
    }
}

/// The words of the fault of an opcode.
#[tactic(auto, unfolding(crate::specs::RefusedFields::op_words, pickle_json::specs::EndFields::fault_words))]
fn words_of_op(fault: OpFault) -> &'static str
    ensures { result.now ≡ op_words fault }
{
    match fault {
        OpFault::Front(FrontFault::Ended) => "ended",
        OpFault::Front(FrontFault::UnknownOpcode(_)) => "unknown opcode",
        OpFault::Front(FrontFault::Truncated) => "truncated",
        OpFault::Front(FrontFault::NegativeLength) => "negative length",
        OpFault::Front(FrontFault::BadArgument) => "bad argument",
        OpFault::TooLong => "too long",
        OpFault::Memory => "out of memory",
    }
}

/// The code of a line that says nothing.
#[tactic(auto, unfolding(crate::specs::RefusedFields::syntax_code))]
fn code_of_syntax(syntax: Syntax) -> &'static str
    ensures { result.now ≡ syntax_code syntax }
{
    match syntax {
        Syntax::UnknownWord => "X1",
        Syntax::MissingWord => "X2",
        Syntax::BadNumber => "X3",
        Syntax::UnknownOpcodeName => "X4",
        Syntax::BadHex => "X5",
        Syntax::ExtraWord => "X6",
        Syntax::LineTooLong => "X7",
        Syntax::BadOp(_) => "X8",
        Syntax::Memory => "M",
    }
}

/// The words of a line that says nothing.
#[tactic(auto, unfolding(crate::specs::RefusedFields::syntax_words))]
fn words_of_syntax(syntax: Syntax) -> &'static str
    ensures { result.now ≡ syntax_words syntax }
{
    match syntax {
        Syntax::UnknownWord => "unknown word",
        Syntax::MissingWord => "missing word",
        Syntax::BadNumber => "bad number",
        Syntax::UnknownOpcodeName => "unknown opcode name",
        Syntax::BadHex => "bad hex",
        Syntax::ExtraWord => "extra word",
        Syntax::LineTooLong => "line too long",
        Syntax::BadOp(fault) => words_of_op(fault),
        Syntax::Memory => "out of memory",
    }
}

/// Writes the fault of an opcode, where a line names one.
#[tactic(auto, using(json_lines::proofs::Lines::fields_steps), unfolding(crate::specs::RefusedFields::syntax_rest))]
fn write_syntax_rest<P: Page>(syntax: Syntax, page: &mut P) -> Result<(), Failed>
    ensures { Writes (P.told page.old) (P.told page.new) result (fields_text (syntax_rest syntax)) }
{
    match syntax {
        Syntax::BadOp(fault) => write_text_field("fault", code_of_op(fault), page),
        _ => Ok(()),
    }
}

/// Writes why a line says nothing.
fn write_syntax<P: Page>(syntax: Syntax, page: &mut P) -> Result<(), Failed>
    ensures { Writes (P.told page.old) (P.told page.new) result (fields_text (syntax_fields syntax)) }
{
    write_coded(code_of_syntax(syntax), words_of_syntax(syntax), page)?;
    write_syntax_rest(syntax, page)
}

/// Writes the line of a line that says nothing.
pub(crate) fn write_refused_syntax<P: Page>(syntax: Syntax, page: &mut P) -> Result<(), Failed>
    ensures { Writes (P.told page.old) (P.told page.new) result (refused_syntax syntax) }
{
    begin_line("refused", page)?;
    write_syntax(syntax, page)?;
    end_line(page)
}

/// What is said where there is no such object.
#[tactic(auto, unfolding(crate::specs::RefusedFields::no_object_words))]
fn no_object_words() -> &'static str
    ensures { result.now ≡ no_object_words }
{
    "no such object"
}

/// Writes that there is no object of this number.
fn write_no_object_fields<P: Page>(number: u64, page: &mut P) -> Result<(), Failed>
    ensures { Writes (P.told page.old) (P.told page.new) result (fields_text (no_object_fields number)) }
{
    write_coded("V1", no_object_words(), page)?;
    write_number_field("object", number, page)
}

/// Writes the line that there is no object of this number.
pub(crate) fn write_no_object<P: Page>(number: u64, page: &mut P) -> Result<(), Failed>
    ensures { Writes (P.told page.old) (P.told page.new) result (no_object_line number) }
{
    begin_line("refused", page)?;
    write_no_object_fields(number, page)?;
    end_line(page)
}

/// What is said where no place has an offset.
#[tactic(auto, unfolding(crate::specs::RefusedFields::no_item_words))]
fn no_item_words() -> &'static str
    ensures { result.now ≡ no_item_words }
{
    "no item at this offset"
}

/// Writes that no place has this offset.
fn write_no_item_fields<P: Page>(offset: u64, page: &mut P) -> Result<(), Failed>
    ensures { Writes (P.told page.old) (P.told page.new) result (fields_text (no_item_fields offset)) }
{
    write_coded("V2", no_item_words(), page)?;
    write_number_field("offset", offset, page)
}

/// Writes the line that no place has this offset.
pub(crate) fn write_no_item<P: Page>(offset: u64, page: &mut P) -> Result<(), Failed>
    ensures { Writes (P.told page.old) (P.told page.new) result (no_item_line offset) }
{
    begin_line("refused", page)?;
    write_no_item_fields(offset, page)?;
    end_line(page)
}
