//! The line of whether a pickle is in the form that picklers write. `Failed` where the sink fails; a beginning of the line was written then.

ghost use Rattle.std.specs.Prelude.{◌≡◌};
ghost use Rattle.pickle_io.specs.Device.{Writes};
ghost use Rattle.json_lines.specs.Line.{fields_text};
ghost use Rattle.pickle_json.specs.FormFields.{reason_name, place_fields, why_fields, other_fields, other_line, in_form_fields, in_form_line};

use crate::ends::write_how;
use json_lines::{begin_line, end_line, write_number_field, write_text_field};
use pickle_form::{Other, Reason};
use pickle_io::{Failed, Page};

/// The name of a reason.
#[tactic(auto, unfolding(crate::specs::FormFields::reason_name))]
fn reason_name(reason: Reason) -> &'static str
    ensures { result.now ≡ reason_name reason }
{
    match reason {
        Reason::Unreadable => "unreadable",
        Reason::FrameInFrame => "frame_in_frame",
        Reason::FramePastEnd => "frame_past_end",
        Reason::FrameCrossed => "frame_crossed",
        Reason::EmptyFrame => "empty_frame",
        Reason::NoFrame => "no_frame",
        Reason::StopInFrame => "stop_in_frame",
        Reason::Protocol => "protocol",
        Reason::SecondProtocol => "second_protocol",
        Reason::NeverWritten => "never_written",
        Reason::OtherProtocol => "other_protocol",
        Reason::LongNumber => "long_number",
        Reason::LongLength => "long_length",
        Reason::LongKey => "long_key",
        Reason::NumberText => "number_text",
        Reason::TextSpelling => "text_spelling",
        Reason::NotUtf8 => "not_utf8",
        Reason::Name => "name",
        Reason::PersistentId => "persistent_id",
        Reason::KeyOrder => "key_order",
        Reason::NotMade => "not_made",
        Reason::NoKey => "no_key",
        Reason::NoMark => "no_mark",
        Reason::TooFew => "too_few",
        Reason::TupleSize => "tuple_size",
        Reason::BatchSize => "batch_size",
        Reason::OddItems => "odd_items",
        Reason::NotCallable => "not_callable",
        Reason::NotArguments => "not_arguments",
        Reason::WrongTarget => "wrong_target",
        Reason::NoState => "no_state",
        Reason::NotBuffer => "not_buffer",
        Reason::Dropped => "dropped",
        Reason::LeftOver => "left_over",
        Reason::Behind => "behind",
    }
}

/// Writes how many opcodes and bytes are before the first place.
fn write_place<P: Page>(other: Other, page: &mut P) -> Result<(), Failed>
    ensures { Writes (P.told page.old) (P.told page.new) result (fields_text (place_fields other)) }
{
    write_number_field("item", other.place as u64, page)?;
    write_number_field("offset", other.offset, page)
}

/// Writes why no pickler writes so.
fn write_why<P: Page>(reason: Reason, page: &mut P) -> Result<(), Failed>
    ensures { Writes (P.told page.old) (P.told page.new) result (fields_text (why_fields reason)) }
{
    write_text_field("reason", reason_name(reason), page)?;
    write_text_field("words", reason.sentence(), page)
}

/// Writes the fields of the first place at which a pickle is in another form, and why.
pub fn write_other_fields<P: Page>(other: Other, page: &mut P) -> Result<(), Failed>
    ensures { Writes (P.told page.old) (P.told page.new) result (fields_text (other_fields other)) }
{
    write_how("other_form", page)?;
    write_place(other, page)?;
    write_why(other.reason, page)
}

/// Writes the first place at which a pickle is in another form, and why.
pub fn write_other_form<P: Page>(other: Other, page: &mut P) -> Result<(), Failed>
    ensures { Writes (P.told page.old) (P.told page.new) result (other_line other) }
{
    begin_line("end", page)?;
    write_other_fields(other, page)?;
    end_line(page)
}

/// Writes the fields of a pickle in the form.
fn write_in_form_fields<P: Page>(page: &mut P) -> Result<(), Failed>
    ensures { Writes (P.told page.old) (P.told page.new) result (fields_text in_form_fields) }
{
    write_how("in_form", page)
}

/// Writes that a pickle is in the form.
pub fn write_in_form<P: Page>(page: &mut P) -> Result<(), Failed>
    ensures { Writes (P.told page.old) (P.told page.new) result in_form_line }
{
    begin_line("end", page)?;
    write_in_form_fields(page)?;
    end_line(page)
}
