//! The lines that commands are answered with. `Failed` where the sink fails; a beginning of the text was written then.

ghost use Rattle.pickle_io.specs.Device.{Writes};
ghost use Rattle.json_lines.specs.Line.{fields_text};
ghost use Rattle.debug_json.specs.ReplyFields.{why_fields, ran_fields, ran_line, placed_line, reply_line};

use crate::refused::{write_end_fields, write_place, write_refused_command};
use json_lines::{begin_line, end_line};
use pickle_doc::End;
use pickle_io::{Failed, Page};
use pickle_json::{write_how, write_refused_fields};
use pickle_session::{Reply, Why};

/// Writes why a run stopped in a document that ends so.
fn write_why<P: Page>(end: End, why: Why, page: &mut P) -> Result<(), Failed>
    ensures { Writes (P.told page.old) (P.told page.new) result (fields_text (why_fields end why)) }
{
    match why {
        Why::End => write_end_fields(end, page),
        Why::Breakpoint => write_how("breakpoint", page),
        Why::Refused(refusal) => write_refused_fields(refusal, None, page),
    }
}

/// Writes where a run stopped, and why.
fn write_ran_fields<P: Page>(end: End, place: usize, why: Why, page: &mut P) -> Result<(), Failed>
    ensures { Writes (P.told page.old) (P.told page.new) result (fields_text (ran_fields end place why)) }
{
    write_place(place, page)?;
    write_why(end, why, page)
}

/// Writes the line of a run.
fn write_ran<P: Page>(end: End, place: usize, why: Why, page: &mut P) -> Result<(), Failed>
    ensures { Writes (P.told page.old) (P.told page.new) result (ran_line end place why) }
{
    begin_line("ran", page)?;
    write_ran_fields(end, place, why, page)?;
    end_line(page)
}

/// Writes a line of this kind, and the place that it is about.
fn write_placed<P: Page>(kind: &str, place: usize, page: &mut P) -> Result<(), Failed>
    ensures { Writes (P.told page.old) (P.told page.new) result (placed_line kind.now place) }
{
    begin_line(kind, page)?;
    write_place(place, page)?;
    end_line(page)
}

/// Writes the line of a reply of a session whose document ends so.
#[tactic(auto, unfolding(crate::specs::ReplyFields::reply_line))]
pub(crate) fn write_reply<P: Page>(end: End, reply: Reply, page: &mut P) -> Result<(), Failed>
    ensures { Writes (P.told page.old) (P.told page.new) result (reply_line end reply) }
{
    match reply {
        Reply::At(place) => write_placed("at", place, page),
        Reply::Ran(place, why) => write_ran(end, place, why, page),
        Reply::Broke(place) => write_placed("broke", place, page),
        Reply::Cleared(place) => write_placed("cleared", place, page),
        Reply::Edited(place) => write_placed("edited", place, page),
        Reply::Undone(place) => write_placed("undone", place, page),
        Reply::Redone(place) => write_placed("redone", place, page),
        Reply::Refused(fault) => write_refused_command(fault, page),
    }
}
