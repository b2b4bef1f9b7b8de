//! The lines that commands are answered with. Each writer writes its text; where the sink fails, a beginning of it was written.

ghost use Rattle.std.specs.Prelude.{◌≡◌};
ghost use Rattle.pickle_io.specs.Device.{Writes};
ghost use Rattle.pickle_script.specs.ReplyText.{edit_words, fault_words, behind_text, fault_rest, refused_command, why_text, ran_text, placed_text, reply_text};

use crate::conversation::fault_text::write_end;
use pickle_doc::{EditFault, End};
use pickle_io::{Failed, Page, write_all, write_decimal};
use pickle_session::{Fault, Reply, Why};
use pickle_text::{write_item_refusal, write_refusal};

/// What the fault of an edit is called.
#[tactic(auto, unfolding(crate::specs::ReplyText::edit_words))]
fn words_of_edit(fault: EditFault) -> &'static str
    ensures { result.now ≡ edit_words fault }
{
    match fault {
        EditFault::NoSuchItem => "E1 no such item",
        EditFault::StopItem => "E2 stop item",
        EditFault::FrameItem => "E3 frame item",
        EditFault::AfterStop => "E4 after stop",
        EditFault::OpenFrame => "E5 open frame",
        EditFault::AlreadyFramed => "E6 already framed",
        EditFault::TooManyItems => "E7 too many items",
        EditFault::TooLarge => "E8 too large",
        EditFault::Memory => "M out of memory",
    }
}

/// What the fault of a command is called.
#[tactic(auto, unfolding(crate::specs::ReplyText::fault_words))]
fn words_of_fault(fault: Fault) -> &'static str
    ensures { result.now ≡ fault_words fault }
{
    match fault {
        Fault::AtStart => "C1 at the start",
        Fault::AtEnd(_) => "C2 at the end, ",
        Fault::Item(_, _) => "C3 item ",
        Fault::NoSuchPlace => "C4 no such place",
        Fault::BehindCursor => "C5 behind the cursor",
        Fault::NothingToUndo => "C6 nothing to undo",
        Fault::NothingToRedo => "C7 nothing to redo",
        Fault::EditBehindCursor(_) => "C8 edit at ",
        Fault::Edit(_) => "C9 ",
        Fault::Memory => "M out of memory",
    }
}

/// What comes after the place of an edit that is before the cursor.
#[tactic(auto, unfolding(crate::specs::ReplyText::behind_text))]
fn behind_words() -> &'static str
    ensures { result.now ≡ behind_text }
{
    " behind the cursor"
}

/// Writes what comes after the words of a fault.
#[tactic(auto, using(pickle_io::proofs::Devices::text_steps), unfolding(crate::specs::ReplyText::fault_rest))]
fn write_fault_rest<S: Page>(fault: Fault, page: &mut S) -> Result<(), Failed>
    ensures { Writes (S.told page.old) (S.told page.new) result (fault_rest fault) }
{
    match fault {
        Fault::AtEnd(end) => write_end(end, page),
        Fault::Item(place, refusal) => write_item_refusal(place, refusal, page),
        Fault::EditBehindCursor(place) => {
            write_decimal(place as u64, page)?;
            write_all(page, behind_words().as_bytes())
        }
        Fault::Edit(edit) => write_all(page, words_of_edit(edit).as_bytes()),
        Fault::AtStart => Ok(()),
        Fault::NoSuchPlace => Ok(()),
        Fault::BehindCursor => Ok(()),
        Fault::NothingToUndo => Ok(()),
        Fault::NothingToRedo => Ok(()),
        Fault::Memory => Ok(()),
    }
}

/// Writes the line of a command that is refused.
fn write_refused_command<S: Page>(fault: Fault, page: &mut S) -> Result<(), Failed>
    ensures { Writes (S.told page.old) (S.told page.new) result (refused_command fault) }
{
    write_all(page, b"refused: ")?;
    write_all(page, words_of_fault(fault).as_bytes())?;
    write_fault_rest(fault, page)?;
    write_all(page, b"\n")
}

/// Writes why a run stopped in a document that ends so.
#[tactic(auto, using(pickle_io::proofs::Devices::text_steps), unfolding(crate::specs::ReplyText::why_text))]
fn write_why<S: Page>(end: End, why: Why, page: &mut S) -> Result<(), Failed>
    ensures { Writes (S.told page.old) (S.told page.new) result (why_text end why) }
{
    match why {
        Why::End => {
            write_all(page, b": end, ")?;
            write_end(end, page)
        }
        Why::Breakpoint => write_all(page, b": breakpoint"),
        Why::Refused(refusal) => {
            write_all(page, b": refused, ")?;
            write_refusal(refusal, page)
        }
    }
}

/// Writes where a run stopped, and why.
fn write_ran<S: Page>(end: End, place: usize, why: Why, page: &mut S) -> Result<(), Failed>
    ensures { Writes (S.told page.old) (S.told page.new) result (ran_text end place why) }
{
    write_all(page, b"at ")?;
    write_decimal(place as u64, page)?;
    write_why(end, why, page)?;
    write_all(page, b"\n")
}

/// Writes a word and the place that it is about.
fn write_placed<S: Page>(word: &str, place: usize, page: &mut S) -> Result<(), Failed>
    ensures { Writes (S.told page.old) (S.told page.new) result (placed_text word.now place) }
{
    write_all(page, word.as_bytes())?;
    write_decimal(place as u64, page)?;
    write_all(page, b"\n")
}

/// Writes the line of a reply of a session whose document ends so. It takes no memory. Where the sink fails, a beginning of the
/// line was written.
#[tactic(auto, unfolding(crate::specs::ReplyText::reply_text))]
pub fn write_reply<S: Page>(end: End, reply: Reply, page: &mut S) -> Result<(), Failed>
    ensures { Writes (S.told page.old) (S.told page.new) result (reply_text end reply) }
{
    match reply {
        Reply::At(place) => write_placed("at ", place, page),
        Reply::Ran(place, why) => write_ran(end, place, why, page),
        Reply::Broke(place) => write_placed("break ", place, page),
        Reply::Cleared(place) => write_placed("clear ", place, page),
        Reply::Edited(place) => write_placed("edited ", place, page),
        Reply::Undone(place) => write_placed("undone ", place, page),
        Reply::Redone(place) => write_placed("redone ", place, page),
        Reply::Refused(fault) => write_refused_command(fault, page),
    }
}
