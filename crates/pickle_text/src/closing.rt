//! The lines that close a text: how many bytes are after STOP, and how the run over the items of a document ended.

ghost use Rattle.std.specs.Prelude.{◌≡◌, ◌==◌, ◌&&◌};
ghost use Rattle.pickle_io.specs.Device.{Writes};
ghost use Rattle.pickle_text.specs.Closing.{kept_words, kept_text, kept_line, refused_item_line, closing_line, closing_status, closing_at};

use crate::report_line::{write_fault, write_item_refused};
use pickle_doc::TailFault;
use pickle_io::{Failed, Page, write_all, write_decimal};
use pickle_machine::Refusal;

/// How a run over the items of a document ended.
#[derive(Clone, Copy, Debug, PartialEq, Eq)]
pub enum Closing {
    /// STOP was the last item, and nothing follows that belongs to the document.
    Stopped,
    /// The machine refuses the item at this place, and why.
    Refused(usize, Refusal),
    /// After the last item the tail has this fault; the number is the offset of the tail in bytes.
    Fault(TailFault, u64),
}

/// Writes how many bytes are after STOP.
fn write_kept_text<S: Page>(count: u64, page: &mut S) -> Result<(), Failed>
    ensures { Writes (S.told page.old) (S.told page.new) result (kept_text count) }
{
    write_all(page, b"kept: ")?;
    write_decimal(count, page)?;
    write_all(page, words_after_stop().as_bytes())?;
    write_all(page, b"\n")
}

/// Words of a line.
#[tactic(auto, unfolding(crate::specs::Closing::kept_words))]
fn words_after_stop() -> &'static str
    ensures { result.now ≡ kept_words }
{
    " bytes after STOP"
}

/// Writes how many bytes are after STOP, if any.
#[tactic(auto, using(pickle_io::proofs::Devices::text_steps), unfolding(crate::specs::Closing::kept_line))]
pub fn write_kept_line<S: Page>(count: u64, page: &mut S) -> Result<(), Failed>
    ensures { Writes (S.told page.old) (S.told page.new) result (kept_line count) }
{
    if count == 0 {
        Ok(())
    } else {
        write_kept_text(count, page)
    }
}

/// Writes the line of an item that is refused. Where the sink fails, a beginning of the line was written.
fn write_refused<S: Page>(place: usize, refusal: Refusal, page: &mut S) -> Result<(), Failed>
    ensures { Writes (S.told page.old) (S.told page.new) result (refused_item_line place refusal) }
{
    write_all(page, b"refused: ")?;
    write_item_refused(place, refusal, page)?;
    write_all(page, b"\n")
}

/// Writes how a run ended: nothing where it stopped, else the line of the refused item or of the fault. It takes no memory.
/// `Failed` where the sink fails; a beginning of the line was written then.
#[tactic(auto, unfolding(crate::specs::Closing::closing_line))]
pub fn write_closing<S: Page>(closing: Closing, page: &mut S) -> Result<(), Failed>
    ensures { Writes (S.told page.old) (S.told page.new) result (closing_line closing) }
{
    match closing {
        Closing::Stopped => Ok(()),
        Closing::Refused(place, refusal) => write_refused(place, refusal, page),
        Closing::Fault(fault, offset) => write_fault(fault, offset, page),
    }
}

/// The status of a run that ended so: 0 where it stopped, 1 where an item is refused or the tail has a fault.
pub fn status_of(closing: Closing) -> u8
    ensures { result ≡ closing_status closing }
{
    match closing {
        Closing::Stopped => 0,
        Closing::Refused(_, _) => 1,
        Closing::Fault(_, _) => 1,
    }
}

/// How a run ends that went over all items: `stop` says whether the last of them is STOP, and the tail has `left` bytes, this fault
/// and this offset. It answers `Stopped` where STOP is last and nothing is left, else the fault with its offset.
pub fn closing_at(stop: bool, left: u64, fault: TailFault, offset: u64) -> Closing
    ensures { result ≡ closing_at (left == 0 && stop) fault offset }
{
    if left == 0 && stop {
        Closing::Stopped
    } else {
        Closing::Fault(fault, offset)
    }
}
