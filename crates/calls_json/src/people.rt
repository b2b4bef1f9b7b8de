//! Lines for people that `pickle_calls` and `pickle_further` write with others: alone. `Failed` where the sink fails; a beginning of the line
//! was written then.

ghost use Rattle.std.specs.Prelude.{◌≡◌};
ghost use Rattle.pickle_io.specs.Device.{Writes};
ghost use Rattle.pickle_io.specs.Text.{◌⧺◌};
ghost use Rattle.pickle_calls.specs.Begins.{begins_words, begins_line};
ghost use Rattle.pickle_calls.specs.CallsLine.{unsure_words, unsure_line, ending_lines};
ghost use Rattle.pickle_text.specs.Closing.{kept_words, kept_text, kept_line, closing_line};
ghost use Rattle.pickle_further.specs.Parts.{stop_words, stop_line, ends_line};

use pickle_calls::Ending;
use pickle_io::{Failed, Page, write_all, write_decimal};
use pickle_text::{Closing, write_closing};

/// Words of a line.
#[tactic(auto, unfolding(pickle_calls::specs::Begins::begins_words))]
fn begins_words() -> &'static str
    ensures { result.now ≡ begins_words }
{
    ": picklestep scan looks into it"
}

/// Writes what the bytes begin like.
pub(crate) fn write_begins_text<P: Page>(name: &str, page: &mut P) -> Result<(), Failed>
    ensures { Writes (P.told page.old) (P.told page.new) result (begins_line name.now) }
{
    write_all(page, b"begins like ")?;
    write_all(page, name.as_bytes())?;
    write_all(page, begins_words().as_bytes())?;
    write_all(page, b"\n")
}

/// Words of a line.
#[tactic(auto, unfolding(pickle_text::specs::Closing::kept_words))]
fn kept_words() -> &'static str
    ensures { result.now ≡ kept_words }
{
    " bytes after STOP"
}

/// Writes how many bytes are behind STOP.
fn write_kept_text<P: Page>(kept: u64, page: &mut P) -> Result<(), Failed>
    ensures { Writes (P.told page.old) (P.told page.new) result (kept_text kept) }
{
    write_all(page, b"kept: ")?;
    write_decimal(kept, page)?;
    write_all(page, kept_words().as_bytes())?;
    write_all(page, b"\n")
}

/// Writes it, if there are any.
#[tactic(auto, using(pickle_io::proofs::Devices::text_steps), unfolding(pickle_text::specs::Closing::kept_line))]
fn write_kept<P: Page>(kept: u64, page: &mut P) -> Result<(), Failed>
    ensures { Writes (P.told page.old) (P.told page.new) result (kept_line kept) }
{
    if kept == 0 {
        Ok(())
    } else {
        write_kept_text(kept, page)
    }
}

/// Writes how many bytes STOP left, if any, and how the run ended.
fn write_closed<P: Page>(kept: u64, closing: Closing, page: &mut P) -> Result<(), Failed>
    ensures { Writes (P.told page.old) (P.told page.new) result (kept_line kept ⧺ closing_line closing) }
{
    write_kept(kept, page)?;
    write_closing(closing, page)
}

/// Words of a line.
#[tactic(auto, unfolding(pickle_calls::specs::CallsLine::unsure_words))]
fn unsure_words() -> &'static str
    ensures { result.now ≡ unsure_words }
{
    "unsure: U1 frame goes on behind STOP at "
}

/// Writes that a frame goes on behind the STOP at this offset.
fn write_unsure_text<P: Page>(offset: u64, page: &mut P) -> Result<(), Failed>
    ensures { Writes (P.told page.old) (P.told page.new) result (unsure_line offset) }
{
    write_all(page, unsure_words().as_bytes())?;
    write_decimal(offset, page)?;
    write_all(page, b"\n")
}

/// Writes how the lines end.
#[tactic(auto, unfolding(pickle_calls::specs::CallsLine::ending_lines))]
pub(crate) fn write_ending_text<P: Page>(ending: Ending, page: &mut P) -> Result<(), Failed>
    ensures { Writes (P.told page.old) (P.told page.new) result (ending_lines ending) }
{
    match ending {
        Ending::Closed(kept, closing) => write_closed(kept, closing, page),
        Ending::Unsure(offset) => write_unsure_text(offset, page),
    }
}

/// Words of a line.
#[tactic(auto, unfolding(pickle_further::specs::Parts::stop_words))]
fn stop_words() -> &'static str
    ensures { result.now ≡ stop_words }
{
    "it ends: STOP"
}

/// Writes that a part ended at STOP.
fn write_stop_text<P: Page>(page: &mut P) -> Result<(), Failed>
    ensures { Writes (P.told page.old) (P.told page.new) result stop_line }
{
    write_all(page, stop_words().as_bytes())?;
    write_all(page, b"\n")
}

/// Writes how a part ended.
#[tactic(auto, using(pickle_io::proofs::Devices::text_steps), unfolding(pickle_further::specs::Parts::ends_line))]
pub(crate) fn write_ends_text<P: Page>(closing: Closing, page: &mut P) -> Result<(), Failed>
    ensures { Writes (P.told page.old) (P.told page.new) result (ends_line closing) }
{
    match closing {
        Closing::Stopped => write_stop_text(page),
        Closing::Refused(place, refusal) => {
            write_all(page, b"it ends: ")?;
            write_closing(Closing::Refused(place, refusal), page)
        }
        Closing::Fault(fault, offset) => {
            write_all(page, b"it ends: ")?;
            write_closing(Closing::Fault(fault, offset), page)
        }
    }
}
