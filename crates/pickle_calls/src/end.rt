//! The last lines.

ghost use Rattle.std.specs.Prelude.{◌≡◌, IfOk, IfErr};
ghost use Rattle.pickle_io.specs.Text.{◌⧺◌};
ghost use Rattle.pickle_io.specs.Device.{Writes};
ghost use Rattle.pickle_text.specs.Closing.{kept_line, closing_line};
ghost use Rattle.pickle_calls.specs.Manner.{closing_in, ending_in};
ghost use Rattle.pickle_calls.specs.CallsLine.{totals_line, unsure_words, unsure_line, ending_lines, ending_status, calls_end_text};

use crate::begins::write_begins;
use crate::course::Course;
use crate::teller::Teller;
use pickle_io::{Failed, Holes, Page, write_all, write_decimal};
use pickle_text::{Closing, TextStop, status_of, write_closing, write_kept_line};

/// How the lines of a document end.
#[derive(Clone, Copy)]
pub enum Ending {
    /// The run over the items ended so, and STOP left this many bytes behind it.
    Closed(u64, Closing),
    /// Of several pickles, the STOP at this offset leaves a frame unfinished.
    Unsure(u64),
}

/// Writes how many imports and calls the lines are. `Failed` where the sink fails; a beginning of the line was written then.
pub fn write_totals<S: Page>(course: Course, page: &mut S) -> Result<(), Failed>
    ensures { Writes (S.told page.old) (S.told page.new) result (totals_line course.imports course.calls) }
{
    write_decimal(course.imports, page)?;
    write_all(page, b" imports, ")?;
    write_decimal(course.calls, page)?;
    write_all(page, b" calls")?;
    write_all(page, b"\n")
}

/// Words of a line.
#[tactic(auto, unfolding(crate::specs::CallsLine::unsure_words))]
fn words_of_unsure() -> &'static str
    ensures { result.now ≡ unsure_words }
{
    "unsure: U1 frame goes on behind STOP at "
}

/// Writes that a frame goes on behind the STOP at this offset.
fn write_unsure_line<S: Page>(offset: u64, page: &mut S) -> Result<(), Failed>
    ensures { Writes (S.told page.old) (S.told page.new) result (unsure_line offset) }
{
    write_all(page, words_of_unsure().as_bytes())?;
    write_decimal(offset, page)?;
    write_all(page, b"\n")
}

/// Writes how many bytes STOP left, if any, and how the run ended.
fn write_closed<S: Page>(kept: u64, closing: Closing, page: &mut S) -> Result<(), Failed>
    ensures { Writes (S.told page.old) (S.told page.new) result (kept_line kept ⧺ closing_line closing) }
{
    write_kept_line(kept, page)?;
    write_closing(closing, page)
}

/// Writes how the lines end.
#[tactic(auto, unfolding(crate::specs::CallsLine::ending_lines))]
fn write_ending<S: Page>(ending: Ending, page: &mut S) -> Result<(), Failed>
    ensures { Writes (S.told page.old) (S.told page.new) result (ending_lines ending) }
{
    match ending {
        Ending::Closed(kept, closing) => write_closed(kept, closing, page),
        Ending::Unsure(offset) => write_unsure_line(offset, page),
    }
}

/// The status of a text that ends so.
fn ending_status(ending: Ending) -> u8
    ensures { result ≡ ending_status ending }
{
    match ending {
        Ending::Closed(0, closing) => status_of(closing),
        Ending::Closed(_, _) => 1,
        Ending::Unsure(_) => 1,
    }
}

/// Writes the last lines.
pub(crate) fn write_last_lines<S: Page>(
    bytes: &[u8],
    course: Course,
    ending: Ending,
    page: &mut S,
) -> Result<(), Failed>
    ensures { Writes (S.told page.old) (S.told page.new) result (calls_end_text bytes.now course.imports course.calls ending) }
{
    write_begins(bytes, page)?;
    write_totals(course, page)?;
    write_ending(ending, page)
}

/// How a run ended, with its offset in the file that has these holes.
pub fn closing_in(holes: &Holes, closing: Closing) -> Closing
    ensures { result ≡ closing_in holes.now closing }
{
    match closing {
        Closing::Stopped => Closing::Stopped,
        Closing::Refused(place, refusal) => Closing::Refused(place, refusal),
        Closing::Fault(fault, offset) => Closing::Fault(fault, holes.in_file(offset)),
    }
}

/// How the lines end, with the offset in the file that has these holes.
fn ending_in(holes: &Holes, ending: Ending) -> Ending
    ensures { result ≡ ending_in holes.now ending }
{
    match ending {
        Ending::Closed(kept, closing) => Ending::Closed(kept, closing_in(holes, closing)),
        Ending::Unsure(offset) => Ending::Unsure(holes.in_file(offset)),
    }
}

/// Writes the last lines: what the bytes begin like, if that holds pickles inside, how many imports and calls there are, how many bytes
/// STOP left, and how the reading ended. The bytes are what is left of a file without these holes, and the offset is shown as in the file.
/// Answers the status: 0 where nothing is said of how it ended, else 1.
///
/// `Failed` where the sink fails; a beginning of the lines was written then.
pub fn write_end<T: Teller, S: Page>(
    holes: &Holes,
    bytes: &[u8],
    course: Course,
    ending: Ending,
    page: &mut S,
) -> Result<u8, TextStop>
    ensures text { Writes (S.told page.old) (S.told page.new) result (T.telling.last bytes.now course.imports course.calls (ending_in holes.now ending)) }
    ensures status { IfOk result (λ status. status ≡ ending_status ending) }
    ensures failed { IfErr result (λ e. e ≡ TextStop.Failed) }
{
    T::write_last(bytes, course, ending_in(holes, ending), page)?;
    Ok(ending_status(ending))
}
