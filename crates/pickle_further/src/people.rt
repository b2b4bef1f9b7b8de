//! The lines for people of what loaders may do behind the end, and of where they disagree. `Failed` where the sink fails; a beginning of the
//! line was written then.

ghost use Rattle.std.specs.Prelude.{◌≡◌};
ghost use Rattle.pickle_io.specs.Device.{Writes};
ghost use Rattle.pickle_io.specs.Text.{◌⧺◌};
ghost use Rattle.pickle_further.specs.Leads.{warning_text};
ghost use Rattle.pickle_further.specs.Parts.{stop_words, stop_line, ends_line, part_end, ignored_words, buffered_words, held_words, header_words, header, loss_words, loss_line, mixed_words, mixed_line, words_for_people};

use crate::deep::write_warnings;
use crate::leads::write_warning;
use crate::worder::Worder;
use pickle_calls::{Course, ForPeople, write_totals};
use pickle_io::{Failed, Page, write_all, write_decimal};
use pickle_lenient::Frames;
use pickle_ops::ObjId;
use pickle_text::{Closing, write_closing};

/// The words of the line above what loaders may do that ignore frames.
#[tactic(auto, unfolding(crate::specs::Parts::ignored_words))]
fn ignored_words() -> &'static str
    ensures { result.now ≡ ignored_words }
{
    "a loader may go on:"
}

/// The words of the line above what loaders may do that buffer frames.
#[tactic(auto, unfolding(crate::specs::Parts::buffered_words))]
fn buffered_words() -> &'static str
    ensures { result.now ≡ buffered_words }
{
    "a loader that buffers frames may go on:"
}

/// The words of the line above what loaders may do that keep their buffer behind STOP.
#[tactic(auto, unfolding(crate::specs::Parts::held_words))]
fn held_words() -> &'static str
    ensures { result.now ≡ held_words }
{
    "a loader that keeps its buffer may go on:"
}

/// The words of the line above what loaders may do.
fn header_words(frames: Frames) -> &'static str
    ensures { result.now ≡ header_words frames }
{
    match frames {
        Frames::Ignored => ignored_words(),
        Frames::Buffered => buffered_words(),
        Frames::Held => held_words(),
    }
}

/// Writes that a loader may go on.
fn write_header<S: Page>(frames: Frames, page: &mut S) -> Result<(), Failed>
    ensures { Writes (S.told page.old) (S.told page.new) result (header frames) }
{
    write_all(page, header_words(frames).as_bytes())?;
    write_all(page, b"\n")
}

/// The words of the last line where it ended at STOP.
#[tactic(auto, unfolding(crate::specs::Parts::stop_words))]
fn stop_words() -> &'static str
    ensures { result.now ≡ stop_words }
{
    "it ends: STOP"
}

/// Writes that it ended at STOP.
fn write_stopped<S: Page>(page: &mut S) -> Result<(), Failed>
    ensures { Writes (S.told page.old) (S.told page.new) result stop_line }
{
    write_all(page, stop_words().as_bytes())?;
    write_all(page, b"\n")
}

/// Writes how it ended.
#[tactic(auto, using(pickle_io::proofs::Devices::text_steps), unfolding(crate::specs::Parts::ends_line))]
fn write_ends<S: Page>(closing: Closing, page: &mut S) -> Result<(), Failed>
    ensures { Writes (S.told page.old) (S.told page.new) result (ends_line closing) }
{
    match closing {
        Closing::Stopped => write_stopped(page),
        Closing::Refused(place, refusal) => {
            write_all(page, b"it ends: ")?;
            write_closing(Closing::Refused(place, refusal), page)
        }
        Closing::Fault(fault, offset) => {
            write_all(page, b"it ends: ")?;
            write_closing(Closing::Fault(fault, offset), page)
        }
    }
}

/// Writes how it ended, and a line where an import leads to the unpickler.
fn write_ends_warned<S: Page>(
    closing: Closing,
    leads: Option<ObjId>,
    page: &mut S,
) -> Result<(), Failed>
    ensures { Writes (S.told page.old) (S.told page.new) result (ends_line closing ⧺ warning_text leads) }
{
    write_ends(closing, page)?;
    write_warning(leads, page)
}

/// Writes the last lines.
fn write_part_end<S: Page>(
    course: Course,
    closing: Closing,
    leads: Option<ObjId>,
    page: &mut S,
) -> Result<(), Failed>
    ensures { Writes (S.told page.old) (S.told page.new) result (part_end course.imports course.calls closing leads) }
{
    write_totals(course, page)?;
    write_ends_warned(closing, leads, page)
}

/// The words of the line that says from where frames may be mixed.
#[tactic(auto, unfolding(crate::specs::Parts::mixed_words))]
fn mixed_words() -> &'static str
    ensures { result.now ≡ mixed_words }
{
    "unsure: U3 frames may be mixed at "
}

/// Writes that frames may be mixed from this offset on.
fn write_mixed_line<S: Page>(offset: u64, page: &mut S) -> Result<(), Failed>
    ensures { Writes (S.told page.old) (S.told page.new) result (mixed_line offset) }
{
    write_all(page, mixed_words().as_bytes())?;
    write_decimal(offset, page)?;
    write_all(page, b"\n")
}

/// The words of the line that says where bytes are lost.
#[tactic(auto, unfolding(crate::specs::Parts::loss_words))]
fn loss_words() -> &'static str
    ensures { result.now ≡ loss_words }
{
    "unsure: U2 rest of a frame is lost at "
}

/// Writes that bytes are lost at this offset.
fn write_loss_line<S: Page>(offset: u64, page: &mut S) -> Result<(), Failed>
    ensures { Writes (S.told page.old) (S.told page.new) result (loss_line offset) }
{
    write_all(page, loss_words().as_bytes())?;
    write_decimal(offset, page)?;
    write_all(page, b"\n")
}

impl Worder for ForPeople {
    ghost words = { words_for_people };

    fn write_heading<S: Page>(frames: Frames, page: &mut S) -> Result<(), Failed> {
        write_header(frames, page)
    }

    fn write_closed<S: Page>(
        course: Course,
        closing: Closing,
        leads: Option<ObjId>,
        page: &mut S,
    ) -> Result<(), Failed> {
        write_part_end(course, closing, leads, page)
    }

    fn write_leading<S: Page>(leads: Option<ObjId>, page: &mut S) -> Result<(), Failed> {
        write_warning(leads, page)
    }

    fn write_warning<S: Page>(
        leads: Option<ObjId>,
        deep: Option<ObjId>,
        page: &mut S,
    ) -> Result<(), Failed> {
        write_warnings(leads, deep, page)
    }

    fn write_losing<S: Page>(offset: u64, page: &mut S) -> Result<(), Failed> {
        write_loss_line(offset, page)
    }

    fn write_mixing<S: Page>(offset: u64, page: &mut S) -> Result<(), Failed> {
        write_mixed_line(offset, page)
    }
}
