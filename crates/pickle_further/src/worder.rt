//! Who writes the lines that are no events.

use pickle_calls::{Course, Teller};
use pickle_io::{Failed, Page};
use pickle_lenient::Frames;
use pickle_ops::ObjId;
use pickle_text::Closing;

/// Who tells also what loaders may do behind the end of the lines, and of what is warned. Each function writes a line or several, and
/// `Failed` comes from the sink: a beginning was written then. Offsets are those in the file.
pub trait Worder: Teller {
    ghost use Rattle.pickle_io.specs.Device.{Writes};
    ghost use Rattle.pickle_further.specs.Parts.{Words};

    // What it writes.
    ghost words: { Words };

    /// Writes the line above what loaders may do that treat frames so.
    fn write_heading<S: Page>(frames: Frames, page: &mut S) -> Result<(), Failed>
        ensures { Writes (S.told page.old) (S.told page.new) result (words.heading frames) };

    /// Writes the last lines of a part: how many imports and calls it has, how it ended, and the first import that leads to the unpickler.
    fn write_closed<S: Page>(
        course: Course,
        closing: Closing,
        leads: Option<ObjId>,
        page: &mut S,
    ) -> Result<(), Failed>
        ensures { Writes (S.told page.old) (S.told page.new) result (words.closed course.imports course.calls closing leads) };

    /// Writes which import leads to the unpickler, if one does.
    fn write_leading<S: Page>(leads: Option<ObjId>, page: &mut S) -> Result<(), Failed>
        ensures { Writes (S.told page.old) (S.told page.new) result (words.leading leads) };

    /// Writes which import leads to the unpickler, or else which tuple is nested too deep.
    fn write_warning<S: Page>(
        leads: Option<ObjId>,
        deep: Option<ObjId>,
        page: &mut S,
    ) -> Result<(), Failed>
        ensures { Writes (S.told page.old) (S.told page.new) result (words.warning leads deep) };

    /// Writes that bytes of a frame are lost at this offset.
    fn write_losing<S: Page>(offset: u64, page: &mut S) -> Result<(), Failed>
        ensures { Writes (S.told page.old) (S.told page.new) result (words.losing offset) };

    /// Writes that frames may be mixed from this offset on.
    fn write_mixing<S: Page>(offset: u64, page: &mut S) -> Result<(), Failed>
        ensures { Writes (S.told page.old) (S.told page.new) result (words.mixing offset) };
}
