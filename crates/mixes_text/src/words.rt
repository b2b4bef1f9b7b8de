//! Who writes the lines.

use pickle_io::{Failed, Page};
use pickle_ops::Op;

/// Who tells what loaders may take that mix frames. Each function writes a line, and `Failed` comes from the sink: a beginning was written
/// then. Offsets are those in the file.
pub trait MixWorder {
    ghost use Rattle.pickle_io.specs.Device.{Writes};
    ghost use Rattle.mixes_text.specs.MixText.{MixWords};

    // What it writes.
    ghost mixes: { MixWords };

    /// Writes the line above the opcodes.
    fn write_above<S: Page>(page: &mut S) -> Result<(), Failed>
        ensures { Writes (S.told page.old) (S.told page.new) result mixes.above };

    /// Writes the line of an opcode at this offset.
    fn write_taken<S: Page>(offset: u64, op: &Op, page: &mut S) -> Result<(), Failed>
        ensures { Writes (S.told page.old) (S.told page.new) result (mixes.taken offset op.now) };

    /// Writes the line below so many opcodes.
    fn write_below<S: Page>(count: u64, page: &mut S) -> Result<(), Failed>
        ensures { Writes (S.told page.old) (S.told page.new) result (mixes.below count) };

    /// Writes that there are too many ways to read the bytes.
    fn write_too_many<S: Page>(page: &mut S) -> Result<(), Failed>
        ensures { Writes (S.told page.old) (S.told page.new) result mixes.too_many };
}
