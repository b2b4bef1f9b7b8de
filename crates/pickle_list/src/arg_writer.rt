//! Who writes the arguments of a listing: the loop over the items is one, and so are all other parts of their lines.

ghost use Rattle.pickle_list.specs.ArgTexts.{short_args};

use pickle_io::{Failed, Page};
use pickle_ops::{OpRef, write_arg};

/// Who writes the text of an argument. No value of the type is needed: what it writes is a matter of the type alone.
pub trait ArgWriter {
    ghost use Rattle.std.specs.Prelude.{◌≤◌, [], unwrap_or, OnOk};
    ghost use Rattle.pickle_io.specs.Device.{Writes};
    ghost use Rattle.pickle_list.specs.ArgTexts.{ArgTexts};

    // What it writes.
    ghost texts: { ArgTexts };

    /// Writes the text of an argument, where there is one. There is room for a number. `Failed` where the sink fails; a beginning of the
    /// text was written then.
    fn write_text<P: Page>(op: &OpRef<'_>, page: &mut P) -> Result<(), Failed>
        requires { 80 ≤ P.room page.old }
        ensures text { Writes (P.told page.old) (P.told page.new) result (unwrap_or (texts.text op.now) []) }
        ensures room { OnOk result (60 ≤ P.room page.new) };
}

/// Each argument by its own text.
pub struct ShortArgs;

impl ArgWriter for ShortArgs {
    ghost texts = { short_args };

    #[inline(always)]
    fn write_text<P: Page>(op: &OpRef<'_>, page: &mut P) -> Result<(), Failed> {
        write_arg(op, page)
    }
}
