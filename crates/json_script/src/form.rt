//! Whether a pickle is in the form that picklers write, as a line of JSON.

ghost use Rattle.std.specs.Prelude.{◌≤◌, length, IfOk, IfErr};
ghost use Rattle.pickle_doc.specs.Document.{size_limit};
ghost use Rattle.pickle_script.specs.GateText.{WroteText};
ghost use Rattle.json_script.specs.Once.{CutsOnce};
ghost use Rattle.json_script.specs.FormLine.{IsFormLine};

use pickle_form::first_other;
use pickle_io::Page;
use pickle_json::{write_in_form, write_other_form};
use pickle_text::TextStop;
use std::alloc::Global;

/// Writes whether the pickle that the bytes are is in the form that picklers write, else the first place at which it is not, and why.
/// Answers the status: 0 where it is, else 1. There are to be no more bytes than the limit.
///
/// `Memory` (M) where memory runs out: nothing was written. `Failed` where the sink fails: what was written then is a beginning of the line.
pub(crate) fn write_form<S: Page>(alloc: Global, bytes: &[u8], page: &mut S) -> Result<u8, TextStop>
    requires { length bytes.now ≤ size_limit }
    ensures ok { IfOk result (WroteText (IsFormLine bytes.now) (S.told page.old) (S.told page.new)) }
    ensures err { IfErr result (CutsOnce (IsFormLine bytes.now) (S.told page.old) (S.told page.new)) }
{
    let first = first_other(alloc, bytes)?;
    match first {
        Some(other) => {
            write_other_form(other, page)?;
            Ok(1)
        }
        None => {
            write_in_form(page)?;
            Ok(0)
        }
    }
}
