//! Whether a loader of an input reaches something, as a line of JSON.

ghost use Rattle.std.specs.Prelude.{◌≤◌, length, IfOk, IfErr};
ghost use Rattle.pickle_doc.specs.Document.{size_limit};
ghost use Rattle.pickle_reach.specs.Reach.{IsReach};
ghost use Rattle.pickle_script.specs.GateText.{WroteText};
ghost use Rattle.json_script.specs.Once.{CutsOnce};
ghost use Rattle.json_script.specs.ReachLine.{IsReachLine};

use pickle_io::Page;
use pickle_json::{write_nothing_reached, write_reached, write_too_many_ways};
use pickle_reach::{Granted, Reach, first_reach, op_reached};
use pickle_text::TextStop;
use std::alloc::Global;

/// Writes what is answered, and answers the status.
fn write_found<S: Page>(
    alloc: Global,
    granted: Granted,
    bytes: &[u8],
    found: Reach,
    page: &mut S,
) -> Result<u8, TextStop>
    requires few { length bytes.now ≤ size_limit }
    requires found { IsReach granted bytes.now found }
    ensures ok { IfOk result (WroteText (IsReachLine granted bytes.now) (S.told page.old) (S.told page.new)) }
    ensures err { IfErr result (CutsOnce (IsReachLine granted bytes.now) (S.told page.old) (S.told page.new)) }
{
    match found {
        Reach::Nothing(offset, settled) => {
            write_nothing_reached(offset, settled, page)?;
            Ok(0)
        }
        Reach::At(spot, frames) => {
            let op = op_reached(alloc, granted, bytes, spot, frames)?;
            write_reached(spot, frames, &op.by_ref(), page)?;
            Ok(1)
        }
        Reach::TooMany => {
            write_too_many_ways(page)?;
            Ok(1)
        }
    }
}

/// Writes whether a loader of the bytes reaches something that was given this besides, by which opcode first, and what it does with frames.
/// Answers the status: 1 where one does or there are too many ways to read the bytes, else 0. There are to be no more bytes than the limit.
///
/// `Memory` (M) where memory runs out: nothing was written. `Failed` where the sink fails: what was written then is a beginning of the line.
pub(crate) fn write_reach<S: Page>(
    alloc: Global,
    granted: Granted,
    bytes: &[u8],
    page: &mut S,
) -> Result<u8, TextStop>
    requires { length bytes.now ≤ size_limit }
    ensures ok { IfOk result (WroteText (IsReachLine granted bytes.now) (S.told page.old) (S.told page.new)) }
    ensures err { IfErr result (CutsOnce (IsReachLine granted bytes.now) (S.told page.old) (S.told page.new)) }
{
    let found = first_reach(alloc, granted, bytes)?;
    write_found(alloc, granted, bytes, found, page)
}
