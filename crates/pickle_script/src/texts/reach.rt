//! The text of whether a loader of some bytes reaches something.

ghost use Rattle.std.specs.Prelude.{◌≡◌, ◌≤◌, length, IfOk, IfErr};
ghost use Rattle.pickle_io.specs.Device.{Writes};
ghost use Rattle.pickle_doc.specs.Document.{size_limit};
ghost use Rattle.pickle_reach.specs.Reach.{IsReach};
ghost use Rattle.pickle_script.specs.GateText.{WroteText};
ghost use Rattle.pickle_script.specs.ReachText.{nothing_words, whatever_words, whatever_text, nothing_line, reached_words, reached_line, ways_line, IsReachText, CutsReach};

use crate::conversation::write_op;
use pickle_io::{Failed, Page, write_all, write_decimal};
use pickle_ops::Op;
use pickle_reach::{Granted, Reach, first_reach, op_reached};
use pickle_text::TextStop;
use std::alloc::Global;

/// Words of a line.
#[tactic(auto, unfolding(crate::specs::ReachText::nothing_words))]
fn nothing_words() -> &'static str
    ensures { result.now ≡ nothing_words }
{
    "nothing reached: every loader ends by "
}

/// Words of a line.
#[tactic(auto, unfolding(crate::specs::ReachText::whatever_words))]
fn whatever_words() -> &'static str
    ensures { result.now ≡ whatever_words }
{
    ", whatever follows"
}

/// Writes that this is so whatever bytes follow, if it is.
fn write_whatever<S: Page>(settled: bool, page: &mut S) -> Result<(), Failed>
    ensures { Writes (S.told page.old) (S.told page.new) result (whatever_text settled) }
{
    if settled {
        write_all(page, whatever_words().as_bytes())
    } else {
        Ok(())
    }
}

/// Writes that nothing is reached, and the greatest offset at which a loader may stand.
fn write_nothing<S: Page>(offset: usize, settled: bool, page: &mut S) -> Result<(), Failed>
    ensures { Writes (S.told page.old) (S.told page.new) result (nothing_line offset settled) }
{
    write_all(page, nothing_words().as_bytes())?;
    write_decimal(offset as u64, page)?;
    write_whatever(settled, page)?;
    write_all(page, b"\n")
}

/// Words of a line.
#[tactic(auto, unfolding(crate::specs::ReachText::reached_words))]
fn reached_words() -> &'static str
    ensures { result.now ≡ reached_words }
{
    "reached at "
}

/// Writes where the opcode is by which something is reached, and this opcode.
fn write_reached<S: Page>(offset: usize, op: &Op, page: &mut S) -> Result<(), Failed>
    ensures { Writes (S.told page.old) (S.told page.new) result (reached_line offset op.now) }
{
    write_all(page, reached_words().as_bytes())?;
    write_decimal(offset as u64, page)?;
    write_all(page, b": ")?;
    write_op(op, page)?;
    write_all(page, b"\n")
}

/// The line of too many ways.
#[tactic(auto, unfolding(crate::specs::ReachText::ways_line))]
fn ways_line() -> &'static str
    ensures { result.now ≡ ways_line }
{
    "too many ways to read the bytes\n"
}

/// Writes what is answered, and answers the status.
fn write_answer<S: Page>(
    alloc: Global,
    granted: Granted,
    bytes: &[u8],
    found: Reach,
    page: &mut S,
) -> Result<u8, TextStop>
    requires few { length bytes.now ≤ size_limit }
    requires found { IsReach granted bytes.now found }
    ensures ok { IfOk result (WroteText (IsReachText granted bytes.now) (S.told page.old) (S.told page.new)) }
    ensures err { IfErr result (CutsReach granted bytes.now (S.told page.old) (S.told page.new)) }
{
    match found {
        Reach::Nothing(offset, settled) => {
            write_nothing(offset, settled, page)?;
            Ok(0)
        }
        Reach::At(spot, frames) => {
            let op = op_reached(alloc, granted, bytes, spot, frames)?;
            write_reached(spot.offset, &op, page)?;
            Ok(1)
        }
        Reach::TooMany => {
            write_all(page, ways_line().as_bytes())?;
            Ok(1)
        }
    }
}

/// Writes whether a loader of the bytes reaches something that was given this besides, and by which opcode first. Answers the status: 1 where
/// one does or there are too many ways to read the bytes, else 0. There are to be no more bytes than the limit.
///
/// `Memory` (M) where memory runs out: nothing was written. `Failed` where the sink fails: what was written then is a beginning of the text.
pub(crate) fn write_reach<S: Page>(
    alloc: Global,
    granted: Granted,
    bytes: &[u8],
    page: &mut S,
) -> Result<u8, TextStop>
    requires { length bytes.now ≤ size_limit }
    ensures ok { IfOk result (WroteText (IsReachText granted bytes.now) (S.told page.old) (S.told page.new)) }
    ensures err { IfErr result (CutsReach granted bytes.now (S.told page.old) (S.told page.new)) }
{
    let found = first_reach(alloc, granted, bytes)?;
    write_answer(alloc, granted, bytes, found, page)
}
