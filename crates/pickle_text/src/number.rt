//! Numbers in columns.

ghost use Rattle.std.specs.Prelude.{◌≤◌, ◌+◌, decimal};
ghost use Rattle.pickle_io.specs.Device.{Wrote, Writes};
ghost use Rattle.pickle_text.specs.Column.{right_aligned};

use crate::blanks::push_blanks;
use itoa::write_digits;
use pickle_io::{Failed, Page};

/// Puts a number at the right of a column of five places; a longer one is not cut.
#[tactic(auto, using(pickle_io::proofs::Numbers::number_steps))]
#[inline(always)]
pub fn push_right<P: Page>(number: u64, page: &mut P)
    requires { 36 ≤ P.room page.old }
    ensures text { Wrote (P.told page.old) (P.told page.new) (right_aligned 5 (decimal number)) }
    ensures room { P.room page.old ≤ P.room page.new + 25 }
{
    let mut piece = [b' '; 40];
    let start = write_digits(number, &mut piece, 20);
    push_blanks(start.saturating_sub(15), page);
    page.push_front(&piece[start..start + 20], 20 - start);
}

/// Writes a number at the right of a column of five places; a longer one is not cut. Where the sink fails, a beginning of the text was
/// written.
#[tactic(auto, using(pickle_io::proofs::Devices::page_steps))]
pub fn write_right<P: Page>(number: u64, page: &mut P) -> Result<(), Failed>
    ensures { Writes (P.told page.old) (P.told page.new) result (right_aligned 5 (decimal number)) }
{
    page.make_room()?;
    push_right(number, page);
    Ok(())
}
