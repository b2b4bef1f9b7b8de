//! Blanks.

ghost use Rattle.std.specs.Prelude.{◌≡◌, ◌≤◌, ◌+◌, OnOk};
ghost use Rattle.pickle_io.specs.Device.{Wrote, Writes};
ghost use Rattle.pickle_text.specs.Column.{blanks};

use pickle_io::{Failed, Page};

/// Puts a few blanks.
#[inline(always)]
pub fn push_blanks<P: Page>(count: usize, page: &mut P)
    requires room { 16 ≤ P.room page.old }
    requires within { count ≤ 16 }
    ensures text { Wrote (P.told page.old) (P.told page.new) (blanks count) }
    ensures room { P.room page.new + count ≡ P.room page.old }
{
    page.push_front(&[b' '; 16], count);
}

/// Puts blanks, at most as many as have room behind the head of a line.
#[inline(always)]
fn push_block<P: Page>(count: usize, page: &mut P)
    requires room { 208 ≤ P.room page.old }
    requires within { count ≤ 208 }
    ensures { Wrote (P.told page.old) (P.told page.new) (blanks count) }
{
    page.push_front(&[b' '; 208], count);
}

/// Writes many blanks.
fn write_many_blanks<P: Page>(count: usize, page: &mut P) -> Result<(), Failed>
    requires { 208 ≤ P.room page.old }
    ensures text { Writes (P.told page.old) (P.told page.new) result (blanks count) }
    ensures room { OnOk result (208 ≤ P.room page.new) }
{
    let mut left = count;
    while left > 0 {
        let n = left.min(208);
        push_block(n, page);
        page.make_room()?;
        left -= n;
    }
    Ok(())
}

/// Writes this many blanks, most often none. `Failed` comes from the sink.
#[tactic(auto, using(crate::proofs::Spaces::no_blanks))]
#[inline(always)]
pub fn write_blanks<P: Page>(count: usize, page: &mut P) -> Result<(), Failed>
    requires { 224 ≤ P.room page.old }
    ensures text { Writes (P.told page.old) (P.told page.new) result (blanks count) }
    ensures room { OnOk result (208 ≤ P.room page.new) }
{
    if count == 0 {
        Ok(())
    } else if count <= 16 {
        push_blanks(count, page);
        Ok(())
    } else {
        write_many_blanks(count, page)
    }
}
