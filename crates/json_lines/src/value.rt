//! Values.

ghost use Rattle.std.specs.Prelude.{◌≤◌, ◌+◌, decimal};
ghost use Rattle.json.specs.Json.{boolean, string};
ghost use Rattle.pickle_io.specs.Device.{Wrote, Writes};
ghost use Rattle.json_lines.specs.Json.{value_text};
ghost use Rattle.json_lines.specs.Line.{whole, integer};

use crate::string::write_string;
use itoa::Buffer;
use pickle_io::{Failed, Page, push_decimal, push_signed};

/// 2^53. Whole numbers below it are numbers of JSON that each reader takes exactly.
const EXACT: u64 = 9_007_199_254_740_992;

/// Puts a number as a text of its digits.
#[tactic(auto, using(crate::proofs::Fields::digits_steps))]
#[inline(never)]
pub fn push_digits<P: Page>(number: u64, page: &mut P)
    requires { 22 ≤ P.room page.old }
    ensures text { Wrote (P.told page.old) (P.told page.new) (value_text (string (decimal number))) }
    ensures room { P.room page.old ≤ P.room page.new + 22 }
{
    page.push(b'"');
    push_decimal(number, page);
    page.push(b'"');
}

/// Puts a whole number, as text where it is 2^53 or more.
#[tactic(auto, unfolding(crate::specs::Line::whole))]
#[inline(always)]
pub fn push_whole<P: Page>(number: u64, page: &mut P)
    requires { 22 ≤ P.room page.old }
    ensures text { Wrote (P.told page.old) (P.told page.new) (value_text (whole number)) }
    ensures room { P.room page.old ≤ P.room page.new + 22 }
{
    if number < EXACT {
        push_decimal(number, page);
    } else {
        push_digits(number, page);
    }
}

/// Writes a whole number. There is room for it.
#[inline(always)]
pub(crate) fn write_whole<P: Page>(number: u64, page: &mut P) -> Result<(), Failed>
    requires { 22 ≤ P.room page.old }
    ensures { Writes (P.told page.old) (P.told page.new) result (value_text (whole number)) }
{
    push_whole(number, page);
    Ok(())
}

/// Writes a whole number, with a minus where it is below 0. There is room for it.
#[tactic(auto, unfolding(crate::specs::Line::integer))]
pub(crate) fn write_integer<P: Page>(number: i128, page: &mut P) -> Result<(), Failed>
    requires { 40 ≤ P.room page.old }
    ensures { Writes (P.told page.old) (P.told page.new) result (value_text (integer number)) }
{
    if number.unsigned_abs() < u128::from(EXACT) {
        push_signed(number, page);
        Ok(())
    } else {
        write_string(Buffer::new().format(number), page)
    }
}

/// Puts a truth value.
#[inline(always)]
pub(crate) fn push_bool<P: Page>(value: bool, page: &mut P)
    requires { 5 ≤ P.room page.old }
    ensures { Wrote (P.told page.old) (P.told page.new) (value_text (boolean value)) }
{
    if value {
        page.push_text(b"true");
    } else {
        page.push_text(b"false");
    }
}
