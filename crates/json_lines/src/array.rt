//! Arrays of whole numbers. `Failed` where the sink fails; a beginning of the text was written then.

ghost use Rattle.std.specs.Prelude.{◌≡◌, ◌∷◌, []};
ghost use Rattle.pickle_io.specs.Device.{Writes, each};
ghost use Rattle.json_lines.specs.Json.{value_text};
ghost use Rattle.json_lines.specs.Line.{field, fields_text, numbers_json, numbers_text, next_number};

use crate::field::write_name;
use crate::value::write_whole;
use pickle_io::{Failed, Page, write_all};

/// Writes a number after another.
#[tactic(auto, using(pickle_io::proofs::Devices::page_steps), unfolding(crate::specs::Line::next_number))]
fn write_next_number<P: Page>(number: u32, page: &mut P) -> Result<(), Failed>
    ensures { Writes (P.told page.old) (P.told page.new) result (next_number number) }
{
    page.make_room()?;
    page.push(b',');
    write_whole(u64::from(number), page)
}

/// Writes numbers after another.
fn write_more_numbers<P: Page>(numbers: &[u32], page: &mut P) -> Result<(), Failed>
    ensures { Writes (P.told page.old) (P.told page.new) result (each next_number numbers.now) }
{
    for number in numbers {
        write_next_number(*number, page)?;
    }
    Ok(())
}

/// Writes a number, and numbers after it.
#[tactic(auto, using(crate::proofs::Lines::array_steps))]
fn write_some_numbers<P: Page>(first: u32, rest: &[u32], page: &mut P) -> Result<(), Failed>
    ensures { Writes (P.told page.old) (P.told page.new) result (numbers_text (first ∷ rest.now)) }
{
    page.make_room()?;
    write_whole(u64::from(first), page)?;
    write_more_numbers(rest, page)
}

/// Writes the numbers of an array.
#[tactic(auto, using(crate::proofs::Lines::no_numbers))]
fn write_numbers<P: Page>(numbers: &[u32], page: &mut P) -> Result<(), Failed>
    ensures { Writes (P.told page.old) (P.told page.new) result (numbers_text numbers.now) }
{
    match numbers.split_first() {
        None => Ok(()),
        Some((first, rest)) => write_some_numbers(*first, rest, page),
    }
}

/// Writes an array of whole numbers.
#[tactic(auto, using(crate::proofs::Lines::array_steps))]
fn write_array<P: Page>(numbers: &[u32], page: &mut P) -> Result<(), Failed>
    ensures { Writes (P.told page.old) (P.told page.new) result (value_text (numbers_json numbers.now)) }
{
    page.make_room()?;
    page.push(b'[');
    write_numbers(numbers, page)?;
    write_all(page, b"]")
}

/// Writes a field that is an array of whole numbers.
pub fn write_numbers_field<P: Page>(name: &str, numbers: &[u32], page: &mut P) -> Result<(), Failed>
    ensures { Writes (P.told page.old) (P.told page.new) result (fields_text (field name.now (numbers_json numbers.now))) }
{
    write_name(name, page)?;
    write_array(numbers, page)
}
