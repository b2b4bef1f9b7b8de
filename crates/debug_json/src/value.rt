//! Objects and arrays as values. `Failed` where the sink fails; a beginning of the text was written then.

ghost use Rattle.pickle_io.specs.Device.{Writes};
ghost use Rattle.json_lines.specs.Json.{value_text};
ghost use Rattle.json_lines.specs.Line.{whole};
ghost use Rattle.debug_json.specs.Array.{lead};

use json_lines::push_whole;
use pickle_io::{Failed, Page, write_all};

/// Writes a comma before each value but the first.
#[tactic(auto, using(crate::proofs::Arrays::lead_steps))]
pub(crate) fn write_lead<P: Page>(i: usize, page: &mut P) -> Result<(), Failed>
    ensures { Writes (P.told page.old) (P.told page.new) result (lead i) }
{
    if i == 0 {
        Ok(())
    } else {
        write_all(page, b",")
    }
}

/// Writes a whole number.
#[tactic(auto, using(pickle_io::proofs::Devices::page_steps))]
pub(crate) fn write_number<P: Page>(number: u64, page: &mut P) -> Result<(), Failed>
    ensures { Writes (P.told page.old) (P.told page.new) result (value_text (whole number)) }
{
    page.make_room()?;
    push_whole(number, page);
    Ok(())
}
