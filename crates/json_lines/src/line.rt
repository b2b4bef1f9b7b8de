//! Where a line begins and ends.

ghost use Rattle.std.specs.Prelude.{◌≤◌, codes, OnOk};
ghost use Rattle.pickle_io.specs.Device.{Writes};
ghost use Rattle.json_lines.specs.Line.{begun};

use crate::string::write_string;
use pickle_io::{Failed, Page};

/// Begins a line of this kind. `Failed` where the sink fails; a beginning of the text was written then.
#[tactic(auto, using(pickle_io::proofs::Devices::page_steps), unfolding(crate::specs::Line::begun))]
pub fn begin_line<P: Page>(kind: &str, page: &mut P) -> Result<(), Failed>
    ensures { Writes (P.told page.old) (P.told page.new) result (begun kind.now) }
{
    page.make_room()?;
    page.push_text(b"{\"kind\":");
    write_string(kind, page)
}

/// Ends a line. `Failed` where the sink fails; a beginning of the text was written then.
#[tactic(auto, using(pickle_io::proofs::Devices::page_steps))]
pub fn end_line<P: Page>(page: &mut P) -> Result<(), Failed>
    ensures { Writes (P.told page.old) (P.told page.new) result (codes "}\n") }
{
    page.make_room()?;
    page.push_text(b"}\n");
    Ok(())
}
