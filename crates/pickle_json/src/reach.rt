//! The line of whether a loader of some bytes reaches something. `Failed` where the sink fails; a beginning of the line was written then.

ghost use Rattle.std.specs.Prelude.{◌≡◌};
ghost use Rattle.pickle_io.specs.Device.{Writes};
ghost use Rattle.json_lines.specs.Line.{fields_text};
ghost use Rattle.pickle_json.specs.ItemFields.{head_fields};
ghost use Rattle.pickle_json.specs.ReachFields.{reach_name, frames_name, loader_fields, by_fields, reached_fields, reached_line, follows_fields, nothing_fields, nothing_line, ways_fields, ways_line};

use crate::ends::write_how;
use crate::item::write_arg_fields;
use json_lines::{begin_line, end_line, write_bool_field, write_number_field, write_text_field};
use pickle_io::{Failed, Page};
use pickle_lenient::Frames;
use pickle_ops::{OpRef, Opcode};
use pickle_reach::Spot;

/// What is reached by an opcode that reaches something.
#[tactic(auto, unfolding(crate::specs::ReachFields::reach_name))]
fn reach_name(opcode: Opcode) -> &'static str
    ensures { result.now ≡ reach_name opcode }
{
    match opcode {
        Opcode::Ext1 => "extension",
        Opcode::Ext2 => "extension",
        Opcode::Ext4 => "extension",
        Opcode::PersId => "persistent",
        Opcode::BinPersId => "persistent",
        Opcode::NextBuffer => "buffer",
        _ => "import",
    }
}

/// What a loader does with frames.
#[tactic(auto, unfolding(crate::specs::ReachFields::frames_name))]
fn frames_name(frames: Frames) -> &'static str
    ensures { result.now ≡ frames_name frames }
{
    match frames {
        Frames::Ignored => "ignored",
        Frames::Buffered => "buffered",
        Frames::Held => "held",
    }
}

/// Writes what is reached, and by which loader.
fn write_loader<P: Page>(
    spot: Spot,
    frames: Frames,
    opcode: Opcode,
    page: &mut P,
) -> Result<(), Failed>
    ensures { Writes (P.told page.old) (P.told page.new) result (fields_text (loader_fields spot frames opcode)) }
{
    write_text_field("reach", reach_name(opcode), page)?;
    write_text_field("frames", frames_name(frames), page)?;
    write_number_field("in_buffer", spot.left, page)
}

/// Writes where an opcode is, and its name.
fn write_head<P: Page>(op: &OpRef<'_>, offset: u64, page: &mut P) -> Result<(), Failed>
    ensures { Writes (P.told page.old) (P.told page.new) result (fields_text (head_fields op.now offset)) }
{
    write_number_field("offset", offset, page)?;
    write_text_field("opcode", op.opcode().name(), page)
}

/// Writes by which opcode something is reached.
fn write_by<P: Page>(op: &OpRef<'_>, offset: u64, page: &mut P) -> Result<(), Failed>
    ensures { Writes (P.told page.old) (P.told page.new) result (fields_text (by_fields offset op.now)) }
{
    write_how("reached", page)?;
    write_head(op, offset, page)?;
    write_arg_fields(op, page)
}

/// Writes the fields of what is reached.
fn write_reached_fields<P: Page>(
    spot: Spot,
    frames: Frames,
    op: &OpRef<'_>,
    page: &mut P,
) -> Result<(), Failed>
    ensures { Writes (P.told page.old) (P.told page.new) result (fields_text (reached_fields spot frames op.now)) }
{
    write_by(op, spot.offset as u64, page)?;
    write_loader(spot, frames, op.opcode(), page)
}

/// Writes by which opcode a loader reaches something that stands here and does this with frames.
pub fn write_reached<P: Page>(
    spot: Spot,
    frames: Frames,
    op: &OpRef<'_>,
    page: &mut P,
) -> Result<(), Failed>
    ensures { Writes (P.told page.old) (P.told page.new) result (reached_line spot frames op.now) }
{
    begin_line("end", page)?;
    write_reached_fields(spot, frames, op, page)?;
    end_line(page)
}

/// Writes whether nothing is reached whatever bytes follow.
#[tactic(auto, unfolding(crate::specs::ReachFields::follows_fields))]
fn write_follows<P: Page>(settled: bool, page: &mut P) -> Result<(), Failed>
    ensures { Writes (P.told page.old) (P.told page.new) result (fields_text (follows_fields settled)) }
{
    write_bool_field("whatever_follows", settled, page)
}

/// Writes the fields of that nothing is.
fn write_nothing_fields<P: Page>(offset: usize, settled: bool, page: &mut P) -> Result<(), Failed>
    ensures { Writes (P.told page.old) (P.told page.new) result (fields_text (nothing_fields offset settled)) }
{
    write_how("nothing", page)?;
    write_number_field("offset", offset as u64, page)?;
    write_follows(settled, page)
}

/// Writes that nothing is reached, the greatest offset at which a loader may stand, and whether this is so whatever bytes follow.
pub fn write_nothing_reached<P: Page>(
    offset: usize,
    settled: bool,
    page: &mut P,
) -> Result<(), Failed>
    ensures { Writes (P.told page.old) (P.told page.new) result (nothing_line offset settled) }
{
    begin_line("end", page)?;
    write_nothing_fields(offset, settled, page)?;
    end_line(page)
}

/// Writes the fields of that there are too many ways.
fn write_ways_fields<P: Page>(page: &mut P) -> Result<(), Failed>
    ensures { Writes (P.told page.old) (P.told page.new) result (fields_text ways_fields) }
{
    write_how("too_many_ways", page)
}

/// Writes that there are too many ways to read the bytes.
pub fn write_too_many_ways<P: Page>(page: &mut P) -> Result<(), Failed>
    ensures { Writes (P.told page.old) (P.told page.new) result ways_line }
{
    begin_line("end", page)?;
    write_ways_fields(page)?;
    end_line(page)
}
