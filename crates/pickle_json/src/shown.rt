//! The line that is printed for people, as a field. `Failed` where the sink fails; a beginning of the field was written then.

ghost use Rattle.pickle_io.specs.Device.{Writes};
ghost use Rattle.json_lines.specs.Line.{fields_text};
ghost use Rattle.line_buffer.specs.Line.{line_text, held_by};
ghost use Rattle.pickle_json.specs.ShownFields.{shown_field, shown_fields};

use json_lines::write_bytes_field;
use line_buffer::LineBuffer;
use pickle_io::{Failed, Page};

/// Writes a line.
#[tactic(auto, unfolding(crate::specs::ShownFields::shown_field))]
fn write_text<P: Page>(text: &[u8], page: &mut P) -> Result<(), Failed>
    ensures { Writes (P.told page.old) (P.told page.new) result (fields_text (shown_field text.now)) }
{
    write_bytes_field("text", "text_hex", text, page)
}

/// Writes what a buffer holds, where that is not too long.
#[tactic(auto, using(json_lines::proofs::Lines::fields_steps))]
pub fn write_shown<P: Page>(line: &LineBuffer, page: &mut P) -> Result<(), Failed>
    ensures { Writes (P.told page.old) (P.told page.new) result (fields_text (shown_fields (line_text (held_by line.now)))) }
{
    match line.text() {
        Some(text) => write_text(text, page),
        None => Ok(()),
    }
}
