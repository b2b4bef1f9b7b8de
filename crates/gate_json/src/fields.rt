//! Fields of what is said of a file. `Failed` where the sink fails; a beginning of the text was written then.

ghost use Rattle.pickle_io.specs.Device.{Writes};
ghost use Rattle.json_lines.specs.Line.{fields_text};
ghost use Rattle.gate_json.specs.VerdictFields.{offset_fields, words_fields, placed_fields, broken_fields, member_fields, packing_fields, behind_fields};

use json_lines::{write_bool_field, write_bytes_field, write_number_field, write_text_field};
use pickle_io::{Failed, Page};
use pickle_json::write_how;

/// Writes an offset.
#[tactic(auto, unfolding(crate::specs::VerdictFields::offset_fields))]
pub(crate) fn write_offset<P: Page>(offset: u64, page: &mut P) -> Result<(), Failed>
    ensures { Writes (P.told page.old) (P.told page.new) result (fields_text (offset_fields offset)) }
{
    write_number_field("offset", offset, page)
}

/// Writes a sentence.
#[tactic(auto, unfolding(crate::specs::VerdictFields::words_fields))]
fn write_words<P: Page>(words: &str, page: &mut P) -> Result<(), Failed>
    ensures { Writes (P.told page.old) (P.told page.new) result (fields_text (words_fields words.now)) }
{
    write_text_field("words", words, page)
}

/// Writes what is wrong, and where.
pub(crate) fn write_placed<P: Page>(
    how: &str,
    offset: u64,
    words: &str,
    page: &mut P,
) -> Result<(), Failed>
    ensures { Writes (P.told page.old) (P.told page.new) result (fields_text (placed_fields how.now offset words.now)) }
{
    write_how(how, page)?;
    write_offset(offset, page)?;
    write_words(words, page)
}

/// Writes what is wrong with a member that does not open.
pub(crate) fn write_broken_words<P: Page>(words: &str, page: &mut P) -> Result<(), Failed>
    ensures { Writes (P.told page.old) (P.told page.new) result (fields_text (broken_fields words.now)) }
{
    write_how("broken", page)?;
    write_words(words, page)
}

/// Writes the name of a member.
#[tactic(auto, unfolding(crate::specs::VerdictFields::member_fields))]
pub(crate) fn write_member<P: Page>(name: &[u8], page: &mut P) -> Result<(), Failed>
    ensures { Writes (P.told page.old) (P.told page.new) result (fields_text (member_fields name.now)) }
{
    write_bytes_field("member", "member_hex", name, page)
}

/// Writes the address of a tar archive in a packed file.
#[tactic(auto, unfolding(crate::specs::VerdictFields::packing_fields))]
pub(crate) fn write_packing<P: Page>(name: &[u8], page: &mut P) -> Result<(), Failed>
    ensures { Writes (P.told page.old) (P.told page.new) result (fields_text (packing_fields name.now)) }
{
    write_bytes_field("archive", "archive_hex", name, page)
}

/// Writes that the pickle behind the header of an array is meant.
#[tactic(auto, unfolding(crate::specs::VerdictFields::behind_fields))]
pub(crate) fn write_behind<P: Page>(page: &mut P) -> Result<(), Failed>
    ensures { Writes (P.told page.old) (P.told page.new) result (fields_text behind_fields) }
{
    write_bool_field("behind_header", true, page)
}
