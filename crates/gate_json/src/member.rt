//! The line of a member, and the line behind all members or in their place. `Failed` where the sink fails; a beginning of the text was written then.

ghost use Rattle.std.specs.Prelude.{◌-◌, ◌<◌, ◌^◌};
ghost use Rattle.pickle_io.specs.Device.{Writes};
ghost use Rattle.json_lines.specs.Line.{fields_text};
ghost use Rattle.zip_archive.specs.Entry.{data_place};
ghost use Rattle.gate_json.specs.MembersFields.{name_fields, size_fields, content_fields, method_fields, packed_fields, deflated_fields, whole_line, entry_method, entry_fields, entry_line, no_archive_line, opened_fields, opened_line, no_packed_line, tarred_fields, tarred_line, no_tar_line};

use crate::fields::write_offset;
use crate::judged::{write_no_archive, write_no_packed, write_no_tar};
use archive_script::packing_word;
use json_lines::{begin_line, end_line, write_bytes_field, write_number_field, write_text_field};
use packed_stream::Packing;
use pickle_io::{Failed, Page};
use pickle_json::write_how;
use tar_archive::{Member, part_of};
use zip_archive::EntryRef;

/// The number of the method that packs by deflate.
const DEFLATE: u16 = 8;

/// Writes the name of a member.
#[tactic(auto, unfolding(crate::specs::MembersFields::name_fields))]
fn write_name<P: Page>(name: &[u8], page: &mut P) -> Result<(), Failed>
    ensures { Writes (P.told page.old) (P.told page.new) result (fields_text (name_fields name.now)) }
{
    write_bytes_field("name", "name_hex", name, page)
}

/// Writes how many bytes its data are once unpacked.
#[tactic(auto, unfolding(crate::specs::MembersFields::size_fields))]
fn write_size<P: Page>(size: u64, page: &mut P) -> Result<(), Failed>
    ensures { Writes (P.told page.old) (P.told page.new) result (fields_text (size_fields size)) }
{
    write_number_field("size", size, page)
}

/// Writes the name of a member, where its data begin, and how many bytes they are once unpacked.
fn write_content<P: Page>(name: &[u8], offset: u64, size: u64, page: &mut P) -> Result<(), Failed>
    ensures { Writes (P.told page.old) (P.told page.new) result (fields_text (content_fields name.now offset size)) }
{
    write_name(name, page)?;
    write_offset(offset, page)?;
    write_size(size, page)
}

/// Writes how it is packed.
#[tactic(auto, unfolding(crate::specs::MembersFields::method_fields))]
fn write_method<P: Page>(method: &str, page: &mut P) -> Result<(), Failed>
    ensures { Writes (P.told page.old) (P.told page.new) result (fields_text (method_fields method.now)) }
{
    write_text_field("method", method, page)
}

/// Writes how many bytes its data are as they are packed.
#[tactic(auto, unfolding(crate::specs::MembersFields::packed_fields))]
fn write_packed<P: Page>(packed: usize, page: &mut P) -> Result<(), Failed>
    ensures { Writes (P.told page.old) (P.told page.new) result (fields_text (packed_fields packed)) }
{
    write_number_field("packed", packed as u64, page)
}

/// Writes that it is packed by deflate, to so many bytes.
fn write_deflated<P: Page>(packed: usize, page: &mut P) -> Result<(), Failed>
    ensures { Writes (P.told page.old) (P.told page.new) result (fields_text (deflated_fields packed)) }
{
    write_method("deflated", page)?;
    write_packed(packed, page)
}

/// Writes how a member of a zip archive is packed.
fn write_entry_method<P: Page>(entry: &EntryRef<'_>, page: &mut P) -> Result<(), Failed>
    ensures { Writes (P.told page.old) (P.told page.new) result (fields_text (entry_method entry.now)) }
{
    if entry.method() == DEFLATE {
        write_deflated(entry.content().len(), page)
    } else {
        write_method("stored", page)
    }
}

/// Writes what is said of a member of a zip archive.
fn write_entry<P: Page>(entry: &EntryRef<'_>, page: &mut P) -> Result<(), Failed>
    requires { data_place entry.now < 2 ^ 64 }
    ensures { Writes (P.told page.old) (P.told page.new) result (fields_text (entry_fields entry.now)) }
{
    write_content(entry.name(), entry.data_offset(), entry.size(), page)?;
    write_entry_method(entry, page)
}

/// Writes the line of it.
pub(crate) fn write_entry_line<P: Page>(entry: &EntryRef<'_>, page: &mut P) -> Result<(), Failed>
    requires { data_place entry.now < 2 ^ 64 }
    ensures { Writes (P.told page.old) (P.told page.new) result (entry_line entry.now) }
{
    begin_line("member", page)?;
    write_entry(entry, page)?;
    end_line(page)
}

/// Writes what is said of what a packed file opens to.
fn write_opened<P: Page>(
    packing: Packing,
    start: usize,
    size: usize,
    packed: usize,
    page: &mut P,
) -> Result<(), Failed>
    ensures { Writes (P.told page.old) (P.told page.new) result (fields_text (opened_fields packing start size packed)) }
{
    write_content(packing_word(packing), start as u64, size as u64, page)?;
    write_deflated(packed, page)
}

/// Writes the line of it.
pub(crate) fn write_opened_line<P: Page>(
    packing: Packing,
    start: usize,
    size: usize,
    packed: usize,
    page: &mut P,
) -> Result<(), Failed>
    ensures { Writes (P.told page.old) (P.told page.new) result (opened_line packing start size packed) }
{
    begin_line("member", page)?;
    write_opened(packing, start, size, packed, page)?;
    end_line(page)
}

/// Writes what is said of a member of a tar archive.
fn write_tarred<P: Page>(bytes: &[u8], member: &Member, page: &mut P) -> Result<(), Failed>
    ensures { Writes (P.told page.old) (P.told page.new) result (fields_text (tarred_fields bytes.now member.now)) }
{
    let content = member.content;
    let size = content.end.saturating_sub(content.start);
    let name = part_of(bytes, member.name);
    write_content(name, content.start as u64, size as u64, page)?;
    write_method("stored", page)
}

/// Writes the line of it.
pub(crate) fn write_tarred_line<P: Page>(
    bytes: &[u8],
    member: &Member,
    page: &mut P,
) -> Result<(), Failed>
    ensures { Writes (P.told page.old) (P.told page.new) result (tarred_line bytes.now member.now) }
{
    begin_line("member", page)?;
    write_tarred(bytes, member, page)?;
    end_line(page)
}

/// Writes the line behind all members.
pub(crate) fn write_whole<P: Page>(page: &mut P) -> Result<(), Failed>
    ensures { Writes (P.told page.old) (P.told page.new) result whole_line }
{
    begin_line("end", page)?;
    write_how("whole", page)?;
    end_line(page)
}

/// Writes the line of the first rule that a zip archive breaks.
pub(crate) fn write_no_archive_line<P: Page>(
    refusal: zip_archive::Refusal,
    page: &mut P,
) -> Result<(), Failed>
    ensures { Writes (P.told page.old) (P.told page.new) result (no_archive_line refusal) }
{
    begin_line("end", page)?;
    write_no_archive(refusal, page)?;
    end_line(page)
}

/// Writes the line of why a packed file does not open.
pub(crate) fn write_no_packed_line<P: Page>(
    refusal: packed_stream::Refusal,
    page: &mut P,
) -> Result<(), Failed>
    ensures { Writes (P.told page.old) (P.told page.new) result (no_packed_line refusal) }
{
    begin_line("end", page)?;
    write_no_packed(refusal, page)?;
    end_line(page)
}

/// Writes the line of the first rule that a tar archive breaks.
pub(crate) fn write_no_tar_line<P: Page>(
    refusal: tar_archive::Refusal,
    page: &mut P,
) -> Result<(), Failed>
    ensures { Writes (P.told page.old) (P.told page.new) result (no_tar_line refusal) }
{
    begin_line("end", page)?;
    write_no_tar(refusal, page)?;
    end_line(page)
}
