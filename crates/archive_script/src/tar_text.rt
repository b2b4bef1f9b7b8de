//! The text of a tar archive that does not pass, and of its members.

ghost use Rattle.std.specs.Prelude.{◌≡◌, ◌-◌};
ghost use Rattle.pickle_io.specs.Device.{Writes, each};
ghost use Rattle.tar_archive.specs.Field.{text};
ghost use Rattle.archive_script.specs.SingleText.{Says};
ghost use Rattle.archive_script.specs.TarText.{tar_sentence, tar_line, unclear_words, two_kinds_words, tar_member_line, IsTarMembers};

use crate::fault::refusal_words;
use pickle_io::{Failed, Page, write_all, write_decimal, write_quoted};
use pickle_script::Stop;
use std::alloc::Global;
use tar_archive::{Member, Reason, Refusal, part_of, read_tar};

/// What is wrong with a tar archive.
#[tactic(auto, unfolding(crate::specs::TarText::tar_sentence))]
pub fn tar_sentence(why: Reason) -> &'static str
    ensures { result.now ≡ tar_sentence why }
{
    match why {
        Reason::Cut => "a header or a content that is cut",
        Reason::Checksum => "a header with another checksum than it tells",
        Reason::Magic => "a header of another kind of archive",
        Reason::Number => "a number in a header that is not in octal digits",
        Reason::Link => "a header that names a link",
        Reason::Device => "a header that names a device",
        Reason::Prefix => "a header whose last part is not empty",
        Reason::Kind => "a member that is neither a file nor a directory",
        Reason::Record => "a record that writers of pax headers do not write",
        Reason::Key => "a record that may tell more than a name, times and owners",
        Reason::Name => "a name that is not plain",
        Reason::Directory => "a directory with content or with the name of a file",
        Reason::Padding => "a content whose last block is not filled with zeros",
        Reason::End => "an end that is not filled with zeros as writers fill it",
    }
}

/// Writes the first rule that a tar archive breaks, and where.
pub(crate) fn write_tar_line<S: Page>(refusal: Refusal, page: &mut S) -> Result<(), Failed>
    ensures { Writes (S.told page.old) (S.told page.new) result (tar_line refusal) }
{
    write_all(page, refusal_words().as_bytes())?;
    write_decimal(refusal.offset as u64, page)?;
    write_all(page, b": ")?;
    write_all(page, tar_sentence(refusal.why).as_bytes())?;
    write_all(page, b"\n")
}

/// Words of a line.
#[tactic(auto, unfolding(crate::specs::TarText::unclear_words))]
pub(crate) fn unclear_words() -> &'static str
    ensures { result.now ≡ unclear_words }
{
    "two names for one file, or a name with an empty part, . or ..: it is not looked at\n"
}

/// Words of a line.
#[tactic(auto, unfolding(crate::specs::TarText::two_kinds_words))]
pub(crate) fn two_kinds_words() -> &'static str
    ensures { result.now ≡ two_kinds_words }
{
    "a loader may take the archive itself for something else: it is not looked at\n"
}

/// Writes the line of a member.
#[tactic(auto, using(pickle_io::proofs::Devices::text_steps), unfolding(crate::specs::TarText::tar_member_line))]
fn write_member<S: Page>(bytes: &[u8], member: &Member, page: &mut S) -> Result<(), Failed>
    ensures { Writes (S.told page.old) (S.told page.new) result (tar_member_line bytes.now member.now) }
{
    let content = member.content;
    write_decimal(content.start as u64, page)?;
    write_all(page, b": ")?;
    write_decimal(content.end.saturating_sub(content.start) as u64, page)?;
    write_all(page, b" stored ")?;
    write_quoted(part_of(bytes, member.name), page)?;
    write_all(page, b"\n")
}

/// Writes a line for each member.
#[tactic(auto, using(pickle_io::proofs::Devices::each_steps))]
fn write_lines<S: Page>(bytes: &[u8], members: &[Member], page: &mut S) -> Result<(), Failed>
    ensures { Writes (S.told page.old) (S.told page.new) result (each (tar_member_line bytes.now) members.now) }
{
    for member in members {
        write_member(bytes, member, page)?;
    }
    Ok(())
}

/// Writes the members of the tar archive in writers' form that the bytes are, a line for each, or the first rule that they break. Answers the status:
/// 0 where they are one, else 1.
pub(crate) fn write_tar<S: Page>(alloc: Global, bytes: &[u8], page: &mut S) -> Result<u8, Stop>
    ensures { Says (IsTarMembers bytes.now) (S.told page.old) (S.told page.new) result }
{
    match read_tar(alloc, bytes)? {
        Ok(members) => {
            write_lines(bytes, members.as_slice(), page)?;
            Ok(0)
        }
        Err(refusal) => {
            write_tar_line(refusal, page)?;
            Ok(1)
        }
    }
}
