//! The members of the archive in a file, over any devices and files.

ghost use Rattle.std.specs.Prelude.{◌≡◌, ◌≢◌, Err};
ghost use Rattle.archive_script.specs.SingleText.{Says};
ghost use Rattle.program_answers.specs.Device.{device_of};
ghost use Rattle.program_answers.specs.Files.{reports};
ghost use Rattle.program_answers.specs.Listed.{IsMembersAnswer, TookMembers, ListsFile};

use crate::files::{Files, read_file};
use crate::output::write_out;
use crate::task::{Format, GivenFile};
use archive_script::write_members;
use gate_json::write_members_lines;
use pickle_io::{Buffered, Page, Sink};
use pickle_script::Stop;
use std::alloc::Global;

/// Writes the members of the archive that the bytes are, as a text or as lines, and answers the status.
fn write_answer<S: Page>(
    alloc: Global,
    format: Format,
    bytes: &[u8],
    page: &mut S,
) -> Result<u8, Stop>
    ensures { Says (IsMembersAnswer format bytes.now) (S.told page.old) (S.told page.new) result }
{
    match format {
        Format::Text => write_members(alloc, bytes, page),
        Format::Json => write_members_lines(alloc, bytes, page),
    }
}

/// Writes the members of the archive that the bytes are, hands all of it on, and answers the status.
fn answer_members<K: Sink + Drop>(
    alloc: Global,
    format: Format,
    bytes: &[u8],
    page: &mut Buffered<K>,
) -> Result<u8, Stop>
    requires { (⟦<Buffered<K> as Sink>⟧.told page.old).held ≡ 0 }
    ensures took { TookMembers format bytes.now (K.told (device_of page.old)) (K.told (device_of page.new)) result }
    ensures handed { result ≢ Err Stop.Write → (⟦<Buffered<K> as Sink>⟧.told page.new).held ≡ 0 }
{
    let written = write_answer(alloc, format, bytes, page);
    write_out(page, written)
}

/// Reads the file whole, writes the members of the archive that it is, hands all of it on, and answers the status. The stops are those of
/// `read_file` and of `write_members`.
pub fn members_file<K: Sink + Drop, F: Files>(
    alloc: Global,
    input: &GivenFile,
    format: Format,
    files: &F,
    page: &mut Buffered<K>,
) -> Result<u8, Stop>
    requires handed { (⟦<Buffered<K> as Sink>⟧.told page.old).held ≡ 0 }
    ensures lists { ListsFile format input.now (reports F.bytes_of F.refuses F.Opened.remaining F.Opened.failures F.took F.loses) files.now
        (K.told (device_of page.old)) (K.told (device_of page.new)) result }
    ensures handed { result ≢ Err Stop.Write → (⟦<Buffered<K> as Sink>⟧.told page.new).held ≡ 0 }
{
    let bytes = read_file(alloc, files, input.file.as_str())?;
    answer_members(alloc, format, bytes.as_slice(), page)
}
