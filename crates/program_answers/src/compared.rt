//! Whether the pickles in two files make the same objects, over any devices and files.

ghost use Rattle.std.specs.Prelude.{◌≡◌, ◌≢◌, ◌≤◌, length, Err};
ghost use Rattle.std.specs.String.{string_bytes};
ghost use Rattle.pickle_doc.specs.Document.{size_limit};
ghost use Rattle.archive_script.specs.SingleText.{Says};
ghost use Rattle.program_answers.specs.Device.{device_of};
ghost use Rattle.program_answers.specs.Files.{reports};
ghost use Rattle.program_answers.specs.Compared.{IsSameAnswer, TookComparison, ComparesFiles};

use crate::files::{Files, read_file};
use crate::output::write_out;
use crate::task::{Format, GivenFile};
use pickle_io::{Buffered, Page, Sink};
use pickle_script::Stop;
use same_script::{write_comparison, write_comparison_line};
use std::alloc::Global;

/// Writes whether the pickles in two byte strings make the same objects, as a text or as a line, and answers the status.
fn write_answer<S: Page>(
    alloc: Global,
    format: Format,
    many: bool,
    one: &[u8],
    other: &[u8],
    page: &mut S,
) -> Result<u8, Stop>
    requires one { length one.now ≤ size_limit }
    requires other { length other.now ≤ size_limit }
    ensures { Says (IsSameAnswer format many one.now other.now) (S.told page.old) (S.told page.new) result }
{
    match format {
        Format::Text => write_comparison(alloc, many, one, other, page),
        Format::Json => write_comparison_line(alloc, many, one, other, page),
    }
}

/// Writes whether the pickles in two byte strings make the same objects, hands all of it on, and answers the status.
fn answer_comparison<K: Sink + Drop>(
    alloc: Global,
    format: Format,
    many: bool,
    one: &[u8],
    other: &[u8],
    page: &mut Buffered<K>,
) -> Result<u8, Stop>
    requires one { length one.now ≤ size_limit }
    requires other { length other.now ≤ size_limit }
    requires handed { (⟦<Buffered<K> as Sink>⟧.told page.old).held ≡ 0 }
    ensures took { TookComparison format many one.now other.now (K.told (device_of page.old)) (K.told (device_of page.new)) result }
    ensures handed { result ≢ Err Stop.Write → (⟦<Buffered<K> as Sink>⟧.told page.new).held ≡ 0 }
{
    let written = write_answer(alloc, format, many, one, other, page);
    write_out(page, written)
}

/// Reads both files whole, writes whether the pickles in them make the same objects or how they differ, hands all of it on, and answers the
/// status: 0 where they make the same, else 1. The stops are those of `read_file` and of `write_comparison`.
pub fn compare_files<K: Sink + Drop, F: Files>(
    alloc: Global,
    input: &GivenFile,
    other: &String,
    format: Format,
    files: &F,
    page: &mut Buffered<K>,
) -> Result<u8, Stop>
    requires handed { (⟦<Buffered<K> as Sink>⟧.told page.old).held ≡ 0 }
    ensures compares { ComparesFiles format input.now (string_bytes other.now)
        (reports F.bytes_of F.refuses F.Opened.remaining F.Opened.failures F.took F.loses) files.now
        (K.told (device_of page.old)) (K.told (device_of page.new)) result }
    ensures handed { result ≢ Err Stop.Write → (⟦<Buffered<K> as Sink>⟧.told page.new).held ≡ 0 }
{
    let one = read_file(alloc, files, input.file.as_str())?;
    let two = read_file(alloc, files, other.as_str())?;
    answer_comparison(
        alloc,
        format,
        input.many,
        one.as_slice(),
        two.as_slice(),
        page,
    )
}
