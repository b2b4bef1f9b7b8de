//! The source of the pickle in a file, over any devices and files.

ghost use Rattle.std.specs.Prelude.{◌≡◌, ◌≢◌, ◌≤◌, length, Err};
ghost use Rattle.pickle_doc.specs.Document.{size_limit};
ghost use Rattle.program_answers.specs.Device.{device_of};
ghost use Rattle.program_answers.specs.Files.{reports};
ghost use Rattle.program_answers.specs.Sourced.{TookSource, SourcesFile};

use crate::files::{Files, read_file};
use crate::output::write_out;
use crate::task::GivenFile;
use pickle_io::{Buffered, Sink};
use pickle_script::Stop;
use source_script::write_source_of;
use std::alloc::Global;

/// Writes the source of the pickle that the bytes are, or of several, hands all of it on, and answers the status.
fn answer_source<K: Sink + Drop>(
    alloc: Global,
    many: bool,
    loose: bool,
    bytes: &[u8],
    page: &mut Buffered<K>,
) -> Result<u8, Stop>
    requires few { length bytes.now ≤ size_limit }
    requires handed { (⟦<Buffered<K> as Sink>⟧.told page.old).held ≡ 0 }
    ensures took { TookSource many loose bytes.now (K.told (device_of page.old)) (K.told (device_of page.new)) result }
    ensures handed { result ≢ Err Stop.Write → (⟦<Buffered<K> as Sink>⟧.told page.new).held ≡ 0 }
{
    let written = write_source_of(alloc, many, loose, bytes, page);
    write_out(page, written)
}

/// Reads the file whole, writes the source of the pickle that it is, or of several, hands all of it on, and answers the status. The stops are
/// those of `read_file` and of `write_source_of`.
pub fn source_file<K: Sink + Drop, F: Files>(
    alloc: Global,
    input: &GivenFile,
    files: &F,
    page: &mut Buffered<K>,
) -> Result<u8, Stop>
    requires handed { (⟦<Buffered<K> as Sink>⟧.told page.old).held ≡ 0 }
    ensures sources { SourcesFile input.now (reports F.bytes_of F.refuses F.Opened.remaining F.Opened.failures F.took F.loses) files.now
        (K.told (device_of page.old)) (K.told (device_of page.new)) result }
    ensures handed { result ≢ Err Stop.Write → (⟦<Buffered<K> as Sink>⟧.told page.new).held ≡ 0 }
{
    let bytes = read_file(alloc, files, input.file.as_str())?;
    answer_source(alloc, input.many, input.unframed, bytes.as_slice(), page)
}
