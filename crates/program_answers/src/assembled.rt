//! The pickle of a text of opcodes in a file, over any devices and files.

ghost use Rattle.std.specs.Prelude.{◌≡◌, ◌≢◌, Err};
ghost use Rattle.program_answers.specs.Device.{device_of};
ghost use Rattle.program_answers.specs.Files.{reports};
ghost use Rattle.program_answers.specs.Assembled.{TookAssembly, AssemblesFile};

use crate::files::{Files, read_file};
use crate::output::write_out;
use crate::task::GivenFile;
use assembler_script::write_assembled;
use pickle_io::{Buffered, Sink};
use pickle_script::Stop;
use std::alloc::Global;

/// Writes the bytes of the opcodes that stand in a text, hands all of them on, and answers the status.
fn answer_assembly<K: Sink + Drop>(
    alloc: Global,
    text: &[u8],
    page: &mut Buffered<K>,
) -> Result<u8, Stop>
    requires { (⟦<Buffered<K> as Sink>⟧.told page.old).held ≡ 0 }
    ensures took { TookAssembly text.now (K.told (device_of page.old)) (K.told (device_of page.new)) result }
    ensures handed { result ≢ Err Stop.Write → (⟦<Buffered<K> as Sink>⟧.told page.new).held ≡ 0 }
{
    let written = write_assembled(alloc, text, page);
    write_out(page, written)
}

/// Reads the file whole, writes the bytes of the opcodes that stand in it, hands all of them on, and answers the status. The stops are those of
/// `read_file` and of `write_assembled`.
pub fn assemble_file<K: Sink + Drop, F: Files>(
    alloc: Global,
    input: &GivenFile,
    files: &F,
    page: &mut Buffered<K>,
) -> Result<u8, Stop>
    requires handed { (⟦<Buffered<K> as Sink>⟧.told page.old).held ≡ 0 }
    ensures assembles { AssemblesFile input.now (reports F.bytes_of F.refuses F.Opened.remaining F.Opened.failures F.took F.loses) files.now
        (K.told (device_of page.old)) (K.told (device_of page.new)) result }
    ensures handed { result ≢ Err Stop.Write → (⟦<Buffered<K> as Sink>⟧.told page.new).held ≡ 0 }
{
    let text = read_file(alloc, files, input.file.as_str())?;
    answer_assembly(alloc, text.as_slice(), page)
}
