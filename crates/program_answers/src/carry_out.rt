//! What the program does for a task, over any devices and files.

ghost use Rattle.std.specs.Prelude.{◌≡◌, ◌≢◌, Err};
ghost use Rattle.program_answers.specs.CommandLine.{IsBounded};
ghost use Rattle.program_answers.specs.Device.{device_of};
ghost use Rattle.program_answers.specs.Files.{gives, reports};
ghost use Rattle.program_answers.specs.Talk.{CarriesOut};

use crate::answers::answer_file;
use crate::assembled::assemble_file;
use crate::compared::compare_files;
use crate::debug::debug_file;
use crate::files::Files;
use crate::gate::gate_files;
use crate::members::members_file;
use crate::opcodes::answer_opcodes;
use crate::source::source_file;
use crate::task::Task;
use pickle_io::{Asker, Buffered, Sink};
use pickle_script::Stop;
use std::alloc::Global;

/// Does a task, on the file that it names, and answers the status: writes the text that it asks for to the page; or reads commands from
/// the source, which gives more only once the page holds no answer back, answers each on the page, and saves the document to the file that
/// the options name, if they name one. The stops are those of `answer_file`,
/// `gate_files`, `members_file`, `assemble_file`, `compare_files`, `source_file`, `answer_opcodes` and `debug_file`. What is said of the texts is said of the device behind the page.
pub fn carry_out<R: Asker<Buffered<K>>, K: Sink + Drop, F: Files>(
    alloc: Global,
    task: &Task,
    source: &mut R,
    page: &mut Buffered<K>,
    files: &mut F,
) -> Result<u8, Stop>
    requires bounded { IsBounded task.now }
    requires handed { (⟦<Buffered<K> as Sink>⟧.told page.old).held ≡ 0 }
    ensures does { CarriesOut task.now (reports F.bytes_of F.refuses F.Opened.remaining F.Opened.failures F.took F.loses) files.old files.new
        (gives (R.remaining source.old) (R.failures source.old)) (gives (R.remaining source.new) (R.failures source.new))
        (K.told (device_of page.old)) (K.told (device_of page.new)) result }

    // Unless a device fails the page holds nothing back.
    ensures handed { result ≢ Err Stop.Write → (⟦<Buffered<K> as Sink>⟧.told page.new).held ≡ 0 }
{
    match task {
        Task::Debug(input, options) => debug_file(alloc, input, options, source, page, files),
        Task::Opcodes(format) => answer_opcodes(*format, page),
        Task::List(input, _) => answer_file(alloc, task, input, files, page),
        Task::Objects(input, _) => answer_file(alloc, task, input, files, page),
        Task::Calls(input, _) => answer_file(alloc, task, input, files, page),
        Task::Form(input, _) => answer_file(alloc, task, input, files, page),
        Task::Reach(input, _, _) => answer_file(alloc, task, input, files, page),
        Task::Gate(input, options) => gate_files(alloc, input, options, files, page),
        Task::Members(input, format) => members_file(alloc, input, *format, files, page),
        Task::Assemble(input) => assemble_file(alloc, input, files, page),
        Task::Source(input) => source_file(alloc, input, files, page),
        Task::Same(input, other, format) => {
            compare_files(alloc, input, other, *format, files, page)
        }
    }
}
