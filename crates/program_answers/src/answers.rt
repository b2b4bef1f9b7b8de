//! The answer of a task: a text of all bytes of a source, written to a device through a page that holds nothing back at the end. The contracts
//! speak of the device.

ghost use Rattle.std.specs.Prelude.{◌≡◌, ◌≢◌, true, Err};
ghost use Rattle.program_answers.specs.Device.{NoneWithoutMemory, comes_last, lines_come_last, IsTextOf, IsLinesOf, is_said, AnswersInput, AnswersTask, AnswersFile, is_calls_text, is_calls_lines, is_calls, asks_for_text, listing_text, device_of};
ghost use Rattle.program_answers.specs.Files.{gives, reports};

use crate::files::{Files, open_file};
use crate::output::write_out;
use crate::task::{CallsOptions, Format, GivenFile, Task};
use json_script::{Lines, write_calls_lines, write_lines};
use pickle_doc::LIMIT;
use pickle_io::{Buffered, Sink, Source, read_limited};
use pickle_script::{Stop, Text, calls_of_file, write_text};
use std::alloc::Global;

/// Reads a source whole, writes this text of its bytes, hands all of it on, and answers the status. The bytes are one pickle, or where
/// `many` holds several that follow one another; where `loose` holds frames are not looked at. The stops are those of `answer_task`.
fn answer_text<R: Source, K: Sink + Drop>(
    alloc: Global,
    text: Text,
    many: bool,
    loose: bool,
    source: &mut R,
    page: &mut Buffered<K>,
) -> Result<u8, Stop>
    requires handed { (⟦<Buffered<K> as Sink>⟧.told page.old).held ≡ 0 }
    ensures answers { AnswersInput (IsTextOf text many loose) (gives (R.remaining source.old) (R.failures source.old))
        (gives (R.remaining source.new) (R.failures source.new)) (K.told (device_of page.old)) (K.told (device_of page.new)) result }
    ensures last { comes_last text ≡ true → NoneWithoutMemory (K.told (device_of page.old)) (K.told (device_of page.new)) result }
    ensures handed { result ≢ Err Stop.Write → (⟦<Buffered<K> as Sink>⟧.told page.new).held ≡ 0 }
{
    let bytes = read_limited(alloc, source, LIMIT)?;
    let written = write_text(alloc, text, many, loose, bytes.as_slice(), page);
    write_out(page, written)
}

/// Reads a source whole, writes these lines of JSON about its bytes, hands all of them on, and answers the status. The bytes are one pickle,
/// or where `many` holds several that follow one another; where `loose` holds frames are not looked at. The stops are those of `answer_task`.
fn answer_lines<R: Source, K: Sink + Drop>(
    alloc: Global,
    lines: Lines,
    many: bool,
    loose: bool,
    source: &mut R,
    page: &mut Buffered<K>,
) -> Result<u8, Stop>
    requires handed { (⟦<Buffered<K> as Sink>⟧.told page.old).held ≡ 0 }
    ensures answers { AnswersInput (IsLinesOf lines many loose) (gives (R.remaining source.old) (R.failures source.old))
        (gives (R.remaining source.new) (R.failures source.new)) (K.told (device_of page.old)) (K.told (device_of page.new)) result }
    ensures last { lines_come_last lines ≡ true → NoneWithoutMemory (K.told (device_of page.old)) (K.told (device_of page.new)) result }
    ensures handed { result ≢ Err Stop.Write → (⟦<Buffered<K> as Sink>⟧.told page.new).held ≡ 0 }
{
    let bytes = read_limited(alloc, source, LIMIT)?;
    let written = write_lines(alloc, lines, many, loose, bytes.as_slice(), page);
    write_out(page, written)
}

/// The same of a text or of these lines of JSON, by what the answer is written as.
fn answer_said<R: Source, K: Sink + Drop>(
    alloc: Global,
    format: Format,
    text: Text,
    lines: Lines,
    many: bool,
    loose: bool,
    source: &mut R,
    page: &mut Buffered<K>,
) -> Result<u8, Stop>
    requires handed { (⟦<Buffered<K> as Sink>⟧.told page.old).held ≡ 0 }
    ensures answers { AnswersInput (is_said format text lines many loose) (gives (R.remaining source.old) (R.failures source.old))
        (gives (R.remaining source.new) (R.failures source.new)) (K.told (device_of page.old)) (K.told (device_of page.new)) result }
    ensures last { comes_last text ≡ true → lines_come_last lines ≡ true
        → NoneWithoutMemory (K.told (device_of page.old)) (K.told (device_of page.new)) result }
    ensures handed { result ≢ Err Stop.Write → (⟦<Buffered<K> as Sink>⟧.told page.new).held ≡ 0 }
{
    match format {
        Format::Text => answer_text(alloc, text, many, loose, source, page),
        Format::Json => answer_lines(alloc, lines, many, loose, source, page),
    }
}

/// Reads a source whole, writes what is left of its bytes without the holes would import and call, hands all of it on, and answers the status.
/// The stops are those of `answer_task`.
fn answer_calls_text<R: Source, K: Sink + Drop>(
    alloc: Global,
    options: &CallsOptions,
    source: &mut R,
    page: &mut Buffered<K>,
) -> Result<u8, Stop>
    requires handed { (⟦<Buffered<K> as Sink>⟧.told page.old).held ≡ 0 }
    ensures answers { AnswersInput (is_calls_text options.now) (gives (R.remaining source.old) (R.failures source.old))
        (gives (R.remaining source.new) (R.failures source.new)) (K.told (device_of page.old)) (K.told (device_of page.new)) result }
    ensures handed { result ≢ Err Stop.Write → (⟦<Buffered<K> as Sink>⟧.told page.new).held ≡ 0 }
{
    let mut bytes = read_limited(alloc, source, LIMIT)?;
    let (pickles, detail) = (options.pickles, options.detail);
    let file = bytes.as_mut_slice();
    let written = calls_of_file(alloc, pickles, detail, &options.holes, file, page);
    write_out(page, written)
}

/// The same as lines of JSON.
fn answer_calls_lines<R: Source, K: Sink + Drop>(
    alloc: Global,
    options: &CallsOptions,
    source: &mut R,
    page: &mut Buffered<K>,
) -> Result<u8, Stop>
    requires handed { (⟦<Buffered<K> as Sink>⟧.told page.old).held ≡ 0 }
    ensures answers { AnswersInput (is_calls_lines options.now) (gives (R.remaining source.old) (R.failures source.old))
        (gives (R.remaining source.new) (R.failures source.new)) (K.told (device_of page.old)) (K.told (device_of page.new)) result }
    ensures handed { result ≢ Err Stop.Write → (⟦<Buffered<K> as Sink>⟧.told page.new).held ≡ 0 }
{
    let mut bytes = read_limited(alloc, source, LIMIT)?;
    let (pickles, detail) = (options.pickles, options.detail);
    let file = bytes.as_mut_slice();
    let written = write_calls_lines(alloc, pickles, detail, &options.holes, file, page);
    write_out(page, written)
}

/// The same as a text or as lines of JSON, by what is asked for.
fn answer_calls<R: Source, K: Sink + Drop>(
    alloc: Global,
    options: &CallsOptions,
    source: &mut R,
    page: &mut Buffered<K>,
) -> Result<u8, Stop>
    requires handed { (⟦<Buffered<K> as Sink>⟧.told page.old).held ≡ 0 }
    ensures answers { AnswersInput (is_calls options.now) (gives (R.remaining source.old) (R.failures source.old))
        (gives (R.remaining source.new) (R.failures source.new)) (K.told (device_of page.old)) (K.told (device_of page.new)) result }
    ensures handed { result ≢ Err Stop.Write → (⟦<Buffered<K> as Sink>⟧.told page.new).held ≡ 0 }
{
    match options.format {
        Format::Text => answer_calls_text(alloc, options, source, page),
        Format::Json => answer_calls_lines(alloc, options, source, page),
    }
}

/// The text of a listing, which may be a whole one.
fn listing_text(whole: bool) -> Text
    ensures { result ≡ listing_text whole }
{
    if whole { Text::Whole } else { Text::Listing }
}

/// Reads the input of a task that asks for a text of one file from a source whole, writes the text that the task asks for, hands all of it on,
/// and answers the status.
///
/// `Stop::Read` where the source fails, `Stop::TooLarge` where it has more bytes than `LIMIT`, `Stop::Memory` where memory runs out: a
/// beginning of the text was written and handed on then, and of a report, of the form, of what is reached or before all was read nothing. `Stop::Write` where
/// the device fails.
fn answer_task<R: Source, K: Sink + Drop>(
    alloc: Global,
    task: &Task,
    source: &mut R,
    page: &mut Buffered<K>,
) -> Result<u8, Stop>
    requires text { asks_for_text task.now ≡ true }
    requires handed { (⟦<Buffered<K> as Sink>⟧.told page.old).held ≡ 0 }
    ensures answers { AnswersTask task.now (gives (R.remaining source.old) (R.failures source.old))
        (gives (R.remaining source.new) (R.failures source.new)) (K.told (device_of page.old)) (K.told (device_of page.new)) result }
    ensures handed { result ≢ Err Stop.Write → (⟦<Buffered<K> as Sink>⟧.told page.new).held ≡ 0 }
{
    match task {
        Task::List(input, options) => {
            let (many, loose) = (input.many, input.unframed);
            let (text, lines) = (listing_text(options.whole), Lines::Listing);
            let format = options.format;
            answer_said(alloc, format, text, lines, many, loose, source, page)
        }
        Task::Objects(input, format) => {
            let (many, loose) = (input.many, input.unframed);
            let (text, lines) = (Text::Objects, Lines::Objects);
            answer_said(alloc, *format, text, lines, many, loose, source, page)
        }
        Task::Calls(_, options) => answer_calls(alloc, options, source, page),
        Task::Form(_, format) => {
            let (text, lines) = (Text::Form, Lines::Form);
            answer_said(alloc, *format, text, lines, false, false, source, page)
        }
        Task::Reach(_, granted, format) => {
            let (text, lines) = (Text::Reach(*granted), Lines::Reach(*granted));
            answer_said(alloc, *format, text, lines, false, false, source, page)
        }
        Task::Gate(_, _) => unreachable!(),
        Task::Members(_, _) => unreachable!(),
        Task::Assemble(_) => unreachable!(),
        Task::Same(_, _, _) => unreachable!(),
        Task::Source(_) => unreachable!(),
        Task::Debug(_, _) => unreachable!(),
        Task::Opcodes(_) => unreachable!(),
    }
}

/// Opens the file that such a task is to be done on, and answers the task as `answer_task` does. The stops are those of `open_file` too.
pub fn answer_file<K: Sink + Drop, F: Files>(
    alloc: Global,
    task: &Task,
    input: &GivenFile,
    files: &F,
    page: &mut Buffered<K>,
) -> Result<u8, Stop>
    requires text { asks_for_text task.now ≡ true }
    requires handed { (⟦<Buffered<K> as Sink>⟧.told page.old).held ≡ 0 }
    ensures answers { AnswersFile task.now input.now (reports F.bytes_of F.refuses F.Opened.remaining F.Opened.failures F.took F.loses) files.now
        (K.told (device_of page.old)) (K.told (device_of page.new)) result }
    ensures handed { result ≢ Err Stop.Write → (⟦<Buffered<K> as Sink>⟧.told page.new).held ≡ 0 }
{
    let mut source = open_file(files, input.file.as_str())?;
    answer_task(alloc, task, &mut source, page)
}
