//! Whether files pass the list in another, over any devices and files.

ghost use Rattle.std.specs.Prelude.{◌≡◌, ◌≢◌, ◌≤◌, ◌∷◌, length, map, Err, Ok};
ghost use Rattle.std.specs.String.{string_bytes};
ghost use Rattle.pickle_doc.specs.Document.{size_limit};
ghost use Rattle.archive_script.specs.SingleText.{Says};
ghost use Rattle.archive_script.specs.GateText.{AnswersWith};
ghost use Rattle.program_answers.specs.Device.{device_of, TookText, NoneWithoutMemory};
ghost use Rattle.program_answers.specs.Files.{reports};
ghost use Rattle.program_answers.specs.Gated.{IsGateAnswer, IsNamedAnswer, IsNoListAnswer, TookGate, GatesFile, TookNamed, GatesNamed, first_other, GatesEach, GatesText, GatesSeveral, GatesTask};

use crate::files::{Files, read_file};
use crate::output::write_out;
use crate::task::{Format, GateOptions, GivenFile};
use archive_script::{refuse_list, write_gate, write_named_file};
use gate_json::{refuse_list_line, write_gate_line, write_named_line};
use pickle_allow::{Entry, Listing, read_list};
use pickle_io::{Buffered, Page, Sink};
use pickle_script::Stop;
use std::alloc::Global;

/// Writes whether the file that the bytes are passes the list, as a text or as a line, and answers the status.
fn write_answer<S: Page>(
    alloc: Global,
    format: Format,
    list: &[u8],
    bytes: &[u8],
    page: &mut S,
) -> Result<u8, Stop>
    ensures { AnswersWith (IsGateAnswer format list.now bytes.now) bytes.now S.told page.old page.new result }
{
    match format {
        Format::Text => write_gate(alloc, list, bytes, page),
        Format::Json => write_gate_line(alloc, list, bytes, page),
    }
}

/// Writes whether the file that the bytes are passes the list, hands all of it on, and answers the status.
fn answer_gate<K: Sink + Drop>(
    alloc: Global,
    format: Format,
    list: &[u8],
    bytes: &[u8],
    page: &mut Buffered<K>,
) -> Result<u8, Stop>
    requires few { length bytes.now ≤ size_limit }
    requires handed { (⟦<Buffered<K> as Sink>⟧.told page.old).held ≡ 0 }
    ensures took { TookGate format list.now bytes.now (K.told (device_of page.old)) (K.told (device_of page.new)) result }
    ensures handed { result ≢ Err Stop.Write → (⟦<Buffered<K> as Sink>⟧.told page.new).held ≡ 0 }
{
    let written = write_answer(alloc, format, list, bytes, page);
    write_out(page, written)
}

/// Reads both files whole, the list first, writes whether the pickle passes the list, hands all of it on, and answers the status. The stops
/// are those of `read_file` and of `write_gate`.
fn gate_file<K: Sink + Drop, F: Files>(
    alloc: Global,
    format: Format,
    input: &GivenFile,
    list: &str,
    files: &F,
    page: &mut Buffered<K>,
) -> Result<u8, Stop>
    requires handed { (⟦<Buffered<K> as Sink>⟧.told page.old).held ≡ 0 }
    ensures gates { GatesFile format input.now list.now (reports F.bytes_of F.refuses F.Opened.remaining F.Opened.failures F.took F.loses) files.now
        (K.told (device_of page.old)) (K.told (device_of page.new)) result }
    ensures handed { result ≢ Err Stop.Write → (⟦<Buffered<K> as Sink>⟧.told page.new).held ≡ 0 }
{
    let text = read_file(alloc, files, list)?;
    let bytes = read_file(alloc, files, input.file.as_str())?;
    answer_gate(alloc, format, text.as_slice(), bytes.as_slice(), page)
}

/// Writes whether the file that the bytes are passes by these entries, with its name, and answers the status.
fn write_named<S: Page>(
    alloc: Global,
    format: Format,
    list: &[Entry<'_>],
    name: &[u8],
    bytes: &[u8],
    page: &mut S,
) -> Result<u8, Stop>
    requires { length bytes.now ≤ size_limit }
    ensures { Says (IsNamedAnswer format name.now list.now bytes.now) (S.told page.old) (S.told page.new) result }
{
    match format {
        Format::Text => write_named_file(alloc, list, name, bytes, page),
        Format::Json => write_named_line(alloc, list, name, bytes, page),
    }
}

/// Writes whether the file that the bytes are passes by these entries, with its name, hands all of it on, and answers the status.
fn answer_named<K: Sink + Drop>(
    alloc: Global,
    format: Format,
    list: &[Entry<'_>],
    name: &str,
    bytes: &[u8],
    page: &mut Buffered<K>,
) -> Result<u8, Stop>
    requires few { length bytes.now ≤ size_limit }
    requires handed { (⟦<Buffered<K> as Sink>⟧.told page.old).held ≡ 0 }
    ensures took { TookNamed format list.now name.now bytes.now (K.told (device_of page.old)) (K.told (device_of page.new)) result }
    ensures handed { result ≢ Err Stop.Write → (⟦<Buffered<K> as Sink>⟧.told page.new).held ≡ 0 }
{
    let written = write_named(alloc, format, list, name.as_bytes(), bytes, page);
    write_out(page, written)
}

/// Reads a file whole, and answers this of it. The stops are those of `read_file` and of `write_named_file`.
fn gate_named<K: Sink + Drop, F: Files>(
    alloc: Global,
    format: Format,
    list: &[Entry<'_>],
    name: &str,
    files: &F,
    page: &mut Buffered<K>,
) -> Result<u8, Stop>
    requires handed { (⟦<Buffered<K> as Sink>⟧.told page.old).held ≡ 0 }
    ensures gates { GatesNamed format list.now name.now (reports F.bytes_of F.refuses F.Opened.remaining F.Opened.failures F.took F.loses) files.now
        (K.told (device_of page.old)) (K.told (device_of page.new)) result }
    ensures handed { result ≢ Err Stop.Write → (⟦<Buffered<K> as Sink>⟧.told page.new).held ≡ 0 }
{
    let bytes = read_file(alloc, files, name)?;
    answer_named(alloc, format, list, name, bytes.as_slice(), page)
}

/// The first status of two that is not 0.
fn first_other(status: u8, next: u8) -> u8
    ensures { result ≡ first_other status next }
{
    if status == 0 { next } else { status }
}

/// Answers this of each file in order: 0 where each passes, else 1. The stops are those of `gate_named`; of the files behind one at which the
/// gate stops nothing is said.
fn gate_each<K: Sink + Drop, F: Files>(
    alloc: Global,
    format: Format,
    list: &[Entry<'_>],
    first: &str,
    more: &[String],
    files: &F,
    page: &mut Buffered<K>,
) -> Result<u8, Stop>
    requires handed { (⟦<Buffered<K> as Sink>⟧.told page.old).held ≡ 0 }
    ensures gates { GatesEach format list.now (first.now ∷ map string_bytes more.now)
        (reports F.bytes_of F.refuses F.Opened.remaining F.Opened.failures F.took F.loses) files.now
        (K.told (device_of page.old)) (K.told (device_of page.new)) result }
    ensures handed { result ≢ Err Stop.Write → (⟦<Buffered<K> as Sink>⟧.told page.new).held ≡ 0 }
{
    let mut status = gate_named(alloc, format, list, first, files, page)?;
    for name in more {
        let next = gate_named(alloc, format, list, name.as_str(), files, page)?;
        status = first_other(status, next);
    }
    Ok(status)
}

/// Writes that a line of the list is no entry, and answers the status.
fn write_no_list<S: Page>(format: Format, line: usize, page: &mut S) -> Result<u8, Stop>
    ensures { Says (IsNoListAnswer format line) (S.told page.old) (S.told page.new) result }
{
    match format {
        Format::Text => refuse_list(line, page),
        Format::Json => refuse_list_line(line, page),
    }
}

/// Writes that a line of the list is no entry, hands all of it on, and answers the status.
fn answer_no_list<K: Sink + Drop>(
    format: Format,
    line: usize,
    page: &mut Buffered<K>,
) -> Result<u8, Stop>
    requires handed { (⟦<Buffered<K> as Sink>⟧.told page.old).held ≡ 0 }
    ensures took { TookText (IsNoListAnswer format line) (K.told (device_of page.old)) (K.told (device_of page.new)) result }
    ensures last { NoneWithoutMemory (K.told (device_of page.old)) (K.told (device_of page.new)) result }
    ensures handed { result ≢ Err Stop.Write → (⟦<Buffered<K> as Sink>⟧.told page.new).held ≡ 0 }
{
    let written = write_no_list(format, line, page);
    write_out(page, written)
}

/// Answers of each file whether it passes by the text of a list; or that this is none, and nothing of the files.
fn gate_listed<K: Sink + Drop, F: Files>(
    alloc: Global,
    format: Format,
    text: &[u8],
    first: &str,
    more: &[String],
    files: &F,
    page: &mut Buffered<K>,
) -> Result<u8, Stop>
    requires handed { (⟦<Buffered<K> as Sink>⟧.told page.old).held ≡ 0 }
    ensures gates { GatesText format text.now (first.now ∷ map string_bytes more.now)
        (reports F.bytes_of F.refuses F.Opened.remaining F.Opened.failures F.took F.loses) files.now
        (K.told (device_of page.old)) (K.told (device_of page.new)) result }
    ensures handed { result ≢ Err Stop.Write → (⟦<Buffered<K> as Sink>⟧.told page.new).held ≡ 0 }
{
    match read_list(alloc, text)? {
        Listing::Entries(entries) => {
            gate_each(alloc, format, entries.as_slice(), first, more, files, page)
        }
        Listing::Wrong(line) => answer_no_list(format, line, page),
    }
}

/// Reads the list whole, and answers this. The stops are those of `read_file` and of `gate_each`.
fn gate_several<K: Sink + Drop, F: Files>(
    alloc: Global,
    format: Format,
    list: &str,
    first: &str,
    more: &[String],
    files: &F,
    page: &mut Buffered<K>,
) -> Result<u8, Stop>
    requires handed { (⟦<Buffered<K> as Sink>⟧.told page.old).held ≡ 0 }
    ensures gates { GatesSeveral format (first.now ∷ map string_bytes more.now) list.now
        (reports F.bytes_of F.refuses F.Opened.remaining F.Opened.failures F.took F.loses) files.now
        (K.told (device_of page.old)) (K.told (device_of page.new)) result }
    ensures handed { result ≢ Err Stop.Write → (⟦<Buffered<K> as Sink>⟧.told page.new).held ≡ 0 }
{
    let lines = read_file(alloc, files, list)?;
    gate_listed(alloc, format, lines.as_slice(), first, more, files, page)
}

/// Writes whether the files pass the list, hands all of it on, and answers the status: 0 where each file passes, 1 where one does not, and 2 where
/// a line of the list is no entry. Of one file this is a line, and of several a line for each, with its name. The stops are those of
/// `gate_file` and of `gate_several`.
pub fn gate_files<K: Sink + Drop, F: Files>(
    alloc: Global,
    input: &GivenFile,
    options: &GateOptions,
    files: &F,
    page: &mut Buffered<K>,
) -> Result<u8, Stop>
    requires handed { (⟦<Buffered<K> as Sink>⟧.told page.old).held ≡ 0 }
    ensures gates { GatesTask input.now options.now (reports F.bytes_of F.refuses F.Opened.remaining F.Opened.failures F.took F.loses) files.now
        (K.told (device_of page.old)) (K.told (device_of page.new)) result }
    ensures handed { result ≢ Err Stop.Write → (⟦<Buffered<K> as Sink>⟧.told page.new).held ≡ 0 }
{
    let (list, more) = (options.list.as_str(), options.more.as_slice());
    if more.is_empty() {
        gate_file(alloc, options.format, input, list, files, page)
    } else {
        gate_several(
            alloc,
            options.format,
            list,
            input.file.as_str(),
            more,
            files,
            page,
        )
    }
}
