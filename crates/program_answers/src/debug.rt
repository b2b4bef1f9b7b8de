//! A conversation with a session of a file, whose document may be saved at its end, over any devices.

ghost use Rattle.std.specs.Prelude.{◌≡◌, ◌≢◌, ◌≤◌, [], length, Err, IfOk, IfErr, IfSome, OnOk, option_map};
ghost use Rattle.pickle_io.specs.Device.{HasFailed};
ghost use Rattle.pickle_doc.specs.Document.{document_bytes, size_limit};
ghost use Rattle.pickle_session.specs.Opening.{IsOpenedIn};
ghost use Rattle.program_answers.specs.CommandLine.{most_records};
ghost use Rattle.program_answers.specs.Device.{device_of};
ghost use Rattle.program_answers.specs.Files.{gives, reports};
ghost use Rattle.program_answers.specs.Talk.{FinishesIn, StopsReadingIn, StopsWritingIn, Saves, IsHeld, IsUnsaved, Talks, TalksOfFile};

use crate::files::{Files, read_file};
use crate::task::{Format, GivenFile, Options};
use json_conversation::converse_json;
use pickle_io::{Asker, Buffered, Page, Sink};
use pickle_script::{Stop, converse};
use pickle_session::{Past, Session, Whole, Window};
use std::alloc::Global;

/// Converses as `converse` does, with texts for people or with lines for programs. The stops are those of `converse`.
fn converse_as<P: Past, R: Asker<K>, K: Page>(
    alloc: Global,
    format: Format,
    session: &mut Session<P>,
    source: &mut R,
    page: &mut K,
) -> Result<u8, Stop>
    requires handed { (K.told page.old).held ≡ 0 }
    ensures finishes { IfOk result (λ status. FinishesIn format session.old session.new status (R.remaining source.old) (R.remaining source.new)
        (K.told page.old) (K.told page.new)) }
    ensures reading { result ≡ Err Stop.Read → StopsReadingIn format session.old session.new (R.remaining source.old) (R.remaining source.new)
        (K.told page.old) (K.told page.new) }
    ensures read { result ≡ Err Stop.Read → HasFailed (R.failures source.old) (R.failures source.new) }
    ensures calm { result ≢ Err Stop.Read → R.failures source.new ≡ R.failures source.old }
    ensures writing { result ≡ Err Stop.Write → StopsWritingIn format session.old session.new (R.remaining source.old) (R.remaining source.new)
        (K.told page.old) (K.told page.new) }
    ensures memory { result ≡ Err Stop.Memory → (session.new ≡ session.old) × (source.new ≡ source.old) × (page.new ≡ page.old) }
    ensures no_other { result ≢ Err Stop.TooLarge }
    ensures handed { result ≢ Err Stop.Write → (K.told page.new).held ≡ 0 }
{
    match format {
        Format::Text => converse(alloc, session, source, page),
        Format::Json => converse_json(alloc, session, source, page),
    }
}

/// Converses as `converse_as` does, saves the session's document after the last line where a path is given, and answers the status. The
/// stops are those of `converse`, after which nothing is saved, and of the files.
fn converse_and_save<P: Past, R: Asker<Buffered<K>>, K: Sink + Drop, F: Files>(
    alloc: Global,
    session: &mut Session<P>,
    source: &mut R,
    page: &mut Buffered<K>,
    files: &mut F,
    format: Format,
    save: Option<&str>,
) -> Result<u8, Stop>
    requires handed { (⟦<Buffered<K> as Sink>⟧.told page.old).held ≡ 0 }
    ensures held { IfOk result (λ status. IsHeld format session.old session.new status (gives (R.remaining source.old) (R.failures source.old))
        (gives (R.remaining source.new) (R.failures source.new)) (K.told (device_of page.old)) (K.told (device_of page.new))) }
    ensures saves { OnOk result (Saves F.took (option_map (λ t. t.now) save.entry) files.old files.new (document_bytes session.new.session.document)) }
    ensures handed { result ≢ Err Stop.Write → (⟦<Buffered<K> as Sink>⟧.told page.new).held ≡ 0 }

    // After a stop of the conversation nothing was saved.
    ensures unsaved { IfErr result (IsUnsaved format session.old session.new (option_map (λ t. t.now) save.entry)
        (reports F.bytes_of F.refuses F.Opened.remaining F.Opened.failures F.took F.loses) files.old files.new
        (gives (R.remaining source.old) (R.failures source.old)) (gives (R.remaining source.new) (R.failures source.new))
        (K.told (device_of page.old)) (K.told (device_of page.new))) }
{
    let status = converse_as(alloc, format, session, source, page)?;
    match save {
        None => Ok(status),
        Some(path) => {
            files.save(path, session.document())?;
            Ok(status)
        }
    }
}

/// The session of the bytes, of several pickles or of one, and with their frames or without a look at them, whose records are put into this
/// empty past.
fn open_session<P: Past>(
    alloc: Global,
    past: P,
    bytes: &[u8],
    many: bool,
    loose: bool,
) -> Result<Session<P>, Stop>
    requires records { (P.holds past).records ≡ [] }
    requires few { length bytes.now ≤ size_limit }
    ensures opened { IfOk result (IsOpenedIn many loose bytes.now) }
    ensures limit { IfOk result (λ s. s.past.limit ≡ (P.holds past).limit) }
    ensures memory { IfErr result (λ e. e ≡ Stop.Memory) }
{
    Ok(Session::open_in(alloc, past, many, loose, bytes)?)
}

/// Opens a session of the bytes with the records that the options ask for, reads commands from the source and answers each, saves the
/// document where that is asked for, and answers the status. The answers are written out before more is read, at the end, and when there
/// is no room for more of them.
fn talk<R: Asker<Buffered<K>>, K: Sink + Drop, F: Files>(
    alloc: Global,
    bytes: &[u8],
    many: bool,
    loose: bool,
    options: &Options,
    source: &mut R,
    page: &mut Buffered<K>,
    files: &mut F,
) -> Result<u8, Stop>
    requires bounded { IfSome options.now.window (λ n. (1 ≤ n) × (n ≤ most_records)) }
    requires few { length bytes.now ≤ size_limit }
    requires handed { (⟦<Buffered<K> as Sink>⟧.told page.old).held ≡ 0 }
    ensures talks { Talks many loose bytes.now options.now
        (reports F.bytes_of F.refuses F.Opened.remaining F.Opened.failures F.took F.loses) files.old files.new
        (gives (R.remaining source.old) (R.failures source.old)) (gives (R.remaining source.new) (R.failures source.new))
        (K.told (device_of page.old)) (K.told (device_of page.new)) result }
    ensures handed { result ≢ Err Stop.Write → (⟦<Buffered<K> as Sink>⟧.told page.new).held ≡ 0 }
{
    let (format, save) = (options.format, options.save.as_deref());
    match options.window {
        None => {
            let past = Whole::new(alloc);
            let mut session = open_session(alloc, past, bytes, many, loose)?;
            converse_and_save(alloc, &mut session, source, page, files, format, save)
        }
        Some(count) => {
            let past = Window::new(alloc, count)?;
            let mut session = open_session(alloc, past, bytes, many, loose)?;
            converse_and_save(alloc, &mut session, source, page, files, format, save)
        }
    }
}

/// Reads the file and talks about it. The stops are those of `read_file`, of `converse` and of `Files::save`, and `Stop::Memory` where
/// there is no room for the session, its records or a line. After a stop of the conversation nothing is saved.
pub fn debug_file<R: Asker<Buffered<K>>, K: Sink + Drop, F: Files>(
    alloc: Global,
    input: &GivenFile,
    options: &Options,
    source: &mut R,
    page: &mut Buffered<K>,
    files: &mut F,
) -> Result<u8, Stop>
    requires bounded { IfSome options.now.window (λ n. (1 ≤ n) × (n ≤ most_records)) }
    requires handed { (⟦<Buffered<K> as Sink>⟧.told page.old).held ≡ 0 }
    ensures talks { TalksOfFile input.now options.now
        (reports F.bytes_of F.refuses F.Opened.remaining F.Opened.failures F.took F.loses) files.old files.new
        (gives (R.remaining source.old) (R.failures source.old)) (gives (R.remaining source.new) (R.failures source.new))
        (K.told (device_of page.old)) (K.told (device_of page.new)) result }
    ensures handed { result ≢ Err Stop.Write → (⟦<Buffered<K> as Sink>⟧.told page.new).held ≡ 0 }
{
    let bytes = read_file(alloc, files, input.file.as_str())?;
    talk(
        alloc,
        bytes.as_slice(),
        input.many,
        input.unframed,
        options,
        source,
        page,
        files,
    )
}
