//! What the program answers to the words of its command line, over any devices and files.

ghost use Rattle.std.specs.Prelude.{◌≡◌, map, IfOk};
ghost use Rattle.std.specs.String.{string_bytes};
ghost use Rattle.program_answers.specs.CommandLine.{IsMemory};
ghost use Rattle.program_answers.specs.Device.{device_of};
ghost use Rattle.program_answers.specs.Files.{gives, reports};
ghost use Rattle.program_answers.specs.Program.{error_line, no_answer, IsReported, Closes, AnswersWords, Answers};

use crate::carry_out::carry_out;
use crate::files::Files;
use crate::skip_file::with_files;
use crate::task::{Usage, task_of};
use clap::error::ErrorKind;
use pickle_io::{Asker, Buffered, Sink, write_all};
use pickle_script::Stop;
use std::alloc::{AllocError, Global};

/// The status where the answer is missing or incomplete: the words are no task, or a `Stop`.
const NO_ANSWER: u8 = 2;

/// The one line of a stop.
fn error_line(stop: Stop) -> &'static str
    ensures { result.now ≡ error_line stop }
{
    match stop {
        Stop::Read => "picklestep: cannot read\n",
        Stop::Write => "picklestep: cannot write\n",
        Stop::TooLarge => "picklestep: too large\n",
        Stop::Memory => "picklestep: out of memory\n",
    }
}

/// Writes the line of a stop, and answers the status. Where that cannot be written nothing is done.
fn report<E: Sink>(stop: Stop, errors: &mut E) -> u8
    ensures { IsReported stop (E.told errors.old) (E.told errors.new) result }
{
    let _ = write_all(errors, error_line(stop).as_bytes());
    NO_ANSWER
}

/// Writes why the words are no task, and answers the status.
fn report_usage<E: Sink>(alloc: Global, usage: &Usage, errors: &mut E) -> u8
    ensures status { result ≡ no_answer }
    ensures memory { IsMemory usage.now → IsReported Stop.Memory (E.told errors.old) (E.told errors.new) result }
{
    match usage {
        Usage::Words(error) if error.kind() != ErrorKind::OutOfMemory => {
            match format!(in alloc; "{error}") {
                Ok(text) => {
                    let _ = write_all(errors, text.as_bytes());
                    NO_ANSWER
                }
                Err(_) => report(Stop::Memory, errors),
            }
        }
        _ => report(Stop::Memory, errors),
    }
}

/// The status of an answer; a stop is reported.
pub fn close<E: Sink>(answer: Result<u8, Stop>, errors: &mut E) -> u8
    ensures { Closes answer (E.told errors.old) (E.told errors.new) result }
{
    match answer {
        Ok(status) => status,
        Err(stop) => report(stop, errors),
    }
}

/// Does what the words ask for, and answers the program's status.
fn answer_words<R: Asker<Buffered<K>>, K: Sink + Drop, F: Files, E: Sink>(
    alloc: Global,
    words: &[&str],
    source: &mut R,
    page: &mut Buffered<K>,
    files: &mut F,
    errors: &mut E,
) -> u8
    requires handed { (⟦<Buffered<K> as Sink>⟧.told page.old).held ≡ 0 }
    ensures { AnswersWords (reports F.bytes_of F.refuses F.Opened.remaining F.Opened.failures F.took F.loses)
        (map (λ w. w.now) words.now) files.old files.new (gives (R.remaining source.old) (R.failures source.old))
        (gives (R.remaining source.new) (R.failures source.new)) (K.told (device_of page.old)) (K.told (device_of page.new)) (E.told errors.old)
        (E.told errors.new) result }
{
    match task_of(alloc, words) {
        Ok(task) => {
            let answer = carry_out(alloc, &task, source, page, files);
            close(answer, errors)
        }
        Err(usage) => report_usage(alloc, &usage, errors),
    }
}

/// The texts of words.
fn texts_of(alloc: Global, words: &[String]) -> Result<Vec<&str>, AllocError>
    ensures { IfOk result (λ texts. map (λ w. w.now) texts.items ≡ map string_bytes words.now) }
{
    let mut texts = Vec::new(alloc);
    for word in words {
        texts.push(word.as_str())?;
    }
    Ok(texts)
}

/// Does what the words of the command line ask for, the program's name first, and answers the program's status: that of `carry_out`, or
/// 2 where the words are no task, where a file of them cannot be read, and after a stop, each of which is reported.
pub fn answer<R: Asker<Buffered<K>>, K: Sink + Drop, F: Files, E: Sink>(
    alloc: Global,
    given: &[String],
    source: &mut R,
    page: &mut Buffered<K>,
    files: &mut F,
    errors: &mut E,
) -> u8
    requires handed { (⟦<Buffered<K> as Sink>⟧.told page.old).held ≡ 0 }
    ensures { Answers (reports F.bytes_of F.refuses F.Opened.remaining F.Opened.failures F.took F.loses)
        (map string_bytes given.now) files.old files.new (gives (R.remaining source.old) (R.failures source.old))
        (gives (R.remaining source.new) (R.failures source.new)) (K.told (device_of page.old)) (K.told (device_of page.new)) (E.told errors.old)
        (E.told errors.new) result }
{
    let words = match with_files(alloc, files, given) {
        Ok(words) => words,
        Err(stop) => return report(stop, errors),
    };
    match texts_of(alloc, words.as_slice()) {
        Ok(texts) => answer_words(alloc, texts.as_slice(), source, page, files, errors),
        Err(_) => report(Stop::Memory, errors),
    }
}
