//! The bytes that are left out, from a file: `--skip @HOLES` stands for `--skip` and a line of HOLES, once for each line.

ghost use Rattle.std.specs.Prelude.{◌≡◌, List, ℕ, [], ◌∷◌, ◌++◌, ◌≤◌, ◌≢◌, length, drop, map, None, IfOk, IfErr, IfSome, OnOk};
ghost use Rattle.std.specs.String.{string_bytes};
ghost use Rattle.std.specs.Str.Lines.{lines};
ghost use Rattle.program_answers.specs.Files.{IsRead, reports};
ghost use Rattle.program_answers.specs.Skips.{skip_word, skip_of, skips, StandFor, AddsFor, LacksLines, LacksWords};

use crate::files::{Files, read_file};
use pickle_script::Stop;
use std::alloc::{AllocError, Global};

/// The option before the bytes that are left out.
const SKIP: &str = "--skip";

/// Adds a word.
fn push(alloc: Global, word: &str, words: &mut Vec<String>) -> Result<(), AllocError>
    ensures { OnOk result (map string_bytes words.new.items ≡ map string_bytes words.old.items ++ (word.now ∷ [])) }
{
    let word = String::from_str(alloc, word)?;
    words.push(word)?;
    Ok(())
}

/// The lines of a text.
fn lines_of(alloc: Global, text: &str) -> Result<Vec<&str>, AllocError>
    ensures { IfOk result (λ v. map (λ line. line.now) v.items ≡ lines text.now) }
{
    text.lines().collect(alloc)
}

/// Adds the words for a line.
fn push_line(alloc: Global, hole: &str, words: &mut Vec<String>) -> Result<(), AllocError>
    ensures { OnOk result (map string_bytes words.new.items ≡ map string_bytes words.old.items ++ skip_of hole.now) }
{
    if !hole.is_empty() {
        push(alloc, SKIP, words)?;
        push(alloc, hole, words)?;
    }
    Ok(())
}

/// Adds `--skip` and a line, once for each line of a text that is not blank.
fn push_lines(alloc: Global, text: &str, words: &mut Vec<String>) -> Result<(), AllocError>
    ensures { OnOk result (map string_bytes words.new.items ≡ map string_bytes words.old.items ++ skips (lines text.now)) }
{
    let lines = lines_of(alloc, text)?;
    for line in &lines {
        push_line(alloc, line.trim(), words)?;
    }
    Ok(())
}

/// Adds the words for the lines of this file. The stops are those of `read_file`, and `Stop::Read` where the file is no text.
fn push_file<F: Files>(
    alloc: Global,
    files: &F,
    path: &str,
    words: &mut Vec<String>,
) -> Result<(), Stop>
    ensures added { OnOk result ((bytes : List ℕ) × IsRead (F.bytes_of files.now path.now) bytes
        × (map string_bytes words.new.items ≡ map string_bytes words.old.items ++ skips (lines bytes))) }
    ensures lacks { IfErr result (LacksLines (reports F.bytes_of F.refuses F.Opened.remaining F.Opened.failures F.took F.loses) files.now path.now) }
{
    let bytes = read_file(alloc, files, path)?;
    let Ok(text) = str::from_utf8(bytes.as_slice()) else {
        return Err(Stop::Read);
    };
    Ok(push_lines(alloc, text, words)?)
}

/// The file of holes that two words name, if they do: `--skip` and the name behind `@`.
fn path_in<'a>(word: &str, next: &'a str) -> Option<&'a str>
    ensures some { IfSome result (λ path. (word.now ≡ skip_word) × (next.now ≡ 64 ∷ path.now)) }
    ensures none { result ≡ None → word.now ≡ skip_word → (path : List ℕ) → next.now ≢ 64 ∷ path }
{
    if word == SKIP {
        next.strip_prefix('@')
    } else {
        None
    }
}

/// Adds the first of some words, or those for which it stands with the next, and answers how many of the next these are.
fn push_first<F: Files>(
    alloc: Global,
    files: &F,
    word: &str,
    behind: &[String],
    words: &mut Vec<String>,
) -> Result<usize, Stop>
    ensures added { IfOk result (λ n. AddsFor (λ path bytes. IsRead (F.bytes_of files.now path) bytes) (word.now ∷ map string_bytes behind.now)
        (map string_bytes (drop n behind.now)) (map string_bytes words.old.items) (map string_bytes words.new.items)) }
    ensures within { IfOk result (λ n. n ≤ length behind.now) }
    ensures lacks { IfErr result (LacksWords (reports F.bytes_of F.refuses F.Opened.remaining F.Opened.failures F.took F.loses) files.now
        (word.now ∷ map string_bytes behind.now)) }
{
    if let Some((next, _)) = behind.split_first() {
        if let Some(path) = path_in(word, next.as_str()) {
            push_file(alloc, files, path, words)?;
            return Ok(1);
        }
    }
    push(alloc, word, words)?;
    Ok(0)
}

/// The words in whose place these stand. The stops are those of `push_file`.
pub fn with_files<F: Files>(alloc: Global, files: &F, given: &[String]) -> Result<Vec<String>, Stop>
    ensures stand { IfOk result (λ words. StandFor (λ path bytes. IsRead (F.bytes_of files.now path) bytes) (map string_bytes given.now)
        (map string_bytes words.items)) }
    ensures lacks { IfErr result (LacksWords (reports F.bytes_of F.refuses F.Opened.remaining F.Opened.failures F.took F.loses) files.now
        (map string_bytes given.now)) }
{
    let mut words = Vec::new(alloc);
    let mut i = 0;
    while i < given.len() {
        let (word, behind) = (&given[i], &given[i + 1..]);
        i += 1 + push_first(alloc, files, word.as_str(), behind, &mut words)?;
    }
    Ok(words)
}
