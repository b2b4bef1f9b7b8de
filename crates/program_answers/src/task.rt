//! What the words of the command line ask for.

ghost use Rattle.std.specs.Prelude.{◌≡◌, ◌≢◌, ◌≤◌, IsTrue, ℕ, [], Option, Some, None, Ok, IfOk, IfErr, IfSome, map, drop, option_map, true, codes};
ghost use Rattle.std.specs.String.{string_bytes};
ghost use Rattle.clap.specs.Words.{found_of, first_of, one_of, rows_of, fault_of, subcommand_of, subcommand_rows_of, takes};
ghost use Rattle.pickle_script.specs.GivenHoles.{holes_of};
ghost use Rattle.program_answers.specs.CommandLine.{program, most_records, GivesReading, HasReading, HasInput, HasDetail, HasCallsOptions, HasFormat, skips_of, HasOptions, HasText, HasListOptions, more_of, HasGateOptions, HasGranted, IsWindow, matches_of, name_of, IsCommand, IsNamed, FitsOptions, NamesTask, IsBounded, IsMemory};

use crate::command_line::{MOST_RECORDS, command_line};
use clap::error::ErrorKind;
use clap::{ArgMatches, Error};
use pickle_calls::Detail;
use pickle_further::Pickles;
use pickle_io::Holes;
use pickle_reach::Granted;
use pickle_script::first_unfit;
use std::alloc::{AllocError, Global};

/// What is said of options that name no pickles to tell of: other words that are no task clap refuses.
const NO_READING: &str = "'--memo' takes the word 'kept', and does not go with '--first'";

/// What a task is done on.
#[derive(Drop, Debug, PartialEq, Eq)]
pub struct GivenFile {
    /// The name of the file.
    pub file: String,
    /// Whether it is read as several pickles that follow one another.
    pub many: bool,
    /// Whether frames are not looked at: a FRAME is then an opcode like others. Of what is imported and called, and of the form, this says
    /// nothing.
    pub unframed: bool,
}

/// What the program is asked to do, each with the file that it is done on; the table of opcodes needs none.
#[derive(Drop, Debug)]
pub enum Task {
    /// List the opcodes, for people or for programs.
    List(GivenFile, ListOptions),
    /// Print one line per object, in creation order, for people or for programs.
    Objects(GivenFile, Format),
    /// Print what pickles would import and call. Whether the file is read as several pickles changes nothing.
    Calls(GivenFile, CallsOptions),
    /// Print whether the first pickle is in the form that picklers write, for people or for programs. Whether the file is read as several
    /// pickles changes nothing.
    Form(GivenFile, Format),
    /// Print whether the file passes the list that the options name, and whether the further files do, that they name, for people or for
    /// programs.
    Gate(GivenFile, GateOptions),
    /// Print whether a loader of the file reaches something that was given this besides, for people or for programs.
    Reach(GivenFile, Granted, Format),
    /// Print the members of the archive in writers' form that the file is, for people or for programs.
    Members(GivenFile, Format),
    /// Write the bytes of the opcodes that stand in the text that the file is.
    Assemble(GivenFile),
    /// Print whether the pickles in the file make the same objects as those in another, which has this name, for people or for programs.
    Same(GivenFile, String, Format),
    /// Print the source of the pickle in the file, as statements of Python.
    Source(GivenFile),
    /// Read commands from standard input and answer each.
    Debug(GivenFile, Options),
    /// Print the table of opcodes, for people or for programs.
    Opcodes(Format),
}

/// The commands of the program.
#[derive(Clone, Copy)]
pub enum Word {
    /// Lists opcodes.
    List,
    /// Reports objects.
    Objects,
    /// Prints imports and calls.
    Calls,
    /// Holds a conversation.
    Debug,
    /// Judges the form of a pickle.
    Form,
    /// Judges files by a list.
    Gate,
    /// Says what any loader reaches.
    Reach,
    /// Prints the members of an archive.
    Members,
    /// Assembles a text.
    Assemble,
    /// Compares two files.
    Same,
    /// Prints the source of a pickle.
    Source,
    /// Prints the table of opcodes.
    Opcodes,
}

/// What an answer is written as.
#[derive(Clone, Copy, Debug, PartialEq, Eq)]
pub enum Format {
    /// Text for people.
    Text,
    /// JSON Lines for programs: an object in each line.
    Json,
}

/// The options of a listing.
#[derive(Clone, Copy, Debug, PartialEq, Eq)]
pub struct ListOptions {
    /// Whether the text of each argument stands for its bytes alone. Of lines for programs this says nothing.
    pub whole: bool,
    /// Whether it is a text for people or lines for programs.
    pub format: Format,
}

/// The options of what pickles would import and call.
#[derive(Drop, Debug)]
pub struct CallsOptions {
    /// Which pickles are read.
    pub pickles: Pickles,
    /// How much of an argument is shown.
    pub detail: Detail,
    /// The bytes of the file that are left out.
    pub holes: Holes,
    /// Whether it is a text for people or lines for programs.
    pub format: Format,
}

/// What the gate is asked by, and about which files besides the first.
#[derive(Drop, Debug)]
pub struct GateOptions {
    /// The name of the file of the list.
    pub list: String,
    /// The names of the files behind the first.
    pub more: Vec<String>,
    /// Whether it is a text for people or lines for programs.
    pub format: Format,
}

/// The options of a conversation.
#[derive(Drop, Debug, PartialEq, Eq)]
pub struct Options {
    /// Where the document is saved after the last line, if anywhere.
    pub save: Option<String>,
    /// How many step records are kept, from 1 to 1,000,000; all where there is no number.
    pub window: Option<usize>,
    /// Whether each line is answered by a text for people or by a line for programs.
    pub format: Format,
}

/// Why the words are no task.
#[derive(Drop, Debug)]
pub enum Usage {
    /// What clap says of them; its text is for the user. A call for help is no task either: the text goes to standard
    /// error, with status 2.
    Words(Error),
    /// There was not enough memory.
    Memory,
}

impl From<AllocError> for Usage {
    ghost use Rattle.program_answers.specs.declared.task.Usage.TheVariants.{Memory};

    ghost from_gives = { λ _ e. e ≡ Memory };

    fn from(_error: AllocError) -> Usage {
        Usage::Memory
    }
}

impl From<Error> for Usage {
    ghost use Rattle.program_answers.specs.declared.task.Usage.TheVariants.{Words};

    ghost from_gives = { λ error e. e ≡ Words error };

    fn from(error: Error) -> Usage {
        Usage::Words(error)
    }
}

/// A text of its own, where there is one.
fn owned(alloc: Global, text: Option<&str>) -> Result<Option<String>, AllocError>
    ensures { IfOk result (λ r. option_map string_bytes r ≡ option_map (λ t. t.now) text.entry) }
{
    match text {
        None => Ok(None),
        Some(text) => Ok(Some(String::from_str(alloc, text)?)),
    }
}

/// The text behind a name, as a text of its own; no answer where there is none.
fn text_of(alloc: Global, found: &ArgMatches<'_>, name: &str) -> Result<Option<String>, AllocError>
    ensures some { IfOk result (λ r. IfSome r (λ text. HasText name.now (rows_of (found_of found.now)) (string_bytes text))) }
    ensures none { result ≡ Ok None → first_of name.now (rows_of (found_of found.now)) ≡ None }
{
    owned(alloc, found.get_str(name))
}

/// Texts of their own.
fn owned_all(alloc: Global, texts: &[&str]) -> Result<Vec<String>, AllocError>
    ensures { IfOk result (λ all. map string_bytes all.items ≡ map (λ t. t.now) texts.now) }
{
    let mut all = Vec::new(alloc);
    for text in texts {
        let text = String::from_str(alloc, text)?;
        all.push(text)?;
    }
    Ok(all)
}

/// All texts but the first, as texts of their own.
fn owned_behind(alloc: Global, texts: &[&str]) -> Result<Vec<String>, AllocError>
    ensures { IfOk result (λ behind. map string_bytes behind.items ≡ drop 1 (map (λ t. t.now) texts.now)) }
{
    match texts.split_first() {
        Some((_, behind)) => owned_all(alloc, behind),
        None => Ok(Vec::new(alloc)),
    }
}

/// The files behind the first.
fn more_of(alloc: Global, found: &ArgMatches<'_>) -> Result<Vec<String>, AllocError>
    ensures { IfOk result (λ more. map string_bytes more.items ≡ more_of (rows_of (found_of found.now))) }
{
    match found.get_strs("FILE") {
        Some(texts) => owned_behind(alloc, texts),
        None => Ok(Vec::new(alloc)),
    }
}

/// What the gate is asked by, and about which further files; no answer where there is no list.
fn gate_options_of(alloc: Global, found: &ArgMatches<'_>) -> Result<Option<GateOptions>, AllocError>
    ensures some { IfOk result (λ r. IfSome r (HasGateOptions (rows_of (found_of found.now)))) }
    ensures none { result ≡ Ok None → first_of (codes "LIST") (rows_of (found_of found.now)) ≡ None }
{
    let Some(list) = text_of(alloc, found, "LIST")? else {
        return Ok(None);
    };
    let more = more_of(alloc, found)?;
    let format = format_of(found);
    Ok(Some(GateOptions { list, more, format }))
}

/// How many step records are kept; no answer where that is no number within the bounds.
fn window_of(found: &ArgMatches<'_>) -> Option<Option<usize>>
    ensures some { IfSome result (IsWindow (one_of (codes "window") (rows_of (found_of found.now)))) }
    ensures none { result ≡ None → (window : Option ℕ) → IsWindow (one_of (codes "window") (rows_of (found_of found.now))) window → ⊥ }
{
    match found.try_get_one::<usize>("window") {
        Ok(None) => Some(None),
        Ok(Some(count)) => bounded(count),
        Err(_) => None,
    }
}

/// A number of step records, where it is within the bounds.
fn bounded(count: usize) -> Option<Option<usize>>
    ensures some { IfSome result (λ window. (window ≡ Some count) × (1 ≤ count) × (count ≤ most_records)) }
    ensures none { result ≡ None → (1 ≤ count) → (count ≤ most_records) → ⊥ }
{
    if count < 1 || count > MOST_RECORDS {
        None
    } else {
        Some(Some(count))
    }
}

/// The options of a conversation; no answer where the window is none.
fn options_of(alloc: Global, found: &ArgMatches<'_>) -> Result<Option<Options>, AllocError>
    ensures some { IfOk result (λ r. IfSome r (HasOptions (rows_of (found_of found.now)))) }
    ensures none { result ≡ Ok None → (window : Option ℕ) → IsWindow (one_of (codes "window") (rows_of (found_of found.now))) window → ⊥ }
{
    let save = owned(alloc, found.get_str("save"))?;
    let format = format_of(found);
    match window_of(found) {
        Some(window) => Ok(Some(Options {
            save,
            window,
            format,
        })),
        None => Ok(None),
    }
}

/// Whether an option without a value was given.
fn is_given(found: &ArgMatches<'_>, name: &str) -> bool
    ensures yes { IsTrue result → first_of name.now (rows_of (found_of found.now)) ≡ Some (codes "true") }
    ensures no { first_of name.now (rows_of (found_of found.now)) ≡ Some (codes "true") → IsTrue result }
{
    let Some(text) = found.get_str(name) else {
        return false;
    };
    if text == "true" { true } else { false }
}

/// The pickles that are read: all, unless it is the first alone or the memo is kept; no answer for both of these, or for another
/// word of the memo.
fn reading_of(first: bool, memo: Option<&str>) -> Option<Pickles>
    ensures some { IfSome result (GivesReading first (option_map (λ t. t.now) memo.entry)) }
    ensures none { result ≡ None → (pickles : Pickles) → GivesReading first (option_map (λ t. t.now) memo.entry) pickles → ⊥ }
{
    let Some(word) = memo else {
        return if first {
            Some(Pickles::First)
        } else {
            Some(Pickles::All)
        };
    };
    if first {
        return None;
    }
    if word == "kept" {
        Some(Pickles::OneMemo)
    } else {
        None
    }
}

/// The pickles that are read; no answer where the options name none.
fn pickles_of(found: &ArgMatches<'_>) -> Option<Pickles>
    ensures some { IfSome result (HasReading (rows_of (found_of found.now))) }
    ensures none { result ≡ None → (pickles : Pickles) → HasReading (rows_of (found_of found.now)) pickles → ⊥ }
{
    let first = is_given(found, "first");
    reading_of(first, found.get_str("memo"))
}

/// How much of an argument is shown.
fn detail_of(found: &ArgMatches<'_>) -> Detail
    ensures { HasDetail (rows_of (found_of found.now)) result }
{
    if is_given(found, "full") {
        Detail::Full
    } else {
        Detail::Cut
    }
}

/// What an answer is written as.
fn format_of(found: &ArgMatches<'_>) -> Format
    ensures { HasFormat (rows_of (found_of found.now)) result }
{
    if is_given(found, "json") {
        Format::Json
    } else {
        Format::Text
    }
}

/// The options of a listing.
fn list_options_of(found: &ArgMatches<'_>) -> ListOptions
    ensures { HasListOptions (rows_of (found_of found.now)) result }
{
    let whole = is_given(found, "whole");
    ListOptions {
        whole,
        format: format_of(found),
    }
}

/// What a loader was given besides the bytes.
fn granted_of(found: &ArgMatches<'_>) -> Granted
    ensures { HasGranted (rows_of (found_of found.now)) result }
{
    let extensions = is_given(found, "extensions");
    let persistent = is_given(found, "persistent-ids");
    let buffers = is_given(found, "buffers");
    Granted {
        extensions,
        persistent,
        buffers,
    }
}

/// The bytes of the file that are left out; no answer where a text is no hole, or none that stands behind those before it.
fn holes_of(alloc: Global, found: &ArgMatches<'_>) -> Result<Option<Holes>, AllocError>
    ensures { IfOk result (λ holes. holes ≡ holes_of (skips_of (rows_of (found_of found.now)))) }
{
    match found.get_strs("skip") {
        Some(texts) => pickle_script::holes_of(alloc, texts),
        None => pickle_script::holes_of(alloc, &[]),
    }
}

/// The options of what pickles would import and call; no answer where they name no pickles or no holes.
fn calls_options_of(
    alloc: Global,
    found: &ArgMatches<'_>,
) -> Result<Option<CallsOptions>, AllocError>
    ensures some { IfOk result (λ r. IfSome r (HasCallsOptions (rows_of (found_of found.now)))) }
    ensures none { result ≡ Ok None → (options : CallsOptions) → HasCallsOptions (rows_of (found_of found.now)) options → ⊥ }
{
    let Some(pickles) = pickles_of(found) else {
        return Ok(None);
    };
    let Some(holes) = holes_of(alloc, found)? else {
        return Ok(None);
    };
    let detail = detail_of(found);
    Ok(Some(CallsOptions {
        pickles,
        detail,
        holes,
        format: format_of(found),
    }))
}

/// Why the matches of words that clap takes name no task: the first text that is no hole, or else the options of the reading.
fn why_none(alloc: Global, matches: &ArgMatches<'_>) -> Result<String, AllocError> {
    let Some((_, found)) = matches.subcommand() else {
        return String::from_str(alloc, NO_READING);
    };
    let texts = found.get_strs("skip").unwrap_or_default();
    match first_unfit(alloc, texts)? {
        Some(text) => format!(in alloc;
            "'{text}' is no OFFSET:LENGTH, or does not stand behind the bytes that are left out before it"
        ),
        None => String::from_str(alloc, NO_READING),
    }
}

/// The file that a subcommand is done on, and how it is read; no answer where there is none.
fn given_input(alloc: Global, found: &ArgMatches<'_>) -> Result<Option<GivenFile>, AllocError>
    ensures some { IfOk result (λ r. IfSome r (HasInput (rows_of (found_of found.now)))) }
    ensures none { result ≡ Ok None → None ≡ first_of (codes "FILE") (rows_of (found_of found.now)) }
{
    let Some(file) = found.get_str("FILE") else {
        return Ok(None);
    };
    let many = is_given(found, "many");
    let unframed = is_given(found, "unframed");
    let file = String::from_str(alloc, file)?;
    Ok(Some(GivenFile {
        file,
        many,
        unframed,
    }))
}

/// The command of a name.
fn word_of(name: &str) -> Option<Word>
    ensures some { IfSome result (λ word. name.now ≡ name_of word) }
    ensures none { result ≡ None → IsCommand name.now → ⊥ }
{
    if name == "list" {
        Some(Word::List)
    } else if name == "objects" {
        Some(Word::Objects)
    } else if name == "calls" {
        Some(Word::Calls)
    } else if name == "debug" {
        Some(Word::Debug)
    } else if name == "form" {
        Some(Word::Form)
    } else if name == "gate" {
        Some(Word::Gate)
    } else if name == "reach" {
        Some(Word::Reach)
    } else if name == "members" {
        Some(Word::Members)
    } else if name == "assemble" {
        Some(Word::Assemble)
    } else if name == "same" {
        Some(Word::Same)
    } else if name == "source" {
        Some(Word::Source)
    } else if name == "opcodes" {
        Some(Word::Opcodes)
    } else {
        None
    }
}

/// The task of `calls`; no answer where its options name no pickles or no holes.
fn calls_task(
    alloc: Global,
    input: GivenFile,
    found: &ArgMatches<'_>,
) -> Result<Option<Task>, AllocError>
    requires { HasInput (rows_of (found_of found.now)) input }
    ensures some { IfOk result (λ r. IfSome r (IsNamed (matches_of (codes "calls") (rows_of (found_of found.now))))) }
    ensures none { result ≡ Ok None → NamesTask (matches_of (codes "calls") (rows_of (found_of found.now))) → ⊥ }
{
    match calls_options_of(alloc, found)? {
        Some(options) => Ok(Some(Task::Calls(input, options))),
        None => Ok(None),
    }
}

/// The task of `debug`; no answer where the window is none.
fn debug_task(
    alloc: Global,
    input: GivenFile,
    found: &ArgMatches<'_>,
) -> Result<Option<Task>, AllocError>
    requires { HasInput (rows_of (found_of found.now)) input }
    ensures some { IfOk result (λ r. IfSome r (IsNamed (matches_of (codes "debug") (rows_of (found_of found.now))))) }
    ensures none { result ≡ Ok None → NamesTask (matches_of (codes "debug") (rows_of (found_of found.now))) → ⊥ }
{
    match options_of(alloc, found)? {
        Some(options) => Ok(Some(Task::Debug(input, options))),
        None => Ok(None),
    }
}

/// The task of `gate`; no answer where there is no list.
fn gate_task(
    alloc: Global,
    input: GivenFile,
    found: &ArgMatches<'_>,
) -> Result<Option<Task>, AllocError>
    requires { HasInput (rows_of (found_of found.now)) input }
    ensures some { IfOk result (λ r. IfSome r (IsNamed (matches_of (codes "gate") (rows_of (found_of found.now))))) }
    ensures none { result ≡ Ok None → NamesTask (matches_of (codes "gate") (rows_of (found_of found.now))) → ⊥ }
{
    match gate_options_of(alloc, found)? {
        Some(options) => Ok(Some(Task::Gate(input, options))),
        None => Ok(None),
    }
}

/// The task of `same`; no answer where there is no other file.
fn same_task(
    alloc: Global,
    input: GivenFile,
    found: &ArgMatches<'_>,
) -> Result<Option<Task>, AllocError>
    requires { HasInput (rows_of (found_of found.now)) input }
    ensures some { IfOk result (λ r. IfSome r (IsNamed (matches_of (codes "same") (rows_of (found_of found.now))))) }
    ensures none { result ≡ Ok None → NamesTask (matches_of (codes "same") (rows_of (found_of found.now))) → ⊥ }
{
    match text_of(alloc, found, "OTHER")? {
        Some(other) => Ok(Some(Task::Same(input, other, format_of(found)))),
        None => Ok(None),
    }
}

/// The task of a command that was used on this input.
fn task_of_word(
    alloc: Global,
    word: Word,
    input: GivenFile,
    found: &ArgMatches<'_>,
) -> Result<Option<Task>, AllocError>
    requires { HasInput (rows_of (found_of found.now)) input }
    ensures some { IfOk result (λ r. IfSome r (IsNamed (matches_of (name_of word) (rows_of (found_of found.now))))) }
    ensures none { result ≡ Ok None → NamesTask (matches_of (name_of word) (rows_of (found_of found.now))) → ⊥ }
{
    match word {
        Word::List => Ok(Some(Task::List(input, list_options_of(found)))),
        Word::Objects => Ok(Some(Task::Objects(input, format_of(found)))),
        Word::Calls => calls_task(alloc, input, found),
        Word::Debug => debug_task(alloc, input, found),
        Word::Form => Ok(Some(Task::Form(input, format_of(found)))),
        Word::Gate => gate_task(alloc, input, found),
        Word::Reach => Ok(Some(Task::Reach(input, granted_of(found), format_of(found)))),
        Word::Members => Ok(Some(Task::Members(input, format_of(found)))),
        Word::Assemble => Ok(Some(Task::Assemble(input))),
        Word::Same => same_task(alloc, input, found),
        Word::Source => Ok(Some(Task::Source(input))),
        Word::Opcodes => Ok(Some(Task::Opcodes(format_of(found)))),
    }
}

/// The task of a command that was used on no file; no answer where it needs one.
fn fileless_task(word: Word, found: &ArgMatches<'_>) -> Option<Task>
    ensures some { IfSome result (IsNamed (matches_of (name_of word) (rows_of (found_of found.now)))) }
    ensures none { result ≡ None → word ≢ Word.Opcodes }
{
    match word {
        Word::Opcodes => Some(Task::Opcodes(format_of(found))),
        _ => None,
    }
}

/// The task of a command that was used; no answer where it was used on no file, and needs one.
fn used_task(alloc: Global, word: Word, found: &ArgMatches<'_>) -> Result<Option<Task>, AllocError>
    ensures some { IfOk result (λ r. IfSome r (IsNamed (matches_of (name_of word) (rows_of (found_of found.now))))) }
    ensures none { result ≡ Ok None → NamesTask (matches_of (name_of word) (rows_of (found_of found.now))) → ⊥ }
{
    match given_input(alloc, found)? {
        Some(input) => task_of_word(alloc, word, input, found),
        None => Ok(fileless_task(word, found)),
    }
}

/// The task that matches name, if they name one.
fn named(alloc: Global, matches: &ArgMatches<'_>) -> Result<Option<Task>, AllocError>
    ensures some { IfOk result (λ r. IfSome r (IsNamed (subcommand_rows_of matches.now))) }
    ensures none { result ≡ Ok None → NamesTask (subcommand_rows_of matches.now) → ⊥ }
{
    let Some((name, found)) = matches.subcommand() else {
        return Ok(None);
    };
    match word_of(name) {
        Some(word) => used_task(alloc, word, found),
        None => Ok(None),
    }
}

/// What the words of the command line ask for, the program's name first.
///
/// `Usage::Words` has what `clap` says of words that it does not take, and of a call for help; `Usage::Memory` comes where there is no
/// room for what `clap` builds or for a text of the task.
pub fn task_of(alloc: Global, words: &[&str]) -> Result<Task, Usage>
    // Words are taken only where clap finds no fault in them, and the task is one that its matches of them name.
    ensures taken { IfOk result (λ _. fault_of program (map (λ w. w.now) words.now) ≡ []) }
    ensures named { IfOk result (IsNamed (subcommand_of program (map (λ w. w.now) words.now))) }
    ensures bounded { IfOk result IsBounded }

    // Words that clap's definition takes are refused only where the options of `calls` do not fit, or memory runs out.
    ensures refuses { takes program (map (λ w. w.now) words.now) ≡ true → FitsOptions (subcommand_of program (map (λ w. w.now) words.now))
        → IfErr result IsMemory }
{
    let mut command = command_line(alloc)?;
    let matches = command.try_get_matches_from_mut(words)?;
    match named(alloc, &matches)? {
        Some(task) => Ok(task),
        None => {
            let why = why_none(alloc, &matches)?;
            Err(Usage::Words(command.error(ErrorKind::InvalidValue, why.as_str())?))
        }
    }
}
