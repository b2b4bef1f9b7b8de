//! The definition of the command line.

ghost use Rattle.std.specs.Prelude.{◌≡◌, IfOk, false, codes};
ghost use Rattle.clap.specs.Words.{rule_of, app_of, new_app};
ghost use Rattle.program_answers.specs.CommandLine.{file_rule, files_rule, many_rule, unframed_rule, first_rule, memo_rule, full_rule, skip_rule, window_rule, save_rule, json_rule, whole_rule, list_rule, other_rule, extensions_rule, persistent_rule, buffers_rule, on_file, frames_app, json_app, list_app, detailed_app, calls_app, debug_app, form_app, listed_app, gate_app, granted_app, reach_app, members_app, assemble_app, same_app, source_app, opcodes_app, wants_subcommand, program};

use clap::{Arg, ArgAction, Command};
use std::alloc::{AllocError, Global};

/// The most step records that a conversation may be asked to keep.
pub const MOST_RECORDS: usize = 1_000_000;

/// What `--many` does.
const MANY: &str = "read FILE as pickles that follow one another: go on after each STOP";

/// What it does for `calls`.
const MANY_OF_CALLS: &str = "changes nothing: all pickles of FILE are read without it too";

/// What it does for `form`.
const MANY_OF_FORM: &str = "changes nothing: FILE is to be one pickle";

/// What it does for `same`.
const MANY_OF_SAME: &str =
    "read both files as pickles that follow one another: go on after each STOP";

/// The argument of a task that is done on one file.
fn file_argument<'a>(alloc: Global) -> Arg<'a>
    ensures rule { rule_of result ≡ file_rule }
    ensures local { result.global ≡ false }
{
    Arg::new(alloc, "FILE")
        .help("the pickle")
        .required(true)
        .action(ArgAction::Set)
}

/// The same of one that may be done on several.
fn files_argument<'a>(alloc: Global) -> Arg<'a>
    ensures rule { rule_of result ≡ files_rule }
    ensures local { result.global ≡ false }
{
    Arg::new(alloc, "FILE")
        .help("a pickle or an archive, or several")
        .required(true)
        .action(ArgAction::Append)
}

/// The list of what a pickle may import and use.
fn list_argument<'a>(alloc: Global) -> Arg<'a>
    ensures rule { rule_of result ≡ list_rule }
    ensures local { result.global ≡ false }
{
    Arg::new(alloc, "LIST")
        .help("the list of names, and of what may be done with each")
        .required(true)
        .action(ArgAction::Set)
}

/// The second of two files that are compared.
fn other_argument<'a>(alloc: Global) -> Arg<'a>
    ensures rule { rule_of result ≡ other_rule }
    ensures local { result.global ≡ false }
{
    Arg::new(alloc, "OTHER")
        .help("the pickle that it is compared with")
        .required(true)
        .action(ArgAction::Set)
}

/// Whether a file is read as several pickles.
fn many_argument<'a>(alloc: Global, help: &'a str) -> Arg<'a>
    ensures rule { rule_of result ≡ many_rule }
    ensures local { result.global ≡ false }
{
    Arg::new(alloc, "many")
        .long("many")
        .help(help)
        .action(ArgAction::SetTrue)
}

/// Whether frames are not looked at.
fn unframed_argument<'a>(alloc: Global) -> Arg<'a>
    ensures rule { rule_of result ≡ unframed_rule }
    ensures local { result.global ≡ false }
{
    Arg::new(alloc, "unframed")
        .long("unframed")
        .help("take FRAME for an opcode like others, as a pickle needs that was cut off")
        .action(ArgAction::SetTrue)
}

/// Whether the answer is JSON.
fn json_argument<'a>(alloc: Global) -> Arg<'a>
    ensures rule { rule_of result ≡ json_rule }
    ensures local { result.global ≡ false }
{
    Arg::new(alloc, "json")
        .long("json")
        .help("print JSON Lines, for programs: an object in each line")
        .action(ArgAction::SetTrue)
}

/// Whether arguments are shown whole.
fn whole_argument<'a>(alloc: Global) -> Arg<'a>
    ensures rule { rule_of result ≡ whole_rule }
    ensures local { result.global ≡ false }
{
    Arg::new(alloc, "whole")
        .long("whole")
        .help(
            "print arguments so that `assemble` makes the same bytes again; with --json this changes nothing",
        )
        .action(ArgAction::SetTrue)
}

/// Whether only the first pickle is read.
fn first_argument<'a>(alloc: Global) -> Arg<'a>
    ensures rule { rule_of result ≡ first_rule }
    ensures local { result.global ≡ false }
{
    Arg::new(alloc, "first")
        .long("first")
        .help("read the first pickle alone, up to its STOP")
        .action(ArgAction::SetTrue)
}

/// Whose memo is kept from one pickle to the next.
fn memo_argument<'a>(alloc: Global) -> Arg<'a>
    ensures rule { rule_of result ≡ memo_rule }
    ensures local { result.global ≡ false }
{
    Arg::new(alloc, "memo")
        .long("memo")
        .value_name("kept")
        .help("read FILE as one unpickler does that loads again and again and keeps its memo")
        .action(ArgAction::Set)
}

/// Whether arguments are shown in full.
fn full_argument<'a>(alloc: Global) -> Arg<'a>
    ensures rule { rule_of result ≡ full_rule }
    ensures local { result.global ≡ false }
{
    Arg::new(alloc, "full")
        .long("full")
        .help("print arguments in full: whole texts, and all parts of a tuple")
        .action(ArgAction::SetTrue)
}

/// Which bytes are left out.
fn skip_argument<'a>(alloc: Global) -> Arg<'a>
    ensures rule { rule_of result ≡ skip_rule }
    ensures local { result.global ≡ false }
{
    Arg::new(alloc, "skip")
        .long("skip")
        .value_name("OFFSET:LENGTH")
        .help("leave bytes of FILE out, as raw numbers between opcodes; offsets stay those in FILE")
        .action(ArgAction::Append)
}

/// Whether a loader knows extension codes.
fn extensions_argument<'a>(alloc: Global) -> Arg<'a>
    ensures rule { rule_of result ≡ extensions_rule }
    ensures local { result.global ≡ false }
{
    Arg::new(alloc, "extensions")
        .long("extensions")
        .help("the loader knows extension codes")
        .action(ArgAction::SetTrue)
}

/// Whether it knows persistent ids.
fn persistent_argument<'a>(alloc: Global) -> Arg<'a>
    ensures rule { rule_of result ≡ persistent_rule }
    ensures local { result.global ≡ false }
{
    Arg::new(alloc, "persistent-ids")
        .long("persistent-ids")
        .help("the loader has a persistent_load")
        .action(ArgAction::SetTrue)
}

/// Whether it was given buffers.
fn buffers_argument<'a>(alloc: Global) -> Arg<'a>
    ensures rule { rule_of result ≡ buffers_rule }
    ensures local { result.global ≡ false }
{
    Arg::new(alloc, "buffers")
        .long("buffers")
        .help("the loader was given buffers")
        .action(ArgAction::SetTrue)
}

/// How many step records a conversation keeps.
fn window_argument<'a>(alloc: Global) -> Arg<'a>
    ensures rule { rule_of result ≡ window_rule }
    ensures local { result.global ≡ false }
{
    Arg::new(alloc, "window")
        .long("window")
        .value_name("N")
        .help(
            "keep the records of the latest N steps; to go back further, run from the start again",
        )
        .value_parser(clap::value_parser!(u32).range(1..=MOST_RECORDS as i64))
        .action(ArgAction::Set)
}

/// Where a conversation saves the pickle.
fn save_argument<'a>(alloc: Global) -> Arg<'a>
    ensures rule { rule_of result ≡ save_rule }
    ensures local { result.global ≡ false }
{
    Arg::new(alloc, "save")
        .long("save")
        .value_name("OUT")
        .help("write the pickle to OUT after the last line")
        .action(ArgAction::Set)
}

/// A command that is done on one file, as one pickle or as several.
fn on_file<'a>(
    alloc: Global,
    name: &'a str,
    about: &'a str,
    many: &'a str,
) -> Result<Command<'a>, AllocError>
    ensures { IfOk result (λ c. app_of c ≡ on_file name.now) }
{
    Command::new(alloc, name)
        .about(about)
        .arg(file_argument(alloc))?
        .arg(many_argument(alloc, many))
}

/// One that may be done without a look at frames.
fn with_frames<'a>(alloc: Global, name: &'a str, about: &'a str) -> Result<Command<'a>, AllocError>
    ensures { IfOk result (λ c. app_of c ≡ frames_app name.now) }
{
    on_file(alloc, name, about, MANY)?.arg(unframed_argument(alloc))
}

/// And whose answer may be JSON.
fn with_json<'a>(alloc: Global, name: &'a str, about: &'a str) -> Result<Command<'a>, AllocError>
    ensures { IfOk result (λ c. app_of c ≡ json_app name.now) }
{
    with_frames(alloc, name, about)?.arg(json_argument(alloc))
}

/// The command that lists opcodes.
fn list_command<'a>(alloc: Global) -> Result<Command<'a>, AllocError>
    ensures { IfOk result (λ c. app_of c ≡ list_app) }
{
    with_json(
        alloc,
        "list",
        "Lists the opcodes of FILE with their offsets and arguments",
    )?
    .arg(whole_argument(alloc))
}

/// The command that prints what a file would import and call, but for what the answer is written as.
fn detailed_command<'a>(alloc: Global) -> Result<Command<'a>, AllocError>
    ensures { IfOk result (λ c. app_of c ≡ detailed_app) }
{
    on_file(
        alloc,
        "calls",
        "Prints what the pickles of FILE would import and call, a line for each opcode that does so",
        MANY_OF_CALLS,
    )?
    .arg(first_argument(alloc))?
    .arg(memo_argument(alloc))?
    .arg(full_argument(alloc))?
    .arg(skip_argument(alloc))
}

/// The command that prints what a file would import and call.
fn calls_command<'a>(alloc: Global) -> Result<Command<'a>, AllocError>
    ensures { IfOk result (λ c. app_of c ≡ calls_app) }
{
    detailed_command(alloc)?.arg(json_argument(alloc))
}

/// The command that answers lines about a file.
fn debug_command<'a>(alloc: Global) -> Result<Command<'a>, AllocError>
    ensures { IfOk result (λ c. app_of c ≡ debug_app) }
{
    with_frames(
        alloc,
        "debug",
        "Runs the commands of standard input on FILE: steps forwards and back, shows, edits",
    )?
    .arg(window_argument(alloc))?
    .arg(save_argument(alloc))?
    .arg(json_argument(alloc))
}

/// The command that says whether a file is in the form that picklers write.
fn form_command<'a>(alloc: Global) -> Result<Command<'a>, AllocError>
    ensures { IfOk result (λ c. app_of c ≡ form_app) }
{
    on_file(
        alloc,
        "form",
        "Says whether FILE is a pickle in the form that picklers write, else where it is not and why",
        MANY_OF_FORM,
    )?
    .arg(json_argument(alloc))
}

/// The command that says whether a file passes a list, but for what the answer is written as.
fn listed_command<'a>(alloc: Global) -> Result<Command<'a>, AllocError>
    ensures { IfOk result (λ c. app_of c ≡ listed_app) }
{
    Command::new(alloc, "gate")
        .about(
            "Says whether all that the pickle in FILE imports and uses is in LIST, else what is not",
        )
        .arg(list_argument(alloc))?
        .arg(files_argument(alloc))
}

/// The command that says whether a file passes a list.
fn gate_command<'a>(alloc: Global) -> Result<Command<'a>, AllocError>
    ensures { IfOk result (λ c. app_of c ≡ gate_app) }
{
    listed_command(alloc)?.arg(json_argument(alloc))
}

/// The command that says whether a loader of a file reaches something, but for what the answer is written as.
fn granted_command<'a>(alloc: Global) -> Result<Command<'a>, AllocError>
    ensures { IfOk result (λ c. app_of c ≡ granted_app) }
{
    Command::new(alloc, "reach")
        .about("Says whether any loader of FILE comes to an import or a call, whatever FILE is")
        .arg(file_argument(alloc))?
        .arg(extensions_argument(alloc))?
        .arg(persistent_argument(alloc))?
        .arg(buffers_argument(alloc))
}

/// The command that says whether a loader of a file reaches something.
fn reach_command<'a>(alloc: Global) -> Result<Command<'a>, AllocError>
    ensures { IfOk result (λ c. app_of c ≡ reach_app) }
{
    granted_command(alloc)?.arg(json_argument(alloc))
}

/// The command that prints the members of an archive.
fn members_command<'a>(alloc: Global) -> Result<Command<'a>, AllocError>
    ensures { IfOk result (λ c. app_of c ≡ members_app) }
{
    Command::new(alloc, "members")
        .about(
            "Prints the members of FILE, if it is an archive in the form that writers write, else where it is not and why",
        )
        .arg(file_argument(alloc))?
        .arg(json_argument(alloc))
}

/// The command that writes the pickle of a text of opcodes.
fn assemble_command<'a>(alloc: Global) -> Result<Command<'a>, AllocError>
    ensures { IfOk result (λ c. app_of c ≡ assemble_app) }
{
    Command::new(alloc, "assemble")
        .about(
            "Writes the pickle whose opcodes stand in FILE as `list` prints them, else says which line is none",
        )
        .arg(file_argument(alloc))
}

/// The command that says whether two files make the same objects.
fn same_command<'a>(alloc: Global) -> Result<Command<'a>, AllocError>
    ensures { IfOk result (λ c. app_of c ≡ same_app) }
{
    on_file(
        alloc,
        "same",
        "Says whether the pickles in FILE and OTHER make the same objects in the same order, else how they differ",
        MANY_OF_SAME,
    )?
    .arg(other_argument(alloc))?
    .arg(json_argument(alloc))
}

/// The command that prints the source of a pickle.
fn source_command<'a>(alloc: Global) -> Result<Command<'a>, AllocError>
    ensures { IfOk result (λ c. app_of c ≡ source_app) }
{
    with_frames(
        alloc,
        "source",
        "Prints the pickle in FILE as statements of Python, which do what loading it does",
    )
}

/// The command that prints the table of opcodes.
fn opcodes_command<'a>(alloc: Global) -> Result<Command<'a>, AllocError>
    ensures { IfOk result (λ c. app_of c ≡ opcodes_app) }
{
    Command::new(alloc, "opcodes")
        .about("Prints the table of all opcodes, with what each does")
        .arg(json_argument(alloc))
}

/// The program's command line, which has no commands yet.
fn without_commands<'a>(alloc: Global) -> Command<'a>
    ensures { app_of result ≡ wants_subcommand (new_app (codes "picklestep")) }
{
    Command::new(alloc, "picklestep")
        .about("Shows what a Python pickle would import, call and build, and runs nothing of it")
        .subcommand_required(true)
}

/// What the program takes on its command line. It fails only where memory runs out.
pub fn command_line<'a>(alloc: Global) -> Result<Command<'a>, AllocError>
    ensures { IfOk result (λ c. app_of c ≡ program) }
{
    // Each command is given over as soon as it is made: one that waits for the others is one more to be dropped where memory runs out.
    without_commands(alloc)
        .subcommand(list_command(alloc)?)?
        .subcommand(with_json(
            alloc,
            "objects",
            "Prints the objects that the opcodes of FILE make, and which of them is the result",
        )?)?
        .subcommand(calls_command(alloc)?)?
        .subcommand(debug_command(alloc)?)?
        .subcommand(form_command(alloc)?)?
        .subcommand(gate_command(alloc)?)?
        .subcommand(reach_command(alloc)?)?
        .subcommand(members_command(alloc)?)?
        .subcommand(assemble_command(alloc)?)?
        .subcommand(same_command(alloc)?)?
        .subcommand(source_command(alloc)?)?
        .subcommand(opcodes_command(alloc)?)
}
