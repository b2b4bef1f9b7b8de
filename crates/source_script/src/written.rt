//! The source of a pickle, as text.

ghost use Rattle.std.specs.Prelude.{◌≡◌, ◌≤◌, ◌-◌, length, slice_get};
ghost use Rattle.pickle_io.specs.Device.{Writes};
ghost use Rattle.pickle_doc.specs.Document.{size_limit};
ghost use Rattle.source_literals.specs.Floats.{text_in};
ghost use Rattle.source_script.specs.SourceText.{behind_words, behind_text, behind_line, behind_last, behind, whole_head, part_head, loose_head, is_all, head_text, import_line, statements, whole_source, AnswersSource};

use pickle_doc::Items;
use pickle_io::{Failed, Page, write_all, write_decimal};
use pickle_machine::Machine;
use pickle_script::Stop;
use pickle_source::{Act, Tale, walk_items};
use pickle_text::{Closing, status_of};
use source_literals::Python;
use source_texts::write_source;
use std::alloc::Global;

/// Words of a line.
#[tactic(auto, unfolding(crate::specs::SourceText::behind_words))]
fn behind_words() -> &'static str
    ensures { result.now ≡ behind_words }
{
    " bytes after STOP are not read\n"
}

/// Writes how many bytes follow.
fn write_count<S: Page>(count: u64, page: &mut S) -> Result<(), Failed>
    ensures { Writes (S.told page.old) (S.told page.new) result (behind_text count) }
{
    write_all(page, b"# ")?;
    write_decimal(count, page)?;
    write_all(page, behind_words().as_bytes())
}

/// Writes how many bytes follow, if any do.
#[tactic(auto, unfolding(crate::specs::SourceText::behind_line))]
fn write_behind<S: Page>(count: u64, page: &mut S) -> Result<(), Failed>
    ensures { Writes (S.told page.old) (S.told page.new) result (behind_line count) }
{
    if count == 0 {
        Ok(())
    } else {
        write_count(count, page)
    }
}

/// How many of so many bytes follow the opcode that does the last of these.
fn behind_last(size: u64, acts: &[Act]) -> u64
    ensures { result ≡ behind_last size (slice_get acts.now (length acts.now - 1)) }
{
    match acts.last() {
        Some(act) => size.saturating_sub(act.offset.saturating_add(1)),
        None => 0,
    }
}

/// How many of so many bytes follow the STOP that ends reading.
fn behind(size: u64, tale: &Tale) -> u64
    ensures { result ≡ behind size tale.now.acts.items tale.now.closing }
{
    match tale.closing {
        Closing::Stopped => behind_last(size, tale.acts.as_slice()),
        Closing::Refused(_, _) => 0,
        Closing::Fault(_, _) => 0,
    }
}

/// The first line of a pickle that was read to its end.
#[tactic(auto, unfolding(crate::specs::SourceText::whole_head))]
fn whole_head() -> &'static str
    ensures { result.now ≡ whole_head }
{
    "# What loading the pickle would do. Running this does the same.\n"
}

/// The first line of one that was not, or behind which bytes follow.
#[tactic(auto, unfolding(crate::specs::SourceText::part_head))]
fn part_head() -> &'static str
    ensures { result.now ≡ part_head }
{
    "# What loading the file would do first: the last lines say why this is not all.\n"
}

/// The first line where frames were not looked at.
#[tactic(auto, unfolding(crate::specs::SourceText::loose_head))]
fn loose_head() -> &'static str
    ensures { result.now ≡ loose_head }
{
    "# What the opcodes would do if the lengths of frames counted for nothing. A loader may end earlier, or do something else.\n"
}

/// The line that imports the functions that the statements call.
#[tactic(auto, unfolding(crate::specs::SourceText::import_line))]
fn import_line() -> &'static str
    ensures { result.now ≡ import_line }
{
    "from picklestep.running import *\n"
}

/// Whether a pickle was read to its end, and so many bytes that follow are none.
fn is_all(left: u64, closing: Closing) -> bool
    ensures { result ≡ is_all left closing }
{
    match closing {
        Closing::Stopped => left == 0,
        Closing::Refused(_, _) => false,
        Closing::Fault(_, _) => false,
    }
}

/// The first line.
#[tactic(auto, unfolding(crate::specs::SourceText::head_text))]
fn head_of(loose: bool, left: u64, closing: Closing) -> &'static str
    ensures { result.now ≡ head_text loose left closing }
{
    if loose {
        loose_head()
    } else if is_all(left, closing) {
        whole_head()
    } else {
        part_head()
    }
}

/// Writes the statements of what a machine was stepped over.
fn write_statements<S: Page>(
    python: &Python,
    machine: &Machine,
    tale: &Tale,
    page: &mut S,
) -> Result<(), Failed>
    ensures { Writes (S.told page.old) (S.told page.new) result (statements python.now.texts machine.now.state tale.now.facts.items tale.now.acts.items tale.now.closing) }
{
    write_source(python, machine, tale, page)
}

/// Writes the source of what a machine was stepped over, behind which so many bytes are left.
fn write_whole<S: Page>(
    loose: bool,
    python: &Python,
    left: u64,
    machine: &Machine,
    tale: &Tale,
    page: &mut S,
) -> Result<(), Failed>
    ensures { Writes (S.told page.old) (S.told page.new) result (whole_source loose python.now.texts left machine.now.state tale.now.facts.items tale.now.acts.items tale.now.closing) }
{
    write_all(page, head_of(loose, left, tale.closing).as_bytes())?;
    write_all(page, import_line().as_bytes())?;
    write_statements(python, machine, tale, page)?;
    write_behind(left, page)
}

/// Writes the source of the pickle that the bytes are, or where `many` holds of several pickles that follow one another, and answers its status: 0
/// where reading ends by a STOP, else 1. Where `loose` holds frames are not looked at. There are to be no more bytes than the limit.
///
/// `Stop::Memory` where memory runs out: nothing was written then. `Stop::Write` where the sink fails: what was written then is a beginning of
/// the text. The sink is to be flushed as in `write_text`.
pub fn write_source_of<S: Page>(
    alloc: Global,
    many: bool,
    loose: bool,
    bytes: &[u8],
    page: &mut S,
) -> Result<u8, Stop>
    requires { length bytes.now ≤ size_limit }
    ensures { AnswersSource many loose bytes.now S.told page.old page.new result }
{
    let mut machine = Machine::start(alloc, many);
    let tale = walk_items(alloc, many, Items::new_as(loose, bytes), &mut machine)?;
    let python = Python::of(alloc, &machine)?;
    let left = behind(bytes.len() as u64, &tale);
    write_whole(loose, &python, left, &machine, &tale, page)?;
    Ok(status_of(tale.closing))
}
