//! Whether two pickles make the same objects, as a line.

ghost use Rattle.std.specs.Prelude.{◌≡◌, ◌≤◌, length};
ghost use Rattle.pickle_io.specs.Device.{Writes};
ghost use Rattle.pickle_doc.specs.Document.{size_limit};
ghost use Rattle.archive_script.specs.SingleText.{Says};
ghost use Rattle.same_script.specs.SameText.{ends_line, follow_words, goes_on_line, object_words, object_line, order_words, same_words, results_words, first_word, second_word, comparison_line, comparison_status, IsSameText};

use pickle_io::{Failed, Page, write_all};
use pickle_script::Stop;
use pickle_text::{Closing, write_closing, write_id};
use same_objects::{Compared, same_objects};
use std::alloc::Global;

/// Words of a line.
#[tactic(auto, unfolding(crate::specs::SameText::first_word))]
fn first_word() -> &'static str
    ensures { result.now ≡ first_word }
{
    "first"
}

/// Words of a line.
#[tactic(auto, unfolding(crate::specs::SameText::second_word))]
fn second_word() -> &'static str
    ensures { result.now ≡ second_word }
{
    "second"
}

/// Words of a line.
#[tactic(auto, unfolding(crate::specs::SameText::follow_words))]
fn follow_words() -> &'static str
    ensures { result.now ≡ follow_words }
{
    ": bytes follow behind the pickle"
}

/// Words of a line.
#[tactic(auto, unfolding(crate::specs::SameText::object_words))]
fn object_words() -> &'static str
    ensures { result.now ≡ object_words }
{
    "another object "
}

/// A whole line.
#[tactic(auto, unfolding(crate::specs::SameText::order_words))]
fn order_words() -> &'static str
    ensures { result.now ≡ order_words }
{
    "other calls, or in another order\n"
}

/// A whole line.
#[tactic(auto, unfolding(crate::specs::SameText::same_words))]
fn same_words() -> &'static str
    ensures { result.now ≡ same_words }
{
    "the same objects\n"
}

/// A whole line.
#[tactic(auto, unfolding(crate::specs::SameText::results_words))]
fn results_words() -> &'static str
    ensures { result.now ≡ results_words }
{
    "another result\n"
}

/// Writes how the run of one of them ends.
fn write_ends<S: Page>(which: &str, closing: Closing, page: &mut S) -> Result<(), Failed>
    ensures { Writes (S.told page.old) (S.told page.new) result (ends_line which.now closing) }
{
    write_all(page, which.as_bytes())?;
    write_all(page, b": ")?;
    write_closing(closing, page)
}

/// Writes that bytes follow behind one of them.
fn write_goes_on<S: Page>(which: &str, page: &mut S) -> Result<(), Failed>
    ensures { Writes (S.told page.old) (S.told page.new) result (goes_on_line which.now) }
{
    write_all(page, which.as_bytes())?;
    write_all(page, follow_words().as_bytes())?;
    write_all(page, b"\n")
}

/// Writes the first object that is another one.
fn write_object<S: Page>(number: usize, page: &mut S) -> Result<(), Failed>
    ensures { Writes (S.told page.old) (S.told page.new) result (object_line number) }
{
    write_all(page, object_words().as_bytes())?;
    write_id(number as u64, page)?;
    write_all(page, b"\n")
}

/// Writes how two pickles compare.
fn write_compared<S: Page>(compared: Compared, page: &mut S) -> Result<(), Failed>
    ensures { Writes (S.told page.old) (S.told page.new) result (comparison_line compared) }
{
    match compared {
        Compared::Same => write_all(page, same_words().as_bytes()),
        Compared::FirstEnds(closing) => write_ends(first_word(), closing, page),
        Compared::OtherEnds(closing) => write_ends(second_word(), closing, page),
        Compared::Object(number) => write_object(number, page),
        Compared::Results => write_all(page, results_words().as_bytes()),
        Compared::FirstGoesOn(_) => write_goes_on(first_word(), page),
        Compared::OtherGoesOn(_) => write_goes_on(second_word(), page),
        Compared::Order => write_all(page, order_words().as_bytes()),
    }
}

/// The status of an answer: 0 where they make the same, else 1.
pub(crate) fn status_of(compared: Compared) -> u8
    ensures { result ≡ comparison_status compared }
{
    match compared {
        Compared::Same => 0,
        _ => 1,
    }
}

/// Writes the line that says whether the pickles in two byte strings make the same objects, or how they differ, and answers the status: 0 where
/// they do, else 1. There are to be no more bytes than the limit.
///
/// `Stop::Memory` where memory runs out: nothing was written then. `Stop::Write` where the sink fails: what was written then is a beginning of
/// the line. The sink is to be flushed as in `write_text`.
pub fn write_comparison<S: Page>(
    alloc: Global,
    many: bool,
    one: &[u8],
    other: &[u8],
    page: &mut S,
) -> Result<u8, Stop>
    requires one { length one.now ≤ size_limit }
    requires other { length other.now ≤ size_limit }
    ensures { Says (IsSameText many one.now other.now) (S.told page.old) (S.told page.new) result }
{
    let compared = same_objects(alloc, many, one, other)?;
    write_compared(compared, page)?;
    Ok(status_of(compared))
}
