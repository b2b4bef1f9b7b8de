//! Whether a file passes a list, and the status of the answer.

ghost use Rattle.std.specs.Prelude.{◌≡◌, ◌≤◌, length};
ghost use Rattle.pickle_io.specs.Device.{Writes};
ghost use Rattle.pickle_doc.specs.Document.{size_limit};
ghost use Rattle.archive_script.specs.SingleText.{Says};
ghost use Rattle.archive_script.specs.GateText.{AnswersWith};
ghost use Rattle.gate_json.specs.GateLine.{IsFileLine, IsNamedLine, IsNoListJson, IsGateLine};

use crate::line;
use archive_script::{judge, judged_status};
use pickle_allow::{Entry, Listing, read_list};
use pickle_doc::LIMIT;
use pickle_io::Page;
use pickle_script::Stop;
use std::alloc::Global;

/// The status where a list is none: nothing is said of the file.
const NO_ANSWER: u8 = 2;

/// Writes whether a file passes by these entries, else the first place at which it does not, and why, as a line of JSON. Answers the status: 0 where
/// it passes, else 1. There are to be no more bytes than the limit. The stops are those of `write_gate_line`.
pub fn write_file_line<S: Page>(
    alloc: Global,
    list: &[Entry<'_>],
    bytes: &[u8],
    page: &mut S,
) -> Result<u8, Stop>
    requires { length bytes.now ≤ size_limit }
    ensures { Says (IsFileLine list.now bytes.now) (S.told page.old) (S.told page.new) result }
{
    let judged = judge(alloc, list, bytes)?;
    line::write_verdict_line(&judged, page)?;
    Ok(judged_status(&judged))
}

/// Writes the same as `write_file_line` with this name of the file, and answers the same status. There are to be no more bytes than the limit. The
/// stops are those of `write_file_line`.
pub fn write_named_line<S: Page>(
    alloc: Global,
    list: &[Entry<'_>],
    name: &[u8],
    bytes: &[u8],
    page: &mut S,
) -> Result<u8, Stop>
    requires { length bytes.now ≤ size_limit }
    ensures { Says (IsNamedLine name.now list.now bytes.now) (S.told page.old) (S.told page.new) result }
{
    let judged = judge(alloc, list, bytes)?;
    line::write_named_line(name, &judged, page)?;
    Ok(judged_status(&judged))
}

/// Writes that a line of a list is no entry, as a line of JSON, and answers the status of no answer. `Stop::Write` where the sink fails: what was
/// written then is a beginning of the line.
pub fn refuse_list_line<S: Page>(line: usize, page: &mut S) -> Result<u8, Stop>
    ensures { Says (IsNoListJson line) (S.told page.old) (S.told page.new) result }
{
    line::write_no_list_line(line, page)?;
    Ok(NO_ANSWER)
}

/// Writes whether the file that the bytes are passes by this list, as `write_file_line` does. Answers the status: 0 where it passes, 1 where it does
/// not, and 2 where a line of the list is no entry: nothing is said of the file then.
///
/// `Stop::TooLarge` where there are more bytes than the limit, and `Stop::Memory` where memory runs out: nothing was written then. `Stop::Write`
/// where the sink fails: what was written then is a beginning of the line. The caller flushes the sink, which may still hold a part of it.
pub fn write_gate_line<S: Page>(
    alloc: Global,
    list: &[u8],
    bytes: &[u8],
    page: &mut S,
) -> Result<u8, Stop>
    ensures { AnswersWith (IsGateLine list.now bytes.now) bytes.now S.told page.old page.new result }
{
    if bytes.len() > LIMIT {
        return Err(Stop::TooLarge);
    }
    match read_list(alloc, list)? {
        Listing::Entries(entries) => write_file_line(alloc, entries.as_slice(), bytes, page),
        Listing::Wrong(line) => refuse_list_line(line, page),
    }
}
