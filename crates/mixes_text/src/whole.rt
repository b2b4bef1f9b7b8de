//! The whole text of `calls`.

ghost use Rattle.std.specs.Prelude.{◌≤◌, length, IfOk, IfErr};
ghost use Rattle.pickle_doc.specs.Document.{size_limit};
ghost use Rattle.pickle_calls.specs.Manner.{manner};
ghost use Rattle.pickle_further.specs.Parts.{wording};
ghost use Rattle.mixes_text.specs.CallsWith.{CompletesCallsIn, CutsCallsIn};

use crate::text::write_mixes;
use crate::words::MixWorder;
use pickle_calls::Detail;
use pickle_further::{Pickles, Worder};
use pickle_io::{Holes, Page};
use pickle_text::TextStop;
use std::alloc::Global;

/// Writes what the pickles of the bytes would import and call, as `pickle_further::calls` does, and behind it, where frames may be mixed,
/// what loaders may take that mix them. Answers the status: that of the lines. The bytes are what is left of a file without these holes, and
/// the offsets that are shown are those in the file. There are to be no more bytes than the limit.
///
/// `Memory` (M) where memory runs out, `Failed` where the sink fails; what was written then is a beginning of the text.
pub fn calls<T: Worder + MixWorder, S: Page>(
    alloc: Global,
    detail: Detail,
    holes: &Holes,
    pickles: Pickles,
    bytes: &[u8],
    page: &mut S,
) -> Result<u8, TextStop>
    requires { length bytes.now ≤ size_limit }
    ensures ok { IfOk result (CompletesCallsIn (wording T.telling T.words) T.mixes (manner detail holes.now) pickles bytes.now (S.told page.old) (S.told page.new)) }
    ensures err { IfErr result (CutsCallsIn (wording T.telling T.words) T.mixes (manner detail holes.now) pickles bytes.now (S.told page.old) (S.told page.new)) }
{
    let status = pickle_further::calls::<T, S>(alloc, detail, holes, pickles, bytes, page)?;
    write_mixes::<T, S>(alloc, detail, holes, pickles, bytes, status, page)?;
    Ok(status)
}
