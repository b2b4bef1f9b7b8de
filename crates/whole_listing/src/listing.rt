//! The listing of bytes.

ghost use Rattle.std.specs.Prelude.{◌≤◌, length, IfOk, IfErr};
ghost use Rattle.pickle_doc.specs.Document.{size_limit};
ghost use Rattle.whole_listing.specs.WholeArgs.{IsListedWhole, CutsWhole};

use crate::whole_args::WholeArgs;
use pickle_io::Page;
use pickle_list::list_bytes_with;
use pickle_text::TextStop;
use std::alloc::Global;

/// Writes the listing of the pickle that the bytes are, or of the several pickles, which are not too many, with all items loose or with
/// their frames, and answers its status: 1 where an item is refused or the bytes have a fault, else 0. No item is kept.
///
/// `Memory` (M) comes when memory runs out, `Failed` from the sink; what was written then is a beginning of the listing.
pub fn list_whole<S: Page>(
    alloc: Global,
    many: bool,
    loose: bool,
    bytes: &[u8],
    page: &mut S,
) -> Result<u8, TextStop>
    requires { length bytes.now ≤ size_limit }
    ensures ok { IfOk result (IsListedWhole many loose bytes.now (S.told page.old) (S.told page.new)) }
    ensures err { IfErr result (CutsWhole many loose bytes.now (S.told page.old) (S.told page.new)) }
{
    list_bytes_with::<WholeArgs, S>(alloc, many, loose, bytes, page)
}
