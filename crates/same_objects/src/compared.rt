//! How two pickles compare.

use pickle_calls::Ending;
use pickle_text::Closing;

/// How two pickles compare.
#[derive(Clone, Copy)]
pub enum Compared {
    /// They make the same objects, do the same in the same order, and give the same results.
    Same,
    /// The first is not read to its end, or an opcode of it is refused: how its run ends.
    FirstEnds(Closing),
    /// The second is not, and the first is: how the run of the second ends.
    OtherEnds(Closing),
    /// The objects below this number are the same. The one of this number is not, or one alone has it.
    Object(usize),
    /// The objects are the same, and the results are not.
    Results,
    /// More bytes follow behind the first.
    FirstGoesOn(Ending),
    /// More bytes follow behind the second.
    OtherGoesOn(Ending),
    /// The objects and the results are the same, but they are called or filled in another order.
    Order,
}
