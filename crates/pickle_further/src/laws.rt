//! Laws of the definitions. The functions do nothing: what they ensure holds of all documents.

ghost use Rattle.pickle_further.specs.Laws.{LinesComeFirst, NoLineNoReachBehind, PartsBeginAtLines};

/// What is said up to the end of the lines is said first, whatever comes behind it, and where the status is 0 that of these lines is.
pub fn lines_come_first()
    ensures { LinesComeFirst }
{}

/// Under the headings too, an item without a line makes no object that comes from elsewhere or from a call, and leaves each of them as
/// it was.
pub fn no_line_no_reach_behind()
    ensures { NoLineNoReachBehind }
{}

/// Under a heading the lines begin with the first item that has one, and what is passed over before it has none.
pub fn parts_begin_at_lines()
    ensures { PartsBeginAtLines }
{}
