//! Laws of the definitions. The functions do nothing: what they ensure holds of all bytes.

ghost use Rattle.same_objects.specs.Laws.{EachIsItsOwn, SameHaveOneReport, OneComparison};

/// What is read to the end makes the same as itself.
pub fn each_is_its_own()
    ensures { EachIsItsOwn }
{}

/// The reports of pickles that make the same are the same text.
pub fn same_have_one_report()
    ensures { SameHaveOneReport }
{}

/// Where two pickles make the same, `same_objects` answers that, or that memory runs out.
pub fn one_comparison()
    ensures { OneComparison }
{}
