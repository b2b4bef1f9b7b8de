//! Laws of the definitions. These functions do nothing.

ghost use Rattle.pickle_machine.specs.Outline.{RefusalsReadOutlines, MovesReadOutlines, FreshReadsOutlines};
ghost use Rattle.pickle_machine.specs.LoaderLaws.{LoadersTakeWhatIsAccepted, LoadersTakeMoves};

/// The refusal of a row depends on the outline alone.
pub fn refusals_read_outlines()
    ensures { RefusalsReadOutlines }
{}

/// The outline of the next state follows from the outline.
pub fn moves_read_outlines()
    ensures { MovesReadOutlines }
{}

/// The outline of the state on which the next move is taken follows from the outline.
pub fn fresh_reads_outlines()
    ensures { FreshReadsOutlines }
{}

/// Loaders take every row that the machine accepts: the row that asks for less is accepted too, leads to the same state, and nothing is
/// put into what the machine would refuse.
pub fn loaders_take_what_is_accepted()
    ensures { LoadersTakeWhatIsAccepted }
{}

/// Loaders take every move of the machine, as one move that leads to the same state.
pub fn loaders_take_moves()
    ensures { LoadersTakeMoves }
{}
