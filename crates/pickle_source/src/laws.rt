//! Laws of the definitions. The functions do nothing: what they ensure holds of all documents.

ghost use Rattle.pickle_source.specs.Laws.{ActsComeFirst, ReachesAreCalls};

/// What reaches out of the pickle is what the imports and calls tell, in their order and of the same objects.
pub fn reaches_are_calls()
    ensures { ReachesAreCalls }
{}

/// What the first opcodes do comes first.
pub fn acts_come_first()
    ensures { ActsComeFirst }
{}
