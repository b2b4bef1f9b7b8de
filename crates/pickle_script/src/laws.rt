//! Laws of the definitions. These functions do nothing: what they ensure holds of all bytes.

ghost use Rattle.pickle_script.specs.Conversation.{OneByOne};
ghost use Rattle.pickle_script.specs.GateText.{ZeroWherePassing};
ghost use Rattle.pickle_script.specs.Script.{OneCut};

/// Each byte string is cut into lines, and in one way.
pub fn one_cut()
    ensures { OneCut }
{}

/// The status of the gate's text is 0 exactly where the bytes pass by the entries of the list.
pub fn zero_where_passing()
    ensures { ZeroWherePassing }
{}

/// Lines that are answered one after another give the transcript of all of them, up to one that quits.
pub fn one_by_one()
    ensures { OneByOne }
{}
