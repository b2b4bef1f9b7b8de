//! Laws of the definitions. The functions do nothing: what they ensure holds of all lists, all bytes and all environments.

ghost use Rattle.gate_laws.specs.Laws.{ImportsAreInTheList, UsesAreGranted, OnlyWhatIsAllowed, OnlyWhatIsAllowedInC, OnlyWhatIsAllowedInAFile, OnlyWhatIsAllowedOfAPipe, StatesComeLast, StatesArePlain, MakersStay};
ghost use Rattle.gate_laws.specs.Untouched.{NothingIsTouched, NothingIsTouchedInC, NothingIsTouchedInAFile};
ghost use Rattle.gate_laws.specs.Headline.{StatusZeroPermits};

/// Among permitted acts each import is of a name in the list.
pub fn imports_are_in_the_list()
    ensures { ImportsAreInTheList }
{}

/// Among permitted acts each call, state and item of an imported object is a use that the list grants to its name.
pub fn uses_are_granted()
    ensures { UsesAreGranted }
{}

/// Whatever the unpickler in Python does with bytes that pass is permitted by the list: each name that it finds is in it, and each call, state
/// and item is a use that it grants to the name that what is used comes of.
pub fn only_what_is_allowed()
    ensures { OnlyWhatIsAllowed }
{}

/// The list permits whatever the unpickler in C does with such bytes too, from bytes or from a stream.
pub fn only_what_is_allowed_in_c()
    ensures { OnlyWhatIsAllowedInC }
{}

/// The list permits whatever the unpickler in C does with a file of such bytes that shows bytes ahead, however many.
pub fn only_what_is_allowed_in_a_file()
    ensures { OnlyWhatIsAllowedInAFile }
{}

/// The list permits whatever the one in Python does with a pipe of such bytes, as long as no opcode is made of a short answer.
pub fn only_what_is_allowed_of_a_pipe()
    ensures { OnlyWhatIsAllowedOfAPipe }
{}

/// In a pickle that passes an object gets its state once, after its items: behind it no item gives it a state or items, or makes an instance of it; nor
/// does one do so with what was made of it.
pub fn states_come_last()
    ensures { StatesComeLast }
{}

/// In a pickle that passes what has attributes by a state is no state of another object, and no half of one that is a pair.
pub fn states_are_plain()
    ensures { StatesArePlain }
{}

/// In a pickle that passes no item gives a state or items to an object of which an item before it made something.
pub fn makers_stay()
    ensures { MakersStay }
{}

/// Bytes that pass by a list of which no name leads to the unpickler are loaded as if no environment could reach it but by its answers, where the
/// environment leaves the unpickler alone as long as no import leads there.
pub fn nothing_is_touched()
    ensures { NothingIsTouched }
{}

/// The unpickler in C loads such bytes in the same way, from bytes or from a stream.
pub fn nothing_is_touched_in_c()
    ensures { NothingIsTouchedInC }
{}

/// The unpickler in C loads them in the same way from a file that shows bytes ahead, however many.
pub fn nothing_is_touched_in_a_file()
    ensures { NothingIsTouchedInAFile }
{}

/// Where the gate ends with status 0, its list permits all that CPython's unpicklers do with the file: with the pickle that it is, or that stands
/// behind the header of an array; with whatever a reader by the directory gives them of a zip archive, or the reader of `tarfile` of a tar archive; or
/// with what a reader unpacks of a packed file.
pub fn status_zero_permits()
    ensures { StatusZeroPermits }
{}
