//! Laws of the definitions. The functions do nothing: what they ensure holds of all bytes and all environments.

ghost use Rattle.reach_laws.specs.Reached.{NothingReached, NothingReachedInC, NothingReachedByFrames, WaysAreMixes};
ghost use Rattle.reach_laws.specs.Filed.{FilesAreMixes, FilesThatShowAllAreBytes, NothingReachedInAFile, NothingReachedOfAPipe, EachActOfAFileHasItsLine};
ghost use Rattle.reach_laws.specs.Told.{EachActOfAFileIsTold};
ghost use Rattle.reach_laws.specs.Placed.{EachActOfAMixHasItsPlace, EachActInCHasItsPlace, EachActOfAFileHasItsPlace};

/// Where `first_reach` answers nothing, the unpickler in Python reaches nothing, whatever mix of ways it reads by.
pub fn nothing_reached()
    ensures { NothingReached }
{}

/// Where `first_reach` answers nothing, the unpickler in C reaches nothing either.
pub fn nothing_reached_in_c()
    ensures { NothingReachedInC }
{}

/// Where `first_reach` answers nothing, the unpickler in Python that reads each frame by itself reaches nothing either.
pub fn nothing_reached_by_frames()
    ensures { NothingReachedByFrames }
{}

/// Each way of reading is a mix.
pub fn ways_are_mixes()
    ensures { WaysAreMixes }
{}

/// Each load by the unpickler in C of a file that shows some bytes ahead is a mix too.
pub fn files_are_mixes()
    ensures { FilesAreMixes }
{}

/// A file that shows all it has is read as its bytes.
pub fn files_that_show_all_are_bytes()
    ensures { FilesThatShowAllAreBytes }
{}

/// Where `first_reach` answers nothing, the unpickler in C reaches nothing in such a file either.
pub fn nothing_reached_in_a_file()
    ensures { NothingReachedInAFile }
{}

/// Where `first_reach` answers nothing, the one in Python that reads a pipe reaches nothing either, as long as no opcode is made of a short
/// answer.
pub fn nothing_reached_of_a_pipe()
    ensures { NothingReachedOfAPipe }
{}

/// As long as it loses no byte of a frame, or shows no frame, each act of a load of a file has its line.
pub fn each_act_of_a_file_has_its_line()
    ensures { EachActOfAFileHasItsLine }
{}

/// Each act of a load of a file has its line in the text of `calls`; or that says from where frames may be mixed, and the opcode that does the
/// act has its line there, unless another line says that there are too many ways to mix them.
pub fn each_act_of_a_file_is_told()
    ensures { EachActOfAFileIsTold }
{}

/// Each act of a load by the unpickler in Python, whatever way each item is read in, is done by an item whose place `acting_places` finds,
/// unless there are too many ways.
pub fn each_act_of_a_mix_has_its_place()
    ensures { EachActOfAMixHasItsPlace }
{}

/// Each act of the unpickler in C is done by such an item too, unless there are too many ways.
pub fn each_act_in_c_has_its_place()
    ensures { EachActInCHasItsPlace }
{}

/// Each act of its load of a file is done by such an item too, however many bytes that file shows at each of its turns.
pub fn each_act_of_a_file_has_its_place()
    ensures { EachActOfAFileHasItsPlace }
{}
