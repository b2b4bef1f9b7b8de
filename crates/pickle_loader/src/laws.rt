//! Laws of the definitions. The functions do nothing: what they ensure holds of all documents and all environments.

ghost use Rattle.pickle_loader.specs.Laws.{LoadsAreListed, ActsHaveLines, AllListed, NoLineNoAct};
ghost use Rattle.pickle_loader.specs.Reader.{OpsAreFetched, FramesOnlyEnd};
ghost use Rattle.pickle_loader.specs.FlatStack.{OneStack};
ghost use Rattle.pickle_loader.specs.Beyond.{KeysAgree, WideMovesAreFollowed, WhatIsMissingRaises, FillsAreFollowed, AStepBeyond};
ghost use Rattle.pickle_loader.specs.Onward.{NothingBeyond, LinesAreRead, BufferedIsRead, LossIsFound};
ghost use Rattle.pickle_loader.specs.Bytes.{BytesAreListed, NothingElse};
ghost use Rattle.pickle_loader.specs.ByFrames.{FramedIsBytes, NothingBeyondByFrames, NothingElseByFrames, EachActHasItsLine, EachActInCHasItsLine};
ghost use Rattle.pickle_loader.specs.Text.{WholeTextIsItsLines, OneWholeText, EachReachHasItsLine, DetailTellsAlike};
ghost use Rattle.pickle_loader.specs.EventLine.{EventLinesApart};
ghost use Rattle.pickle_loader.specs.Import.{OnlyImportsSayImport};
ghost use Rattle.pickle_loader.specs.FindClass.{FoundIsSaid};
ghost use Rattle.pickle_loader.specs.Callee.{OneLineOneCallee};
ghost use Rattle.pickle_loader.specs.OneMemo.{NothingElseWithOneMemo, NothingElseWithOneMemoInC};
ghost use Rattle.pickle_loader.specs.ShownFile.{NothingElseInAFile, NothingElseInAFileWithOneMemo, UpToTheEndInAFile};
ghost use Rattle.pickle_loader.specs.ShortRead.{PipeIsFile, EachActOfAPipeHasItsLine};
ghost use Rattle.pickle_loader.specs.CLoad.{OneLoad, NothingBeyondInC, NothingElseInAStream, NothingElseInC};

/// What the unpickler does in any environment is what the lines tell, as far as it does not raise.
pub fn loads_are_listed()
    ensures { LoadsAreListed }
{}

/// An item that tells something has a line.
pub fn acts_have_lines()
    ensures { ActsHaveLines }
{}

/// Where the reading ends with status 0, the lines tell all that the unpickler does.
pub fn all_listed()
    ensures { AllListed }
{}

/// The opcodes of a document are those that the unpickler reads from its bytes.
pub fn ops_are_fetched()
    ensures { OpsAreFetched }
{}

/// What the unpickler does with bytes in any environment is what the lines tell, as far as items are accepted.
pub fn bytes_are_listed()
    ensures { BytesAreListed }
{}

/// Where the reading ends with status 0, the unpickler does nothing else, however long it runs, and with no other values than the lines say.
pub fn nothing_else()
    ensures { NothingElse }
{}

/// The stack of the unpickler in C, one list with marks and a fence, is the stack and metastack of the one in Python.
pub fn one_stack()
    ensures { OneStack }
{}

/// A whole load by the unpickler in C is one by the unpickler in Python, but for what it asks before it does anything, and for the look-up
/// where nothing is put in.
pub fn one_load()
    ensures { OneLoad }
{}

/// Whatever the unpickler in C does is a beginning of what the lines tell, behind an end too, and with the values that they say.
pub fn nothing_beyond_in_c()
    ensures { NothingBeyondInC }
{}

/// Where the reading ends with status 0, the unpickler in C does nothing else, however long it runs, frames ignored, and with no other values.
pub fn nothing_else_in_c()
    ensures { NothingElseInC }
{}

/// Where the reading ends with status 0, the unpickler in C that reads a stream does nothing else either: its buffer loses nothing.
pub fn nothing_else_in_a_stream()
    ensures { NothingElseInAStream }
{}

/// Nor does the one that reads a file which shows some bytes, however many it shows.
pub fn nothing_else_in_a_file()
    ensures { NothingElseInAFile }
{}

/// Where they end otherwise, it does up to the end what the lines tell, and with the values that they say.
pub fn up_to_the_end_in_a_file()
    ensures { UpToTheEndInAFile }
{}

/// An accepted item without a line makes the unpickler do nothing that is listed.
pub fn no_line_no_act()
    ensures { NoLineNoAct }
{}

/// A key of decimal digits is that number to the unpicklers in Python and in C.
pub fn keys_agree()
    ensures { KeysAgree }
{}

/// Where a loader moves as a row that asks for less, the unpickler does what the event of that move tells, as far as it does not raise.
pub fn wide_moves_are_followed()
    ensures { WideMovesAreFollowed }
{}

/// Where an object, a mark or an entry of the memo is missing, the unpickler raises and did nothing, but for INST.
pub fn what_is_missing_raises()
    ensures { WhatIsMissingRaises }
{}

/// Where objects go into a view, the unpickler does what the event of that tells, as far as it does not raise.
pub fn fills_are_followed()
    ensures { FillsAreFollowed }
{}

/// Where a loader does not move as a row that asks for less, the unpickler raises and did nothing that is listed; where it moves, the
/// unpickler does what the event of that move tells, or raises and did a beginning of it.
pub fn a_step_beyond()
    ensures { AStepBeyond }
{}

/// Behind an end too, whatever an unpickler does that reads as loaders read is a beginning of what the lines of that reading tell, and with
/// the values that they say.
pub fn nothing_beyond()
    ensures { NothingBeyond }
{}

/// So is whatever the unpickler in Python does that reads by its own frames.
pub fn nothing_beyond_by_frames()
    ensures { NothingBeyondByFrames }
{}

/// Each act that is listed of it has its line in the text, above the headings or under one.
pub fn each_act_has_its_line()
    ensures { EachActHasItsLine }
{}

/// And each act that is listed of the one in C, in each reading that is in the text.
pub fn each_act_in_c_has_its_line()
    ensures { EachActInCHasItsLine }
{}

/// As long as no opcode is made of a short answer, the unpickler in Python does with a pipe what it does with a file.
pub fn pipe_is_file()
    ensures { PipeIsFile }
{}

/// And each act that is listed of it up to there has its line in the text.
pub fn each_act_of_a_pipe_has_its_line()
    ensures { EachActOfAPipeHasItsLine }
{}

/// One load by its own frames, and a loop of them, is the load of the bytes.
pub fn framed_is_bytes()
    ensures { FramedIsBytes }
{}

/// The lines of a document and those of the part behind their end are lines of one reading, from the first byte on.
pub fn lines_are_read()
    ensures { LinesAreRead }
{}

/// Up to the first bytes that it loses, a reading that keeps frames in a buffer is the one that ignores frames.
pub fn buffered_is_read()
    ensures { BufferedIsRead }
{}

/// The part of a reading with a buffer begins at the first item that loses bytes, or there is none.
pub fn loss_is_found()
    ensures { LossIsFound }
{}

/// Frames never change what the unpickler in Python reads, but only end some readings.
pub fn frames_only_end()
    ensures { FramesOnlyEnd }
{}

/// Cut behind its newlines, the whole text of `calls` is the line of each item that has one, the headings, and the lines that close a part.
pub fn whole_text_is_its_lines()
    ensures { WholeTextIsItsLines }
{}

/// For any bytes there is one whole text, with one status.
pub fn one_whole_text()
    ensures { OneWholeText }
{}

/// Of all lines of the text those of events alone begin with an offset.
pub fn event_lines_apart()
    ensures { EventLinesApart }
{}

/// A line of an import by some names, wherever it stands in the text, is the line of an item that imports by these names.
pub fn only_imports_say_import()
    ensures { OnlyImportsSayImport }
{}

/// The line of an accepted import, or of INST, by names that can be read says what `find_class` imports for them, by the protocol there.
pub fn found_is_said()
    ensures { FoundIsSaid }
{}

/// Lines of what was made that are one line call what is said in the same words, or none of them calls.
pub fn one_line_one_callee()
    ensures { OneLineOneCallee }
{}

/// Whatever an item of a reading lists has its line in the text, above the headings or under one.
pub fn each_reach_has_its_line()
    ensures { EachReachHasItsLine }
{}

/// How much of an argument is shown changes nothing of what is listed.
pub fn detail_tells_alike()
    ensures { DetailTellsAlike }
{}

/// Where `calls --memo kept` ends with status 0, one unpickler that loads again does nothing else, however long it runs, and with no other
/// values.
pub fn nothing_else_with_one_memo()
    ensures { NothingElseWithOneMemo }
{}

/// And so the one in Python with frames of its own.
pub fn nothing_else_by_frames()
    ensures { NothingElseByFrames }
{}

/// And so the one in C, be frames ignored, or in a buffer that STOP ends or leaves.
pub fn nothing_else_with_one_memo_in_c()
    ensures { NothingElseWithOneMemoInC }
{}

/// And so the one in C that reads a file which shows some bytes, where no frame is crossed.
pub fn nothing_else_in_a_file_with_one_memo()
    ensures { NothingElseInAFileWithOneMemo }
{}
