//! Laws of the definitions. The functions do nothing: what they ensure holds of all documents.

ghost use Rattle.calls_laws.specs.CallsLaws.{OneText, NoLineNoReach, LineExactly, FirstLinesComeFirst};
ghost use Rattle.calls_laws.specs.LineLaws.{QuotesStay, TextIsItsLines, QuotesReadBack, OneLineOneEvent, LineOfImport, LineOfInst};

/// Each byte string has just one text, with just one status.
pub fn one_text()
    ensures { OneText }
{}

/// An accepted item without a line makes no object that comes from elsewhere or from a call, and leaves each of them as it was.
pub fn no_line_no_reach()
    ensures { NoLineNoReach }
{}

/// An accepted item has a line exactly where such an object, or a view of one, is made, where such an object gets changes, where something
/// or nothing is appended or added to such an object or to a view of one, or at BUILD.
pub fn line_exactly()
    ensures { LineExactly }
{}

/// Whatever a name or a text of a pickle is, in quotes it does not end its line.
pub fn quotes_stay()
    ensures { QuotesStay }
{}

/// Of several pickles the lines of the first come first: those that are shown where only one pickle is read.
pub fn first_lines_come_first()
    ensures { FirstLinesComeFirst }
{}

/// Cut behind its newlines, a text is the line of each item that has one, in order, and the last lines: no name and no text of a pickle
/// makes a line of its own.
pub fn text_is_its_lines()
    ensures { TextIsItsLines }
{}

/// What is in quotes is read back, whatever is behind it: the names and texts of two equal lines are equal.
pub fn quotes_read_back()
    ensures { QuotesReadBack }
{}

/// Two events with one line are one: of one kind, at the same offset, of the same object, with the same number of items, and said in the
/// same words.
pub fn one_line_one_event()
    ensures { OneLineOneEvent }
{}

/// An accepted item that imports an object by names which can be read has exactly the line with these names, its offset and the number of
/// the object.
pub fn line_of_import()
    ensures { LineOfImport }
{}

/// An accepted item that imports a class by names which can be read, and calls it, as INST does, has exactly the line with these names, its
/// offset, the arguments and the number of the object.
pub fn line_of_inst()
    ensures { LineOfInst }
{}
