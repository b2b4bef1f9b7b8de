//! Laws of the definitions. The functions do nothing: what they ensure holds of all lines.

ghost use Rattle.json_lines.specs.Readable.{LinesReadBack, LinesEndOnce, PlainLinesReadBack, FieldsArePlain};

/// A line is read back as its object, by the grammar of JSON.
pub fn lines_read_back()
    ensures { LinesReadBack }
{}

/// A line is characters of ASCII that print, and a newline behind them.
pub fn lines_end_once()
    ensures { LinesEndOnce }
{}

/// A line whose fields are no arrays or objects is read back as its object.
pub fn plain_lines_read_back()
    ensures { PlainLinesReadBack }
{}

/// What the writers of fields write can be read back, but for arrays, of which this says nothing.
pub fn fields_are_plain()
    ensures { FieldsArePlain }
{}
