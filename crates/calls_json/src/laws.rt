//! Laws of the definitions. The functions do nothing: what they ensure holds of all lines.

ghost use Rattle.calls_json.specs.Readable.{EventLinesReadBack, EndingLinesReadBack, OtherLinesReadBack, WholeIsLines};

/// The line of each event is read back as its object, and is one line.
pub fn event_lines_read_back()
    ensures { EventLinesReadBack }
{}

/// The line of how a reading ended is read back as its object, and is one line. So is each other line that is no event.
pub fn other_lines_read_back()
    ensures ends { EndingLinesReadBack }
    ensures others { OtherLinesReadBack }
{}

/// The whole is such lines, one after another.
pub fn whole_is_lines()
    ensures { WholeIsLines }
{}
