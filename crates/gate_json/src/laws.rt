//! Laws of the lines. The functions do nothing: what they ensure holds of all lists, all bytes and all lines.

ghost use Rattle.gate_json.specs.GateLine.{LinesHaveTexts};
ghost use Rattle.gate_json.specs.Readable.{VerdictLinesReadBack, AnswersAreLines};

/// The status of a line is that of the text for people, whose law says what status 0 means.
pub fn lines_have_texts()
    ensures { LinesHaveTexts }
{}

/// Each line is read back as its object, and is one line. Each answer is such a line.
pub fn verdict_lines_read_back()
    ensures lines { VerdictLinesReadBack }
    ensures answers { AnswersAreLines }
{}
