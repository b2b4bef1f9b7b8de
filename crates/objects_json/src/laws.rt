//! Laws of the definitions. The functions do nothing: what they ensure holds of all lines.

ghost use Rattle.objects_json.specs.Agreeing.{WordsAgree};
ghost use Rattle.objects_json.specs.Readable.{ObjectLinesReadBack};

/// Each line is read back as its object, and is one line.
pub fn object_lines_read_back()
    ensures { ObjectLinesReadBack }
{}

/// The words of kinds are those of the texts for people.
pub fn words_are_those_of_texts()
    ensures { WordsAgree }
{}
