//! Laws of the definitions. The functions do nothing: what they ensure holds of all lines.

ghost use Rattle.pickle_json.specs.Agreeing.{CodesAgree};
ghost use Rattle.pickle_json.specs.Readable.{ItemLinesReadBack, EndLinesReadBack};
ghost use Rattle.pickle_json.specs.FormReadable.{FormLinesReadBack};
ghost use Rattle.pickle_json.specs.ReachReadable.{ReachLinesReadBack};

/// The line of each opcode is read back as its object.
pub fn item_lines_read_back()
    ensures { ItemLinesReadBack }
{}

/// The line of what a STOP left and the last line are read back as their objects.
pub fn end_lines_read_back()
    ensures { EndLinesReadBack }
{}

/// The line of what is reached is read back as its object.
pub fn reach_lines_read_back()
    ensures { ReachLinesReadBack }
{}

/// The line of whether a pickle is in the form is read back as its object.
pub fn form_lines_read_back()
    ensures { FormLinesReadBack }
{}

/// The codes and words of refusals and faults are those of the texts for people.
pub fn codes_are_those_of_texts()
    ensures { CodesAgree }
{}
