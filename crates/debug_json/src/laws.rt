//! Laws of the definitions. The functions do nothing: what they ensure holds of all sessions and lines.

ghost use Rattle.debug_json.specs.Says.{SaidIsPrinted};
ghost use Rattle.debug_json.specs.Agreeing.{CodesAgree, RefusalsAgree};
ghost use Rattle.debug_json.specs.Readable.{AnswersReadBack};

/// What is said in JSON is what the text for people tells.
pub fn said_is_printed()
    ensures { SaidIsPrinted }
{}

/// The codes of refusals are those of the texts for people, and so are the words that no number interrupts. What is a refusal has a text
/// that is one.
pub fn refusals_are_those_of_texts()
    ensures codes { CodesAgree }
    ensures refusals { RefusalsAgree }
{}

/// Each answer is one line, which is read back as its object.
pub fn answers_read_back()
    ensures { AnswersReadBack }
{}
