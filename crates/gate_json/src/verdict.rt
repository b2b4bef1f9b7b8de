//! What the gate says of a pickle, as fields. `Failed` where the sink fails; a beginning of the text was written then.

ghost use Rattle.std.specs.Prelude.{◌≡◌, ◌-◌, None, codes, length, take};
ghost use Rattle.pickle_io.specs.Device.{Writes};
ghost use Rattle.json_lines.specs.Line.{fields_text, ◌⊕◌};
ghost use Rattle.pickle_json.specs.EndFields.{refused_fields};
ghost use Rattle.gate_json.specs.VerdictFields.{item_fields, said_words, not_allowed, forbidden_fields, closing_fields, unsure_fields, ending_fields, verdict_fields, behind_fields};

use crate::fields::{write_behind, write_offset};
use json_lines::{write_bytes_field, write_number_field};
use pickle_calls::Ending;
use pickle_gate::Verdict;
use pickle_io::{Failed, Page};
use pickle_json::{
    write_how, write_other_fields, write_refused_fields, write_stopped_fields, write_tail_fields,
};
use pickle_machine::Refusal;
use pickle_script::words_of;
use pickle_text::Closing;

/// A line without its newline.
fn before_newline(line: &[u8]) -> &[u8]
    ensures { result.now ≡ take (length line.now - 1) line.now }
{
    &line[..line.len().saturating_sub(1)]
}

/// Writes the words of a line, without its newline.
#[tactic(auto, unfolding(crate::specs::VerdictFields::said_words))]
fn write_said<P: Page>(words: &[u8], page: &mut P) -> Result<(), Failed>
    ensures { Writes (P.told page.old) (P.told page.new) result (fields_text (said_words words.now)) }
{
    write_bytes_field("words", "words_hex", before_newline(words), page)
}

/// The name of this verdict.
#[tactic(auto, unfolding(crate::specs::VerdictFields::not_allowed))]
fn not_allowed() -> &'static str
    ensures { result.now ≡ not_allowed }
{
    "not_allowed"
}

/// Writes where an item is that is not allowed, and its words.
fn write_forbidden<P: Page>(offset: u64, words: &[u8], page: &mut P) -> Result<(), Failed>
    ensures { Writes (P.told page.old) (P.told page.new) result (fields_text (forbidden_fields offset words.now)) }
{
    write_how(not_allowed(), page)?;
    write_offset(offset, page)?;
    write_said(words, page)
}

/// Writes which item it is.
#[tactic(auto, unfolding(crate::specs::VerdictFields::item_fields))]
fn write_item<P: Page>(place: usize, page: &mut P) -> Result<(), Failed>
    ensures { Writes (P.told page.old) (P.told page.new) result (fields_text (item_fields place)) }
{
    write_number_field("item", place as u64, page)
}

/// Writes why an item is refused, and which it is.
fn write_refused<P: Page>(place: usize, refusal: Refusal, page: &mut P) -> Result<(), Failed>
    ensures { Writes (P.told page.old) (P.told page.new) result (fields_text (refused_fields refusal None ⊕ item_fields place)) }
{
    write_refused_fields(refusal, None, page)?;
    write_item(place, page)
}

/// Writes how a run ended. `Failed` where the sink fails; a beginning of the text was written then.
pub fn write_closing<P: Page>(closing: Closing, page: &mut P) -> Result<(), Failed>
    ensures { Writes (P.told page.old) (P.told page.new) result (fields_text (closing_fields closing)) }
{
    match closing {
        Closing::Stopped => write_stopped_fields(0, None, page),
        Closing::Refused(place, refusal) => write_refused(place, refusal, page),
        Closing::Fault(fault, offset) => write_tail_fields(fault, offset, None, page),
    }
}

/// Writes that a frame goes on behind the STOP at this offset.
fn write_unsure<P: Page>(offset: u64, page: &mut P) -> Result<(), Failed>
    ensures { Writes (P.told page.old) (P.told page.new) result (fields_text (unsure_fields offset)) }
{
    write_how("unsure", page)?;
    write_offset(offset, page)
}

/// Writes how reading ended.
fn write_ending<P: Page>(ending: Ending, page: &mut P) -> Result<(), Failed>
    ensures { Writes (P.told page.old) (P.told page.new) result (fields_text (ending_fields ending)) }
{
    match ending {
        Ending::Closed(_, closing) => write_closing(closing, page),
        Ending::Unsure(offset) => write_unsure(offset, page),
    }
}

/// Writes whether a pickle passes, or why it does not: `line` is that of `calls` for the item that is not allowed.
pub(crate) fn write_verdict<P: Page>(
    verdict: Verdict,
    line: &[u8],
    page: &mut P,
) -> Result<(), Failed>
    ensures { Writes (P.told page.old) (P.told page.new) result (fields_text (verdict_fields line.now verdict)) }
{
    match verdict {
        Verdict::Passes => write_how("passes", page),
        Verdict::Forbidden(_, offset) => write_forbidden(offset, words_of(line), page),
        Verdict::Other(other) => write_other_fields(other, page),
        Verdict::Ends(ending) => write_ending(ending, page),
    }
}

/// Writes the same of a pickle behind the header of an array.
pub(crate) fn write_verdict_behind<P: Page>(
    verdict: Verdict,
    line: &[u8],
    page: &mut P,
) -> Result<(), Failed>
    ensures { Writes (P.told page.old) (P.told page.new) result (fields_text (behind_fields ⊕ verdict_fields line.now verdict)) }
{
    write_behind(page)?;
    write_verdict(verdict, line, page)
}
