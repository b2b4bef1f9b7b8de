//! What a STOP left, and the last line. `Failed` where the sink fails; a beginning of the text was written then.

ghost use Rattle.std.specs.Prelude.{◌≡◌};
ghost use Rattle.pickle_io.specs.Device.{Writes};
ghost use Rattle.json_lines.specs.Line.{fields_text};
ghost use Rattle.pickle_json.specs.EndFields.{left_fields, left_text, left_line, refusal_code, refusal_words, refusal_fields, fault_code, fault_words, fault_fields, is_of_frame, how_fields, protocol_fields, coded_fields, stopped_fields, stopped_end, refused_fields, refused_end, told_fields, place_fields, tail_fields, fault_end};

use json_lines::{
    begin_line, end_line, write_bool_field, write_integer_field, write_number_field,
    write_text_field,
};
use pickle_doc::TailFault;
use pickle_io::{Failed, Page};
use pickle_machine::Refusal;
use pickle_ops::FrontFault;

/// Writes how many objects and marks STOP left on the stack.
fn write_left_fields<P: Page>(objects: usize, marks: usize, page: &mut P) -> Result<(), Failed>
    ensures { Writes (P.told page.old) (P.told page.new) result (fields_text (left_fields objects marks)) }
{
    write_number_field("objects", objects as u64, page)?;
    write_number_field("marks", marks as u64, page)
}

/// Writes the line of what STOP left on the stack.
fn write_left_text<P: Page>(objects: usize, marks: usize, page: &mut P) -> Result<(), Failed>
    ensures { Writes (P.told page.old) (P.told page.new) result (left_text objects marks) }
{
    begin_line("left", page)?;
    write_left_fields(objects, marks, page)?;
    end_line(page)
}

/// Writes a line where STOP left something on the stack.
#[tactic(auto, using(pickle_io::proofs::Devices::text_steps), unfolding(crate::specs::EndFields::left_line))]
pub fn write_left<P: Page>(objects: usize, marks: usize, page: &mut P) -> Result<(), Failed>
    ensures { Writes (P.told page.old) (P.told page.new) result (left_line objects marks) }
{
    if objects == 0 && marks == 0 {
        Ok(())
    } else {
        write_left_text(objects, marks, page)
    }
}

/// The code of a refusal.
#[tactic(auto, unfolding(crate::specs::EndFields::refusal_code))]
fn code_of_refusal(refusal: Refusal) -> &'static str
    ensures { result.now ≡ refusal_code refusal }
{
    match refusal {
        Refusal::NoMark => "S1",
        Refusal::Underflow => "S2",
        Refusal::NoMemoEntry(_) => "S3",
        Refusal::OddItems => "S4",
        Refusal::WrongKind(_) => "S5",
        Refusal::BadProtocol(_) => "S6",
        Refusal::BadExtension(_) => "S7",
        Refusal::NotText(_) => "S8",
        Refusal::NotCallable(_) => "S9",
        Refusal::NotArguments(_) => "S10",
        Refusal::NotKeywords(_) => "S11",
        Refusal::Memory => "M",
    }
}

/// The words of a refusal.
#[tactic(auto, unfolding(crate::specs::EndFields::refusal_words))]
fn words_of_refusal(refusal: Refusal) -> &'static str
    ensures { result.now ≡ refusal_words refusal }
{
    match refusal {
        Refusal::NoMark => "no mark",
        Refusal::Underflow => "stack underflow",
        Refusal::NoMemoEntry(_) => "no memo entry",
        Refusal::OddItems => "odd number of items",
        Refusal::WrongKind(_) => "wrong kind",
        Refusal::BadProtocol(_) => "bad protocol",
        Refusal::BadExtension(_) => "bad extension",
        Refusal::NotText(_) => "not a text",
        Refusal::NotCallable(_) => "not callable",
        Refusal::NotArguments(_) => "not arguments",
        Refusal::NotKeywords(_) => "not keywords",
        Refusal::Memory => "out of memory",
    }
}

/// Writes the key that the memo lacks, the object that is refused, or the number that is.
#[tactic(auto, using(json_lines::proofs::Lines::fields_steps), unfolding(crate::specs::EndFields::refusal_fields))]
fn write_refusal_fields<P: Page>(refusal: Refusal, page: &mut P) -> Result<(), Failed>
    ensures { Writes (P.told page.old) (P.told page.new) result (fields_text (refusal_fields refusal)) }
{
    match refusal {
        Refusal::NoMark => Ok(()),
        Refusal::Underflow => Ok(()),
        Refusal::NoMemoEntry(key) => write_number_field("memo", key, page),
        Refusal::OddItems => Ok(()),
        Refusal::WrongKind(id) => write_number_field("object", u64::from(id), page),
        Refusal::BadProtocol(protocol) => write_number_field("number", protocol, page),
        Refusal::BadExtension(code) => write_integer_field("number", i128::from(code), page),
        Refusal::NotText(id) => write_number_field("object", u64::from(id), page),
        Refusal::NotCallable(id) => write_number_field("object", u64::from(id), page),
        Refusal::NotArguments(id) => write_number_field("object", u64::from(id), page),
        Refusal::NotKeywords(id) => write_number_field("object", u64::from(id), page),
        Refusal::Memory => Ok(()),
    }
}

/// The code of a fault.
#[tactic(auto, unfolding(crate::specs::EndFields::fault_code))]
fn code_of_fault(fault: TailFault) -> &'static str
    ensures { result.now ≡ fault_code fault }
{
    match fault {
        TailFault::Front(FrontFault::Ended) => "F1",
        TailFault::Front(FrontFault::UnknownOpcode(_)) => "F2",
        TailFault::Front(FrontFault::Truncated) => "F3",
        TailFault::Front(FrontFault::NegativeLength) => "F4",
        TailFault::Front(FrontFault::BadArgument) => "F5",
        TailFault::FrameInFrame => "F6",
        TailFault::FramePastEnd => "F7",
        TailFault::FrameCrossed => "F8",
    }
}

/// The words of a fault.
#[tactic(auto, unfolding(crate::specs::EndFields::fault_words))]
fn words_of_fault(fault: TailFault) -> &'static str
    ensures { result.now ≡ fault_words fault }
{
    match fault {
        TailFault::Front(FrontFault::Ended) => "ended",
        TailFault::Front(FrontFault::UnknownOpcode(_)) => "unknown opcode",
        TailFault::Front(FrontFault::Truncated) => "truncated",
        TailFault::Front(FrontFault::NegativeLength) => "negative length",
        TailFault::Front(FrontFault::BadArgument) => "bad argument",
        TailFault::FrameInFrame => "frame in a frame",
        TailFault::FramePastEnd => "frame past the end",
        TailFault::FrameCrossed => "frame crossed",
    }
}

/// Writes the byte that is no opcode's code, where that is the fault.
#[tactic(auto, using(json_lines::proofs::Lines::fields_steps), unfolding(crate::specs::EndFields::fault_fields))]
fn write_fault_fields<P: Page>(fault: TailFault, page: &mut P) -> Result<(), Failed>
    ensures { Writes (P.told page.old) (P.told page.new) result (fields_text (fault_fields fault)) }
{
    match fault {
        TailFault::Front(FrontFault::UnknownOpcode(byte)) => {
            write_number_field("byte", u64::from(byte), page)
        }
        _ => Ok(()),
    }
}

/// Writes a code and its words.
pub fn write_coded<P: Page>(code: &str, words: &str, page: &mut P) -> Result<(), Failed>
    ensures { Writes (P.told page.old) (P.told page.new) result (fields_text (coded_fields code.now words.now)) }
{
    write_text_field("code", code, page)?;
    write_text_field("words", words, page)
}

/// Writes the highest protocol among the opcodes, if there are any.
#[tactic(auto, using(json_lines::proofs::Lines::fields_steps))]
fn write_protocol<P: Page>(highest: Option<u8>, page: &mut P) -> Result<(), Failed>
    ensures { Writes (P.told page.old) (P.told page.new) result (fields_text (protocol_fields highest)) }
{
    match highest {
        None => Ok(()),
        Some(protocol) => write_number_field("protocol", u64::from(protocol), page),
    }
}

/// Writes how reading ended.
#[tactic(auto, unfolding(crate::specs::EndFields::how_fields))]
pub fn write_how<P: Page>(how: &str, page: &mut P) -> Result<(), Failed>
    ensures { Writes (P.told page.old) (P.told page.new) result (fields_text (how_fields how.now)) }
{
    write_text_field("how", how, page)
}

/// Writes how many bytes are behind STOP, and the highest protocol.
pub fn write_stopped_fields<P: Page>(
    kept: u64,
    highest: Option<u8>,
    page: &mut P,
) -> Result<(), Failed>
    ensures { Writes (P.told page.old) (P.told page.new) result (fields_text (stopped_fields kept highest)) }
{
    write_how("stopped", page)?;
    write_number_field("kept", kept, page)?;
    write_protocol(highest, page)
}

/// Writes the last line after STOP, behind which there are `kept` bytes.
pub fn write_stopped_end<P: Page>(
    kept: u64,
    highest: Option<u8>,
    page: &mut P,
) -> Result<(), Failed>
    ensures { Writes (P.told page.old) (P.told page.new) result (stopped_end kept highest) }
{
    begin_line("end", page)?;
    write_stopped_fields(kept, highest, page)?;
    end_line(page)
}

/// Writes why an item is refused, and the highest protocol.
pub fn write_refused_fields<P: Page>(
    refusal: Refusal,
    highest: Option<u8>,
    page: &mut P,
) -> Result<(), Failed>
    ensures { Writes (P.told page.old) (P.told page.new) result (fields_text (refused_fields refusal highest)) }
{
    write_how("refused", page)?;
    write_coded(code_of_refusal(refusal), words_of_refusal(refusal), page)?;
    write_refusal_fields(refusal, page)?;
    write_protocol(highest, page)
}

/// Writes the last line after an item that is refused.
pub fn write_refused_end<P: Page>(
    refusal: Refusal,
    highest: Option<u8>,
    page: &mut P,
) -> Result<(), Failed>
    ensures { Writes (P.told page.old) (P.told page.new) result (refused_end refusal highest) }
{
    begin_line("end", page)?;
    write_refused_fields(refusal, highest, page)?;
    end_line(page)
}

/// Whether a fault is one of a frame.
fn is_of_frame(fault: TailFault) -> bool
    ensures { result ≡ is_of_frame fault }
{
    match fault {
        TailFault::Front(_) => false,
        TailFault::FrameInFrame => true,
        TailFault::FramePastEnd => true,
        TailFault::FrameCrossed => true,
    }
}

/// Writes which fault there is.
fn write_told<P: Page>(fault: TailFault, page: &mut P) -> Result<(), Failed>
    ensures { Writes (P.told page.old) (P.told page.new) result (fields_text (told_fields fault)) }
{
    write_how("fault", page)?;
    write_coded(code_of_fault(fault), words_of_fault(fault), page)?;
    write_fault_fields(fault, page)
}

/// Writes where a fault is, and whether it is one of a frame.
fn write_place<P: Page>(fault: TailFault, offset: u64, page: &mut P) -> Result<(), Failed>
    ensures { Writes (P.told page.old) (P.told page.new) result (fields_text (place_fields fault offset)) }
{
    write_number_field("offset", offset, page)?;
    write_bool_field("of_frame", is_of_frame(fault), page)
}

/// Writes a fault, where it is, and the highest protocol.
pub fn write_tail_fields<P: Page>(
    fault: TailFault,
    offset: u64,
    highest: Option<u8>,
    page: &mut P,
) -> Result<(), Failed>
    ensures { Writes (P.told page.old) (P.told page.new) result (fields_text (tail_fields fault offset highest)) }
{
    write_told(fault, page)?;
    write_place(fault, offset, page)?;
    write_protocol(highest, page)
}

/// Writes the last line where the bytes from this offset on are no further item.
pub fn write_fault_end<P: Page>(
    fault: TailFault,
    offset: u64,
    highest: Option<u8>,
    page: &mut P,
) -> Result<(), Failed>
    ensures { Writes (P.told page.old) (P.told page.new) result (fault_end fault offset highest) }
{
    begin_line("end", page)?;
    write_tail_fields(fault, offset, highest, page)?;
    end_line(page)
}
