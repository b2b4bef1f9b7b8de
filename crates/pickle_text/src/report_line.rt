//! Why an item is refused, and why reading ended.

ghost use Rattle.std.specs.Prelude.{◌≡◌};
ghost use Rattle.pickle_io.specs.Device.{Writes};
ghost use Rattle.pickle_text.specs.ReportLine.{refusal_words, refusal_number, refusal_text, item_text, item_refused, tail_words, fault_byte, fault_text, fault_at, fault_line};

use pickle_doc::TailFault;
use pickle_io::{Failed, Page, write_all, write_decimal, write_hex, write_signed};
use pickle_machine::Refusal;
use pickle_ops::FrontFault;

/// The words of a refusal.
#[tactic(auto, unfolding(crate::specs::ReportLine::refusal_words))]
fn words_of_refusal(refusal: Refusal) -> &'static str
    ensures { result.now ≡ refusal_words refusal }
{
    match refusal {
        Refusal::NoMark => "S1 no mark",
        Refusal::Underflow => "S2 stack underflow",
        Refusal::NoMemoEntry(_) => "S3 no memo entry ",
        Refusal::OddItems => "S4 odd number of items",
        Refusal::WrongKind(_) => "S5 wrong kind #",
        Refusal::BadProtocol(_) => "S6 bad protocol ",
        Refusal::BadExtension(_) => "S7 bad extension ",
        Refusal::NotText(_) => "S8 not a text #",
        Refusal::NotCallable(_) => "S9 not callable #",
        Refusal::NotArguments(_) => "S10 not arguments #",
        Refusal::NotKeywords(_) => "S11 not keywords #",
        Refusal::Memory => "M out of memory",
    }
}

/// Writes the number after the words of a refusal, if it has one.
#[tactic(auto, using(pickle_io::proofs::Devices::text_steps), unfolding(crate::specs::ReportLine::refusal_number))]
fn write_refusal_number<S: Page>(refusal: Refusal, page: &mut S) -> Result<(), Failed>
    ensures { Writes (S.told page.old) (S.told page.new) result (refusal_number refusal) }
{
    match refusal {
        Refusal::NoMark => Ok(()),
        Refusal::Underflow => Ok(()),
        Refusal::NoMemoEntry(key) => write_decimal(key, page),
        Refusal::OddItems => Ok(()),
        Refusal::WrongKind(id) => write_decimal(u64::from(id), page),
        Refusal::BadProtocol(protocol) => write_decimal(protocol, page),
        Refusal::BadExtension(code) => write_signed(i128::from(code), page),
        Refusal::NotText(id) => write_decimal(u64::from(id), page),
        Refusal::NotCallable(id) => write_decimal(u64::from(id), page),
        Refusal::NotArguments(id) => write_decimal(u64::from(id), page),
        Refusal::NotKeywords(id) => write_decimal(u64::from(id), page),
        Refusal::Memory => Ok(()),
    }
}

/// Writes why an item is refused: S1 to S11, or M. Where the sink fails, a beginning of the text was written.
pub fn write_refusal<S: Page>(refusal: Refusal, page: &mut S) -> Result<(), Failed>
    ensures { Writes (S.told page.old) (S.told page.new) result (refusal_text refusal) }
{
    write_all(page, words_of_refusal(refusal).as_bytes())?;
    write_refusal_number(refusal, page)
}

/// Writes the place of an item that is refused, and why. Where the sink fails, a beginning of the text was written.
pub fn write_item_refusal<S: Page>(
    place: usize,
    refusal: Refusal,
    page: &mut S,
) -> Result<(), Failed>
    ensures { Writes (S.told page.old) (S.told page.new) result (item_text place refusal) }
{
    write_decimal(place as u64, page)?;
    write_all(page, b": ")?;
    write_refusal(refusal, page)
}

/// Writes which item is refused, by its place, and why. Where the sink fails, a beginning of the text was written.
pub(crate) fn write_item_refused<S: Page>(
    place: usize,
    refusal: Refusal,
    page: &mut S,
) -> Result<(), Failed>
    ensures { Writes (S.told page.old) (S.told page.new) result (item_refused place refusal) }
{
    write_all(page, b"item ")?;
    write_item_refusal(place, refusal, page)
}

/// The words of a fault.
#[tactic(auto, unfolding(crate::specs::ReportLine::tail_words))]
fn words_of_fault(fault: TailFault) -> &'static str
    ensures { result.now ≡ tail_words fault }
{
    match fault {
        TailFault::Front(FrontFault::Ended) => "F1 ended",
        TailFault::Front(FrontFault::UnknownOpcode(_)) => "F2 unknown opcode 0x",
        TailFault::Front(FrontFault::Truncated) => "F3 truncated",
        TailFault::Front(FrontFault::NegativeLength) => "F4 negative length",
        TailFault::Front(FrontFault::BadArgument) => "F5 bad argument",
        TailFault::FrameInFrame => "F6 frame in a frame",
        TailFault::FramePastEnd => "F7 frame past the end",
        TailFault::FrameCrossed => "F8 frame crossed",
    }
}

/// Writes the byte that is no opcode's code, where that is the fault.
#[tactic(auto, using(pickle_io::proofs::Devices::text_steps), unfolding(crate::specs::ReportLine::fault_byte))]
fn write_fault_byte<S: Page>(fault: TailFault, page: &mut S) -> Result<(), Failed>
    ensures { Writes (S.told page.old) (S.told page.new) result (fault_byte fault) }
{
    match fault {
        TailFault::Front(FrontFault::UnknownOpcode(byte)) => write_hex(&[byte], page),
        _ => Ok(()),
    }
}

/// Writes the fault of a tail, F1 to F8. Where the sink fails, a beginning of the text was written.
pub fn write_fault_text<S: Page>(fault: TailFault, page: &mut S) -> Result<(), Failed>
    ensures { Writes (S.told page.old) (S.told page.new) result (fault_text fault) }
{
    write_all(page, words_of_fault(fault).as_bytes())?;
    write_fault_byte(fault, page)
}

/// Writes the fault of a tail, and the offset in bytes where the tail begins. Where the sink fails, a beginning of the text was written.
pub fn write_fault_at<S: Page>(fault: TailFault, offset: u64, page: &mut S) -> Result<(), Failed>
    ensures { Writes (S.told page.old) (S.told page.new) result (fault_at fault offset) }
{
    write_fault_text(fault, page)?;
    write_all(page, b" at ")?;
    write_decimal(offset, page)
}

/// Writes the line of the fault of a tail that begins at this offset, in bytes. Where the sink fails, a beginning of the line was
/// written.
pub fn write_fault<S: Page>(fault: TailFault, offset: u64, page: &mut S) -> Result<(), Failed>
    ensures { Writes (S.told page.old) (S.told page.new) result (fault_line fault offset) }
{
    write_all(page, b"fault: ")?;
    write_fault_at(fault, offset, page)?;
    write_all(page, b"\n")
}
