//! Why a document ends, and why bytes are no opcode, in words. Each writer writes its text; where the sink fails, a beginning of
//! it was written.

ghost use Rattle.pickle_io.specs.Device.{Writes};
ghost use Rattle.pickle_script.specs.FaultText.{end_text, op_fault_text};

use pickle_doc::{End, TailFault};
use pickle_io::{Failed, Page, write_all};
use pickle_ops::OpFault;
use pickle_text::{write_fault_at, write_fault_text};

/// Writes why a document ends.
#[tactic(auto, unfolding(crate::specs::FaultText::end_text))]
pub(crate) fn write_end<S: Page>(end: End, page: &mut S) -> Result<(), Failed>
    ensures { Writes (S.told page.old) (S.told page.new) result (end_text end) }
{
    match end {
        End::Stopped => write_all(page, b"stopped"),
        End::Fault(fault, offset) => write_fault_at(fault, offset, page),
    }
}

/// Writes why bytes are no opcode, or no argument of an opcode.
#[tactic(auto, unfolding(crate::specs::FaultText::op_fault_text))]
pub(crate) fn write_op_fault<S: Page>(fault: OpFault, page: &mut S) -> Result<(), Failed>
    ensures { Writes (S.told page.old) (S.told page.new) result (op_fault_text fault) }
{
    match fault {
        OpFault::Front(fault) => write_fault_text(TailFault::Front(fault), page),
        OpFault::TooLong => write_all(page, b"F9 too long"),
        OpFault::Memory => write_all(page, b"M out of memory"),
    }
}
