//! The faults of bytes.

use pickle_doc::TailFault;
use pickle_ops::FrontFault;

/// The code of a fault, as the listing has it.
pub fn code_of(fault: TailFault) -> &'static str {
    match fault {
        TailFault::Front(FrontFault::Ended) => "F1",
        TailFault::Front(FrontFault::UnknownOpcode(_)) => "F2",
        TailFault::Front(FrontFault::Truncated) => "F3",
        TailFault::Front(FrontFault::NegativeLength) => "F4",
        TailFault::Front(FrontFault::BadArgument) => "F5",
        TailFault::FrameInFrame => "F6",
        TailFault::FramePastEnd => "F7",
        TailFault::FrameCrossed => "F8",
    }
}
