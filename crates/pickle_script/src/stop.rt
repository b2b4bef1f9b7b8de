//! Why a run of the program was not finished.

ghost use Rattle.std.specs.Prelude.{◌≡◌};
ghost use Rattle.pickle_script.specs.Stop.{stop_words, stop_of, stop_of_read, stop_of_text};

use pickle_doc::DocFault;
use pickle_io::{Failed, ReadStop};
use pickle_text::TextStop;
use std::alloc::AllocError;

/// Why a run was not finished.
#[derive(Clone, Copy, Debug, PartialEq, Eq)]
pub enum Stop {
    /// The input cannot be read.
    Read,
    /// The output cannot be written.
    Write,
    /// The input has more bytes than a pickle may have.
    TooLarge,
    /// There was not enough memory.
    Memory,
}

impl From<AllocError> for Stop {
    ghost use Rattle.pickle_script.specs.declared.stop.Stop.TheVariants.{Memory};

    ghost from_gives = { λ _ e. e ≡ Memory };

    fn from(_error: AllocError) -> Stop {
        Stop::Memory
    }
}

impl From<Failed> for Stop {
    ghost use Rattle.pickle_script.specs.declared.stop.Stop.TheVariants.{Write};

    ghost from_gives = { λ _ e. e ≡ Write };

    fn from(_error: Failed) -> Stop {
        Stop::Write
    }
}

impl From<DocFault> for Stop {
    ghost from_gives = { λ f e. e ≡ stop_of f };

    fn from(fault: DocFault) -> Stop {
        match fault {
            DocFault::TooLarge => Stop::TooLarge,
            DocFault::Memory => Stop::Memory,
        }
    }
}

impl From<ReadStop> for Stop {
    ghost from_gives = { λ r e. e ≡ stop_of_read r };

    fn from(stop: ReadStop) -> Stop {
        match stop {
            ReadStop::Failed => Stop::Read,
            ReadStop::TooLarge => Stop::TooLarge,
            ReadStop::Memory => Stop::Memory,
        }
    }
}

impl From<TextStop> for Stop {
    ghost from_gives = { λ f e. e ≡ stop_of_text f };

    fn from(stop: TextStop) -> Stop {
        match stop {
            TextStop::Failed => Stop::Write,
            TextStop::Memory => Stop::Memory,
        }
    }
}

/// The words of a stop. The line that the program prints holds the same.
pub fn line_of(stop: &Stop) -> &'static str
    ensures { result.now ≡ stop_words stop.now }
{
    match stop {
        Stop::Read => "cannot read",
        Stop::Write => "cannot write",
        Stop::TooLarge => "too large",
        Stop::Memory => "out of memory",
    }
}
