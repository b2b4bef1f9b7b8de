//! Why loaders take nothing.

use pickle_ops::FrontFault;
use std::alloc::AllocError;

/// Why nothing is taken.
#[derive(Clone, Copy, Debug, PartialEq, Eq)]
pub enum NotTaken {
    /// Loaders end at this fault as well.
    Fault(FrontFault),
    /// Memory ran out.
    Memory,
}

impl From<AllocError> for NotTaken {
    ghost use Rattle.std.specs.Prelude.{◌≡◌};
    ghost use Rattle.pickle_lenient.specs.declared.fault.NotTaken.TheVariants as stop;

    ghost from_gives = { λ _ e. e ≡ stop.Memory };

    fn from(_error: AllocError) -> NotTaken {
        NotTaken::Memory
    }
}
