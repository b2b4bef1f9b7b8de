//! Why a text was not written.

use pickle_io::Failed;
use std::alloc::AllocError;

/// Why a text that asks for memory was not written to its end.
#[derive(Clone, Copy, Debug, PartialEq, Eq)]
pub enum TextStop {
    /// The sink failed: a beginning of the text was written.
    Failed,
    /// Memory ran out (M): nothing was written, or a beginning of the text, as the writer says.
    Memory,
}

impl From<Failed> for TextStop {
    ghost use Rattle.std.specs.Prelude.{◌≡◌};
    ghost use Rattle.pickle_text.specs.declared.stop.TextStop.TheVariants as stop;

    ghost from_gives = { λ _ e. e ≡ stop.Failed };

    fn from(_failed: Failed) -> TextStop {
        TextStop::Failed
    }
}

impl From<AllocError> for TextStop {
    ghost use Rattle.std.specs.Prelude.{◌≡◌};
    ghost use Rattle.pickle_text.specs.declared.stop.TextStop.TheVariants as stop;

    ghost from_gives = { λ _ e. e ≡ stop.Memory };

    fn from(_error: AllocError) -> TextStop {
        TextStop::Memory
    }
}
