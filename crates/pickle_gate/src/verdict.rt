//! What the gate says.

use pickle_calls::Ending;
use pickle_form::Other;

/// What the gate says of a pickle.
#[derive(Clone, Copy)]
pub enum Verdict {
    /// All of it is allowed.
    Passes,
    /// The first item that is not allowed: its place and its offset.
    Forbidden(usize, u64),
    /// The first place at which it is not as picklers write it, and why.
    Other(Other),
    /// How reading ends, where that is not at STOP.
    Ends(Ending),
}
