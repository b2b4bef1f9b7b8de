//! What a list grants to an object.

use crate::list::{Use, Uses};

/// What a list grants to an object: what may be done with it, and with what its calls make.
#[derive(Clone, Copy, Debug, PartialEq, Eq)]
pub struct Grant {
    /// What may be done with it.
    pub now: Uses,
    /// What may be done with what it makes.
    pub made: Uses,
}

impl Uses {
    ghost use Rattle.std.specs.Prelude.{◌≡◌};
    ghost use Rattle.pickle_allow.specs.Allow.{has};

    /// Whether this may be done.
    pub fn has(self, what: Use) -> bool
        ensures { result ≡ has self what }
    {
        match what {
            Use::Call => self.call,
            Use::New => self.new,
            Use::State => self.state,
            Use::Fill => self.fill,
        }
    }
}
