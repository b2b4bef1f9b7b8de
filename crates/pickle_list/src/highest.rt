//! The highest protocol among opcodes.

use std::marker::Model;

/// The highest protocol among the opcodes so far, if there are any. It is one number, since the loop over opcodes raises it at each of
/// them: 0 where there are none, else one more than the protocol.
#[derive(Drop)]
pub struct Highest {
    above: u32,
}

impl Model for Highest {
    ghost use Rattle.std.specs.Prelude.{◌≤◌, ℕ, Option};
    ghost use Rattle.pickle_list.specs.Inside.Protocol.{below};

    ghost Value = { Option ℕ };

    ghost view = { λ h. below h.above };

    ghost invariant = { λ h. h.above ≤ 256 };
}

#[tactic(auto, using(crate::proofs::Protocols::protocol_steps))]
impl Highest {
    ghost use Rattle.std.specs.Prelude.{◌≡◌, None};
    ghost use Rattle.pickle_list.specs.Line.{raised};

    /// Of no opcodes.
    pub fn none() -> Highest
        ensures { result ≡ None }
    {
        Highest { above: 0 }
    }

    /// Of one opcode more, which has this protocol.
    #[inline(always)]
    pub fn raise(&mut self, protocol: u8)
        ensures { self.new ≡ raised self.old protocol }
    {
        self.above = self.above.max(u32::from(protocol) + 1);
    }

    /// The protocol.
    pub fn get(&self) -> Option<u32>
        ensures { result ≡ self.now }
    {
        if self.above == 0 {
            None
        } else {
            Some(self.above - 1)
        }
    }
}
