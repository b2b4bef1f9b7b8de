//! Numbers that look random.

/// A row of numbers that look random, the same in every run.
#[derive(Clone, Copy)]
pub struct Chance {
    state: u64,
}

impl Chance {
    /// The row from this number on.
    pub fn new(state: u64) -> Chance {
        Chance { state }
    }

    /// The next number below a limit; 0 where the limit is 0.
    pub fn below(&mut self, limit: usize) -> usize {
        let next = self.state.wrapping_mul(6_364_136_223_846_793_005);
        self.state = next.wrapping_add(1_442_695_040_888_963_407);
        let high = (self.state >> 33) as usize;
        high.checked_rem(limit).unwrap_or(0)
    }
}
