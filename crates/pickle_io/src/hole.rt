//! A hole.

ghost use Rattle.std.specs.Prelude.{◌≡◌};
ghost use Rattle.pickle_io.specs.Holes.{may_follow};

/// No hole ends behind this offset: no file is so long.
pub const MOST: u64 = 1 << 62;

/// Bytes of a file that are left out.
#[derive(Clone, Copy, Debug, PartialEq, Eq)]
pub struct Hole {
    /// The offset of the first of them in the file.
    pub offset: u64,
    /// How many they are. A hole of none leaves nothing out.
    pub size: u64,
}

impl Hole {
    /// Whether it begins at or behind this offset, and there are files that are long enough for it.
    pub fn may_follow(self, from: u64) -> bool
        ensures { result ≡ may_follow from self }
    {
        from <= self.offset && self.offset <= MOST && self.size <= MOST - self.offset
    }
}
