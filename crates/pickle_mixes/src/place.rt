//! Where a loader stands that goes on behind what it reaches.

ghost use Rattle.std.specs.Prelude.{◌≡◌};
ghost use Rattle.pickle_mixes.specs.Acting.{comes_before, is_same, first_place};

/// Where a loader stands that goes on behind what it reaches.
#[derive(Clone, Copy, Debug)]
pub struct Place {
    /// The offset of the first byte that it has not read.
    pub offset: usize,
    /// How many bytes are in its buffer.
    pub left: u64,
}

/// Where each loader stands first.
pub(crate) fn first_place() -> Place
    ensures { result ≡ first_place }
{
    Place { offset: 0, left: 0 }
}

/// Whether a place comes before another: by its offset, and then by its buffer.
pub(crate) fn comes_before(one: Place, other: Place) -> bool
    ensures { result ≡ comes_before one other }
{
    one.offset < other.offset || (one.offset == other.offset && one.left < other.left)
}

/// Whether two places are one.
pub(crate) fn is_same(one: Place, other: Place) -> bool
    ensures { result ≡ is_same one other }
{
    one.offset == other.offset && one.left == other.left
}
