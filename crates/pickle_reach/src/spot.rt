//! Where a loader stands.

ghost use Rattle.std.specs.Prelude.{◌≡◌, ◌≢◌, true, false};

use pickle_lenient::Frames;

/// Where a loader stands that has reached nothing.
#[derive(Clone, Copy, Debug)]
pub struct Spot {
    /// The offset of the first byte that it has not read.
    pub offset: usize,
    /// How many bytes are in its buffer.
    pub left: u64,
    /// Whether it may hold a text that names a module.
    pub named: bool,
}

/// What an item comes to.
#[derive(Clone, Copy, Debug)]
pub enum Step {
    /// Something is reached.
    Reaches,
    /// Each loader ends.
    Ends,
    /// A loader may go on here.
    Goes(Spot),
}

/// What looking at a spot came to.
#[derive(Clone, Copy, Debug)]
pub struct Visit {
    /// What a loader does with frames that reaches something there.
    pub reached: Option<Frames>,
    /// Whether this does not hang on what follows the bytes.
    pub settled: bool,
}

/// Whether two spots are one.
pub(crate) fn is_same(one: Spot, other: Spot) -> bool
    ensures yes { result ≡ true → one ≡ other }
    ensures no { result ≡ false → one ≢ other }
{
    one.offset == other.offset && (one.left == other.left && one.named == other.named)
}
