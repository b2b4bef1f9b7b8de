//! The parts in which items are gone over.

/// About how many items a part has. Each part is a call of its own: an engine that compiles functions while they run, as those of
/// browsers do, uses its better code from a later call on, and one call over all items would run in its first code to the end.
pub const ITEMS_OF_A_PART: usize = 4096;

/// What came of a part.
#[derive(Drop)]
pub enum Part<A, E> {
    /// Items may be left, and this is how far it went.
    More(A),
    /// It was the last part, and this is what it came to.
    End(E),
}
