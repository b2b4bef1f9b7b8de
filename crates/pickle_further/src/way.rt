//! How bytes are read, and where the reading stands.

use pickle_lenient::Frames;

/// Which pickles of the bytes are read.
#[derive(Clone, Copy, Debug, PartialEq, Eq)]
pub enum Pickles {
    /// The first one, up to its STOP.
    First,
    /// All, one after another, each as a loader that begins anew reads it.
    All,
    /// All, as one loader reads them that keeps its memo.
    OneMemo,
}

/// How bytes are read.
#[derive(Clone, Copy)]
pub struct Way {
    /// Which pickles.
    pub pickles: Pickles,
    /// What the loader does with frames.
    pub frames: Frames,
}

/// Where an item is.
#[derive(Clone, Copy)]
pub struct Spot {
    /// The offset of its first byte.
    pub offset: u64,
    /// How many items were read before it.
    pub place: usize,
    /// How many bytes are in the buffer.
    pub left: u64,
}
