//! What a loader was given besides the bytes.

/// What a loader was given besides the bytes. `pickle.load` with nothing but a file was given none of it.
#[derive(Clone, Copy, Debug, PartialEq, Eq)]
pub struct Granted {
    /// Whether there are extension codes.
    pub extensions: bool,
    /// Whether it knows persistent ids.
    pub persistent: bool,
    /// Whether it was given buffers.
    pub buffers: bool,
}
