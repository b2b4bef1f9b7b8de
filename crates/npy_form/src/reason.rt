//! Why bytes are no `.npy` file in the form in which numpy writes, and where.

/// A rule that bytes break.
#[derive(Clone, Copy, Debug, PartialEq, Eq)]
pub enum Reason {
    /// The header is cut.
    Cut,
    /// No `.npy` file, or one of another version.
    Version,
    /// The header does not end at a multiple of 16 bytes.
    Length,
    /// The text of the header is not as numpy writes it.
    Text,
    /// Items that are no plain numbers, texts, times, bytes or objects: fields, for one.
    Item,
    /// A number of items or bytes that is too large.
    Number,
    /// More than 64 axes.
    Axes,
    /// There are more or fewer bytes than the header tells.
    Size,
}

/// Why bytes are no `.npy` file in that form.
#[derive(Clone, Copy, Debug, PartialEq, Eq)]
pub struct Refusal {
    /// The first rule that they break.
    pub why: Reason,
    /// The byte at which that is noticed.
    pub offset: usize,
}
