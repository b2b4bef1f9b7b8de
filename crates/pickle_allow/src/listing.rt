//! What the text of a list is.

use crate::list::Entry;

/// What the text of a list is.
#[derive(Drop)]
pub enum Listing<'a> {
    /// The entries of its lines, in their order.
    Entries(Vec<Entry<'a>>),
    /// The number, from 1, of the first line that is no line of a list.
    Wrong(usize),
}
