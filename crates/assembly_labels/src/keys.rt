//! The labels of a text, as they are kept.

ghost use Rattle.std.specs.Prelude.{◌≤◌, ◌^◌};

use std::collections::BTreeMap;

/// The labels of some lines, each with its place among them, and the key of the first of them.
#[derive(Drop)]
pub(crate) struct Numbers<'a> {
    pub(crate) places: BTreeMap<&'a [u8], u64>,
    pub(crate) first: u128,
    ghost within: { first ≤ 2 ^ 64 },
}
