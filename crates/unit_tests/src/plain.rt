//! What bytes give, which faults, what sinks take, and what a list with a gap holds.

mod devices;
mod lists;
mod opcodes;
mod whole;
