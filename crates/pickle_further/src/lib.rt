//! What a pickle would import and call, and behind the end of these lines what loaders may do that take more. Nothing is imported or
//! called.
//!
//! The lines are those of the machine up to where it refuses an item, where the bytes have a fault, or where loaders disagree. From there
//! on loaders may go on, and a loader that keeps frames in a buffer may read other bytes. What they do is shown in parts of the text of
//! their own.
#![tactic(auto)]

mod deep;
mod engine;
mod going;
mod laws;
mod leads;
mod machine;
mod parts;
mod people;
mod quiet;
mod seek;
mod splits;
mod texts;
mod way;
mod worder;

pub use laws::{lines_come_first, no_line_no_reach_behind, parts_begin_at_lines};
pub use texts::{calls, first_mixed};
pub use way::Pickles;
pub use worder::Worder;
