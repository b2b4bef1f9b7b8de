//! Whether the pickles in two byte strings make the same objects and give the same results. Nothing is imported or called.
#![tactic(auto)]

mod acts;
mod compared;
mod heap;
mod kind;
mod laws;
mod object;
mod pickles;

pub use compared::Compared;
pub use laws::{each_is_its_own, one_comparison, same_have_one_report};
pub use pickles::same_objects;
