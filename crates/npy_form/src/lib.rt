//! The form of an `.npy` file: the header as numpy writes it, and then exactly the numbers that it tells, or a pickle.
#![tactic(auto)]

mod array;
mod item;
mod reason;
mod shape;
mod text;

pub use array::{Held, begins_as_array, behind_header, read_array};
pub use reason::{Reason, Refusal};
