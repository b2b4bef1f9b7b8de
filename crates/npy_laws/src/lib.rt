//! Laws of `.npy` files: numpy's reader and the form find the same array. The program does not use them.
#![tactic(auto)]

mod laws;

pub use laws::{numpy_agrees, one_npy, what_is_read_is_written};
