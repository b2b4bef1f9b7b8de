//! What the library for other languages answers, in memory of its caller: texts, conversations, and sessions that stay open in a handle.
//! `picklestep_library` offers these functions to C.
#![tactic(auto)]

mod asked;
pub mod assembled;
pub mod calls_lines;
pub mod compared;
mod conversation;
mod fill;
pub mod gate;
mod handle;
pub mod lines;
mod loose;
pub mod members;
pub mod session;
pub mod talk;
pub mod texts;

pub use asked::GivenHole;
pub use fill::Written;
pub use handle::Handle;
