//! The form that picklers write: the first place at which a pickle is in another, and why.
#![tactic(auto)]

mod escape;
mod first;
mod held;
mod name;
mod numeral;
mod reason;
mod role;
mod run;
mod so_far;
mod spelled;

pub use first::{fault_reason, first_other};
pub use reason::{Other, Reason};
pub use so_far::FormSoFar;
