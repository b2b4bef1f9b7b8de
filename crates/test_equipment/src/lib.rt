//! What sessions and machines show, as texts and notes made by their readers alone, for tests to compare; a source and a sink
//! that fail after a number of calls; the codes of faults, numbers that look random, and a large pickle. Test equipment.
#![tactic(auto)]

mod chance;
mod drip;
mod faults;
mod pages;
mod samples;
mod session;
mod sip;
mod state;

pub use chance::Chance;
pub use drip::Drip;
pub use faults::code_of;
pub use pages::{insist_on_paper, page_over, paper, taken, written_out};
pub use samples::{LARGE, large};
pub use session::{Note, is_noted, shows, write_session};
pub use sip::Sip;
pub use state::{Comparison, shows_state, write_state};
