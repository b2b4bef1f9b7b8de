//! What a pickle would import and call, as JSON Lines: a line for each event, and lines that say how the reading ended, what loaders may do
//! behind the end, and what whoever reads the lines is warned of.
#![tactic(auto)]

mod event;
mod last;
mod laws;
mod mixes;
mod names;
mod people;
mod said;
mod shown;
mod text;
mod told;
mod value;

pub use event::write_event_line;
pub use last::{write_hole, write_status};
pub use laws::{event_lines_read_back, other_lines_read_back, whole_is_lines};
pub use said::{Operand, Said};
pub use told::{ForPrograms, calls_lines};
