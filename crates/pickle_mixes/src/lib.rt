//! At which items loaders may act that do with frames at each item what any loader does, and go on behind whatever they reach. Nothing is
//! loaded.
//!
//! Loaders keep frames in a buffer or ignore them, and of a file that shows some bytes ahead a frame may be kept or not, each by itself. So
//! there are many ways to read bytes in which frames end elsewhere than items. What is on a stack is not asked here: at a place the same
//! item is taken whatever came before it.
#![tactic(auto)]

mod acting;
mod laws;
mod look;
mod place;
mod queue;

pub use acting::acting_places;
pub use laws::{places_are_found, places_are_stood_at};
pub use place::Place;
