//! Whether any loader that begins at the first of some bytes comes to an import, whatever it does with frames. Nothing is loaded.
//!
//! Where nothing was imported, all that a loader holds is its own. So what an opcode may reach hangs on its argument alone, and on
//! whether a text was made that may be the name of a module. Frames are what lets loaders read differently: at each item a loader may
//! do with them what any loader does.
#![tactic(auto)]

mod answer;
mod granted;
mod item;
mod name;
mod number;
mod opcode;
mod plain;
mod spot;
mod step;
mod visit;
mod waiting;
mod walk;

pub use answer::Reach;
pub use granted::Granted;
pub use opcode::op_reached;
pub use spot::Spot;
pub use walk::first_reach;
