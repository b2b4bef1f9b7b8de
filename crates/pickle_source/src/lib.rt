//! What the Python source of a pickle is made of: which objects have a name in it, and what happens, in the order in which it happens. Of
//! each opcode the source has one statement at most. One that reaches out of the pickle is there for each line of the imports and calls, and
//! for nothing else; what else there is names an object, fills one that has a name, or gives a result. All other objects stand where they are
//! used, as literals.
//!
//! Nothing is imported or called.
#![tactic(auto)]

mod act;
mod fact;
mod laws;
mod notes;
mod value;
mod walk;

pub use act::{Act, What, changes_at};
pub use fact::{Fact, fact_at, is_named};
pub use laws::{acts_come_first, reaches_are_calls};
pub use notes::Notes;
pub use value::{Numeral, is_value};
pub use walk::{Tale, walk_items};
