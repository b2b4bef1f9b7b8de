//! How the source of a pickle spells literals: as Python's `repr`. A value that no literal spells is asked of a loader, by an expression that gives it
//! what the pickle has.
#![tactic(auto)]

mod floats;
mod name;
mod python;
mod text;
mod value;

pub use floats::FloatText;
pub use python::Python;
