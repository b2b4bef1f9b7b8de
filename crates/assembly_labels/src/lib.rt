//! Labels in a text of opcodes, in place of keys of the memo; and the bytes of such a text.
#![tactic(auto)]

mod digits;
mod keys;
mod labelled;
mod laws;
mod line;
mod numbers;
mod refusal;
mod words;

pub use labelled::assemble_labelled;
pub use laws::{bytes_have_no_labels, bytes_stay, labels_add_nothing};
pub use refusal::LabelRefusal;
