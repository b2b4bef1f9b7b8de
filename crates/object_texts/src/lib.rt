//! What a machine shows, as texts: its objects, an object with all that it contains, the stack, the memo; and the report of a document,
//! which says what its items make and how their run ends. Nothing is imported or called.
//!
//! The texts are this project's own; in them `#n` is object n, by its place in the heap.
#![tactic(auto)]

mod content;
mod kind;
mod laws;
mod memo;
mod object;
mod report;
mod show;
mod stack;

pub use laws::one_report;
pub use memo::write_memo;
pub use object::{write_all_next, write_objects};
pub use report::{report_of_bytes, report_of_items, walk_items, write_document_report};
pub use show::write_show;
pub use stack::write_stack;
