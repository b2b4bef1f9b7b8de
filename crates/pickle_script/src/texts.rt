//! The texts that are asked for once: each is written whole, and nothing is kept for another.

mod calls;
mod document;
mod form;
mod gate;
mod reach;
mod written;

pub use calls::calls_of_file;
pub use document::document_bytes;
pub use gate::{line_for, verdict_status, words_of, write_verdict};
pub use written::{Text, list, list_many, objects, objects_many, write_text};
