//! What the texts about a pickle share. Nothing is imported or called.
//!
//! - Pieces: words with a number or a text behind them, blanks, and numbers at the right of a column.
//! - Why an item is refused, and why reading ended.
//! - The lines that close a text: how many bytes are after STOP, and how the run over the items ended.
//! - The parts in which items are gone over, and why a text was not written to its end.
//!
//! The texts are this project's own; in them `#n` is object n, by its place in the heap.
#![tactic(auto)]

mod blanks;
mod closing;
mod number;
mod part;
mod report_line;
mod stop;
mod words;

pub use blanks::write_blanks;
pub use closing::{Closing, closing_at, status_of, write_closing, write_kept_line};
pub use number::{push_right, write_right};
pub use part::{ITEMS_OF_A_PART, Part};
pub use report_line::{
    write_fault, write_fault_at, write_fault_text, write_item_refusal, write_refusal,
};
pub use stop::TextStop;
pub use words::{
    write_id, write_with_float, write_with_id, write_with_long, write_with_number,
    write_with_signed, write_with_text, write_with_texts,
};
