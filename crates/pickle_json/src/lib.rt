//! Answers as JSON Lines, for programs. A listing has a line for each opcode, one for what a STOP left, and a last one that says why the
//! listing ended; it goes over the items as the listing for people does. Whether a loader reaches something, and whether a
//! pickle is in the form that picklers write, is one line.
#![tactic(auto)]

mod ends;
mod form;
mod item;
mod laws;
mod list;
mod note;
mod reach;
mod shown;
mod walk;

pub use ends::{
    write_coded, write_how, write_refused_fields, write_stopped_fields, write_tail_fields,
};
pub use form::{write_in_form, write_other_fields, write_other_form};
pub use item::{write_any_payload, write_double, write_integer, write_long, write_names};
pub use laws::{
    codes_are_those_of_texts, end_lines_read_back, form_lines_read_back, item_lines_read_back,
    reach_lines_read_back,
};
pub use list::{list_bytes, list_items};
pub use note::Note;
pub use reach::{write_nothing_reached, write_reached, write_too_many_ways};
pub use shown::write_shown;
