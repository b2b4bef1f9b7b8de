//! Laws that users rely on: of transcripts, of what is saved, of edits, of the lines of listings and reports, and of what `show` prints. The
//! program does not use them.
#![tactic(auto)]

mod laws;

pub use laws::{
    edit_and_lines, item_line_says, lines_apart, object_line_says, one_opening, one_transcript,
    pieces_are_lines, saved_whole, shows_reached, texts_are_lines,
};
