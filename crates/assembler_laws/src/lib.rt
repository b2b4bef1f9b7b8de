//! Laws of listings and the assembler: what `list` prints is assembled to the bytes that it shows. The program does not use them.
#![tactic(auto)]

mod laws;

pub use laws::{
    gaps_are_refused, item_line_read_back, listing_read_back, whole_gaps_are_refused,
    whole_line_read_back, whole_listing_read_back,
};
