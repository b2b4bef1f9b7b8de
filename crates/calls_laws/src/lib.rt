//! Laws that users rely on: of the lines of imports and calls. The program does not use them.
#![tactic(auto)]

mod laws;

pub use laws::{
    first_lines_come_first, line_exactly, line_of_import, line_of_inst, no_line_no_reach,
    one_line_one_event, one_text, quotes_read_back, quotes_stay, text_is_its_lines,
};
