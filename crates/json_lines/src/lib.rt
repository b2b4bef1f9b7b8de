//! JSON Lines: objects in ASCII, one a line, each with a kind and further fields. The writers put texts on a page; what they write is the
//! text that the definitions give, and a line is read back as its object. Where the sink fails, a beginning of the text was written.
#![tactic(auto)]

mod array;
mod field;
mod laws;
mod line;
mod string;
mod value;

pub use array::write_numbers_field;
pub use field::{
    write_bool_field, write_bytes_field, write_hex_field, write_integer_field, write_name,
    write_null_field, write_number_field, write_text_field,
};
pub use laws::{fields_are_plain, lines_end_once, lines_read_back, plain_lines_read_back};
pub use line::{begin_line, end_line};
pub use string::{are_plain, write_string};
pub use value::{push_digits, push_whole};
