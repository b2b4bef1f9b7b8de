//! Python's literals, as its `repr` writes them: texts, bytes, whole numbers and floats; and which names can stand in a statement as they are. The
//! writers put texts on a page; what they write is the text that the definitions give, and Python's grammar of literals reads it back as the
//! value. No text has an end of a line in it. Where the sink fails, a beginning of the text was written.
#![tactic(auto)]

mod bytes;
mod float;
mod int;
mod laws;
mod names;
mod signs;
mod text;
mod wide;

pub use bytes::{write_bytearray, write_bytes};
pub use float::{bits_of, float_text, write_double, write_float};
pub use int::{write_int, write_long};
pub use laws::{
    bytearrays_read_back, bytes_read_back, floats_read_back, ints_read_back, stays_one_line,
    texts_read_back,
};
pub use names::is_identifier;
pub use text::write_str;
