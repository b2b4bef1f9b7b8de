//! What is done on the bytes of a pickle, or of several pickles that follow one another: its listing, the report of its objects,
//! what it would import and call, and a conversation with a session of it, line by line. What the lines of a script say, and the
//! lines that answer them, are here too.
//! A run that is not finished is a `Stop`.
#![tactic(auto)]

mod conversation;
mod given_holes;
mod laws;
mod stop;
mod texts;

pub use conversation::{
    Action, LONGEST_LINE, Line, OpWord, Place, PlaceWord, Query, Syntax, answer_line, converse,
    read_command, write_items, write_reply, write_where,
};
pub use given_holes::{first_unfit, holes_of};
pub use laws::{one_by_one, one_cut, zero_where_passing};
pub use stop::{Stop, line_of};
pub use texts::{
    Text, calls_of_file, document_bytes, line_for, list, list_many, objects, objects_many,
    verdict_status, words_of, write_text, write_verdict,
};
