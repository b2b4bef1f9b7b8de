//! A conversation with a session: what the lines of a script say, and the lines that answer them.

mod fault_text;
mod grammar;
mod items;
mod keyword;
mod line;
mod outcome;
mod pending;
mod place;
mod query;
mod reply;
mod syntax;
mod talk;
mod words;

pub use grammar::read_command;
pub use items::write_items;
pub(crate) use items::write_op;
pub use keyword::{OpWord, PlaceWord};
pub use line::{Action, Line, Place, Query, Syntax};
pub use place::write_where;
pub use reply::write_reply;
pub use talk::{answer_line, converse};
pub use words::LONGEST_LINE;
