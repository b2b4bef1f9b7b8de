//! A conversation with a session, line by line, in which each line is answered by one line of JSON.
#![tactic(auto)]

mod pending;
mod talk;

pub use talk::converse_json;
