//! A line of JSON for each line of a script: what the text for people tells, as fields, and what is asked in JSON alone.
#![tactic(auto)]

mod answer;
mod asked;
mod breaks;
mod items;
mod laws;
mod made;
mod memo;
mod obey;
mod objects;
mod offset;
mod place;
mod refused;
mod reply;
mod said;
mod stack;
mod step;
mod value;
mod words;

pub use answer::{answer_json, answer_json_line};
pub use asked::{Asked, Own, read_asked};
pub use laws::{answers_read_back, refusals_are_those_of_texts, said_is_printed};
pub use said::Said;
