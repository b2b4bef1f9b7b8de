//! Tests of documents, and of what machines over them show. `document`: edits, the way back and the way there again, what is refused,
//! and what is left where memory is refused, by what readers show. `texts`: objects where memory is refused, and a deep object. Test
//! equipment.
#![tactic(auto)]

#[cfg(test)]
mod document;
#[cfg(test)]
mod texts;
