//! Tests of lists of names: texts that are read, and what they grant. Test equipment.
#![tactic(auto)]

#[cfg(test)]
mod grants;
#[cfg(test)]
mod texts;
