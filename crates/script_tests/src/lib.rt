//! Texts and conversations over devices that fail at each of their calls, and where each request for memory is refused in turn. What
//! they are with good devices and ample memory is tried from outside, by the rows of `equipment`; here that is done of the calls that
//! the program does without (`named`). Test equipment.
#![tactic(auto)]

#[cfg(test)]
mod conversations;
#[cfg(test)]
mod named;
#[cfg(test)]
mod rows;
#[cfg(test)]
mod texts;
