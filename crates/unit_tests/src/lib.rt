//! Tests of what writes no answers. `plain`: devices and plain texts, opcodes and their arguments, lists with a gap. `machine`:
//! where it is after each opcode, on the way forwards and on the way back, what it refuses, and what is left where memory
//! is refused. `session`: counts that no text shows, ways from every place to every place, steps that ask for no memory, and
//! large inputs. Test equipment.
#![tactic(auto)]

#[cfg(test)]
mod machine;
#[cfg(test)]
mod plain;
#[cfg(test)]
mod session;
