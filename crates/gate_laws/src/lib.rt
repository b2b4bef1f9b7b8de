//! What a pickle that passes the gate makes CPython's unpicklers do: laws. The program does not use them.
#![tactic(auto)]

mod laws;

pub use laws::{
    imports_are_in_the_list, makers_stay, nothing_is_touched, nothing_is_touched_in_a_file,
    nothing_is_touched_in_c, only_what_is_allowed, only_what_is_allowed_in_a_file,
    only_what_is_allowed_in_c, only_what_is_allowed_of_a_pipe, states_are_plain, states_come_last,
    status_zero_permits, uses_are_granted,
};
