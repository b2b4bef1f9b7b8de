//! Laws about what loaders reach that read frames in any mix of ways. Nothing is loaded: these are definitions and laws.
#![tactic(auto)]

mod laws;

pub use laws::{
    each_act_in_c_has_its_place, each_act_of_a_file_has_its_line, each_act_of_a_file_has_its_place,
    each_act_of_a_file_is_told, each_act_of_a_mix_has_its_place, files_are_mixes,
    files_that_show_all_are_bytes, nothing_reached, nothing_reached_by_frames,
    nothing_reached_in_a_file, nothing_reached_in_c, nothing_reached_of_a_pipe, ways_are_mixes,
};
