//! What CPython's unpickler does, and that the lines of `calls` tell it. Nothing is loaded: these are definitions and laws.
#![tactic(auto)]

mod laws;

pub use laws::{
    a_step_beyond, acts_have_lines, all_listed, buffered_is_read, bytes_are_listed,
    detail_tells_alike, each_act_has_its_line, each_act_in_c_has_its_line,
    each_act_of_a_pipe_has_its_line, each_reach_has_its_line, event_lines_apart,
    fills_are_followed, found_is_said, framed_is_bytes, frames_only_end, keys_agree,
    lines_are_read, loads_are_listed, loss_is_found, no_line_no_act, nothing_beyond,
    nothing_beyond_by_frames, nothing_beyond_in_c, nothing_else, nothing_else_by_frames,
    nothing_else_in_a_file, nothing_else_in_a_file_with_one_memo, nothing_else_in_a_stream,
    nothing_else_in_c, nothing_else_with_one_memo, nothing_else_with_one_memo_in_c,
    one_line_one_callee, one_load, one_stack, one_whole_text, only_imports_say_import,
    ops_are_fetched, pipe_is_file, up_to_the_end_in_a_file, what_is_missing_raises,
    whole_text_is_its_lines, wide_moves_are_followed,
};
