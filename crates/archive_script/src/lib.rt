//! What is said of the members of an archive or of a packed file, and whether a file passes a list that may be one of these, or an array.
#![tactic(auto)]

mod fault;
mod gate;
mod judged;
mod judging;
mod laws;
mod members;
mod single;
mod tar;
mod tar_text;

pub use fault::{array_sentence, stream_sentence};
pub use gate::{
    judged_status, refuse_list, write_file, write_gate, write_judged, write_named_file,
    write_no_list,
};
pub use judged::{Judged, Single};
pub use judging::judge;
pub use laws::{zero_means_passing, zero_where_file_passes};
pub use members::{start_of, write_members};
pub use single::{is_too_large, packed_sentence, packing_word, single_status};
pub use tar_text::tar_sentence;
