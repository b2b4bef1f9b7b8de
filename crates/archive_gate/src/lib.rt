//! A gate for files that may be zip archives, tar archives, packed, or arrays: whether each member of an archive is a pickle that passes a list, or
//! gives nothing to a loader.
#![tactic(auto)]

mod begins;
mod fault;
mod judge;
mod kind;
mod laws;
mod tar;
mod walk;

pub use begins::{begins_as_archive, holds_members};
pub use fault::{ArrayFault, Failing, Fault};
pub use kind::{Kind, kind_of};
pub use laws::{
    by_header_passes, by_locator_passes, by_place_passes, none_fails, none_fails_in_tar,
    nothing_in_archives, nothing_in_arrays, nothing_in_packed, read_passes,
};
pub use tar::{first_failing_in, gives_nothing_itself, is_no_other};
pub use walk::first_failing;
