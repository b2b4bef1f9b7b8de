//! What a pickle would import and call, as a text: a line for each step that makes an object which comes from elsewhere or from a call,
//! that puts something into such an object, or that sets the state of an object. Nothing is imported or called.
//!
//! The texts are this project's own; in them `#n` is object n, by its place in the heap.
#![tactic(auto)]

mod beginning;
mod begins;
mod brief;
mod calls;
mod calls_line;
mod course;
mod end;
mod event;
mod name;
mod naming;
mod teller;

pub use beginning::front;
pub use begins::begins_like;
pub use calls::{Ran, run_items};
pub use calls_line::write_line;
pub use course::Course;
pub use end::{Ending, closing_in, write_end, write_totals};
pub use event::{Before, Event, event_of, part as part_at};
pub use name::{
    Imported, NamePair, SpelledText, by_both, by_module, global_pair, inner, inst_pair,
    may_be_name, short_of, stack_pair,
};
pub use naming::{Detail, Naming};
pub use teller::{ForPeople, Teller};
