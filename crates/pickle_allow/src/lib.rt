//! Lists of what a pickle may import, and of what it may do with it.
#![tactic(auto)]

mod allow;
mod arguments;
mod cut;
mod grant;
mod laws;
mod limit;
mod line;
mod list;
mod listing;
mod named;
mod names;
mod pattern;
mod read;
mod shape;
mod sort;
mod spelling;
mod takes;
mod word;
mod words;

pub use allow::{entry_of, grant_of};
pub use arguments::{may_be_given, may_be_set};
pub use grant::Grant;
pub use laws::{lists_together, no_word_is_an_import};
pub use limit::limits_of;
pub use list::{Entry, Use, Uses};
pub use listing::Listing;
pub use named::arguments_of;
pub use names::{import_name, line_text, part_text};
pub use read::read_list;
pub use takes::is_held;
pub use word::extension_word;
