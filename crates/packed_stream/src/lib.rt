//! Packed streams: a file of gzip (RFC 1952) or of zlib (RFC 1950) in the form in which usual writers write, and what it opens to.
#![tactic(auto)]

mod adler;
mod header;
mod laws;
mod open;
mod reason;

pub use header::{header_of, may_be_zlib, packing_of};
pub use laws::{nothing_follows, one_content};
pub use open::{end_size, open_packed};
pub use reason::{Packing, Reason, Refusal};
