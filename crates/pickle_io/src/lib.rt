//! Where bytes come from and where texts go: sources, sinks, their wrappers round readers and writers of the standard library,
//! the writers of plain texts, and a source read whole. And the holes of a file: bytes that are left out, as the raw numbers that stand
//! between opcodes. What is left is read as if it stood alone, and shown with the offsets that it has in the file.
#![tactic(auto)]

mod asker;
mod buffered;
mod cut;
mod from_read;
mod hole;
mod hole_laws;
mod holes;
mod page;
mod sink;
mod source;
mod text;
mod to_write;
mod whole;

pub use asker::Asker;
pub use buffered::Buffered;
pub use from_read::FromRead;
pub use hole::Hole;
pub use hole_laws::{bytes_keep_their_offsets, nothing_left_out};
pub use holes::Holes;
pub use page::Page;
pub use sink::{Failed, Sink, write_all};
pub use source::Source;
pub use text::{push_decimal, push_signed, write_decimal, write_hex, write_quoted, write_signed};
pub use to_write::ToWrite;
pub use whole::{ReadStop, read_limited};
