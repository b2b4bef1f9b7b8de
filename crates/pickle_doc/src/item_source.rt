//! Where items come from.

use crate::stream::{Items, NextRef};

/// Where items come from, one after another, none of them kept: bytes, or a document. Whoever goes over a source sees of it
/// the bytes that are not read yet and how many of them an unfinished frame has, and need not know where it has them from.
pub trait ItemSource<'a>: Drop {
    ghost use Rattle.std.specs.Prelude.{◌≡◌, length};
    ghost use Rattle.pickle_doc.specs.Unread.{Unread, Follows};

    // What is not read yet.
    ghost unread: { Self → Unread };

    /// What is next. An item is read; where there is none, no more is read.
    fn next(&mut self) -> NextRef<'a>
        ensures { Follows (unread self.old) (unread self.new) result };

    /// How many bytes are not read yet.
    fn unread_len(&self) -> u64
        ensures { result ≡ length (unread self.now).rest };
}

impl<'a> ItemSource<'a> for Items<'a> {
    ghost unread = { λ i. i };

    // More than one loop goes over bytes, so that the compiler would leave this a call.
    #[inline(always)]
    fn next(&mut self) -> NextRef<'a> {
        self.read_next()
    }

    fn unread_len(&self) -> u64 {
        self.rest().len() as u64
    }
}
