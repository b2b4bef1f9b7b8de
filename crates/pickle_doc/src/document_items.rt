//! The items of a document as a source.

use crate::document::Document;
use crate::item_source::ItemSource;
use crate::stream::{Items, NextRef};
use std::marker::Model;

/// A reader of the items of a document, from the first on. After them it reads on in the tail.
/// A document is listed by its items: writing the bytes first would take memory for all of them.
#[derive(Drop)]
pub struct DocumentItems<'a> {
    document: &'a Document,
    place: usize,
    ahead: u64,
    behind: Items<'a>,
}

impl<'a> Model for DocumentItems<'a> {
    ghost use Rattle.pickle_doc.specs.Unread.{Unread, IsPlaced, unread_at};

    ghost Value = { Unread };

    ghost view = { λ r. unread_at r.document.now.contents r.place r.behind };

    ghost invariant = { λ r. IsPlaced r.document.now.contents r.place r.ahead r.behind };
}

impl<'a> DocumentItems<'a> {
    ghost use Rattle.std.specs.Prelude.{◌≡◌, ◌≤◌, length};
    ghost use Rattle.pickle_doc.specs.Document.{document_bytes, IsDocument, IsReadAgain, size_limit};

    /// A reader of the items of this document.
    pub fn new(document: &'a Document) -> DocumentItems<'a>
        ensures value { result ≡ record { loose = document.now.contents.loose; rest = document_bytes document.now.contents; left = 0 } }
        ensures document { IsDocument document.now.contents }
        ensures again { IsReadAgain document.now.contents }
        ensures small { length (document_bytes document.now.contents) ≤ size_limit }
    {
        let tail = document.tail();
        DocumentItems {
            document,
            place: 0,
            ahead: document.total() - tail.len() as u64,
            behind: Items::new_as(document.is_loose(), tail),
        }
    }
}

impl<'a> ItemSource<'a> for DocumentItems<'a> {
    ghost unread = { λ r. r };

    fn next(&mut self) -> NextRef<'a> {
        match self.document.item(self.place) {
            Some(op) => {
                let op = op.by_ref();
                self.place += 1;
                self.ahead -= op.size() as u64;
                self.behind.pass(&op);
                NextRef::Item(op)
            }
            None => self.behind.read_next(),
        }
    }

    fn unread_len(&self) -> u64 {
        self.ahead + self.behind.unread_len()
    }
}
