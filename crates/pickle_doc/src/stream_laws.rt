//! Laws of reading item by item: where in the document of the bytes a reader is. These functions do nothing: what they
//! ensure holds of all documents.

ghost use Rattle.pickle_doc.specs.Stream.{ReadingBegins, NextItemsFollow, NextFaultsFollow};

/// Before the first item is read, all bytes of the document are yet to come.
pub fn reading_begins()
    ensures { ReadingBegins }
{}

/// Where k items of a document are read, an item that is next is item k.
pub fn next_items_follow()
    ensures { NextItemsFollow }
{}

/// Where k items of a document are read, a fault that is next is that of its tail, and there is no further item.
pub fn next_faults_follow()
    ensures { NextFaultsFollow }
{}
