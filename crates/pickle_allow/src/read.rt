//! Lists that are given as texts.

ghost use Rattle.std.specs.Prelude.{IfOk};
ghost use Rattle.pickle_allow.specs.Grammar.{IsListing};
ghost use Rattle.pickle_allow.specs.Lines.{AddsLine};

use crate::cut::{Separator, cut};
use crate::line::{Line, read_line};
use crate::list::Entry;
use crate::listing::Listing;
use std::alloc::{AllocError, Global};

/// Adds the entry that a line is, if it is one; says whether it is a line of a list.
fn add_line<'a>(entries: &mut Vec<Entry<'a>>, line: &'a [u8]) -> Result<bool, AllocError>
    ensures { IfOk result (λ good. AddsLine line.now entries.old.items entries.new.items good) }
{
    match read_line(line) {
        Line::Nothing => Ok(true),
        Line::Entry(entry) => {
            entries.push(entry)?;
            Ok(true)
        }
        Line::Wrong => Ok(false),
    }
}

/// Reads the text of a list: an entry on each line, or blanks and a note behind `#`.
///
/// An entry is the name of an import, a pattern of names, or a word for what is no import (`persistent`, `buffer`, `ext 12`, `ext *`). Behind a colon
/// stands what may be done with it: `call`, `new`, `state`, `fill`; and with what its calls make: `made-call`, `made-new`, `made-state`, `made-fill`,
/// or `made` for nothing. Without a colon everything may be done; where no word is about what its calls make, everything may be done with that.
pub fn read_list<'a>(alloc: Global, text: &'a [u8]) -> Result<Listing<'a>, AllocError>
    ensures { IfOk result (λ listing. IsListing text.now listing) }
{
    let mut entries = Vec::new(alloc);
    let mut rest = Some(text);
    let mut number = 0;
    while let Some(left) = rest {
        let piece = cut(left, Separator::Newline);
        number += 1;
        if !add_line(&mut entries, piece.front)? {
            return Ok(Listing::Wrong(number));
        }
        rest = piece.rest;
    }
    Ok(Listing::Entries(entries))
}
