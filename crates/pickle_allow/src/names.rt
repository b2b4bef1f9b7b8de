//! The names of imports.

ghost use Rattle.std.specs.Prelude.{◌≡◌, IfOk};
ghost use Rattle.std.specs.Option.{option_map};
ghost use Rattle.pickle_names.specs.Value.{decode_all};
ghost use Rattle.pickle_names.specs.Renamed.{import_of};
ghost use Rattle.pickle_allow.specs.Source.{if_good, short_text, line_text, text_at, part_text, imported, dotted, import_name};

use pickle_machine::Inspect;
use pickle_names::{Coding, NewNames, read, renamed};
use pickle_ops::{KindRef, ObjId};
use std::alloc::{AllocError, Global};

/// The most bytes of one half of a name. A longer one names nothing, so that no list has it: a pickle may ask for one name a million times.
const LONGEST: usize = 1024;

/// A text, if it can be read. Each text in UTF-8 is its bytes; one that were not would be answered as if there were no memory.
fn readable<'a>(coding: Coding, bytes: &'a [u8]) -> Result<Option<&'a [u8]>, AllocError>
    ensures { IfOk result (λ text. option_map (λ t. t.now) text ≡ if_good (decode_all coding bytes.now)) }
{
    let reading = read(coding, bytes.len(), bytes);
    if !reading.good {
        return Ok(None);
    }
    if reading.plain && reading.left == 0 {
        return Ok(Some(bytes));
    }
    Err(AllocError)
}

/// A text, if it is short enough for a name and can be read.
fn text_of<'a>(coding: Coding, bytes: &'a [u8]) -> Result<Option<&'a [u8]>, AllocError>
    ensures { IfOk result (λ text. option_map (λ t. t.now) text ≡ short_text coding bytes.now) }
{
    if bytes.len() > LONGEST {
        Ok(None)
    } else {
        readable(coding, bytes)
    }
}

/// The text of an object, if it is one in UTF-8 that can be read.
fn text_at<'a, M: Inspect>(machine: &'a M, id: ObjId) -> Result<Option<&'a [u8]>, AllocError>
    ensures { IfOk result (λ text. option_map (λ t. t.now) text ≡ text_at (M.state machine.now).heap id) }
{
    match machine.look(id) {
        Some(look) => match look.kind {
            KindRef::Text(bytes) => text_of(Coding::AnyUtf8, bytes),
            _ => Ok(None),
        },
        None => Ok(None),
    }
}

/// The text of a part.
pub fn part_text<'a, M: Inspect>(
    machine: &'a M,
    parts: &[ObjId],
    i: usize,
) -> Result<Option<&'a [u8]>, AllocError>
    ensures { IfOk result (λ text. option_map (λ t. t.now) text ≡ part_text (M.state machine.now).heap parts.now i) }
{
    match parts.get(i) {
        Some(id) => text_at(machine, *id),
        None => Ok(None),
    }
}

/// The text of a line.
pub fn line_text<'a>(line: &'a [u8]) -> Result<Option<&'a [u8]>, AllocError>
    ensures { IfOk result (λ text. option_map (λ t. t.now) text ≡ line_text line.now) }
{
    text_of(Coding::Utf8, line)
}

/// What is imported for these names.
fn imported<'a>(protocol: u64, from: &'a [u8], name: &'a [u8]) -> NewNames<'a>
    ensures { import_of result ≡ imported protocol from.now name.now }
{
    let same = NewNames { from, name };
    if protocol >= 3 {
        return same;
    }
    match renamed(from, name) {
        Some(new) => new,
        None => same,
    }
}

/// Both names with a point between them.
fn dotted(alloc: Global, from: &[u8], name: &[u8]) -> Result<Vec<u8>, AllocError>
    ensures { IfOk result (λ text. text.items ≡ dotted (record { from = from.now; name = name.now })) }
{
    let mut text = Vec::new(alloc);
    text.extend_from_slice(from)?;
    text.push(b'.')?;
    text.extend_from_slice(name)?;
    Ok(text)
}

/// What is imported for these names, as module, point and member, where both can be read.
pub fn import_name(
    alloc: Global,
    protocol: u64,
    from: Option<&[u8]>,
    name: Option<&[u8]>,
) -> Result<Option<Vec<u8>>, AllocError>
    ensures { IfOk result (λ text. option_map (λ t. t.items) text ≡ import_name protocol (option_map (λ t. t.now) from.entry) (option_map (λ t. t.now) name.entry)) }
{
    match from {
        Some(from) => match name {
            Some(name) => {
                let import = imported(protocol, from, name);
                Ok(Some(dotted(alloc, import.from, import.name)?))
            }
            None => Ok(None),
        },
        None => Ok(None),
    }
}
