//! Which arguments a list allows for calls, and which states for what calls made.

ghost use Rattle.std.specs.Prelude.{◌≡◌, IfOk};
ghost use Rattle.std.specs.Option.{option_map};
ghost use Rattle.pickle_ops.specs.KindRef.{kind_view};
ghost use Rattle.pickle_allow.specs.Arguments.{argument_of, item_takes, item_takes_at, item_takes_argument, behind_item, shape_takes, ends_in, chunk_takes, words_take, entry_takes, entry_allows, entries_allow, limits_of, name_allows, may_be_given, may_be_set};

use crate::cut::{Separator, cut};
use crate::limit::{Limit, grants, is_limited, keyword, limit_of, limit_on};
use crate::list::Entry;
use crate::named::{
    are_made_bytes, arguments_of, callee_name, is_endless, items_at, kind_import, maker_at,
};
use crate::pattern::fits;
use crate::spelling::is_nothing;
use crate::takes::{Given, item_takes};
use pickle_machine::Inspect;
use pickle_ops::{Look, ObjId};
use std::alloc::{AllocError, Global};

/// Whether an item takes an argument that was looked at.
fn item_takes_look<M: Inspect>(
    alloc: Global,
    list: &[Entry<'_>],
    protocol: u64,
    machine: &M,
    item: &[u8],
    look: Look<'_>,
) -> Result<bool, AllocError>
    ensures { IfOk result (λ found. found ≡ item_takes list.now item.now (argument_of protocol (M.state machine.now).heap (kind_view look.entry.kind) look.entry.parts.now)) }
{
    let endless = is_endless(alloc, protocol, machine, look)?;
    let made_bytes = are_made_bytes(alloc, protocol, machine, look)?;
    match kind_import(alloc, protocol, machine, look)? {
        Some(name) => item_takes(
            alloc,
            list,
            item,
            Given {
                kind: look.kind,
                name: Some(name.as_slice()),
                endless,
                made_bytes,
            },
        ),
        None => item_takes(
            alloc,
            list,
            item,
            Given {
                kind: look.kind,
                name: None,
                endless,
                made_bytes,
            },
        ),
    }
}

/// Whether an item takes the object of this number.
#[tactic(auto, using(crate::proofs::Taking::look_rules))]
fn item_takes_at<M: Inspect>(
    alloc: Global,
    list: &[Entry<'_>],
    protocol: u64,
    machine: &M,
    item: &[u8],
    id: ObjId,
) -> Result<bool, AllocError>
    ensures { IfOk result (λ found. found ≡ item_takes_at list.now protocol (M.state machine.now).heap item.now id) }
{
    match machine.look(id) {
        Some(look) => item_takes_look(alloc, list, protocol, machine, item, look),
        None => Ok(false),
    }
}

/// Whether there is an argument of this number, and an item takes it.
fn item_takes_argument<M: Inspect>(
    alloc: Global,
    list: &[Entry<'_>],
    protocol: u64,
    machine: &M,
    item: &[u8],
    ids: &[ObjId],
    n: usize,
) -> Result<bool, AllocError>
    ensures { IfOk result (λ found. found ≡ item_takes_argument list.now protocol (M.state machine.now).heap item.now ids.now n) }
{
    match ids.get(n) {
        Some(id) => item_takes_at(alloc, list, protocol, machine, item, *id),
        None => Ok(false),
    }
}

/// The number of the argument behind the one that an item takes; of this one where there is no item; nothing where it does not take it.
fn behind_item<M: Inspect>(
    alloc: Global,
    list: &[Entry<'_>],
    protocol: u64,
    machine: &M,
    ids: &[ObjId],
    n: usize,
    item: &[u8],
) -> Result<Option<usize>, AllocError>
    ensures { IfOk result (λ next. next ≡ behind_item list.now protocol (M.state machine.now).heap ids.now n item.now) }
{
    if is_nothing(item) {
        return Ok(Some(n));
    }
    if n >= ids.len() || !item_takes_argument(alloc, list, protocol, machine, item, ids, n)? {
        return Ok(None);
    }
    Ok(Some(n + 1))
}

/// Whether a shape takes arguments.
fn shape_takes<M: Inspect>(
    alloc: Global,
    list: &[Entry<'_>],
    protocol: u64,
    machine: &M,
    shape: &[u8],
    ids: &[ObjId],
) -> Result<bool, AllocError>
    ensures { IfOk result (λ found. found ≡ shape_takes list.now protocol (M.state machine.now).heap shape.now ids.now) }
{
    let mut n = 0;
    let mut rest = Some(shape);
    while let Some(left) = rest {
        let piece = cut(left, Separator::Blank);
        let Some(next) = behind_item(alloc, list, protocol, machine, ids, n, piece.front)? else {
            return Ok(false);
        };
        n = next;
        rest = piece.rest;
    }
    Ok(n == ids.len())
}

/// Whether bytes end in a word.
fn ends_in(word: &[u8], bytes: &[u8]) -> bool
    ensures { result ≡ ends_in word.now bytes.now }
{
    let (_, end) = bytes.split_at(bytes.len().saturating_sub(word.len()));
    end == word
}

/// Whether what stands before the end of a shape has the word for this, and the shape takes arguments.
fn chunk_takes<M: Inspect>(
    alloc: Global,
    list: &[Entry<'_>],
    protocol: u64,
    machine: &M,
    limit: Limit,
    ids: &[ObjId],
    chunk: &[u8],
) -> Result<bool, AllocError>
    ensures { IfOk result (λ found. found ≡ chunk_takes list.now protocol (M.state machine.now).heap limit ids.now chunk.now) }
{
    let piece = cut(chunk, Separator::Open);
    if !ends_in(keyword(limit), piece.front) {
        return Ok(false);
    }
    match piece.rest {
        Some(shape) => shape_takes(alloc, list, protocol, machine, shape, ids),
        None => Ok(false),
    }
}

/// Whether one of the shapes among words takes arguments.
fn words_take<M: Inspect>(
    alloc: Global,
    list: &[Entry<'_>],
    protocol: u64,
    machine: &M,
    limit: Limit,
    words: &[u8],
    ids: &[ObjId],
) -> Result<bool, AllocError>
    ensures { IfOk result (λ found. found ≡ words_take list.now protocol (M.state machine.now).heap limit words.now ids.now) }
{
    let mut rest = Some(words);
    while let Some(left) = rest {
        let piece = cut(left, Separator::Close);
        if chunk_takes(alloc, list, protocol, machine, limit, ids, piece.front)? {
            return Ok(true);
        }
        rest = piece.rest;
    }
    Ok(false)
}

/// Whether the words of an entry let these be the arguments.
fn entry_takes<M: Inspect>(
    alloc: Global,
    list: &[Entry<'_>],
    protocol: u64,
    machine: &M,
    limit: Limit,
    words: &[u8],
    ids: Option<&[ObjId]>,
) -> Result<bool, AllocError>
    ensures { IfOk result (λ found. found ≡ entry_takes list.now protocol (M.state machine.now).heap limit words.now (option_map (λ t. t.now) ids.entry)) }
{
    if is_nothing(words) {
        return Ok(true);
    }
    match ids {
        Some(ids) => words_take(alloc, list, protocol, machine, limit, words, ids),
        None => Ok(false),
    }
}

/// Whether an entry allows this, with these arguments.
fn entry_allows<M: Inspect>(
    alloc: Global,
    list: &[Entry<'_>],
    protocol: u64,
    machine: &M,
    limit: Limit,
    name: &[u8],
    ids: Option<&[ObjId]>,
    entry: &Entry<'_>,
    rests: &mut Vec<bool>,
) -> Result<bool, AllocError>
    ensures { IfOk result (λ found. found ≡ entry_allows list.now protocol (M.state machine.now).heap limit name.now (option_map (λ t. t.now) ids.entry) entry.now) }
{
    if !grants(limit, entry) || !fits(entry.pattern, name, rests)? {
        return Ok(false);
    }
    entry_takes(
        alloc,
        list,
        protocol,
        machine,
        limit,
        limit_on(limit, entry),
        ids,
    )
}

/// Whether one of the entries allows it.
fn entries_allow<M: Inspect>(
    alloc: Global,
    list: &[Entry<'_>],
    protocol: u64,
    machine: &M,
    limit: Limit,
    name: &[u8],
    ids: Option<&[ObjId]>,
) -> Result<bool, AllocError>
    ensures { IfOk result (λ found. found ≡ entries_allow list.now protocol (M.state machine.now).heap limit name.now (option_map (λ t. t.now) ids.entry)) }
{
    let mut rests = Vec::new(alloc);
    for i in 0..list.len() {
        if entry_allows(
            alloc, list, protocol, machine, limit, name, ids, &list[i], &mut rests,
        )? {
            return Ok(true);
        }
    }
    Ok(false)
}

/// Whether a list allows this of a name, with these arguments. `limits` are its entries that limit something.
fn name_allows<M: Inspect>(
    alloc: Global,
    list: &[Entry<'_>],
    limits: &[Entry<'_>],
    protocol: u64,
    machine: &M,
    limit: Limit,
    name: &[u8],
    ids: Option<&[ObjId]>,
) -> Result<bool, AllocError>
    requires { limits.now ≡ limits_of list.now }
    ensures { IfOk result (λ found. found ≡ name_allows list.now protocol (M.state machine.now).heap limit (option_map (λ t. t.now) ids.entry) name.now) }
{
    if !is_limited(alloc, limits, limit, name)? {
        return Ok(true);
    }
    entries_allow(alloc, list, protocol, machine, limit, name, ids)
}

/// Whether a list allows the arguments that made an object. `limits` are its entries that limit something.
pub fn may_be_given<M: Inspect>(
    alloc: Global,
    list: &[Entry<'_>],
    limits: &[Entry<'_>],
    protocol: u64,
    machine: &M,
    look: Look<'_>,
) -> Result<bool, AllocError>
    requires { limits.now ≡ limits_of list.now }
    ensures { IfOk result (λ found. found ≡ may_be_given list.now protocol (M.state machine.now).heap (kind_view look.entry.kind) look.entry.parts.now) }
{
    if limits.is_empty() {
        return Ok(true);
    }
    match callee_name(alloc, protocol, machine, look)? {
        Some(name) => name_allows(
            alloc,
            list,
            limits,
            protocol,
            machine,
            limit_of(look.kind),
            name.as_slice(),
            arguments_of(machine, look),
        ),
        None => Ok(true),
    }
}

/// Whether a list allows an object as the state of another one. `limits` are its entries that limit something.
pub fn may_be_set<M: Inspect>(
    alloc: Global,
    list: &[Entry<'_>],
    limits: &[Entry<'_>],
    protocol: u64,
    machine: &M,
    value: ObjId,
    target: ObjId,
) -> Result<bool, AllocError>
    requires { limits.now ≡ limits_of list.now }
    ensures { IfOk result (λ found. found ≡ may_be_set list.now protocol (M.state machine.now).heap value target) }
{
    if limits.is_empty() {
        return Ok(true);
    }
    match maker_at(alloc, protocol, machine, target)? {
        Some(name) => name_allows(
            alloc,
            list,
            limits,
            protocol,
            machine,
            Limit::State,
            name.as_slice(),
            items_at(machine, value),
        ),
        None => Ok(true),
    }
}
