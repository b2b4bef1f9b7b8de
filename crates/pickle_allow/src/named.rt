//! The names of objects.

ghost use Rattle.std.specs.Prelude.{◌≡◌, drop, false, Some, IfOk};
ghost use Rattle.std.specs.Option.{option_map, option_map_or};
ghost use Rattle.pickle_ops.specs.Argument.{texts_of};
ghost use Rattle.pickle_ops.specs.KindRef.{kind_view};
ghost use Rattle.pickle_allow.specs.Named.{lines_name, parts_name, kind_import, import_at, kind_name, name_at, called_name, callee_name, maker_at, tuple_items, items_at, second_items, arguments_of, makes_bytes, are_made_bytes, is_endless_name, is_maker, is_endless_import, is_endless_argument, is_endless_call, is_endless};

use crate::names::{import_name, line_text, part_text};
use crate::word::extension_word;
use pickle_machine::Inspect;
use pickle_ops::{KindRef, Look, ObjId, TextsRef};
use std::alloc::{AllocError, Global};

/// The name of what is imported by two lines.
fn lines_name(
    alloc: Global,
    protocol: u64,
    names: TextsRef<'_>,
) -> Result<Option<Vec<u8>>, AllocError>
    ensures { IfOk result (λ name. option_map (λ t. t.items) name ≡ lines_name protocol (texts_of names.entry.lines.now)) }
{
    let from = line_text(names.first())?;
    let name = line_text(names.second())?;
    import_name(alloc, protocol, from, name)
}

/// The name of what is imported by two objects.
fn parts_name<M: Inspect>(
    alloc: Global,
    protocol: u64,
    machine: &M,
    parts: &[ObjId],
) -> Result<Option<Vec<u8>>, AllocError>
    ensures { IfOk result (λ name. option_map (λ t. t.items) name ≡ parts_name protocol (M.state machine.now).heap parts.now) }
{
    let from = part_text(machine, parts, 0)?;
    let name = part_text(machine, parts, 1)?;
    import_name(alloc, protocol, from, name)
}

/// The name of an object that is imported.
pub(crate) fn kind_import<M: Inspect>(
    alloc: Global,
    protocol: u64,
    machine: &M,
    look: Look<'_>,
) -> Result<Option<Vec<u8>>, AllocError>
    ensures { IfOk result (λ name. option_map (λ t. t.items) name ≡ kind_import protocol (M.state machine.now).heap (kind_view look.entry.kind) look.entry.parts.now) }
{
    match look.kind {
        KindRef::Global(names) => lines_name(alloc, protocol, names),
        KindRef::StackGlobal => parts_name(alloc, protocol, machine, look.parts),
        _ => Ok(None),
    }
}

/// The name of the object of this number, if it is imported.
#[tactic(auto, using(crate::proofs::Taking::look_rules))]
fn import_at<M: Inspect>(
    alloc: Global,
    protocol: u64,
    machine: &M,
    id: ObjId,
) -> Result<Option<Vec<u8>>, AllocError>
    ensures { IfOk result (λ name. option_map (λ t. t.items) name ≡ import_at protocol (M.state machine.now).heap id) }
{
    match machine.look(id) {
        Some(look) => kind_import(alloc, protocol, machine, look),
        None => Ok(None),
    }
}

/// A word as a name.
fn word_name(alloc: Global, word: &[u8]) -> Result<Option<Vec<u8>>, AllocError>
    ensures { IfOk result (λ name. option_map (λ t. t.items) name ≡ Some word.now) }
{
    Ok(Some(Vec::from_slice(alloc, word)?))
}

/// The name, or the word, that an object has in lists.
fn kind_name<M: Inspect>(
    alloc: Global,
    protocol: u64,
    machine: &M,
    look: Look<'_>,
) -> Result<Option<Vec<u8>>, AllocError>
    ensures { IfOk result (λ name. option_map (λ t. t.items) name ≡ kind_name protocol (M.state machine.now).heap (kind_view look.entry.kind) look.entry.parts.now) }
{
    match look.kind {
        KindRef::Ext(code) => Ok(Some(extension_word(alloc, code)?)),
        KindRef::PersistentLine(_) => word_name(alloc, b"persistent"),
        KindRef::Persistent => word_name(alloc, b"persistent"),
        KindRef::Buffer(_) => word_name(alloc, b"buffer"),
        _ => kind_import(alloc, protocol, machine, look),
    }
}

/// The name, or the word, that the object of this number has in lists.
#[tactic(auto, using(crate::proofs::Taking::look_rules))]
fn name_at<M: Inspect>(
    alloc: Global,
    protocol: u64,
    machine: &M,
    id: ObjId,
) -> Result<Option<Vec<u8>>, AllocError>
    ensures { IfOk result (λ name. option_map (λ t. t.items) name ≡ name_at protocol (M.state machine.now).heap id) }
{
    match machine.look(id) {
        Some(look) => kind_name(alloc, protocol, machine, look),
        None => Ok(None),
    }
}

/// The name, or the word, of what is called: the first part of an object.
fn called_name<M: Inspect>(
    alloc: Global,
    protocol: u64,
    machine: &M,
    parts: &[ObjId],
) -> Result<Option<Vec<u8>>, AllocError>
    ensures { IfOk result (λ name. option_map (λ t. t.items) name ≡ called_name protocol (M.state machine.now).heap parts.now) }
{
    match parts.get(0) {
        Some(id) => name_at(alloc, protocol, machine, *id),
        None => Ok(None),
    }
}

/// The name, or the word, of what a call that made an object calls; nothing where no call made it.
pub(crate) fn callee_name<M: Inspect>(
    alloc: Global,
    protocol: u64,
    machine: &M,
    look: Look<'_>,
) -> Result<Option<Vec<u8>>, AllocError>
    ensures { IfOk result (λ name. option_map (λ t. t.items) name ≡ callee_name protocol (M.state machine.now).heap (kind_view look.entry.kind) look.entry.parts.now) }
{
    match look.kind {
        KindRef::Call => called_name(alloc, protocol, machine, look.parts),
        KindRef::New => called_name(alloc, protocol, machine, look.parts),
        KindRef::NewEx => called_name(alloc, protocol, machine, look.parts),
        KindRef::Obj => called_name(alloc, protocol, machine, look.parts),
        KindRef::Inst(names) => lines_name(alloc, protocol, names),
        _ => Ok(None),
    }
}

/// The name, or the word, of what a call that made the object of this number calls.
#[tactic(auto, using(crate::proofs::Taking::look_rules))]
pub(crate) fn maker_at<M: Inspect>(
    alloc: Global,
    protocol: u64,
    machine: &M,
    id: ObjId,
) -> Result<Option<Vec<u8>>, AllocError>
    ensures { IfOk result (λ name. option_map (λ t. t.items) name ≡ maker_at protocol (M.state machine.now).heap id) }
{
    match machine.look(id) {
        Some(look) => callee_name(alloc, protocol, machine, look),
        None => Ok(None),
    }
}

/// The items of an object, if it is a tuple.
fn tuple_items<'a>(look: Look<'a>) -> Option<&'a [ObjId]>
    ensures { option_map (λ t. t.now) result ≡ tuple_items (kind_view look.entry.kind) look.entry.parts.now }
{
    match look.kind {
        KindRef::Tuple => Some(look.parts),
        _ => None,
    }
}

/// The items of the object of this number, if it is a tuple.
#[tactic(auto, using(crate::proofs::Taking::look_rules))]
pub(crate) fn items_at<M: Inspect>(machine: &M, id: ObjId) -> Option<&[ObjId]>
    ensures { option_map (λ t. t.now) result ≡ items_at (M.state machine.now).heap id }
{
    match machine.look(id) {
        Some(look) => tuple_items(look),
        None => None,
    }
}

/// The items of the second part of an object, if it is a tuple.
fn second_items<'a, M: Inspect>(machine: &'a M, parts: &[ObjId]) -> Option<&'a [ObjId]>
    ensures { option_map (λ t. t.now) result ≡ second_items (M.state machine.now).heap parts.now }
{
    match parts.get(1) {
        Some(id) => items_at(machine, *id),
        None => None,
    }
}

/// What stands behind the first part of an object.
fn other_parts(parts: &[ObjId]) -> &[ObjId]
    ensures { result.now ≡ drop 1 parts.now }
{
    match parts.split_first() {
        Some((_, rest)) => rest,
        None => parts,
    }
}

/// The arguments of a call that made an object, if they are a tuple, and have no names.
pub fn arguments_of<'a, M: Inspect>(machine: &'a M, look: Look<'a>) -> Option<&'a [ObjId]>
    ensures { option_map (λ t. t.now) result ≡ arguments_of (M.state machine.now).heap (kind_view look.entry.kind) look.entry.parts.now }
{
    match look.kind {
        KindRef::Call => second_items(machine, look.parts),
        KindRef::New => second_items(machine, look.parts),
        KindRef::Obj => Some(other_parts(look.parts)),
        KindRef::Inst(_) => Some(look.parts),
        _ => None,
    }
}

/// Whether a call of what has this name makes bytes, as protocols 0 to 2 write them.
fn makes_bytes(name: &[u8]) -> bool
    ensures { result ≡ makes_bytes name.now }
{
    name == b"_codecs.encode".as_slice() || name == b"builtins.bytes".as_slice()
}

/// Whether what is called, the first part of an object, has such a name.
fn calls_for_bytes<M: Inspect>(
    alloc: Global,
    protocol: u64,
    machine: &M,
    parts: &[ObjId],
) -> Result<bool, AllocError>
    ensures { IfOk result (λ found. found ≡ option_map_or makes_bytes (called_name protocol (M.state machine.now).heap parts.now) false) }
{
    match called_name(alloc, protocol, machine, parts)? {
        Some(name) => Ok(makes_bytes(name.as_slice())),
        None => Ok(false),
    }
}

/// Whether an object is bytes that such a call made.
pub(crate) fn are_made_bytes<M: Inspect>(
    alloc: Global,
    protocol: u64,
    machine: &M,
    look: Look<'_>,
) -> Result<bool, AllocError>
    ensures { IfOk result (λ found. found ≡ are_made_bytes protocol (M.state machine.now).heap (kind_view look.entry.kind) look.entry.parts.now) }
{
    match look.kind {
        KindRef::Call => calls_for_bytes(alloc, protocol, machine, look.parts),
        _ => Ok(false),
    }
}

/// Whether what has this name makes objects that stand for any number of items.
fn is_endless_name(name: &[u8]) -> bool
    ensures { result ≡ is_endless_name name.now }
{
    name == b"builtins.range".as_slice()
        || name == b"builtins.int".as_slice()
        || name == b"ipaddress.IPv4Network".as_slice()
        || name == b"ipaddress.IPv6Network".as_slice()
}

/// Whether what has this name makes an object of a class that it is given.
fn is_maker(name: &[u8]) -> bool
    ensures { result ≡ is_maker name.now }
{
    name == b"copyreg._reconstructor".as_slice()
        || name == b"copyreg.__newobj__".as_slice()
        || name == b"copyreg.__newobj_ex__".as_slice()
}

/// Whether an object is imported by the name of such a class.
fn is_endless_import<M: Inspect>(
    alloc: Global,
    protocol: u64,
    machine: &M,
    id: ObjId,
) -> Result<bool, AllocError>
    ensures { IfOk result (λ found. found ≡ is_endless_import protocol (M.state machine.now).heap id) }
{
    match import_at(alloc, protocol, machine, id)? {
        Some(name) => Ok(is_endless_name(name.as_slice())),
        None => Ok(false),
    }
}

/// Whether the argument of this place is imported by the name of such a class.
fn is_endless_argument<M: Inspect>(
    alloc: Global,
    protocol: u64,
    machine: &M,
    ids: Option<&[ObjId]>,
    i: usize,
) -> Result<bool, AllocError>
    ensures { IfOk result (λ found. found ≡ is_endless_argument protocol (M.state machine.now).heap (option_map (λ t. t.now) ids.entry) i) }
{
    match ids {
        Some(ids) => match ids.get(i) {
            Some(id) => is_endless_import(alloc, protocol, machine, *id),
            None => Ok(false),
        },
        None => Ok(false),
    }
}

/// Whether a call of what has this name makes an object that stands for any number of items.
fn is_endless_call<M: Inspect>(
    alloc: Global,
    protocol: u64,
    machine: &M,
    name: &[u8],
    ids: Option<&[ObjId]>,
) -> Result<bool, AllocError>
    ensures { IfOk result (λ found. found ≡ is_endless_call protocol (M.state machine.now).heap name.now (option_map (λ t. t.now) ids.entry)) }
{
    if is_endless_name(name) {
        return Ok(true);
    }
    if !is_maker(name) {
        return Ok(false);
    }
    if is_endless_argument(alloc, protocol, machine, ids, 0)? {
        return Ok(true);
    }
    is_endless_argument(alloc, protocol, machine, ids, 1)
}

/// Whether an object stands for any number of items, though a few bytes made it.
pub(crate) fn is_endless<M: Inspect>(
    alloc: Global,
    protocol: u64,
    machine: &M,
    look: Look<'_>,
) -> Result<bool, AllocError>
    ensures { IfOk result (λ found. found ≡ is_endless protocol (M.state machine.now).heap (kind_view look.entry.kind) look.entry.parts.now) }
{
    match callee_name(alloc, protocol, machine, look)? {
        Some(name) => is_endless_call(
            alloc,
            protocol,
            machine,
            name.as_slice(),
            arguments_of(machine, look),
        ),
        None => Ok(false),
    }
}
