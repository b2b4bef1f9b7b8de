//! An object with all that it contains.

ghost use Rattle.std.specs.Prelude.{◌≡◌, ◌+◌, ◌≤◌, [], ◌++◌, get_or, false, length, replicate, OnOk, IfOk, IfErr, Err};
ghost use Rattle.std.specs.Option.{option_copied};
ghost use Rattle.std.specs.Vec.{vec_capacity};
ghost use Rattle.pickle_io.specs.Device.{Wrote, Broke, Writes};
ghost use Rattle.object_texts.specs.Show.{again_line, first_line, found, show_text};
ghost use Rattle.object_texts.specs.Inside.Walking.{unseen, place_line, seen_after, entered, unwritten_text, walk_text};

use crate::content::RemainingContent;
use crate::object::{write_next, write_object};
use pickle_io::{Failed, Page, write_all, write_decimal};
use pickle_machine::Machine;
use pickle_ops::{ObjId, Object};
use pickle_text::TextStop;
use std::alloc::Global;

/// Writes the line of an object that is shown elsewhere.
fn write_again<S: Page>(depth: usize, id: ObjId, page: &mut S) -> Result<(), Failed>
    ensures { Writes (S.told page.old) (S.told page.new) result (again_line depth id) }
{
    write_decimal(depth as u64, page)?;
    write_next(id, page)?;
    write_all(page, b"\n")
}

/// Writes the line of an object at its first place.
fn write_first<S: Page>(
    depth: usize,
    id: ObjId,
    object: &Object,
    page: &mut S,
) -> Result<(), Failed>
    ensures { Writes (S.told page.old) (S.told page.new) result (first_line depth id object.now) }
{
    write_decimal(depth as u64, page)?;
    write_all(page, b" ")?;
    write_object(u64::from(id), object, page)?;
    write_all(page, b"\n")
}

/// Whether an object was seen; a number that names no object was not.
fn is_seen(seen: &[bool], id: ObjId) -> bool
    ensures { result ≡ get_or seen.now id false }
{
    match seen.get(id as usize) {
        Some(seen) => *seen,
        None => false,
    }
}

/// The object of a number, unless it was seen.
fn find<'a>(machine: &'a Machine, seen: &[bool], id: ObjId) -> Option<&'a Object>
    ensures { option_copied result ≡ found machine.now.state.heap seen.now id }
{
    if is_seen(seen, id) {
        None
    } else {
        machine.object(id)
    }
}

/// Writes the line of a place; where it is the first of its object, that is seen, and its content is put on the stack.
fn visit<'a, S: Page>(
    machine: &'a Machine,
    depth: usize,
    id: ObjId,
    stack: &mut Vec<RemainingContent<'a>>,
    seen: &mut Vec<bool>,
    page: &mut S,
) -> Result<(), Failed>
    requires seen { length seen.old.items ≡ length machine.now.state.heap }
    requires room { length stack.old.items + unseen seen.old.items ≤ vec_capacity stack.old }
    ensures line { Writes (S.told page.old) (S.told page.new) result (place_line depth id (found machine.now.state.heap seen.old.items id)) }
    ensures seen { OnOk result (seen.new.items ≡ seen_after seen.old.items id (found machine.now.state.heap seen.old.items id)) }
    ensures stack { OnOk result (stack.new.items ≡ stack.old.items ++ entered (found machine.now.state.heap seen.old.items id)) }
    ensures length { OnOk result (length seen.new.items ≡ length seen.old.items) }
    ensures fits { OnOk result (length stack.new.items + unseen seen.new.items ≤ vec_capacity stack.new) }
{
    match find(machine, seen.as_slice(), id) {
        None => write_again(depth, id, page),
        Some(object) => {
            write_first(depth, id, object, page)?;
            seen[id as usize] = true;
            stack.push_reserved(RemainingContent::of(object));
            Ok(())
        }
    }
}

/// Writes what the stack has still to show. It keeps what is left of each object on the way down.
fn go_on<'a, S: Page>(
    machine: &'a Machine,
    stack: &mut Vec<RemainingContent<'a>>,
    seen: &mut Vec<bool>,
    page: &mut S,
) -> Result<(), Failed>
    requires seen { length seen.old.items ≡ length machine.now.state.heap }
    requires room { length stack.old.items + unseen seen.old.items ≤ vec_capacity stack.old }
    ensures { Writes (S.told page.old) (S.told page.new) result (unwritten_text machine.now.state.heap seen.old.items stack.old.items) }
{
    while let Some(content) = stack.pop() {
        if let Some((id, rest)) = content.next() {
            stack.push_reserved(rest);
            visit(machine, stack.len(), id, stack, seen, page)?;
        }
    }
    Ok(())
}

/// Writes the walk from an object, where there is room for it.
fn walk_from<'a, S: Page>(
    machine: &'a Machine,
    id: ObjId,
    stack: &mut Vec<RemainingContent<'a>>,
    seen: &mut Vec<bool>,
    page: &mut S,
) -> Result<(), Failed>
    requires seen { length seen.old.items ≡ length machine.now.state.heap }
    requires room { unseen seen.old.items ≤ vec_capacity stack.old }
    requires empty { stack.old.items ≡ [] }
    ensures { Writes (S.told page.old) (S.told page.new) result (walk_text machine.now.state.heap seen.old.items id) }
{
    visit(machine, 0, id, stack, seen, page)?;
    go_on(machine, stack, seen, page)
}

/// The marks of this many objects, of which none was seen. An error where memory runs out.
fn none_seen(alloc: Global, count: usize) -> Result<Vec<bool>, TextStop>
    ensures ok { IfOk result (λ seen. seen.items ≡ replicate count false) }
    ensures memory { IfErr result (λ e. e ≡ TextStop.Memory) }
{
    let mut seen = Vec::new(alloc);
    if seen.resize(count, false).is_err() {
        return Err(TextStop::Memory);
    }
    Ok(seen)
}

/// Writes an object with all that it contains: a line for each place of a walk, with its depth. At the first place of an
/// object is the object, and after it come its parts and what was put into it, one deeper; a later place is only its number.
/// It takes time linear in the lines, and does not recurse. A number that names no object is one short line.
///
/// All memory is asked for before anything is written, some bytes for each object of the machine: `Memory` where it runs out,
/// and then nothing was written. `Failed` where the sink fails; a beginning of the text was written then.
pub fn write_show<S: Page>(
    alloc: Global,
    machine: &Machine,
    id: ObjId,
    page: &mut S,
) -> Result<(), TextStop>
    ensures ok { OnOk result (Wrote (S.told page.old) (S.told page.new) (show_text machine.now.state.heap id)) }
    ensures failed { result ≡ Err TextStop.Failed → Broke (S.told page.old) (S.told page.new) (show_text machine.now.state.heap id) }
    ensures memory { result ≡ Err TextStop.Memory → page.new ≡ page.old }
{
    let mut stack = Vec::with_capacity(alloc, machine.objects())?;
    let mut seen = none_seen(alloc, machine.objects())?;
    walk_from(machine, id, &mut stack, &mut seen, page)?;
    Ok(())
}
