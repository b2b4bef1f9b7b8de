//! How deep tuples stand within one another.

ghost use Rattle.std.specs.Prelude.{◌≡◌, ◌<◌, ◌^◌, length, get_or, max, IfOk};
ghost use Rattle.pickle_io.specs.Device.{Writes};
ghost use Rattle.pickle_ops.specs.KindRef.{kind_view};
ghost use Rattle.pickle_further.specs.Deep.{is_tuple, are_tuples, deepest, depth_by, depth_at, first_deep, deep_words, deep_line, deep_text, warnings_text};

use crate::leads::{warning_words, write_warning_line};
use pickle_io::{Failed, Page, write_all};
use pickle_machine::Inspect;
use pickle_ops::{Class, KindRef, ObjId};
use pickle_text::write_id;
use std::alloc::{AllocError, Global};

/// Tuples may be nested so deep.
const MOST_NESTED: u16 = 100;

/// Whether a kind is that of a tuple.
fn is_tuple(kind: KindRef<'_>) -> bool
    ensures { result ≡ is_tuple (kind_view kind.entry) }
{
    match kind {
        KindRef::Tuple => true,
        _ => false,
    }
}

/// The depth of an object of this number; 0 where it has none yet.
fn depth_of(depths: &[u8], id: ObjId) -> u8
    ensures { result ≡ get_or depths.now id 0 }
{
    match depths.get(id as usize) {
        Some(depth) => *depth,
        None => 0,
    }
}

/// The greater of both.
fn greater(one: u8, other: u8) -> u8
    ensures { result ≡ max one other }
{
    if one < other { other } else { one }
}

/// The greatest depth of these objects, where this is that of each of the first ones.
fn deepest(depths: &[u8], ids: &[ObjId]) -> u8
    ensures { result ≡ deepest depths.now ids.now }
{
    let mut most = 0;
    for id in ids {
        most = greater(most, depth_of(depths, *id));
    }
    most
}

/// The depth of an object of this kind with these parts.
fn depth_by(depths: &[u8], kind: KindRef<'_>, parts: &[ObjId]) -> u16
    ensures { result ≡ depth_by depths.now (kind_view kind.entry) parts.now }
{
    if is_tuple(kind) {
        u16::from(deepest(depths, parts)) + 1
    } else {
        0
    }
}

/// The depth of the object of this number, by a look at it.
#[tactic(auto, using(crate::proofs::Nested::depth_rules))]
fn looked_depth<M: Inspect>(machine: &M, depths: &[u8], id: ObjId) -> u16
    ensures { result ≡ depth_at depths.now (M.state machine.now).heap id }
{
    match machine.look(id) {
        Some(look) => depth_by(depths, look.kind, look.parts),
        None => 0,
    }
}

/// Whether objects of this class are tuples.
fn are_tuples(class: Class) -> bool
    ensures { result ≡ are_tuples class }
{
    match class {
        Class::Tuple => true,
        _ => false,
    }
}

/// The depth of the object of this number. Most objects have none by their class.
#[tactic(auto, using(crate::proofs::Nested::class_rules))]
fn depth_at<M: Inspect>(machine: &M, depths: &[u8], id: ObjId) -> u16
    ensures { result ≡ depth_at depths.now (M.state machine.now).heap id }
{
    match machine.class_at(id) {
        Some(class) => {
            if are_tuples(class) {
                looked_depth(machine, depths, id)
            } else {
                0
            }
        }
        None => 0,
    }
}

/// The first tuple that is nested too deep.
pub fn first_deep<M: Inspect>(alloc: Global, machine: &M) -> Result<Option<ObjId>, AllocError>
    requires { length (M.state machine.now).heap < 2 ^ 32 }
    ensures { IfOk result (λ x. x ≡ first_deep (M.state machine.now).heap) }
{
    let mut depths: Vec<u8> = Vec::new(alloc);
    for id in 0..machine.objects() {
        let depth = depth_at(machine, depths.as_slice(), id as ObjId);
        if MOST_NESTED < depth {
            return Ok(Some(id as ObjId));
        }
        depths.push(depth as u8)?;
    }
    Ok(None)
}

/// The words behind the object.
#[tactic(auto, unfolding(crate::specs::Deep::deep_words))]
fn deep_words() -> &'static str
    ensures { result.now ≡ deep_words }
{
    " is a tuple nested deeper than 100"
}

/// Writes that this tuple is nested too deep.
fn write_deep_line<S: Page>(id: ObjId, page: &mut S) -> Result<(), Failed>
    ensures { Writes (S.told page.old) (S.told page.new) result (deep_line id) }
{
    write_all(page, warning_words().as_bytes())?;
    write_id(u64::from(id), page)?;
    write_all(page, deep_words().as_bytes())?;
    write_all(page, b"\n")
}

/// Writes it, if one is.
fn write_deep<S: Page>(deep: Option<ObjId>, page: &mut S) -> Result<(), Failed>
    ensures { Writes (S.told page.old) (S.told page.new) result (deep_text deep) }
{
    match deep {
        Some(id) => write_deep_line(id, page),
        None => Ok(()),
    }
}

/// Writes that an import leads to the unpickler, or else that a tuple is nested too deep.
pub fn write_warnings<S: Page>(
    leads: Option<ObjId>,
    deep: Option<ObjId>,
    page: &mut S,
) -> Result<(), Failed>
    ensures { Writes (S.told page.old) (S.told page.new) result (warnings_text leads deep) }
{
    match leads {
        Some(id) => write_warning_line(id, page),
        None => write_deep(deep, page),
    }
}
