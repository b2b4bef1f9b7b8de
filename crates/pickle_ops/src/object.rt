//! Objects, and what was done to them.

use crate::kind::Kind;
use std::alloc::{AllocError, Global};
use std::marker::Model;

/// The number of an object: its place in the heap.
pub type ObjId = u32;

/// What was done to an object after it was made.
#[derive(Clone, Copy, Debug, PartialEq, Eq)]
pub enum Change {
    /// This object was put after its items.
    Append(ObjId),
    /// A key was mapped to a value in it.
    SetItem(ObjId, ObjId),
    /// This object was put among its members.
    Add(ObjId),
    /// This object was made its state.
    Build(ObjId),
}

/// Parts and changes, in lists.
#[derive(Debug, Drop)]
pub(crate) struct Content {
    parts: Vec<ObjId>,
    changes: Vec<Change>,
}

/// What an object is made of, and what was done to it: in the value itself while there are at most three parts and nothing was
/// ever put in, as of most objects, and else in a box.
#[derive(Debug, Drop)]
pub(crate) enum Made {
    Nothing,
    One([ObjId; 1]),
    Two([ObjId; 2]),
    Three([ObjId; 3]),
    More(Box<Content>),
}

impl Made {
    ghost use Rattle.std.specs.Prelude.{◌≡◌, ◌<◌, [], length, IfOk, OnErr};
    ghost use Rattle.pickle_ops.specs.Object.{most_inline_parts};
    ghost use Rattle.pickle_ops.specs.Inside.Content.{parts_of, made_changes};

    /// These parts and changes, in a box.
    #[inline(always)]
    fn boxed(alloc: Global, parts: &[ObjId], changes: Vec<Change>) -> Result<Made, AllocError>
        ensures parts { IfOk result (λ m. parts_of m ≡ parts.now) }
        ensures changes { IfOk result (λ m. made_changes m ≡ changes.items) }
    {
        let content = Content {
            parts: Vec::from_slice(alloc, parts)?,
            changes,
        };
        Ok(Made::More(Box::new(alloc, content)?))
    }

    /// These parts, and no change. It fails only where memory runs out, and only where there are more than three.
    #[inline(always)]
    fn of(alloc: Global, parts: &[ObjId]) -> Result<Made, AllocError>
        ensures parts { IfOk result (λ m. parts_of m ≡ parts.now) }
        ensures changes { IfOk result (λ m. made_changes m ≡ []) }
        ensures err { OnErr result (most_inline_parts < length parts.now) }
    {
        match *parts {
            [] => Ok(Made::Nothing),
            [first] => Ok(Made::One([first])),
            [first, second] => Ok(Made::Two([first, second])),
            [first, second, third] => Ok(Made::Three([first, second, third])),
            _ => Made::boxed(alloc, parts, Vec::new(alloc)),
        }
    }
}

/// An object of the heap: its kind and its parts, which stay, and what was done to it since.
#[derive(Debug)]
pub struct Object {
    kind: Kind,
    made: Made,
}

// By hand: a proof then has one way to let an object go, and not a case for each kind.
impl Drop for Object {
    #[inline(always)]
    fn drop(self) {
        let Object {
            kind: _kind,
            made: _made,
        } = self;
    }
}

const _: () = prove!(size_of::<Object>() == 40);

impl Model for Object {
    ghost use Rattle.pickle_ops.specs.Object.{Object};
    ghost use Rattle.pickle_ops.specs.Inside.Content.{parts_of, made_changes};

    ghost Value = { Object };

    ghost view = { λ o. record { kind = o.kind; parts = parts_of o.made; changes = made_changes o.made } };
}

impl Object {
    ghost use Rattle.std.specs.Prelude.{◌≡◌, ◌-◌, ◌<◌, [], ◌++◌, length, take, IfOk, OnOk, OnErr};
    ghost use Rattle.pickle_ops.specs.Object.{most_inline_parts};

    /// A new object, which has no part and to which nothing was done. A machine makes one for each step that makes an
    /// object of nothing.
    pub fn new(kind: Kind) -> Object
        ensures { result ≡ record { kind = kind; parts = []; changes = [] } }
    {
        Object {
            kind,
            made: Made::Nothing,
        }
    }

    /// A new object of these parts, to which nothing was done. A machine makes one for each step that makes an object of
    /// others. It fails only where memory runs out, and only where there are more than three parts.
    pub fn of_parts(alloc: Global, kind: Kind, parts: &[ObjId]) -> Result<Object, AllocError>
        ensures ok { IfOk result (λ o. o ≡ record { kind = kind; parts = parts.now; changes = [] }) }
        ensures err { OnErr result (most_inline_parts < length parts.now) }
    {
        Ok(Object {
            kind,
            made: Made::of(alloc, parts)?,
        })
    }

    /// What it is.
    pub fn kind(&self) -> &Kind
        ensures { result.now ≡ self.now.kind }
    {
        &self.kind
    }

    /// The objects that it was made of.
    pub fn parts(&self) -> &[ObjId]
        ensures { result.now ≡ self.now.parts }
    {
        match &self.made {
            Made::Nothing => &[],
            Made::One(parts) => parts,
            Made::Two(parts) => parts,
            Made::Three(parts) => parts,
            Made::More(content) => content.parts.as_slice(),
        }
    }

    /// What was done to it, the earliest first.
    pub fn changes(&self) -> &[Change]
        ensures { result.now ≡ self.now.changes }
    {
        match &self.made {
            Made::More(content) => content.changes.as_slice(),
            _ => &[],
        }
    }

    /// Puts changes after the others, for a step that puts something into it. Where memory runs out, it stays as it
    /// was.
    pub fn change(&mut self, alloc: Global, more: &[Change]) -> Result<(), AllocError>
        ensures ok { OnOk result (self.new ≡ record self.old { changes = self.old.changes ++ more.now }) }
        ensures err { OnErr result (self.new ≡ self.old) }
    {
        if more.is_empty() {
            return Ok(());
        }
        if let Made::More(content) = &mut self.made {
            content.changes.extend_from_slice(more)?;
            return Ok(());
        }
        let changes = Vec::from_slice(alloc, more)?;
        self.made = Made::boxed(alloc, self.parts(), changes)?;
        Ok(())
    }

    /// The same of a list, which is kept where nothing was done to it before.
    pub fn change_all(&mut self, alloc: Global, more: Vec<Change>) -> Result<(), AllocError>
        ensures ok { OnOk result (self.new ≡ record self.old { changes = self.old.changes ++ more.items }) }
        ensures err { OnErr result (self.new ≡ self.old) }
    {
        if more.is_empty() {
            return Ok(());
        }
        if let Made::More(content) = &mut self.made {
            content.changes.extend_from_slice(more.as_slice())?;
            return Ok(());
        }
        self.made = Made::boxed(alloc, self.parts(), more)?;
        Ok(())
    }

    /// Takes the last changes away, where a step that put them there is taken back. It takes no memory, and a box stays.
    pub fn shorten(&mut self, count: usize)
        ensures { self.new ≡ record self.old { changes = take (length self.old.changes - count) self.old.changes } }
    {
        if let Made::More(content) = &mut self.made {
            let left = content.changes.len().saturating_sub(count);
            content.changes.truncate(left);
        }
    }
}
