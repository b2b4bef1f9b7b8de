//! What a step did, as its record and the machine after it tell.

ghost use Rattle.std.specs.Prelude.{◌≡◌};
ghost use Rattle.pickle_ops.specs.Row.{row_of};
ghost use Rattle.pickle_machine.specs.Back.{last_parts};
ghost use Rattle.pickle_machine.specs.Doing.{sets_mark};

use crate::machine::Machine;
use crate::record::{HeapStep, MemoStep, StepRecord};
use crate::stack::deep;
use pickle_ops::{ObjId, Object, Op, Row};

/// An entry of the memo that a step put there.
#[derive(Clone, Copy)]
pub struct Stored {
    /// The key.
    pub key: u64,
    /// The object under it.
    pub object: ObjId,
    /// The object that the memo had under it before, if there was one.
    pub before: Option<ObjId>,
}

/// Whether the step over an operation sets a mark.
pub fn sets_mark(op: &Op) -> bool
    ensures { result ≡ sets_mark (row_of op.now) }
{
    match Row::of(op) {
        Row::Mark => true,
        _ => false,
    }
}

/// The parts of the last object; none where there is no object.
fn last_parts(heap: &[Object]) -> &[ObjId]
    ensures { result.now ≡ last_parts heap.now }
{
    if heap.is_empty() {
        return &[];
    }
    heap[heap.len() - 1].parts()
}

impl StepRecord {
    ghost use Rattle.std.specs.Prelude.{◌≡◌, is_some};
    ghost use Rattle.pickle_machine.specs.Doing.{is_made, told_changed};

    /// Whether a further pickle began with the step: the stack and the memo of the one before were left.
    pub fn begins(&self) -> bool
        ensures { result ≡ is_some self.now.first }
    {
        self.effect.is_first()
    }

    /// Whether the step made an object.
    pub fn is_made(&self) -> bool
        ensures { result ≡ is_made self.now.heap }
    {
        match self.effect.heap() {
            HeapStep::Made => true,
            HeapStep::Same => false,
            HeapStep::Changed(_, _) => false,
        }
    }

    /// The place of the mark that the step took.
    pub fn cut_mark(&self) -> Option<usize>
        ensures { result ≡ self.now.cut }
    {
        self.effect.cut()
    }

    /// The object that the step changed, and how many changes it got; APPENDS of nothing changes it by none.
    pub fn changed(&self) -> Option<(ObjId, usize)>
        ensures { result ≡ told_changed self.now.heap }
    {
        match self.effect.heap() {
            HeapStep::Made => None,
            HeapStep::Same => None,
            HeapStep::Changed(id, count) => Some((id, count)),
        }
    }
}

impl Machine {
    ghost use Rattle.std.specs.Prelude.{◌≡◌};
    ghost use Rattle.pickle_machine.specs.Move.{deep};
    ghost use Rattle.pickle_machine.specs.Doing.{told_made, told_pushed, told_took, told_stored};

    /// The object on top of the stack; 0 where the top section is empty.
    #[tactic(auto, using(crate::proofs::Doings::top_steps))]
    fn top_object(&self) -> ObjId
        ensures { result ≡ deep 0 self.now.state.top }
    {
        let top = self.core.stack.top();
        if top.is_empty() { 0 } else { deep(top, 0) }
    }

    /// The object that a step made, where the machine is right after the step.
    pub fn made_by(&self, step: &StepRecord) -> Option<usize>
        ensures { result ≡ told_made step.now self.now.state }
    {
        if step.is_made() {
            Some(self.objects().saturating_sub(1))
        } else {
            None
        }
    }

    /// The object that a step put on the stack, also one that it made, where the machine is right after the step.
    pub fn pushed_by(&self, step: &StepRecord) -> Option<ObjId>
        ensures { result ≡ told_pushed step.now self.now.state }
    {
        if step.effect.pushed() || step.is_made() {
            Some(self.top_object())
        } else {
            None
        }
    }

    /// The objects that a step took off the stack, the lowest first and without the target of a change, where the machine is right
    /// after the step.
    pub fn taken_by<'a>(&'a self, step: &'a StepRecord) -> &'a [ObjId]
        ensures { result.now ≡ told_took step.now self.now.state }
    {
        if step.is_made() {
            last_parts(self.heap())
        } else {
            step.effect.taken()
        }
    }

    /// The entry that a step put into the memo, where the machine is right after the step.
    pub fn stored_by(&self, step: &StepRecord) -> Option<Stored>
        ensures { result ≡ told_stored step.now.memo self.now.state }
    {
        let object = self.top_object();
        match step.effect.memo() {
            MemoStep::Same => None,
            MemoStep::Fresh(key) => Some(Stored {
                key,
                object,
                before: None,
            }),
            MemoStep::Replaced(key, old) => Some(Stored {
                key,
                object,
                before: Some(old),
            }),
        }
    }
}
