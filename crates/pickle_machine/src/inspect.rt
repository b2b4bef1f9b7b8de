//! What is looked at of a machine.

use crate::machine::Machine;
use pickle_ops::{Class, Look, ObjId};

/// A machine that can be looked at: whoever shows what its steps did needs not know what it keeps of its objects.
pub trait Inspect {
    ghost use Rattle.std.specs.Prelude.{◌≡◌, length, slice_get};
    ghost use Rattle.std.specs.Option.{option_map};
    ghost use Rattle.pickle_ops.specs.KindRef.{shown, look_shown};
    ghost use Rattle.pickle_machine.specs.State.{State, stack_of, stack_size};
    ghost use Rattle.pickle_machine.specs.Seen.{class_at};

    // The state that is looked at.
    ghost state: { Self → State };

    /// How many objects there are.
    fn objects(&self) -> usize
        ensures { result ≡ length (state self.now).heap };

    /// The class of the object of this number, if there is one.
    fn class_at(&self, id: ObjId) -> Option<Class>
        ensures { result ≡ class_at (state self.now).heap id };

    /// What is shown of the object of this number, if there is one.
    fn look(&self, id: ObjId) -> Option<Look<'_>>
        ensures { option_map look_shown result ≡ option_map shown (slice_get (state self.now).heap id) };

    /// How many objects are on the stack, in all sections.
    fn stack_len(&self) -> usize
        ensures { result ≡ stack_size (state self.now) };

    /// The object at this place of the stack, from the bottom and through all sections.
    fn stack_at(&self, i: usize) -> Option<ObjId>
        ensures { result ≡ slice_get (stack_of (state self.now)) i };
}

impl Inspect for Machine {
    ghost state = { λ m. m.state };

    fn objects(&self) -> usize {
        let core = &self.core;
        core.objects.len()
    }

    fn class_at(&self, id: ObjId) -> Option<Class> {
        match self.object(id) {
            Some(object) => Some(object.kind().class()),
            None => None,
        }
    }

    fn look(&self, id: ObjId) -> Option<Look<'_>> {
        match self.object(id) {
            Some(object) => Some(Look {
                kind: object.kind().by_ref(),
                parts: object.parts(),
            }),
            None => None,
        }
    }

    fn stack_len(&self) -> usize {
        let core = &self.core;
        core.stack.size()
    }

    fn stack_at(&self, i: usize) -> Option<ObjId> {
        let core = &self.core;
        core.stack.object_at(i)
    }
}
