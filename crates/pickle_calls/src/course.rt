//! What goes along with the items.

ghost use Rattle.std.specs.Prelude.{◌≡◌};
ghost use Rattle.pickle_ops.specs.KindRef.{kind_view};
ghost use Rattle.pickle_calls.specs.CallsLine.{is_import, is_call, imports_of, calls_of};
ghost use Rattle.pickle_calls.specs.Event.{object_is};

use crate::event::Event;
use crate::naming::{Detail, Naming, left_behind, turns};
use pickle_machine::Inspect;
use pickle_ops::{KindRef, ObjId, OpRef, Row};

/// What goes along with the items that were stepped: how many imports and calls their lines are, how names are read, and what is left of a
/// frame.
#[derive(Clone, Copy)]
pub struct Course {
    /// Imports.
    pub imports: u64,
    /// Calls.
    pub calls: u64,
    /// How names are read.
    pub naming: Naming,
    /// How many bytes are left of a frame.
    pub left: u64,
}

/// Whether an object of this kind is imported.
fn is_import(kind: KindRef<'_>) -> bool
    ensures { result ≡ is_import (kind_view kind.entry) }
{
    match kind {
        KindRef::Global(_) => true,
        KindRef::StackGlobal => true,
        KindRef::Ext(_) => true,
        KindRef::Inst(_) => true,
        _ => false,
    }
}

/// Whether a call makes an object of this kind.
fn is_call(kind: KindRef<'_>) -> bool
    ensures { result ≡ is_call (kind_view kind.entry) }
{
    match kind {
        KindRef::Call => true,
        KindRef::New => true,
        KindRef::NewEx => true,
        KindRef::Inst(_) => true,
        KindRef::Obj => true,
        _ => false,
    }
}

/// Whether the object of this number is there and is imported.
#[tactic(auto, using(crate::proofs::Looks::look_rules))]
fn is_import_at<M: Inspect>(machine: &M, id: ObjId) -> bool
    ensures { result ≡ object_is is_import (M.state machine.now).heap id }
{
    match machine.look(id) {
        Some(look) => is_import(look.kind),
        None => false,
    }
}

/// Whether the object of this number is there and a call makes it.
#[tactic(auto, using(crate::proofs::Looks::look_rules))]
fn is_call_at<M: Inspect>(machine: &M, id: ObjId) -> bool
    ensures { result ≡ object_is is_call (M.state machine.now).heap id }
{
    match machine.look(id) {
        Some(look) => is_call(look.kind),
        None => false,
    }
}

/// How many imports a step is.
fn imports_of<M: Inspect>(machine: &M, event: Option<Event>) -> u64
    ensures { result ≡ imports_of (M.state machine.now).heap event }
{
    match event {
        Some(Event::Made(id)) => u64::from(is_import_at(machine, id)),
        _ => 0,
    }
}

/// How many calls a step is.
fn calls_of<M: Inspect>(machine: &M, event: Option<Event>) -> u64
    ensures { result ≡ calls_of (M.state machine.now).heap event }
{
    match event {
        None => 0,
        Some(Event::Made(id)) => u64::from(is_call_at(machine, id)),
        Some(_) => 1,
    }
}

impl Course {
    ghost use Rattle.std.specs.Prelude.{◌≡◌, ◌+◌, ◌<◌, ◌^◌, false, length};
    ghost use Rattle.pickle_doc.specs.Fitting.{left_behind};
    ghost use Rattle.pickle_calls.specs.Naming.{begin, naming_after};
    ghost use Rattle.pickle_calls.specs.CallsLine.{imports_of, calls_of};

    /// No line was written.
    pub fn new(detail: Detail) -> Course
        ensures { result ≡ record { imports = 0; calls = 0; naming = begin detail 0; left = 0 } }
    {
        Course {
            imports: 0,
            calls: 0,
            naming: Naming::begin(detail, 0),
            left: 0,
        }
    }

    /// After one step more, with its line, if it has one. What is left of a frame stays.
    pub fn with<M: Inspect>(self, row: Row, machine: &M, event: Option<Event>) -> Course
        requires imports { self.imports < 2 ^ 32 }
        requires calls { self.calls < 2 ^ 32 }
        requires objects { length (M.state machine.now).heap < 2 ^ 32 }
        ensures imports { result.imports ≡ self.imports + imports_of (M.state machine.now).heap event }
        ensures calls { result.calls ≡ self.calls + calls_of (M.state machine.now).heap event }
        ensures naming { result.naming ≡ naming_after row (length (M.state machine.now).heap) self.naming }
        ensures left { result.left ≡ self.left }
    {
        Course {
            imports: self.imports + imports_of(machine, event),
            calls: self.calls + calls_of(machine, event),
            naming: self.naming.after(row, machine.objects() as ObjId),
            left: self.left,
        }
    }

    /// The same, apart: few steps have a line or change how names are read.
    #[inline(never)]
    fn with_apart<M: Inspect>(self, row: Row, machine: &M, event: Option<Event>) -> Course
        requires imports { self.imports < 2 ^ 32 }
        requires calls { self.calls < 2 ^ 32 }
        requires objects { length (M.state machine.now).heap < 2 ^ 32 }
        ensures imports { result.imports ≡ self.imports + imports_of (M.state machine.now).heap event }
        ensures calls { result.calls ≡ self.calls + calls_of (M.state machine.now).heap event }
        ensures naming { result.naming ≡ naming_after row (length (M.state machine.now).heap) self.naming }
        ensures left { result.left ≡ self.left }
    {
        self.with(row, machine, event)
    }

    /// After one step more, over this opcode, with its line, if it has one.
    #[tactic(auto, using(crate::proofs::Turns::unturned))]
    #[inline(always)]
    pub fn over<M: Inspect>(
        self,
        op: &OpRef<'_>,
        row: Row,
        machine: &M,
        event: Option<Event>,
    ) -> Course
        requires imports { self.imports < 2 ^ 32 }
        requires calls { self.calls < 2 ^ 32 }
        requires objects { length (M.state machine.now).heap < 2 ^ 32 }
        ensures imports { result.imports ≡ self.imports + imports_of (M.state machine.now).heap event }
        ensures calls { result.calls ≡ self.calls + calls_of (M.state machine.now).heap event }
        ensures naming { result.naming ≡ naming_after row (length (M.state machine.now).heap) self.naming }
        ensures left { result.left ≡ left_behind false self.left op.now }
    {
        if event.is_none() && !turns(row) {
            return Course {
                imports: self.imports,
                calls: self.calls,
                naming: self.naming,
                left: left_behind(op, self.left),
            };
        }
        let course = self.with_apart(row, machine, event);
        Course {
            imports: course.imports,
            calls: course.calls,
            naming: course.naming,
            left: left_behind(op, self.left),
        }
    }
}
