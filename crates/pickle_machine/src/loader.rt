//! What loaders take that the machine refuses: the same moves, by rows that ask for less.

ghost use Rattle.std.specs.Prelude.{◌≡◌, ◌<◌, length, nat_le, ◌&&◌, ◌||◌};
ghost use Rattle.std.specs.Option.{option_map_or};
ghost use Rattle.pickle_machine.specs.State.{State};
ghost use Rattle.pickle_machine.specs.Move.{deep, under, begun};
ghost use Rattle.pickle_machine.specs.Loader.{opaque_at, views, view_at, loose_at, iterates, iterates_at, keyed_at, takes_call, takes_call_with, takes_obj, is_string, string_at, takes_string, asks_less, parts_in, is_odd, fills, fills_more, fill_when, fill_of, drop_row, drops_two, ends_odd, is_inst, import_move, fill_move, loader_move};

use crate::check::Operands;
use crate::machine::{Core, Machine};
use crate::refusal::Refusal;
use crate::stack::deep;
use pickle_ops::{
    Class, Cutting, Demand, Filling, Kind, ObjId, Object, OpRef, Opcode, Row, Taking,
};
use std::alloc::{AllocError, Global};

/// What goes into an object that the machine would refuse: how, how many items, pairs or members, and into which.
#[derive(Clone, Copy)]
pub struct Fill {
    /// How.
    pub filling: Filling,
    /// How many items, pairs or members.
    pub count: usize,
    /// Into which.
    pub target: ObjId,
}

/// How a loader moves.
#[derive(Clone, Copy)]
pub struct LoaderMove {
    /// The row as which it moves.
    pub row: Row,
    /// It moves as this row twice.
    pub again: bool,
    /// This goes into an object.
    pub fill: Option<Fill>,
    /// It ends after this move, and why.
    pub last: Option<Refusal>,
    /// It imports only, as GLOBAL does.
    pub imports: bool,
}

/// Whether the object of this number is there and comes from elsewhere or from a call.
fn opaque_at(heap: &[Object], id: ObjId) -> bool
    ensures { result ≡ opaque_at heap.now id }
{
    match heap.get(id as usize) {
        Some(object) => object.kind().is_opaque(),
        None => false,
    }
}

/// Whether an object is a view of one that comes from elsewhere or from a call.
fn is_view(heap: &[Object], object: &Object) -> bool
    ensures { result ≡ views heap.now object.now.kind object.now.parts }
{
    match object.kind() {
        Kind::ReadOnly => match object.parts().get(0) {
            Some(id) => opaque_at(heap, *id),
            None => false,
        },
        _ => false,
    }
}

/// Whether the object of this number is there and is such a view.
fn view_at(heap: &[Object], id: ObjId) -> bool
    ensures { result ≡ view_at heap.now id }
{
    match heap.get(id as usize) {
        Some(object) => is_view(heap, object),
        None => false,
    }
}

/// Whether loaders may call the object of this number.
fn loose_at(heap: &[Object], id: ObjId) -> bool
    ensures { result ≡ loose_at heap.now id }
{
    opaque_at(heap, id) || view_at(heap, id)
}

/// Whether the elements of an object of this kind may be the arguments of a call.
fn iterates(kind: &Kind) -> bool
    ensures { result ≡ iterates kind.now }
{
    match kind {
        Kind::FrozenSet => true,
        _ => !matches!(kind.class(), Class::Plain),
    }
}

/// The same of the object of this number.
fn iterates_at(heap: &[Object], id: ObjId) -> bool
    ensures { result ≡ iterates_at heap.now id }
{
    match heap.get(id as usize) {
        Some(object) => iterates(object.kind()),
        None => false,
    }
}

/// Whether an object of this kind is a string of Python 2.
fn is_string(kind: &Kind) -> bool
    ensures { result ≡ is_string kind.now }
{
    matches!(kind, Kind::LegacyString(_) | Kind::LegacyLine(_))
}

/// Whether the object of this number is there and is such a string.
fn string_at(heap: &[Object], id: ObjId) -> bool
    ensures { result ≡ string_at heap.now id }
{
    match heap.get(id as usize) {
        Some(object) => is_string(object.kind()),
        None => false,
    }
}

/// How many items, pairs or members these objects are.
pub(crate) fn parts_in(filling: Filling, objects: usize) -> usize
    ensures { result ≡ parts_in filling objects }
{
    match filling {
        Filling::SetItem => objects / 2,
        _ => objects,
    }
}

/// Whether the last of these objects has no partner.
fn is_odd(filling: Filling, objects: usize) -> bool
    ensures { result ≡ is_odd filling objects }
{
    match filling {
        Filling::SetItem => objects % 2 != 0,
        _ => false,
    }
}

/// Whether objects go in as items, pairs or members.
fn fills(filling: Filling) -> bool
    ensures { result ≡ fills filling }
{
    !matches!(filling, Filling::Build)
}

/// Whether these objects go into that one although the machine refuses it.
fn fills_more(filling: Filling, objects: usize, target: ObjId, heap: &[Object]) -> bool
    ensures { result ≡ fills_more filling objects target heap.now }
{
    fills(filling)
        && (parts_in(filling, objects) > 0
            && (view_at(heap, target) || (is_odd(filling, objects) && opaque_at(heap, target))))
}

/// What these objects are that go into that one although the machine refuses it.
fn fill_when(filling: Filling, objects: usize, target: ObjId, heap: &[Object]) -> Option<Fill>
    ensures { result ≡ fill_when filling objects target heap.now }
{
    if fills_more(filling, objects, target, heap) {
        Some(Fill {
            filling,
            count: parts_in(filling, objects),
            target,
        })
    } else {
        None
    }
}

/// The row that takes what goes into an object off the stack.
fn drop_row(row: Row) -> Row
    ensures { result ≡ drop_row row }
{
    match row {
        Row::Change(_) => Row::Pop,
        _ => Row::PopMark,
    }
}

/// Whether two objects are taken one by one.
fn drops_two(row: Row) -> bool
    ensures { result ≡ drops_two row }
{
    matches!(row, Row::Change(Filling::SetItem))
}

/// Whether this is INST.
fn is_inst(opcode: Opcode) -> bool
    ensures { result ≡ is_inst opcode }
{
    matches!(opcode, Opcode::Inst)
}

impl Core {
    ghost use Rattle.std.specs.Prelude.{◌≡◌};
    ghost use Rattle.pickle_machine.specs.Loader.{keyed_at, takes_call, takes_call_with, takes_obj, takes_string, asks_less, fill_of, ends_odd, loader_move, cleared};

    /// Whether a call is taken whose arguments are below this many objects.
    fn takes_call(&self, above: usize) -> bool
        requires { above < 2 }
        ensures { result ≡ takes_call above self.now.state }
    {
        let top = self.stack.top();
        let heap = self.objects.as_slice();
        if top.len() < above + 2 {
            return false;
        }
        loose_at(heap, deep(top, above + 1)) && iterates_at(heap, deep(top, above))
    }

    /// Whether the object of this number may be the keywords of a call.
    fn keyed_at(&self, id: ObjId) -> bool
        ensures { result ≡ keyed_at self.now.state id }
    {
        self.meets(id, Demand::Keywords) || view_at(self.objects.as_slice(), id)
    }

    /// Whether a call with names is taken.
    fn takes_call_with(&self) -> bool
        ensures { result ≡ takes_call_with self.now.state }
    {
        self.takes_call(1) && self.keyed_at(deep(self.stack.top(), 0))
    }

    /// Whether a call of the lowest object above the mark is taken.
    fn takes_obj(&self) -> bool
        ensures { result ≡ takes_obj self.now.state }
    {
        let top = self.stack.top();
        if top.is_empty() {
            return false;
        }
        loose_at(self.objects.as_slice(), top[0])
    }

    /// Whether the top is a string that may be bytes.
    fn takes_string(&self) -> bool
        ensures { result ≡ takes_string self.now.state }
    {
        let top = self.stack.top();
        if top.is_empty() {
            return false;
        }
        string_at(self.objects.as_slice(), deep(top, 0))
    }

    /// The row that asks for less.
    fn asks_less(&self, row: Row) -> Row
        ensures { result ≡ asks_less row self.now.state }
    {
        match row {
            Row::Protocol(_) => Row::Nothing,
            Row::Extension(_) => Row::Push,
            Row::ReadOnly => {
                if self.takes_string() {
                    Row::Nothing
                } else {
                    row
                }
            }
            Row::Take(Taking::Call) => {
                if self.takes_call(0) {
                    Row::Take(Taking::Two)
                } else {
                    row
                }
            }
            Row::Take(Taking::CallWith) => {
                if self.takes_call_with() {
                    Row::Take(Taking::Three)
                } else {
                    row
                }
            }
            Row::Cut(Cutting::Callable) => {
                if self.takes_obj() {
                    Row::Cut(Cutting::Any)
                } else {
                    row
                }
            }
            _ => row,
        }
    }

    /// What goes into an object although the machine refuses it.
    fn fill_of(&self, row: Row) -> Option<Fill>
        ensures { result ≡ fill_of row self.now.state }
    {
        let top = self.stack.top();
        let heap = self.objects.as_slice();
        match row {
            Row::Change(filling) => {
                let values = filling.values();
                if values < top.len() {
                    fill_when(filling, values, deep(top, values), heap)
                } else {
                    None
                }
            }
            Row::CutChange(filling) => {
                let below = self.stack.under_or_none();
                if self.stack.depth() > 0 && !below.is_empty() {
                    fill_when(filling, top.len(), deep(below, 0), heap)
                } else {
                    None
                }
            }
            _ => None,
        }
    }

    /// Why a loader ends after it put pairs into an object.
    fn ends_odd(&self, row: Row) -> Option<Refusal>
        ensures { result ≡ ends_odd row self.now.state }
    {
        match row {
            Row::CutChange(filling) => {
                if is_odd(filling, self.stack.top().len()) {
                    Some(Refusal::OddItems)
                } else {
                    None
                }
            }
            _ => None,
        }
    }

    /// How a loader moves, within a pickle.
    fn loader_move(&self, opcode: Opcode, row: Row) -> LoaderMove
        ensures { result ≡ loader_move opcode row self.now.state }
    {
        if is_inst(opcode) && self.stack.depth() == 0 {
            return LoaderMove {
                row: Row::Push,
                again: false,
                fill: None,
                last: Some(Refusal::NoMark),
                imports: true,
            };
        }
        match self.fill_of(row) {
            None => LoaderMove {
                row: self.asks_less(row),
                again: false,
                fill: None,
                last: None,
                imports: false,
            },
            Some(fill) => LoaderMove {
                row: drop_row(row),
                again: drops_two(row),
                fill: Some(fill),
                last: self.ends_odd(row),
                imports: false,
            },
        }
    }

    /// Drops the stack, the marks and the results.
    fn clear_stack(&mut self)
        ensures { self.new ≡ record self.old { state = cleared self.old.state } }
    {
        self.stack.clear();
        self.results.clear();
        self.stopped = false;
    }
}

/// How a loader moves as the first step of a further pickle.
fn first_loader_move(opcode: Opcode, row: Row) -> LoaderMove
    ensures { (s : State) → result ≡ loader_move opcode row (begun s) }
{
    if is_inst(opcode) {
        return LoaderMove {
            row: Row::Push,
            again: false,
            fill: None,
            last: Some(Refusal::NoMark),
            imports: true,
        };
    }
    let row = match row {
        Row::Protocol(_) => Row::Nothing,
        Row::Extension(_) => Row::Push,
        _ => row,
    };
    LoaderMove {
        row,
        again: false,
        fill: None,
        last: None,
        imports: false,
    }
}

impl Machine {
    ghost use Rattle.std.specs.Prelude.{◌≡◌, ◌≢◌, ◌+◌, ◌<◌, ◌≤◌, ◌-◌, ◌^◌, true, length, slice_get, OnOk, OnErr, IfErr, Ok, Some, None};
    ghost use Rattle.pickle_machine.specs.Kept.{AreBelow};
    ghost use Rattle.pickle_machine.specs.Move.{fresh, refusal_of, put_on};
    ghost use Rattle.pickle_machine.specs.Loader.{loader_move, move_as, cleared};

    /// How a loader moves at this opcode, whose row this is.
    pub fn loader_move(&self, opcode: Opcode, row: Row) -> LoaderMove
        ensures { result ≡ loader_move opcode row (fresh self.now.state) }
    {
        let core = &self.core;
        if core.stopped {
            first_loader_move(opcode, row)
        } else {
            core.loader_move(opcode, row)
        }
    }

    /// A row that is not refused, of which nothing is kept to go back by.
    #[inline(always)]
    fn advance_as(
        &mut self,
        alloc: Global,
        row: Row,
        op: &OpRef<'_>,
        place: usize,
    ) -> Result<(), AllocError>
        requires heap { length self.old.state.heap < 2 ^ 32 - 1 }
        requires good { refusal_of row (fresh self.old.state) ≡ None }
        ensures ok { OnOk result (move_as row op.now place self.old.state ≡ Ok self.new.state) }
        ensures err { OnErr result (self.new.state ≡ self.old.state) }
        ensures objects { length self.new.state.heap ≤ length self.old.state.heap + 1 }
    {
        self.core.go_on(alloc, row, op, place)?;
        Ok(())
    }

    /// One step forwards as a row that need not be the operation's own: what it makes is of the operation's kind. No record of it is
    /// made, and it is not counted.
    #[inline(always)]
    pub fn step_as(
        &mut self,
        alloc: Global,
        row: Row,
        op: &OpRef<'_>,
        place: usize,
    ) -> Result<(), Refusal>
        requires { length self.old.state.heap < 2 ^ 32 - 1 }
        ensures ok { OnOk result (move_as row op.now place self.old.state ≡ Ok self.new.state) }
        ensures refused { IfErr result (λ e. e ≢ Refusal.Memory → refusal_of row (fresh self.old.state) ≡ Some e) }
        ensures err { OnErr result (self.new.state ≡ self.old.state) }
        ensures objects { length self.new.state.heap ≤ length self.old.state.heap + 1 }
    {
        if let Some(refusal) = self.check_row(row) {
            return Err(refusal);
        }
        self.advance_as(alloc, row, op, place)?;
        Ok(())
    }

    /// Whether the last move was STOP, where several pickles are run.
    pub fn has_stopped(&self) -> bool
        ensures { result ≡ self.now.state.stopped }
    {
        let core = &self.core;
        core.stopped
    }

    /// The object on top of the section above the topmost mark.
    pub fn top(&self) -> Option<ObjId>
        ensures { result ≡ slice_get self.now.state.top (length self.now.state.top - 1) }
    {
        let core = &self.core;
        core.stack.top().last().copied()
    }

    /// Whether each key of the memo is below 2^64: it always is, which only `prove!` asks.
    pub fn has_short_keys(&self) -> bool
        ensures always { result ≡ true }
        ensures below { AreBelow (2 ^ 64) self.now.state.memo }
    {
        let core = &self.core;
        core.memo.are_short()
    }

    /// Puts an object that is there on the stack, as GET does. An error comes only where memory runs out, and changes nothing.
    pub fn put_on(&mut self, id: ObjId) -> Result<(), AllocError>
        requires { id < length self.old.state.heap }
        ensures ok { OnOk result (self.new.state ≡ put_on id self.old.state) }
        ensures err { OnErr result (self.new.state ≡ self.old.state) }
    {
        self.core.repeat(id)?;
        Ok(())
    }

    /// What an unpickler does that loads again after STOP: the stack, the marks and the result begin anew, and objects, memo and
    /// the count of buffers stay. It takes no memory, and no room is lost.
    pub fn clear_stack(&mut self)
        ensures { self.new ≡ record self.old { state = cleared self.old.state } }
    {
        self.core.clear_stack();
    }
}
