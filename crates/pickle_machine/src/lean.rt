//! A machine that keeps an outline of the state.

ghost use Rattle.std.specs.Prelude.{◌≡◌, false, slice_get};
ghost use Rattle.std.specs.Option.{option_map_or};
ghost use Rattle.pickle_ops.specs.Class.{class_meets};

use crate::check::{Operands, refusal};
use crate::memo::Memo;
use crate::refusal::Refusal;
use crate::stack::{Stack, deep};
use pickle_ops::{Class, Demand, Filling, ObjId, Row};
use std::alloc::{AllocError, Global};
use std::marker::Model;

/// A machine that keeps of its objects what an opcode may ask of them, and nothing to go back by. Its state is an outline.
/// Where it runs several pickles, `refresh` is to be called before each move: it forgets what the pickle before left.
#[derive(Drop)]
pub struct Lean {
    classes: Vec<Class>,
    stack: Stack,
    pub(crate) memo: Memo,
    many: bool,
    stopped: bool,
}

/// Whether a class has this number and meets a demand.
fn meets_at(classes: &[Class], id: ObjId, demand: Demand) -> bool
    ensures { result ≡ option_map_or (class_meets demand) (slice_get classes.now id) false }
{
    match classes.get(id as usize) {
        Some(class) => class.meets(demand),
        None => false,
    }
}

/// The class of this number, if there is one.
fn class_of(classes: &[Class], id: ObjId) -> Option<Class>
    ensures { result ≡ slice_get classes.now id }
{
    match classes.get(id as usize) {
        Some(class) => Some(*class),
        None => None,
    }
}

impl Model for Lean {
    ghost use Rattle.std.specs.Prelude.{[], map};
    ghost use Rattle.pickle_machine.specs.State.{State};
    ghost use Rattle.pickle_machine.specs.Outline.{sample_object};

    ghost Value = { State };

    ghost view = { λ m. record {
      heap = map sample_object m.classes.items;
      top = m.stack.top;
      marked = m.stack.marked;
      memo = m.memo;
      buffers = 0;
      results = [];
      many = m.many;
      stopped = m.stopped;
      left = [];
    } };
}

#[tactic(auto, using(crate::proofs::Leans::lean_rules))]
impl Operands for Lean {
    ghost state = { λ s. s };

    fn top(&self) -> &[ObjId] {
        self.stack.top()
    }

    fn marks(&self) -> usize {
        self.stack.depth()
    }

    fn under(&self) -> &[ObjId] {
        self.stack.under_or_none()
    }

    fn has_entry(&self, key: u64) -> bool {
        self.memo.get(key).is_some()
    }

    fn meets(&self, id: ObjId, demand: Demand) -> bool {
        meets_at(self.classes.as_slice(), id, demand)
    }
}

#[tactic(auto, using(crate::proofs::Leans::lean_rules))]
impl Lean {
    ghost use Rattle.std.specs.Prelude.{◌≡◌, ◌≢◌, ◌<◌, ◌≤◌, ◌-◌, ◌^◌, [], length, slice_get, IfSome, OnOk, None};
    ghost use Rattle.pickle_ops.specs.declared.kind.Kind.{Kind};
    ghost use Rattle.pickle_ops.specs.Row.{values_of};
    ghost use Rattle.pickle_machine.specs.State.{start, stack_of, stack_size};
    ghost use Rattle.pickle_machine.specs.Seen.{class_at};
    ghost use Rattle.pickle_machine.specs.Move.{refusal_of, next_of, takes_mark, fresh, push, without, cut, put_on, put, last_of, change_top, changes_of};
    ghost use Rattle.pickle_machine.specs.Outline.{outline, sample};

    /// The machine that has done nothing, for several pickles or for one.
    pub fn new(alloc: Global, many: bool) -> Lean
        ensures { result ≡ start many }
    {
        Lean {
            classes: Vec::new(alloc),
            stack: Stack::new(alloc),
            memo: Memo::new(alloc),
            many,
            stopped: false,
        }
    }

    /// How many objects are on the stack, in all sections.
    pub fn stack_len(&self) -> usize
        ensures { result ≡ stack_size self.now }
    {
        self.stack.size()
    }

    /// The object at this place of the stack, from the bottom and through all sections.
    pub fn stack_at(&self, i: usize) -> Option<ObjId>
        ensures { result ≡ slice_get (stack_of self.now) i }
    {
        self.stack.object_at(i)
    }

    /// How many objects there are.
    pub fn objects(&self) -> usize
        ensures { result ≡ length self.now.heap }
    {
        self.classes.len()
    }

    /// The class of the object of this number, if there is one.
    pub fn class_at(&self, id: ObjId) -> Option<Class>
        ensures { result ≡ class_at self.now.heap id }
    {
        class_of(self.classes.as_slice(), id)
    }

    /// How many marks are open.
    pub fn marks_len(&self) -> usize
        ensures { result ≡ length self.now.marked }
    {
        self.stack.depth()
    }

    /// How many entries the memo has.
    pub fn memo_len(&self) -> usize
        ensures { result ≡ length self.now.memo }
    {
        self.memo.len()
    }

    /// Whether a row that is not refused takes the topmost mark.
    pub fn takes_mark(&self, row: Row) -> bool
        ensures { result ≡ takes_mark row self.now }
    {
        match row {
            Row::Cut(_) => true,
            Row::CutChange(_) => true,
            Row::PopMark => true,
            Row::Pop => self.stack.top().is_empty(),
            _ => false,
        }
    }

    /// The refusal of a row, if it has one.
    #[inline(always)]
    pub fn refusal(&self, row: Row) -> Option<Refusal>
        ensures first { result ≡ refusal_of row self.now }
        ensures named { IfSome result (λ e. e ≢ Refusal.Memory) }
    {
        refusal(self, row)
    }

    /// Puts a new object on the top section.
    fn push(&mut self, class: Class) -> Result<(), AllocError>
        requires { length self.old.heap < 2 ^ 32 - 1 }
        ensures ok { OnOk result (self.new ≡ outline (push (sample class) [] self.old)) }
    {
        self.stack.make_room()?;
        let id = self.classes.len() as u32;
        self.classes.push(class)?;
        self.stack.push(id);
        Ok(())
    }

    /// The last n objects of the top section go, and a new one takes their place.
    fn gather(&mut self, n: usize, class: Class) -> Result<(), AllocError>
        requires heap { length self.old.heap < 2 ^ 32 - 1 }
        requires deep { n ≤ length self.old.top }
        ensures ok { OnOk result (self.new ≡ outline (push (sample class) (last_of n self.old) (without n self.old))) }
    {
        self.stack.make_room()?;
        let id = self.classes.len() as u32;
        self.classes.push(class)?;
        self.stack.drop_last(n);
        self.stack.push(id);
        Ok(())
    }

    /// The topmost mark and the objects above it go, and a new one takes their place.
    fn gather_cut(&mut self, class: Class) -> Result<(), AllocError>
        requires heap { length self.old.heap < 2 ^ 32 - 1 }
        requires marked { 0 < length self.old.marked }
        ensures ok { OnOk result (self.new ≡ outline (push (sample class) self.old.top (cut self.old))) }
    {
        self.stack.make_room()?;
        let id = self.classes.len() as u32;
        self.classes.push(class)?;
        self.stack.cut();
        self.stack.push(id);
        Ok(())
    }

    /// A new object is a view of the top, unless the top is read only already.
    fn view(&mut self) -> Result<(), AllocError>
        requires heap { length self.old.heap < 2 ^ 32 - 1 }
        requires good { refusal_of Row.ReadOnly self.old ≡ None }
        ensures ok { OnOk result (self.new ≡ outline (next_of Row.ReadOnly Kind.None 0 self.old)) }
    {
        let id = deep(self.stack.top(), 0);
        if self.meets(id, Demand::ReadOnly) {
            Ok(())
        } else {
            self.gather(1, Class::ReadOnly)
        }
    }

    /// Puts an object that is there on the top section.
    fn repeat(&mut self, id: ObjId) -> Result<(), AllocError>
        ensures ok { OnOk result (self.new ≡ outline (put_on id self.old)) }
    {
        self.stack.make_room()?;
        self.stack.push(id);
        Ok(())
    }

    /// A new section begins above a mark.
    fn set_mark(&mut self, place: usize) -> Result<(), AllocError>
        ensures ok { OnOk result (self.new ≡ outline (next_of Row.Mark Kind.None place self.old)) }
    {
        self.stack.make_mark_room()?;
        self.stack.mark(place);
        Ok(())
    }

    /// Takes the last n objects off the top section.
    fn lose(&mut self, n: usize)
        requires { n ≤ length self.old.top }
        ensures { self.new ≡ outline (without n self.old) }
    {
        self.stack.drop_last(n);
    }

    /// Drops the topmost mark, and what is above it.
    fn lose_cut(&mut self)
        requires { 0 < length self.old.marked }
        ensures { self.new ≡ outline (cut self.old) }
    {
        self.stack.cut();
    }

    /// The last objects of the top section go into the one below them.
    fn fill(&mut self, filling: Filling)
        requires { values_of filling ≤ length self.old.top }
        ensures { self.new ≡ outline (change_top (changes_of filling (last_of (values_of filling) self.old)) (without (values_of filling) self.old)) }
    {
        self.lose(filling.values());
    }

    /// The objects above the topmost mark go into the one below it, and the mark goes.
    fn fill_cut(&mut self, filling: Filling)
        requires { 0 < length self.old.marked }
        ensures { self.new ≡ outline (change_top (changes_of filling self.old.top) (cut self.old)) }
    {
        self.lose_cut();
    }

    /// Takes the top, or where the section is empty, the mark under it.
    fn pop_or_mark(&mut self)
        requires { refusal_of Row.Pop self.old ≡ None }
        ensures { self.new ≡ outline (next_of Row.Pop Kind.None 0 self.old) }
    {
        if self.stack.top().is_empty() {
            self.lose_cut();
        } else {
            self.lose(1);
        }
    }

    /// Takes the top off. Where several pickles are run, this one has stopped.
    fn stop(&mut self)
        requires { 0 < length self.old.top }
        ensures { self.new ≡ outline (next_of Row.Stop Kind.None 0 self.old) }
    {
        self.stack.drop_last(1);
        self.stopped = self.many;
    }

    /// The memo maps the key to the top.
    fn store(&mut self, key: u64) -> Result<(), AllocError>
        requires { 0 < length self.old.top }
        ensures ok { OnOk result (self.new ≡ outline (put key self.old)) }
    {
        let id = deep(self.stack.top(), 0);
        self.memo.insert(key, id)
    }

    /// A row that is not refused: the outline of the next state. An error comes only where memory runs out. It is called by two loops
    /// over opcodes, which take a fifth more instructions where it is a call.
    #[inline(always)]
    pub fn perform(&mut self, row: Row, class: Class, place: usize) -> Result<(), AllocError>
        requires heap { length self.old.heap < 2 ^ 32 - 1 }
        requires good { refusal_of row self.old ≡ None }
        ensures ok { OnOk result (self.new ≡ outline (next_of row (sample class) place self.old)) }
    {
        // Each object has a number of 32 bits.
        prove!(self.classes.len() < u32::MAX as usize);
        match row {
            Row::Nothing => Ok(()),
            Row::Protocol(_) => Ok(()),
            Row::Extension(_) => self.push(class),
            Row::Push => self.push(class),
            Row::Buffer => self.push(Class::Opaque),
            Row::ReadOnly => self.view(),
            Row::Take(taking) => self.gather(taking.count(), class),
            Row::Cut(_) => self.gather_cut(class),
            Row::Change(filling) => {
                self.fill(filling);
                Ok(())
            }
            Row::CutChange(filling) => {
                self.fill_cut(filling);
                Ok(())
            }
            Row::Pop => {
                self.pop_or_mark();
                Ok(())
            }
            Row::PopMark => {
                self.lose_cut();
                Ok(())
            }
            Row::Dup => {
                let top = deep(self.stack.top(), 0);
                self.repeat(top)
            }
            Row::Mark => self.set_mark(place),
            Row::Get(key) => {
                let id = self.memo.get(key).unwrap();
                self.repeat(id)
            }
            Row::Put(key) => self.store(key),
            Row::Memoize => self.store(self.memo_len() as u64),
            Row::Stop => {
                self.stop();
                Ok(())
            }
        }
    }

    /// Whether the last move was STOP, where several pickles are run.
    pub fn has_stopped(&self) -> bool
        ensures { result ≡ self.now.stopped }
    {
        self.stopped
    }

    /// The outline of the state on which the next move is taken: after STOP a further pickle begins, and what the one before left
    /// is forgotten.
    pub fn refresh(&mut self)
        ensures { self.new ≡ outline (fresh self.old) }
    {
        if self.stopped {
            self.stack.clear();
            self.memo.clear();
            self.stopped = false;
        }
    }
}
