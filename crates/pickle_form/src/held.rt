//! The stack, the marks and the memo, of whose objects only the role is kept.

ghost use Rattle.std.specs.Prelude.{◌≡◌, ◌≤◌, ◌++◌, ◌∷◌, [], OnOk};
ghost use Rattle.std.specs.Option.{unwrap_or};
ghost use Rattle.pickle_form.specs.Held.{is_so, is_name_role, is_there, is_buffer, is_dict, is_callable, is_arguments, is_target, if_paired, is_sized, is_instance, is_state, has_right_size, cut_role, is_batch};

use crate::reason::Reason;
use crate::role::Role;
use crate::spelled::unless;
use pickle_ops::{Cutting, Filling, Row, Taking};
use std::alloc::{AllocError, Global};
use std::marker::Model;

/// The objects on the stack and in the memo, by their roles.
#[derive(Drop)]
pub struct Held {
    // from the bottom
    cells: Vec<Role>,
    // how many objects are below each open mark
    marks: Vec<usize>,
    // by the key
    memo: Vec<Role>,
    // whether a key was left out
    skipped: bool,
}

impl Model for Held {
    ghost use Rattle.pickle_form.specs.Held.{Held as Objects};

    ghost Value = { Objects };

    ghost view = { λ h. record { cells = h.cells.items; marks = h.marks.items; memo = h.memo.items; skipped = h.skipped } };
}

/// Whether there is a plain name.
fn is_name(role: Option<Role>) -> bool
    ensures { result ≡ is_so is_name_role role }
{
    match role {
        Some(role) => role.is_name(),
        None => false,
    }
}

/// Whether there is an object.
fn is_there(role: Option<Role>) -> bool
    ensures { result ≡ is_so is_there role }
{
    match role {
        Some(role) => role.is_there(),
        None => false,
    }
}

/// Whether there is a buffer.
fn is_buffer(role: Option<Role>) -> bool
    ensures { result ≡ is_so is_buffer role }
{
    match role {
        Some(role) => role.is_buffer(),
        None => false,
    }
}

/// Whether there is a dictionary.
fn is_dict(role: Option<Role>) -> bool
    ensures { result ≡ is_so is_dict role }
{
    match role {
        Some(role) => role.is_dict(),
        None => false,
    }
}

/// Whether there is what picklers call.
fn is_callable(role: Option<Role>) -> bool
    ensures { result ≡ is_so is_callable role }
{
    match role {
        Some(role) => role.is_callable(),
        None => false,
    }
}

/// Whether there is what may be arguments.
fn is_arguments(role: Option<Role>) -> bool
    ensures { result ≡ is_so is_arguments role }
{
    match role {
        Some(role) => role.is_arguments(),
        None => false,
    }
}

/// Whether there is what picklers put something into so.
fn is_target(filling: Filling, role: Option<Role>) -> bool
    ensures { result ≡ is_so (is_target filling) role }
{
    match role {
        Some(role) => role.is_target(filling),
        None => false,
    }
}

/// The role, or that of a plain value.
fn or_value(role: Option<Role>) -> Role
    ensures { result ≡ unwrap_or role Role.Value }
{
    match role {
        Some(role) => role,
        None => Role::Value,
    }
}

/// Whether there is what INST or OBJ made.
fn is_instance(role: Option<Role>) -> bool
    ensures { result ≡ is_so is_instance role }
{
    match role {
        Some(role) => role.is_instance(),
        None => false,
    }
}

/// Whether an object gets a state so.
fn is_state(filling: Filling) -> bool
    ensures { result ≡ is_state filling }
{
    matches!(filling, Filling::Build)
}

/// Whether sizes are looked at in a pickle of at least this protocol.
fn is_sized(protocol: u64) -> bool
    ensures { result ≡ is_sized protocol }
{
    0 < protocol && protocol != 2
}

/// Whether a tuple of so many objects is made so in a pickle of at least this protocol.
fn has_right_size(protocol: u64, count: usize, role: Role) -> bool
    ensures { result ≡ has_right_size protocol count role }
{
    !role.is_tuple()
        || !is_sized(protocol)
        || 4 <= count
        || count == 2
        || (protocol < 3 && 0 < count)
}

/// The role of what is made of the objects above a mark.
fn cut_role(protocol: u64, count: usize, role: Role) -> Role
    ensures { result ≡ cut_role protocol count role }
{
    if role.is_tuple() && 3 <= protocol && count == 2 {
        Role::Two
    } else {
        role
    }
}

/// Whether so many objects are items, each of this many of them, that picklers put into an object at once.
fn is_batch(protocol: u64, count: usize, objects: usize, role: Role) -> bool
    requires { objects ≤ 2 }
    ensures { result ≡ is_batch protocol count objects role }
{
    !is_sized(protocol) || (role.least() * objects <= count && count <= 1000 * objects)
}

/// Why keys have no values.
fn if_paired(filling: Filling, count: usize, rest: Option<Reason>) -> Option<Reason>
    ensures { result ≡ if_paired filling count rest }
{
    match filling {
        Filling::SetItem => {
            if count % 2 == 0 {
                rest
            } else {
                Some(Reason::OddItems)
            }
        }
        _ => rest,
    }
}

/// Puts one more behind others. There is room most often.
#[inline(always)]
fn append<T: Drop>(list: &mut Vec<T>, item: T) -> Result<(), AllocError>
    ensures { OnOk result (list.new.items ≡ list.old.items ++ (item ∷ [])) }
{
    if list.len() == list.capacity() {
        return append_with_room(list, item);
    }
    list.push_reserved(item);
    Ok(())
}

/// Puts one more behind others, and makes room for it.
#[inline(never)]
fn append_with_room<T: Drop>(list: &mut Vec<T>, item: T) -> Result<(), AllocError>
    ensures { OnOk result (list.new.items ≡ list.old.items ++ (item ∷ [])) }
{
    list.push(item)?;
    Ok(())
}

impl Held {
    ghost use Rattle.std.specs.Prelude.{◌≡◌, ◌-◌, ◌+◌, ◌*◌, ◌<◌, ◌==◌, ◌&&◌, ◌||◌, ◌≤◌, ◌^◌, not, nat_lt, nat_le, length, take, slice_get, IfOk, OnOk, Option, Some, None};
    ghost use Rattle.std.specs.Option.{unwrap_or};
    ghost use Rattle.pickle_ops.specs.Row.{count_of, values_of};
    ghost use Rattle.pickle_form.specs.Spelled.{unless};
    ghost use Rattle.pickle_form.specs.Held.{nothing_held, below, above, between, deep, under, at_key, other_call, other_taking, other_begun, other_cutting, is_next_key, other_batch, other_state, is_two, other_row, without, cut, push, top, keep, fill, next};

    /// Nothing is there.
    pub fn new(alloc: Global) -> Held
        ensures { result ≡ nothing_held }
    {
        Held {
            cells: Vec::new(alloc),
            marks: Vec::new(alloc),
            memo: Vec::new(alloc),
            skipped: false,
        }
    }

    /// How many objects are below the topmost mark.
    fn below(&self) -> usize
        ensures { result ≡ below self.now }
    {
        let last = self.marks.len().saturating_sub(1);
        self.marks.get(last).copied().unwrap_or(0)
    }

    /// How many objects are above it.
    fn above(&self) -> usize
        ensures { result ≡ above self.now }
    {
        self.cells.len().saturating_sub(self.below())
    }

    /// How many objects are between the topmost mark and the one under it.
    fn between(&self) -> usize
        ensures { result ≡ between self.now }
    {
        if self.marks.len() < 2 {
            return self.below();
        }
        let lower = self.marks[self.marks.len() - 2];
        self.below().saturating_sub(lower)
    }

    /// The object under this many others.
    fn deep(&self, depth: usize) -> Option<Role>
        ensures { result ≡ deep depth self.now }
    {
        let top = self.cells.len().saturating_sub(1);
        self.cells.get(top.saturating_sub(depth)).copied()
    }

    /// The object right under the topmost mark.
    fn under(&self) -> Option<Role>
        ensures { result ≡ under self.now }
    {
        self.cells.get(self.below().saturating_sub(1)).copied()
    }

    /// The lowest object above the topmost mark.
    fn lowest(&self) -> Option<Role>
        ensures { result ≡ slice_get self.now.cells (below self.now) }
    {
        self.cells.get(self.below()).copied()
    }

    /// The object under a key.
    fn at_key(&self, key: u64) -> Option<Role>
        ensures { result ≡ at_key key self.now }
    {
        self.memo.get(key as usize).copied()
    }

    /// Why a function and its arguments, under this many others, are not called.
    fn other_call(&self, depth: usize) -> Option<Reason>
        requires { depth ≤ 1 }
        ensures { result ≡ other_call depth self.now None }
    {
        if !is_callable(self.deep(depth + 1)) {
            return Some(Reason::NotCallable);
        }
        unless(is_arguments(self.deep(depth)), Reason::NotArguments)
    }

    /// Why a function is not called with arguments and keywords.
    fn other_call_with(&self) -> Option<Reason>
        ensures { result ≡ other_taking Taking.CallWith self.now }
    {
        if let Some(why) = self.other_call(1) {
            return Some(why);
        }
        unless(is_dict(self.deep(0)), Reason::NotArguments)
    }

    /// Why nothing is made so of the objects on top.
    fn other_taking(&self, taking: Taking) -> Option<Reason>
        ensures { result ≡ other_taking taking self.now }
    {
        match taking {
            Taking::One => None,
            Taking::Two => None,
            Taking::Three => None,
            Taking::Names => {
                if !is_name(self.deep(0)) {
                    return Some(Reason::Name);
                }
                unless(is_name(self.deep(1)), Reason::Name)
            }
            Taking::Call => self.other_call(0),
            Taking::CallWith => self.other_call_with(),
        }
    }

    /// Why LIST and DICT do not make this of the objects above the topmost mark: they make empty ones, which get their items later.
    fn other_begun(&self) -> Option<Reason>
        ensures { result ≡ other_begun self.now }
    {
        unless(self.above() == 0, Reason::BatchSize)
    }

    /// Why nothing is made so of the objects above the topmost mark.
    fn other_cutting(&self, protocol: u64, role: Role, cutting: Cutting) -> Option<Reason>
        ensures { result ≡ other_cutting protocol role cutting self.now }
    {
        match cutting {
            Cutting::Any => {
                if role.is_list() {
                    return self.other_begun();
                }
                let right = has_right_size(protocol, self.above(), role);
                unless(right, Reason::TupleSize)
            }
            Cutting::Pairs => self.other_begun(),
            Cutting::Callable => {
                if self.above() < 1 {
                    return Some(Reason::TooFew);
                }
                unless(is_callable(self.lowest()), Reason::NotCallable)
            }
        }
    }

    /// Why the top is no state of the object below it.
    fn other_state(&self, protocol: u64, filling: Filling) -> Option<Reason>
        ensures { result ≡ other_state protocol filling self.now }
    {
        if !is_state(filling) {
            return None;
        }
        if protocol == 2 {
            return None;
        }
        if !self.top().is_null() {
            return None;
        }
        unless(is_instance(self.deep(filling.values())), Reason::NoState)
    }

    /// Why the topmost object or objects do not go into the one below them.
    fn other_change(&self, protocol: u64, filling: Filling) -> Option<Reason>
        ensures { result ≡ other_row protocol (Row.Change filling) Role.Value self.now }
    {
        if self.above() < filling.values() + 1 {
            return Some(Reason::TooFew);
        }
        let target = self.deep(filling.values());
        if is_target(filling, target) {
            self.other_state(protocol, filling)
        } else {
            Some(Reason::WrongTarget)
        }
    }

    /// Why so many items do not go at once into the object under the topmost mark.
    fn other_batch(&self, protocol: u64, filling: Filling) -> Option<Reason>
        ensures { result ≡ other_batch protocol filling self.now }
    {
        let target = or_value(self.under());
        unless(
            is_batch(protocol, self.above(), filling.values(), target),
            Reason::BatchSize,
        )
    }

    /// Why the objects above the topmost mark do not go into the one under it.
    fn other_cut_change(&self, protocol: u64, filling: Filling) -> Option<Reason>
        ensures { result ≡ other_row protocol (Row.CutChange filling) Role.Value self.now }
    {
        if self.marks.is_empty() {
            return Some(Reason::NoMark);
        }
        if self.between() < 1 {
            return Some(Reason::TooFew);
        }
        let last = if is_target(filling, self.under()) {
            self.other_batch(protocol, filling)
        } else {
            Some(Reason::WrongTarget)
        };
        if_paired(filling, self.above(), last)
    }

    /// Why nothing is dropped in a pickle of at least this protocol.
    fn other_pop(&self, protocol: u64) -> Option<Reason>
        ensures { result ≡ other_row protocol Row.Pop Role.Value self.now }
    {
        if 0 < self.above() {
            return None;
        }
        unless(!self.marks.is_empty() && protocol == 0, Reason::TooFew)
    }

    /// Whether a key comes next in a pickle of at least this protocol.
    fn is_next_key(&self, key: u64, protocol: u64) -> bool
        ensures { result ≡ is_next_key key protocol self.now }
    {
        let next = self.memo.len() as u64;
        if key == next {
            return true;
        }
        if self.skipped {
            return false;
        }
        key == next + 1 && protocol <= 2
    }

    /// Why the memo does not keep the top under this key.
    fn other_put(&self, key: u64, protocol: u64) -> Option<Reason>
        ensures { result ≡ other_row protocol (Row.Put key) Role.Value self.now }
    {
        if self.above() < 1 {
            return Some(Reason::TooFew);
        }
        unless(self.is_next_key(key, protocol), Reason::KeyOrder)
    }

    /// Why the top is not made read only.
    fn other_view(&self) -> Option<Reason>
        ensures { result ≡ other_row 0 Row.ReadOnly Role.Value self.now }
    {
        if self.above() < 1 {
            return Some(Reason::TooFew);
        }
        unless(is_buffer(self.deep(0)), Reason::NotBuffer)
    }

    /// Why the top is not all that there is.
    fn other_last(&self) -> Option<Reason>
        ensures { result ≡ other_row 0 Row.Stop Role.Value self.now }
    {
        unless(
            self.cells.len() == 1 && self.marks.is_empty(),
            Reason::LeftOver,
        )
    }

    /// Why a marked tuple of two, if it is the top, is not followed by this: by a call, or not.
    pub fn other_behind_two(&self, calls: bool) -> Option<Reason>
        ensures { result ≡ unless (not (is_two (top self.now)) || calls) Reason.TupleSize }
    {
        unless(!self.top().is_two() || calls, Reason::TupleSize)
    }

    /// The last n objects go.
    fn lose(&mut self, n: usize)
        ensures { self.new ≡ without n self.old }
    {
        let left = self.cells.len().saturating_sub(n);
        self.cells.truncate(left);
    }

    /// The topmost mark goes, and what is above it.
    fn cut(&mut self)
        ensures { self.new ≡ cut self.old }
    {
        let left = self.below();
        self.cells.truncate(left);
        let marks = self.marks.len().saturating_sub(1);
        self.marks.truncate(marks);
    }

    /// A new object is put on top.
    #[inline(always)]
    fn push(&mut self, role: Role) -> Result<(), AllocError>
        ensures ok { OnOk result (self.new ≡ push role self.old) }
    {
        append(&mut self.cells, role)
    }

    /// The object on top, or a plain value.
    fn top(&self) -> Role
        ensures { result ≡ top self.now }
    {
        or_value(self.cells.last().copied())
    }

    /// The memo keeps the top under the next key, or under the one behind that.
    #[inline(always)]
    fn keep(&mut self, key: u64) -> Result<(), AllocError>
        ensures ok { OnOk result (self.new ≡ keep key self.old) }
    {
        let top = self.top();
        if key == self.memo.len() as u64 {
            return append(&mut self.memo, top);
        }
        self.memo.push(Role::Absent)?;
        self.memo.push(top)?;
        self.skipped = true;
        Ok(())
    }

    /// In a pickle of at least this protocol the top has got items, which may be a full batch.
    fn fill(&mut self, protocol: u64, full: bool) -> Result<(), AllocError>
        ensures ok { OnOk result (self.new ≡ fill protocol full self.old) }
    {
        if is_sized(protocol) {
            let role = self.top().filled(full);
            self.lose(1);
            self.push(role)?;
        }
        Ok(())
    }

    /// A mark is set. No rule forbids that.
    #[inline(always)]
    fn take_section(&mut self) -> Result<Option<Reason>, AllocError>
        ensures first { IfOk result (λ why. why ≡ None) }
        ensures next { OnOk result (self.new ≡ next 0 Row.Mark Role.Value self.old) }
    {
        append(&mut self.marks, self.cells.len())?;
        Ok(None)
    }

    /// A new object of this role is put on top. No rule forbids that.
    #[inline(always)]
    fn take_new(&mut self, role: Role) -> Result<Option<Reason>, AllocError>
        ensures first { IfOk result (λ why. why ≡ None) }
        ensures next { OnOk result (self.new ≡ push role self.old) }
    {
        self.push(role)?;
        Ok(None)
    }

    /// A view takes the place of the top.
    fn take_view(&mut self, role: Role) -> Result<Option<Reason>, AllocError>
        ensures first { IfOk result (λ why. why ≡ other_row 0 Row.ReadOnly role self.old) }
        ensures next { IfOk result (λ why. why ≡ None → self.new ≡ next 0 Row.ReadOnly role self.old) }
    {
        if let Some(why) = self.other_view() {
            return Ok(Some(why));
        }
        self.lose(1);
        self.push(role)?;
        Ok(None)
    }

    /// A new object takes the place of the topmost ones.
    fn take_parts(&mut self, taking: Taking, role: Role) -> Result<Option<Reason>, AllocError>
        ensures first { IfOk result (λ why. why ≡ other_row 0 (Row.Take taking) role self.old) }
        ensures next { IfOk result (λ why. why ≡ None → self.new ≡ next 0 (Row.Take taking) role self.old) }
    {
        if self.above() < taking.count() {
            return Ok(Some(Reason::TooFew));
        }
        if let Some(why) = self.other_taking(taking) {
            return Ok(Some(why));
        }
        self.lose(taking.count());
        self.push(role)?;
        Ok(None)
    }

    /// A new object takes the place of those above the topmost mark.
    fn take_marked(
        &mut self,
        protocol: u64,
        cutting: Cutting,
        role: Role,
    ) -> Result<Option<Reason>, AllocError>
        ensures first { IfOk result (λ why. why ≡ other_row protocol (Row.Cut cutting) role self.old) }
        ensures next { IfOk result (λ why. why ≡ None → self.new ≡ next protocol (Row.Cut cutting) role self.old) }
    {
        if self.marks.is_empty() {
            return Ok(Some(Reason::NoMark));
        }
        if let Some(why) = self.other_cutting(protocol, role, cutting) {
            return Ok(Some(why));
        }
        let role = cut_role(protocol, self.above(), role);
        self.cut();
        self.push(role)?;
        Ok(None)
    }

    /// The topmost object or objects go into the one below them.
    fn take_change(&mut self, protocol: u64, filling: Filling) -> Result<Option<Reason>, AllocError>
        ensures first { IfOk result (λ why. why ≡ other_row protocol (Row.Change filling) Role.Value self.old) }
        ensures next { IfOk result (λ why. why ≡ None → self.new ≡ next protocol (Row.Change filling) Role.Value self.old) }
    {
        if let Some(why) = self.other_change(protocol, filling) {
            return Ok(Some(why));
        }
        self.lose(filling.values());
        self.fill(protocol, false)?;
        Ok(None)
    }

    /// The objects above the topmost mark go into the one under it.
    fn take_batch(&mut self, protocol: u64, filling: Filling) -> Result<Option<Reason>, AllocError>
        ensures first { IfOk result (λ why. why ≡ other_row protocol (Row.CutChange filling) Role.Value self.old) }
        ensures next { IfOk result (λ why. why ≡ None → self.new ≡ next protocol (Row.CutChange filling) Role.Value self.old) }
    {
        if let Some(why) = self.other_cut_change(protocol, filling) {
            return Ok(Some(why));
        }
        let full = self.above() == 1000 * filling.values();
        self.cut();
        self.fill(protocol, full)?;
        Ok(None)
    }

    /// What is on top is dropped, or the topmost mark.
    fn drop_top(&mut self)
        ensures { self.new ≡ next 0 Row.Pop Role.Value self.old }
    {
        if 0 < self.above() {
            self.lose(1);
        } else {
            self.cut();
        }
    }

    /// What is on top is dropped, or the topmost mark.
    fn take_top(&mut self, protocol: u64) -> Result<Option<Reason>, AllocError>
        ensures first { IfOk result (λ why. why ≡ other_row protocol Row.Pop Role.Value self.old) }
        ensures next { IfOk result (λ why. why ≡ None → self.new ≡ next protocol Row.Pop Role.Value self.old) }
    {
        if let Some(why) = self.other_pop(protocol) {
            return Ok(Some(why));
        }
        self.drop_top();
        Ok(None)
    }

    /// The topmost mark is dropped, and what is above it.
    fn take_mark(&mut self) -> Result<Option<Reason>, AllocError>
        ensures first { IfOk result (λ why. why ≡ other_row 0 Row.PopMark Role.Value self.old) }
        ensures next { IfOk result (λ why. why ≡ None → self.new ≡ next 0 Row.PopMark Role.Value self.old) }
    {
        if self.marks.is_empty() {
            return Ok(Some(Reason::NoMark));
        }
        self.cut();
        Ok(None)
    }

    /// The object under a key is put on top.
    #[inline(always)]
    fn take_kept(&mut self, key: u64) -> Result<Option<Reason>, AllocError>
        ensures first { IfOk result (λ why. why ≡ other_row 0 (Row.Get key) Role.Value self.old) }
        ensures next { IfOk result (λ why. why ≡ None → self.new ≡ next 0 (Row.Get key) Role.Value self.old) }
    {
        let found = self.at_key(key);
        if !is_there(found) {
            return Ok(Some(Reason::NoKey));
        }
        self.push(or_value(found))?;
        Ok(None)
    }

    /// The memo keeps the top under this key.
    #[inline(always)]
    fn take_put(&mut self, key: u64, protocol: u64) -> Result<Option<Reason>, AllocError>
        ensures first { IfOk result (λ why. why ≡ other_row protocol (Row.Put key) Role.Value self.old) }
        ensures next { IfOk result (λ why. why ≡ None → self.new ≡ next protocol (Row.Put key) Role.Value self.old) }
    {
        if let Some(why) = self.other_put(key, protocol) {
            return Ok(Some(why));
        }
        self.keep(key)?;
        Ok(None)
    }

    /// The memo keeps the top under the next key.
    #[inline(always)]
    fn take_memoized(&mut self) -> Result<Option<Reason>, AllocError>
        ensures first { IfOk result (λ why. why ≡ other_row 0 Row.Memoize Role.Value self.old) }
        ensures next { IfOk result (λ why. why ≡ None → self.new ≡ next 0 Row.Memoize Role.Value self.old) }
    {
        if self.above() < 1 {
            return Ok(Some(Reason::TooFew));
        }
        let top = self.top();
        append(&mut self.memo, top)?;
        Ok(None)
    }

    /// The last object is taken.
    fn take_last(&mut self) -> Result<Option<Reason>, AllocError>
        ensures first { IfOk result (λ why. why ≡ other_row 0 Row.Stop Role.Value self.old) }
        ensures next { IfOk result (λ why. why ≡ None → self.new ≡ next 0 Row.Stop Role.Value self.old) }
    {
        if let Some(why) = self.other_last() {
            return Ok(Some(why));
        }
        self.lose(1);
        Ok(None)
    }

    /// Does what an opcode does that makes an object of this role, if it makes one, in a pickle of at least this protocol; or says why no
    /// pickler does that. It fails only where memory runs out.
    #[inline(always)]
    pub fn take(
        &mut self,
        protocol: u64,
        row: Row,
        role: Role,
    ) -> Result<Option<Reason>, AllocError>
        ensures first { IfOk result (λ why. why ≡ other_row protocol row role self.old) }
        ensures next { IfOk result (λ why. why ≡ None → self.new ≡ next protocol row role self.old) }
    {
        match row {
            Row::Nothing => Ok(None),
            Row::Protocol(_) => Ok(None),
            Row::Extension(_) => self.take_new(role),
            Row::Push => self.take_new(role),
            Row::Buffer => self.take_new(role),
            Row::ReadOnly => self.take_view(role),
            Row::Take(taking) => self.take_parts(taking, role),
            Row::Cut(cutting) => self.take_marked(protocol, cutting, role),
            Row::Change(filling) => self.take_change(protocol, filling),
            Row::CutChange(filling) => self.take_batch(protocol, filling),
            Row::Pop => self.take_top(protocol),
            Row::PopMark => self.take_mark(),
            Row::Dup => Ok(None),
            Row::Mark => self.take_section(),
            Row::Get(key) => self.take_kept(key),
            Row::Put(key) => self.take_put(key, protocol),
            Row::Memoize => self.take_memoized(),
            Row::Stop => self.take_last(),
        }
    }
}
