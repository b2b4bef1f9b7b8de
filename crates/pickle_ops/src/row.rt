//! The shapes of steps: what an opcode does to the machine.

ghost use Rattle.std.specs.Prelude.{◌≡◌};
ghost use Rattle.pickle_ops.specs.Row.{count_of, values_of, change_of};

use crate::object::{Change, ObjId};

/// What an opcode with its argument does.
#[derive(Clone, Copy)]
pub enum Row {
    /// Nothing.
    Nothing,
    /// Nothing, where there is such a protocol.
    Protocol(u64),
    /// A new object stands for the extension of this code.
    Extension(i64),
    /// A new object.
    Push,
    /// A new object stands for the next buffer.
    Buffer,
    /// A new object is a view of the top, unless the top is read only already.
    ReadOnly,
    /// Objects are taken, and are the parts of a new one.
    Take(Taking),
    /// The objects above the topmost mark are taken with it, and are the parts of a new one.
    Cut(Cutting),
    /// Objects are taken, and go into the one below them.
    Change(Filling),
    /// The objects above the topmost mark are taken with it, and go into the one below it.
    CutChange(Filling),
    /// The top is taken, or where the section is empty, the mark under it.
    Pop,
    /// The objects above the topmost mark are taken with it.
    PopMark,
    /// The top is put on once more.
    Dup,
    /// A new section begins above a mark.
    Mark,
    /// The memo's object under this key is put on.
    Get(u64),
    /// The memo maps this key to the top.
    Put(u64),
    /// The memo maps the count of its entries to the top.
    Memoize,
    /// The top is taken, and is the result.
    Stop,
}

/// Which objects are taken for a new one.
#[derive(Clone, Copy)]
pub enum Taking {
    /// One of any kind.
    One,
    /// Two of any kind.
    Two,
    /// Three of any kind.
    Three,
    /// A module's name and a member's.
    Names,
    /// What is called, and its arguments.
    Call,
    /// What is called, its arguments, and those that have names.
    CallWith,
}

/// Which objects are taken with the mark below them.
#[derive(Clone, Copy)]
pub enum Cutting {
    /// Any.
    Any,
    /// Keys and values in turn.
    Pairs,
    /// What is called, and its arguments.
    Callable,
}

/// How objects go into another.
#[derive(Clone, Copy)]
pub enum Filling {
    /// After its items.
    Append,
    /// As keys and values.
    SetItem,
    /// Among its members.
    Add,
    /// As its state.
    Build,
}

impl Taking {
    /// How many objects are taken. A machine refuses a step that finds fewer.
    pub fn count(self) -> usize
        ensures { result ≡ count_of self }
    {
        match self {
            Taking::One => 1,
            Taking::Two | Taking::Names | Taking::Call => 2,
            Taking::Three | Taking::CallWith => 3,
        }
    }
}

impl Filling {
    /// How many objects go into the one below them. A machine looks for that one at this depth.
    pub fn values(self) -> usize
        ensures { result ≡ values_of self }
    {
        match self {
            Filling::SetItem => 2,
            Filling::Append | Filling::Add | Filling::Build => 1,
        }
    }

    /// One object as a change of the one that it goes into, for the machine, which puts it there. Keys and values go in
    /// pairs, so nobody asks this of them.
    pub fn change(self, id: ObjId) -> Change
        ensures { result ≡ change_of self id }
    {
        match self {
            Filling::Append => Change::Append(id),
            Filling::Add => Change::Add(id),
            Filling::SetItem | Filling::Build => Change::Build(id),
        }
    }
}
