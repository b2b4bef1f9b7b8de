//! What an opcode may take an object for, and what it asks of one.

use crate::opcode::Opcode;
use crate::opcodes;
use crate::row::Filling;

/// What an opcode may take an object for. Objects of one class meet the same demands.
#[derive(Clone, Copy, Debug, PartialEq, Eq)]
pub enum Class {
    /// None of the others.
    Plain,
    /// It may be of any type.
    Opaque,
    /// It may be a name.
    Text,
    /// It may be the arguments of a call.
    Tuple,
    /// It may be the arguments of a call, and objects go into it.
    List,
    /// It may be the arguments that have names, and pairs go into it.
    Dict,
    /// Members go into it.
    Set,
    /// A view of it is itself.
    ReadOnly,
    /// A view of it can be made, and objects go into it.
    ByteArray,
}

/// What an opcode asks of an object.
#[derive(Clone, Copy)]
pub enum Demand {
    /// That it can be called.
    Callable,
    /// That it may be a name.
    Text,
    /// That it may be the arguments of a call.
    Arguments,
    /// That it may be the arguments that have names.
    Keywords,
    /// That a view of it is itself.
    ReadOnly,
    /// That a view of it can be made.
    Writable,
    /// That objects can be put into it.
    Target(Filling),
}

/// The class of a kind, by the kind's name; of a record, that of the kind in it. It takes names, since a kind cannot be made without
/// its argument.
macro_rules! class {
    (() { $code:literal $name:literal $protocol:literal $form:ident $row:tt $kind:tt $($rest:tt)* }) => { class!($kind) };
    (($kind:ident $holds:ident)) => { class!($kind) };
    (LegacyString) => { Class::Text };
    (LegacyLine) => { Class::Text };
    (Text) => { Class::Text };
    (TextLine) => { Class::Text };
    (Bytes) => { Class::ReadOnly };
    (ByteArray) => { Class::ByteArray };
    (Tuple) => { Class::Tuple };
    (List) => { Class::List };
    (Set) => { Class::Set };
    (Dict) => { Class::Dict };
    (Global) => { Class::Opaque };
    (StackGlobal) => { Class::Opaque };
    (Call) => { Class::Opaque };
    (New) => { Class::Opaque };
    (NewEx) => { Class::Opaque };
    (Inst) => { Class::Opaque };
    (Obj) => { Class::Opaque };
    (PersistentLine) => { Class::Opaque };
    (Persistent) => { Class::Opaque };
    (Ext) => { Class::Opaque };
    (Buffer) => { Class::Opaque };
    (ReadOnly) => { Class::ReadOnly };
    ($plain:tt) => { Class::Plain };
}

/// The class of a kind, which a `Kind` or a `KindRef` has.
macro_rules! class_by_kind {
    ($value:ident of $kind:ident) => {
        match $value {
            $kind::LegacyString(_) => class!(LegacyString),
            $kind::LegacyLine(_) => class!(LegacyLine),
            $kind::Text(_) => class!(Text),
            $kind::TextLine(_) => class!(TextLine),
            $kind::Bytes(_) => class!(Bytes),
            $kind::ByteArray(_) => class!(ByteArray),
            $kind::Tuple => class!(Tuple),
            $kind::List => class!(List),
            $kind::Set => class!(Set),
            $kind::Dict => class!(Dict),
            $kind::Global(_) => class!(Global),
            $kind::StackGlobal => class!(StackGlobal),
            $kind::Call => class!(Call),
            $kind::New => class!(New),
            $kind::NewEx => class!(NewEx),
            $kind::Inst(_) => class!(Inst),
            $kind::Obj => class!(Obj),
            $kind::PersistentLine(_) => class!(PersistentLine),
            $kind::Persistent => class!(Persistent),
            $kind::Ext(_) => class!(Ext),
            $kind::Buffer(_) => class!(Buffer),
            $kind::ReadOnly => class!(ReadOnly),
            _ => Class::Plain,
        }
    };
}

pub(crate) use class;
pub(crate) use class_by_kind;

impl Class {
    ghost use Rattle.std.specs.Prelude.{◌≡◌, List, ℕ};
    ghost use Rattle.pickle_ops.specs.Class.{class_meets, is_any};
    ghost use Rattle.pickle_ops.specs.Kind.{class_of};
    ghost use Rattle.pickle_ops.specs.Row.{kind_of_opcode};

    /// The class of the object that an opcode makes, whatever its argument.
    #[tactic(auto, using(crate::proofs::Classes::class_rules))]
    #[inline(always)]
    pub fn of(opcode: Opcode) -> Class
        ensures { (arg : List ℕ) → result ≡ class_of (kind_of_opcode opcode arg) }
    {
        opcodes!(match opcode => class!())
    }

    /// Whether it may be of any type.
    pub fn is_opaque(self) -> bool
        ensures { result ≡ is_any self }
    {
        matches!(self, Class::Opaque)
    }

    /// Whether objects can be put into it so.
    fn accepts(self, filling: Filling) -> bool
        ensures { result ≡ class_meets (Demand.Target filling) self }
    {
        match filling {
            Filling::Append => matches!(self, Class::List | Class::ByteArray | Class::Opaque),
            Filling::SetItem => matches!(
                self,
                Class::Dict | Class::List | Class::ByteArray | Class::Opaque
            ),
            Filling::Add => matches!(self, Class::Set | Class::Opaque),
            Filling::Build => true,
        }
    }

    /// Whether it meets a demand.
    pub fn meets(self, demand: Demand) -> bool
        ensures { result ≡ class_meets demand self }
    {
        match demand {
            Demand::Callable => matches!(self, Class::Opaque),
            Demand::Text => matches!(self, Class::Text | Class::Opaque),
            Demand::Arguments => matches!(self, Class::Tuple | Class::List | Class::Opaque),
            Demand::Keywords => matches!(self, Class::Dict | Class::Opaque),
            Demand::ReadOnly => matches!(self, Class::ReadOnly),
            Demand::Writable => matches!(self, Class::ByteArray | Class::Opaque),
            Demand::Target(filling) => self.accepts(filling),
        }
    }
}
