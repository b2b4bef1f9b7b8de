//! What an object is.

use crate::class::{Class, Demand, class, class_by_kind};
use crate::payload::{Payload, Texts};

/// What an object is, with the bytes or the number that its opcode gave it. Bytes are kept as they are in the
/// argument, and are not interpreted.
#[derive(Debug, Drop)]
pub enum Kind {
    /// NONE makes it.
    None,
    /// NEWTRUE makes it, and INT of the line `01`.
    True,
    /// NEWFALSE makes it, and INT of the line `00`.
    False,
    /// BININT, BININT1 and BININT2: a number that an opcode gives in bytes.
    Int(i64),
    /// LONG1 and LONG4: a number of any length, its bytes in two's complement, the lowest first.
    Long(Payload),
    /// INT: a number as text, of any line but `00` and `01`.
    IntLine(Payload),
    /// LONG: a number as text.
    LongLine(Payload),
    /// FLOAT: a number as text.
    FloatLine(Payload),
    /// BINFLOAT: the eight bytes of a floating point number, the highest first.
    Float(Payload),
    /// BINSTRING and SHORT_BINSTRING: the bytes of a string of Python 2.
    LegacyString(Payload),
    /// STRING: a string of Python 2, as the line with its quotes.
    LegacyLine(Payload),
    /// BINUNICODE, SHORT_BINUNICODE and BINUNICODE8: the bytes of a text.
    Text(Payload),
    /// UNICODE: a text, as the line.
    TextLine(Payload),
    /// BINBYTES, SHORT_BINBYTES and BINBYTES8: bytes.
    Bytes(Payload),
    /// BYTEARRAY8: bytes that can be written to.
    ByteArray(Payload),
    /// EMPTY_TUPLE, TUPLE, TUPLE1, TUPLE2 and TUPLE3; its parts are its items.
    Tuple,
    /// EMPTY_LIST and LIST; its parts are its first items.
    List,
    /// EMPTY_SET makes it.
    Set,
    /// FROZENSET; its parts are its members.
    FrozenSet,
    /// EMPTY_DICT and DICT; its parts are keys and values in turn.
    Dict,
    /// GLOBAL: the member of a module, with the module's name and the member's.
    Global(Texts),
    /// STACK_GLOBAL: the same, with the names as parts.
    StackGlobal,
    /// REDUCE: what a call gives, with what was called and its arguments as parts.
    Call,
    /// NEWOBJ: a new instance, with its class and its arguments as parts.
    New,
    /// NEWOBJ_EX: the same, with a part more, the arguments that have names.
    NewEx,
    /// INST: an instance of a member of a module, with the arguments as parts.
    Inst(Texts),
    /// OBJ: an instance, with its class as the first part, and after it the arguments.
    Obj,
    /// PERSID: what the program keeps elsewhere, under a name in a line.
    PersistentLine(Payload),
    /// BINPERSID: what the program keeps elsewhere, under the object that is its part.
    Persistent,
    /// EXT1, EXT2 and EXT4: what the registry of extensions has under this code.
    Ext(i64),
    /// NEXT_BUFFER: a buffer outside of the pickle, by its number.
    Buffer(u64),
    /// READONLY_BUFFER: a view that cannot be written to, of the object that is its part.
    ReadOnly,
}

impl Kind {
    ghost use Rattle.std.specs.Prelude.{◌≡◌};
    ghost use Rattle.pickle_ops.specs.Kind.{class_of, meets, is_opaque};

    /// What an opcode may take it for.
    pub fn class(&self) -> Class
        ensures { result ≡ class_of self.now }
    {
        class_by_kind!(self of Kind)
    }

    /// Whether it comes from elsewhere or from a call, so that it may be of any type.
    pub fn is_opaque(&self) -> bool
        ensures { result ≡ is_opaque self.now }
    {
        self.class().is_opaque()
    }

    /// Whether it meets a demand. A machine asks this of the objects that a step uses.
    pub fn meets(&self, demand: Demand) -> bool
        ensures { result ≡ meets demand self.now }
    {
        self.class().meets(demand)
    }
}
