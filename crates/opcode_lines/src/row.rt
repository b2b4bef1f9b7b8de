//! What the machine does for an opcode, and what it makes then.

ghost use Rattle.std.specs.Prelude.{◌≡◌, []};
ghost use Rattle.pickle_ops.specs.Row.{row_of_opcode};
ghost use Rattle.opcode_lines.specs.EntryFields.{row_name, makes_object, object_of};

use pickle_ops::{Opcode, opcodes};

macro_rules! row_by {
    (Nothing) => { "nothing" };
    ((Protocol $number:ident)) => { "protocol" };
    ((Extension $number:ident)) => { "extension" };
    (Push) => { "push" };
    (Buffer) => { "buffer" };
    (ReadOnly) => { "read_only" };
    ((Take $taking:ident)) => { "take" };
    ((Cut $cutting:ident)) => { "cut" };
    ((Change $filling:ident)) => { "change" };
    ((CutChange $filling:ident)) => { "cut_change" };
    (Pop) => { "pop" };
    (PopMark) => { "pop_mark" };
    (Dup) => { "dup" };
    (Mark) => { "mark" };
    ((Get $key:ident)) => { "get" };
    ((Put $key:ident)) => { "put" };
    (Memoize) => { "memoize" };
    (Stop) => { "stop" };
}

macro_rules! row {
    (() { $code:literal $name:literal $protocol:literal $form:ident $row:tt $($rest:tt)* }) => { row_by!($row) };
}

macro_rules! makes_by {
    (Push) => { true };
    (Buffer) => { true };
    (ReadOnly) => { true };
    ((Take $taking:ident)) => { true };
    ((Cut $cutting:ident)) => { true };
    ((Extension $number:ident)) => { true };
    ($($other:tt)*) => { false };
}

macro_rules! makes {
    (() { $code:literal $name:literal $protocol:literal $form:ident $row:tt $($rest:tt)* }) => { makes_by!($row) };
}

/// The words of `objects` for a kind.
macro_rules! object_by {
    (_) => { "" };
    ((int_kind $held:ident)) => { "" };
    (None) => { "none" };
    (True) => { "true" };
    (False) => { "false" };
    ((Int $held:ident)) => { "int" };
    ((Long $held:ident)) => { "int" };
    ((LongLine $held:ident)) => { "long-line" };
    ((FloatLine $held:ident)) => { "float-line" };
    ((Float $held:ident)) => { "float" };
    ((LegacyString $held:ident)) => { "string" };
    ((LegacyLine $held:ident)) => { "string-line" };
    ((Text $held:ident)) => { "text" };
    ((TextLine $held:ident)) => { "text-line" };
    ((Bytes $held:ident)) => { "bytes" };
    ((ByteArray $held:ident)) => { "bytearray" };
    (Tuple) => { "tuple" };
    (List) => { "list" };
    (Set) => { "set" };
    (FrozenSet) => { "frozenset" };
    (Dict) => { "dict" };
    ((Global $held:ident)) => { "global" };
    (StackGlobal) => { "stack-global" };
    (Call) => { "call" };
    (New) => { "new" };
    (NewEx) => { "new-ex" };
    ((Inst $held:ident)) => { "inst" };
    (Obj) => { "obj" };
    ((PersistentLine $held:ident)) => { "persistent" };
    (Persistent) => { "persistent" };
    ((Ext $held:ident)) => { "ext" };
}

macro_rules! object {
    (() { $code:literal $name:literal $protocol:literal $form:ident $row:tt $kind:tt $($rest:tt)* }) => { object_by!($kind) };
}

/// The name of the row of an opcode.
#[tactic(auto, unfolding(crate::specs::EntryFields::row_name))]
pub fn row_name(opcode: Opcode) -> &'static str
    ensures { result.now ≡ row_name (row_of_opcode opcode []) }
{
    opcodes!(match opcode => row!())
}

/// Whether an opcode may make an object of its own.
pub fn makes_object(opcode: Opcode) -> bool
    ensures { result ≡ makes_object opcode }
{
    opcodes!(match opcode => makes!())
}

/// What `objects` calls the object that an opcode makes; nothing where it makes none, or where its argument or the state decides.
#[tactic(auto, unfolding(crate::specs::EntryFields::object_of, objects_json::specs::ObjectFields::kind_word))]
pub fn object_of(opcode: Opcode) -> &'static str
    ensures { result.now ≡ object_of opcode }
{
    opcodes!(match opcode => object!())
}
