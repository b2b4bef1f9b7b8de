//! What an object is, looked at where its bytes are.

ghost use Rattle.std.specs.Prelude.{◌≡◌};
ghost use Rattle.pickle_ops.specs.KindRef.{kind_view};
ghost use Rattle.pickle_ops.specs.Table.{int_kind, said_kind};

use crate::class::{Class, class, class_by_kind};
use crate::kind::Kind;
use crate::object::ObjId;
use crate::opcodes;
use crate::payload::Texts;
use crate::peek::OpRef;
use crate::value::{first_text, second_text};

/// The two texts of an argument, a module's name and a member's, which are in the bytes that it was read from.
#[derive(Clone, Copy)]
pub struct TextsRef<'a> {
    /// The argument: two lines with their newlines.
    pub lines: &'a [u8],
}

impl<'a> TextsRef<'a> {
    ghost use Rattle.std.specs.Prelude.{◌≡◌};
    ghost use Rattle.pickle_ops.specs.Argument.{first_text, second_text};

    /// The first, without its newline.
    pub fn first(self) -> &'a [u8]
        ensures { result.now ≡ first_text self.entry.lines.now }
    {
        first_text(self.lines)
    }

    /// The second, without its newline.
    pub fn second(self) -> &'a [u8]
        ensures { result.now ≡ second_text self.entry.lines.now }
    {
        second_text(self.lines)
    }
}

/// What an object is, as `Kind` has it, with bytes that stay where they are: in an object, or in the bytes that its opcode was read from.
#[derive(Clone, Copy)]
pub enum KindRef<'a> {
    /// What NONE makes.
    None,
    /// What NEWTRUE makes, and INT of the line `01`.
    True,
    /// What NEWFALSE makes, and INT of the line `00`.
    False,
    /// A number that an opcode gives in bytes.
    Int(i64),
    /// A number of any length, by its bytes in two's complement.
    Long(&'a [u8]),
    /// A number of INT, by its line.
    IntLine(&'a [u8]),
    /// A number of LONG, by its line.
    LongLine(&'a [u8]),
    /// A number of FLOAT, by its line.
    FloatLine(&'a [u8]),
    /// A floating point number, by its eight bytes.
    Float(&'a [u8]),
    /// A string of Python 2, by its bytes.
    LegacyString(&'a [u8]),
    /// A string of Python 2, by its line with the quotes.
    LegacyLine(&'a [u8]),
    /// A text, by its bytes.
    Text(&'a [u8]),
    /// A text, by its line.
    TextLine(&'a [u8]),
    /// Bytes.
    Bytes(&'a [u8]),
    /// Bytes that can be written to.
    ByteArray(&'a [u8]),
    /// A tuple.
    Tuple,
    /// A list.
    List,
    /// A set.
    Set,
    /// A set that cannot be changed.
    FrozenSet,
    /// A dictionary.
    Dict,
    /// The member of a module, by their names.
    Global(TextsRef<'a>),
    /// The member of a module, whose names are parts.
    StackGlobal,
    /// What a call gives.
    Call,
    /// A new instance.
    New,
    /// A new instance, whose arguments have names.
    NewEx,
    /// An instance of a member of a module, by their names.
    Inst(TextsRef<'a>),
    /// An instance of a class that is a part.
    Obj,
    /// What the program keeps elsewhere, by the line that names it.
    PersistentLine(&'a [u8]),
    /// What the program keeps elsewhere, under the object that is its part.
    Persistent,
    /// What the registry of extensions has under this code.
    Ext(i64),
    /// A buffer outside of the pickle, by its number.
    Buffer(u64),
    /// A view that cannot be written to.
    ReadOnly,
}

/// What is looked at of an object: its kind, and its parts where `parts_shown` says that they are shown.
#[derive(Clone, Copy)]
pub struct Look<'a> {
    /// What it is.
    pub kind: KindRef<'a>,
    /// The objects that it was made of. Of a kind whose parts are never shown it is not known.
    pub parts: &'a [ObjId],
}

/// The kind of a record, of the operation.
macro_rules! kind_ref {
    (($op:ident) { $code:literal $name:literal $protocol:literal $form:ident $row:tt $kind:tt $($rest:tt)* }) => { kind_ref!($op $kind) };
    ($op:ident _) => { KindRef::None };
    ($op:ident $kind:ident) => { KindRef::$kind };
    ($op:ident (int_kind payload)) => { int_kind($op.payload()) };
    ($op:ident ($kind:ident payload)) => { KindRef::$kind($op.payload()) };
    ($op:ident ($kind:ident texts)) => { KindRef::$kind(TextsRef { lines: $op.arg() }) };
    ($op:ident ($kind:ident integer)) => { KindRef::$kind($op.integer()) };
}

/// The truth value that the line of INT says, if it is one of the two spellings that stand for them.
pub(crate) fn truth_of(line: &[u8]) -> Option<bool>
    ensures { said_kind result line.now ≡ int_kind line.now }
{
    if line.len() == 2 && line[0] == b'0' && line[1] == b'0' {
        return Some(false);
    }
    if line.len() == 2 && line[0] == b'0' && line[1] == b'1' {
        return Some(true);
    }
    None
}

/// The kind of the object that the line of INT makes.
fn int_kind<'a>(line: &'a [u8]) -> KindRef<'a>
    ensures { kind_view result ≡ int_kind line.now }
{
    match truth_of(line) {
        Some(false) => KindRef::False,
        Some(true) => KindRef::True,
        None => KindRef::IntLine(line),
    }
}

impl<'a> KindRef<'a> {
    ghost use Rattle.std.specs.Prelude.{◌≡◌};
    ghost use Rattle.pickle_ops.specs.Kind.{class_of};
    ghost use Rattle.pickle_ops.specs.KindRef.{kind_view};
    ghost use Rattle.pickle_ops.specs.Row.{kind_of};

    /// The kind of the object that an operation makes, of an operation where it is, and with its bytes. It takes no memory. NEXT_BUFFER and
    /// READONLY_BUFFER make theirs from the state: for these, and for an operation that makes no object, the answer says nothing.
    pub fn of(op: &OpRef<'a>) -> KindRef<'a>
        ensures { kind_view result ≡ kind_of op.now }
    {
        opcodes!(match op.opcode() => kind_ref!(op))
    }

    /// What an opcode may take it for.
    pub fn class(self) -> Class
        ensures { result ≡ class_of (kind_view self.entry) }
    {
        class_by_kind!(self of KindRef)
    }
}

impl Texts {
    ghost use Rattle.std.specs.Prelude.{◌≡◌};
    ghost use Rattle.pickle_ops.specs.Argument.{texts_of};

    /// The same where they are.
    pub fn by_ref(&self) -> TextsRef<'_>
        ensures { texts_of result.lines.now ≡ self.now }
    {
        TextsRef {
            lines: self.lines(),
        }
    }
}

impl Kind {
    ghost use Rattle.std.specs.Prelude.{◌≡◌};
    ghost use Rattle.pickle_ops.specs.KindRef.{kind_view};

    /// The same with its bytes where they are.
    pub fn by_ref(&self) -> KindRef<'_>
        ensures { kind_view result ≡ self.now }
    {
        match self {
            Kind::None => KindRef::None,
            Kind::True => KindRef::True,
            Kind::False => KindRef::False,
            Kind::Int(number) => KindRef::Int(*number),
            Kind::Long(bytes) => KindRef::Long(bytes.as_slice()),
            Kind::IntLine(text) => KindRef::IntLine(text.as_slice()),
            Kind::LongLine(text) => KindRef::LongLine(text.as_slice()),
            Kind::FloatLine(text) => KindRef::FloatLine(text.as_slice()),
            Kind::Float(bytes) => KindRef::Float(bytes.as_slice()),
            Kind::LegacyString(text) => KindRef::LegacyString(text.as_slice()),
            Kind::LegacyLine(text) => KindRef::LegacyLine(text.as_slice()),
            Kind::Text(text) => KindRef::Text(text.as_slice()),
            Kind::TextLine(text) => KindRef::TextLine(text.as_slice()),
            Kind::Bytes(bytes) => KindRef::Bytes(bytes.as_slice()),
            Kind::ByteArray(bytes) => KindRef::ByteArray(bytes.as_slice()),
            Kind::Tuple => KindRef::Tuple,
            Kind::List => KindRef::List,
            Kind::Set => KindRef::Set,
            Kind::FrozenSet => KindRef::FrozenSet,
            Kind::Dict => KindRef::Dict,
            Kind::Global(names) => KindRef::Global(names.by_ref()),
            Kind::StackGlobal => KindRef::StackGlobal,
            Kind::Call => KindRef::Call,
            Kind::New => KindRef::New,
            Kind::NewEx => KindRef::NewEx,
            Kind::Inst(names) => KindRef::Inst(names.by_ref()),
            Kind::Obj => KindRef::Obj,
            Kind::PersistentLine(text) => KindRef::PersistentLine(text.as_slice()),
            Kind::Persistent => KindRef::Persistent,
            Kind::Ext(code) => KindRef::Ext(*code),
            Kind::Buffer(number) => KindRef::Buffer(*number),
            Kind::ReadOnly => KindRef::ReadOnly,
        }
    }
}
