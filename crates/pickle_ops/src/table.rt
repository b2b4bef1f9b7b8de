//! The table of what opcodes do.

ghost use Rattle.std.specs.Prelude.{◌≡◌, ◌<◌, length, IfOk, OnErr};
ghost use Rattle.pickle_ops.specs.Argument.{most_inline};
ghost use Rattle.pickle_ops.specs.Row.{row_of, kind_of};
ghost use Rattle.pickle_ops.specs.Table.{int_kind};

use crate::kind::Kind;
use crate::kind_ref::truth_of;
use crate::op::Op;
use crate::opcodes;
use crate::payload::Payload;
use crate::peek::OpRef;
use crate::row::{Cutting, Filling, Row, Taking};
use std::alloc::{AllocError, Global};

/// The row of a record, of the operation.
macro_rules! row {
    (($op:ident) { $code:literal $name:literal $protocol:literal $form:ident $row:tt $($rest:tt)* }) => { row!($op $row) };
    ($op:ident $row:ident) => { Row::$row };
    ($op:ident (Take $count:ident)) => { Row::Take(Taking::$count) };
    ($op:ident (Cut $parts:ident)) => { Row::Cut(Cutting::$parts) };
    ($op:ident (Change $filling:ident)) => { Row::Change(Filling::$filling) };
    ($op:ident (CutChange $filling:ident)) => { Row::CutChange(Filling::$filling) };
    ($op:ident ($row:ident number)) => { Row::$row($op.number()) };
    ($op:ident ($row:ident integer)) => { Row::$row($op.integer()) };
}

/// What is made of what an argument holds, or the error where there was no memory for that. `?` says the same, but in so many arms its
/// proof takes long.
macro_rules! made_of {
    ($held:expr => $($make:tt)*) => { match $held { Ok(held) => Ok($($make)*(held)), Err(error) => Err(error) } };
}

/// The kind of a record, of the operation; its payload and its texts by these methods, with what they take.
macro_rules! kind {
    (($op:ident $by:tt $with:tt) { $code:literal $name:literal $protocol:literal $form:ident $row:tt $kind:tt $($rest:tt)* }) => { kind!($op $by $with $kind) };
    ($op:ident $by:tt $with:tt _) => { Ok(Kind::None) };
    ($op:ident $by:tt $with:tt $kind:ident) => { Ok(Kind::$kind) };
    ($op:ident ($payload:ident $texts:ident) $with:tt (int_kind payload)) => { made_of!($op.$payload $with => int_kind) };
    ($op:ident ($payload:ident $texts:ident) $with:tt ($kind:ident payload)) => { made_of!($op.$payload $with => Kind::$kind) };
    ($op:ident ($payload:ident $texts:ident) $with:tt ($kind:ident texts)) => { made_of!($op.$texts $with => Kind::$kind) };
    ($op:ident $by:tt $with:tt ($kind:ident integer)) => { Ok(Kind::$kind($op.integer())) };
}

impl Row {
    /// The row of an operation: what a machine does at it, and what it asks before.
    pub fn of(op: &Op) -> Row
        ensures { result ≡ row_of op.now }
    {
        Row::of_ref(&op.by_ref())
    }

    /// The same, of an operation where it is.
    #[inline(always)]
    pub fn of_ref(op: &OpRef<'_>) -> Row
        ensures { result ≡ row_of op.now }
    {
        opcodes!(match op.opcode() => row!(op))
    }
}

/// The kind of the object that the line of INT makes.
fn int_kind(line: Payload) -> Kind
    ensures { result ≡ int_kind line }
{
    match truth_of(line.as_slice()) {
        Some(false) => Kind::False,
        Some(true) => Kind::True,
        None => Kind::IntLine(line),
    }
}

impl Kind {
    /// The kind of the object that an operation makes, for the machine that makes it. Its bytes are shared with the
    /// operation, and not copied. NEXT_BUFFER and READONLY_BUFFER make theirs from the state: for these, and for an
    /// operation that makes no object, the answer says nothing. It fails only where the argument has more than fourteen
    /// bytes, and there are so many that share it that they cannot be counted.
    #[inline(always)]
    pub fn of(op: &Op) -> Result<Kind, AllocError>
        ensures ok { IfOk result (λ k. k ≡ kind_of op.now) }
        ensures err { OnErr result (most_inline < length op.now.arg) }
    {
        opcodes!(match op.opcode() => kind!(op (shared_payload shared_texts) ()))
    }

    /// The same, of an operation where it is, whose bytes are copied. It fails only where memory runs out.
    #[inline(always)]
    pub fn of_ref(alloc: Global, op: &OpRef<'_>) -> Result<Kind, AllocError>
        ensures { IfOk result (λ k. k ≡ kind_of op.now) }
    {
        opcodes!(match op.opcode() => kind!(op (kept_payload kept_texts) (alloc)))
    }
}
