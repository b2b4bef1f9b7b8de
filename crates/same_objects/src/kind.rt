//! Whether two objects are of the same kind, with what their opcodes gave them.

ghost use Rattle.std.specs.Prelude.{◌≡◌};
ghost use Rattle.std.specs.Bool.{Decides};
ghost use Rattle.same_objects.specs.Telling.{tag_of, number_of, first_of, second_of};

use pickle_ops::Kind;

/// A number of its own for each kind.
fn tag_of(kind: &Kind) -> u8
    ensures { result ≡ tag_of kind.now }
{
    match kind {
        Kind::None => 0,
        Kind::True => 1,
        Kind::False => 2,
        Kind::Int(_) => 3,
        Kind::Long(_) => 4,
        Kind::IntLine(_) => 5,
        Kind::LongLine(_) => 6,
        Kind::FloatLine(_) => 7,
        Kind::Float(_) => 8,
        Kind::LegacyString(_) => 9,
        Kind::LegacyLine(_) => 10,
        Kind::Text(_) => 11,
        Kind::TextLine(_) => 12,
        Kind::Bytes(_) => 13,
        Kind::ByteArray(_) => 14,
        Kind::Tuple => 15,
        Kind::List => 16,
        Kind::Set => 17,
        Kind::FrozenSet => 18,
        Kind::Dict => 19,
        Kind::Global(_) => 20,
        Kind::StackGlobal => 21,
        Kind::Call => 22,
        Kind::New => 23,
        Kind::NewEx => 24,
        Kind::Inst(_) => 25,
        Kind::Obj => 26,
        Kind::PersistentLine(_) => 27,
        Kind::Persistent => 28,
        Kind::Ext(_) => 29,
        Kind::Buffer(_) => 30,
        Kind::ReadOnly => 31,
    }
}

/// The number that its opcode gave it.
fn number_of(kind: &Kind) -> i128
    ensures { result ≡ number_of kind.now }
{
    match kind {
        Kind::Int(number) => i128::from(*number),
        Kind::Ext(code) => i128::from(*code),
        Kind::Buffer(number) => i128::from(*number),
        _ => 0,
    }
}

/// The bytes that its opcode gave it, or the name of the module.
fn first_of(kind: &Kind) -> &[u8]
    ensures { result.now ≡ first_of kind.now }
{
    match kind {
        Kind::Long(bytes) => bytes.as_slice(),
        Kind::IntLine(bytes) => bytes.as_slice(),
        Kind::LongLine(bytes) => bytes.as_slice(),
        Kind::FloatLine(bytes) => bytes.as_slice(),
        Kind::Float(bytes) => bytes.as_slice(),
        Kind::LegacyString(bytes) => bytes.as_slice(),
        Kind::LegacyLine(bytes) => bytes.as_slice(),
        Kind::Text(bytes) => bytes.as_slice(),
        Kind::TextLine(bytes) => bytes.as_slice(),
        Kind::Bytes(bytes) => bytes.as_slice(),
        Kind::ByteArray(bytes) => bytes.as_slice(),
        Kind::Global(names) => names.first(),
        Kind::Inst(names) => names.first(),
        Kind::PersistentLine(bytes) => bytes.as_slice(),
        _ => &[],
    }
}

/// The name of the member.
fn second_of(kind: &Kind) -> &[u8]
    ensures { result.now ≡ second_of kind.now }
{
    match kind {
        Kind::Global(names) => names.second(),
        Kind::Inst(names) => names.second(),
        _ => &[],
    }
}

/// Whether two kinds are the same, with what their opcodes gave them.
pub(crate) fn is_same_kind(one: &Kind, other: &Kind) -> bool
    ensures { Decides result (one.now ≡ other.now) }
{
    tag_of(one) == tag_of(other)
        && number_of(one) == number_of(other)
        && first_of(one) == first_of(other)
        && second_of(one) == second_of(other)
}
