//! What an object is. `Failed` where the sink fails; a beginning of the text was written then.

ghost use Rattle.std.specs.Prelude.{◌≡◌};
ghost use Rattle.json_lines.specs.Line.{fields_text};
ghost use Rattle.pickle_io.specs.Device.{Writes};
ghost use Rattle.objects_json.specs.ObjectFields.{kind_word, kind_fields};

use json_lines::write_number_field;
use pickle_io::{Failed, Page};
use pickle_json::{write_any_payload, write_double, write_integer, write_long, write_names};
use pickle_ops::Kind;

/// The word of a kind.
#[tactic(auto, unfolding(crate::specs::ObjectFields::kind_word))]
pub fn word_of(kind: &Kind) -> &'static str
    ensures { result.now ≡ kind_word kind.now }
{
    match kind {
        Kind::None => "none",
        Kind::True => "true",
        Kind::False => "false",
        Kind::Int(_) => "int",
        Kind::Long(_) => "int",
        Kind::IntLine(_) => "int-line",
        Kind::LongLine(_) => "long-line",
        Kind::FloatLine(_) => "float-line",
        Kind::Float(_) => "float",
        Kind::LegacyString(_) => "string",
        Kind::LegacyLine(_) => "string-line",
        Kind::Text(_) => "text",
        Kind::TextLine(_) => "text-line",
        Kind::Bytes(_) => "bytes",
        Kind::ByteArray(_) => "bytearray",
        Kind::Tuple => "tuple",
        Kind::List => "list",
        Kind::Set => "set",
        Kind::FrozenSet => "frozenset",
        Kind::Dict => "dict",
        Kind::Global(_) => "global",
        Kind::StackGlobal => "stack-global",
        Kind::Call => "call",
        Kind::New => "new",
        Kind::NewEx => "new-ex",
        Kind::Inst(_) => "inst",
        Kind::Obj => "obj",
        Kind::PersistentLine(_) => "persistent",
        Kind::Persistent => "persistent",
        Kind::Ext(_) => "ext",
        Kind::Buffer(_) => "buffer",
        Kind::ReadOnly => "readonly",
    }
}

/// Writes what its opcode gave it, if anything.
#[tactic(auto, using(json_lines::proofs::Lines::fields_steps), unfolding(crate::specs::ObjectFields::kind_fields))]
pub fn write_kind_fields<P: Page>(kind: &Kind, page: &mut P) -> Result<(), Failed>
    ensures { Writes (P.told page.old) (P.told page.new) result (fields_text (kind_fields kind.now)) }
{
    match kind {
        Kind::Int(number) => write_integer(i128::from(*number), page),
        Kind::Long(bytes) => write_long(bytes.as_slice(), page),
        Kind::IntLine(line) => write_any_payload(line.as_slice(), page),
        Kind::LongLine(line) => write_any_payload(line.as_slice(), page),
        Kind::FloatLine(line) => write_any_payload(line.as_slice(), page),
        Kind::Float(bytes) => write_double(bytes.as_slice(), page),
        Kind::LegacyString(text) => write_any_payload(text.as_slice(), page),
        Kind::LegacyLine(line) => write_any_payload(line.as_slice(), page),
        Kind::Text(text) => write_any_payload(text.as_slice(), page),
        Kind::TextLine(line) => write_any_payload(line.as_slice(), page),
        Kind::Bytes(bytes) => write_any_payload(bytes.as_slice(), page),
        Kind::ByteArray(bytes) => write_any_payload(bytes.as_slice(), page),
        Kind::Global(names) => write_names(names.first(), names.second(), page),
        Kind::Inst(names) => write_names(names.first(), names.second(), page),
        Kind::PersistentLine(line) => write_any_payload(line.as_slice(), page),
        Kind::Ext(code) => write_integer(i128::from(*code), page),
        Kind::Buffer(number) => write_number_field("number", *number, page),
        _ => Ok(()),
    }
}
