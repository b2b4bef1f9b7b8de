//! The text of a kind of objects.

ghost use Rattle.pickle_io.specs.Device.{Writes};
ghost use Rattle.pickle_text.specs.Words.{kind_text};

use pickle_io::{Failed, Page, write_all};
use pickle_ops::Kind;
use pickle_text::{
    write_with_float, write_with_long, write_with_number, write_with_signed, write_with_text,
    write_with_texts,
};

/// Writes the word of a kind, and what its opcode gave it.
#[tactic(auto, unfolding(pickle_text::specs::Words::kind_text))]
pub fn write_kind<S: Page>(kind: &Kind, page: &mut S) -> Result<(), Failed>
    ensures { Writes (S.told page.old) (S.told page.new) result (kind_text kind.now) }
{
    match kind {
        Kind::None => write_all(page, b"none"),
        Kind::True => write_all(page, b"true"),
        Kind::False => write_all(page, b"false"),
        Kind::Int(number) => write_with_signed(b"int ", *number, page),
        Kind::Long(bytes) => write_with_long(b"int ", bytes.as_slice(), page),
        Kind::IntLine(text) => write_with_text(b"int-line ", text.as_slice(), page),
        Kind::LongLine(text) => write_with_text(b"long-line ", text.as_slice(), page),
        Kind::FloatLine(text) => write_with_text(b"float-line ", text.as_slice(), page),
        Kind::Float(bytes) => write_with_float(b"float ", bytes.as_slice(), page),
        Kind::LegacyString(text) => write_with_text(b"string ", text.as_slice(), page),
        Kind::LegacyLine(text) => write_with_text(b"string-line ", text.as_slice(), page),
        Kind::Text(text) => write_with_text(b"text ", text.as_slice(), page),
        Kind::TextLine(text) => write_with_text(b"text-line ", text.as_slice(), page),
        Kind::Bytes(bytes) => write_with_text(b"bytes ", bytes.as_slice(), page),
        Kind::ByteArray(bytes) => write_with_text(b"bytearray ", bytes.as_slice(), page),
        Kind::Tuple => write_all(page, b"tuple"),
        Kind::List => write_all(page, b"list"),
        Kind::Set => write_all(page, b"set"),
        Kind::FrozenSet => write_all(page, b"frozenset"),
        Kind::Dict => write_all(page, b"dict"),
        Kind::Global(names) => write_with_texts(b"global ", names.first(), names.second(), page),
        Kind::StackGlobal => write_all(page, b"stack-global"),
        Kind::Call => write_all(page, b"call"),
        Kind::New => write_all(page, b"new"),
        Kind::NewEx => write_all(page, b"new-ex"),
        Kind::Inst(names) => write_with_texts(b"inst ", names.first(), names.second(), page),
        Kind::Obj => write_all(page, b"obj"),
        Kind::PersistentLine(text) => write_with_text(b"persistent ", text.as_slice(), page),
        Kind::Persistent => write_all(page, b"persistent"),
        Kind::Ext(code) => write_with_signed(b"ext ", *code, page),
        Kind::Buffer(number) => write_with_number(b"buffer ", *number, page),
        Kind::ReadOnly => write_all(page, b"readonly"),
    }
}
