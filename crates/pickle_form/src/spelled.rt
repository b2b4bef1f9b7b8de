//! How picklers spell each opcode, and in which protocols.

ghost use Rattle.std.specs.Prelude.{◌≡◌, ◌≤◌, ◌<◌, ◌==◌, ◌&&◌, ◌||◌, ◌-◌, ℕ, List, nat_le, nat_lt, int_lt, pos, get_or, length, drop, if◌then◌else◌, true, None, IfSome};
ghost use Rattle.pickle_form.specs.Spelled.{unless, or_else, is_shortest, is_long1, is_long4, other_text, other_names, other_argument, last_of_int, last_of_long};
ghost use Rattle.pickle_form.specs.Name.{is_name};
ghost use Rattle.pickle_form.specs.Held.{text_role};
ghost use Rattle.pickle_form.specs.Inside.{has_no_zero_in_front, spelling_of, is_frequent, is_seldom};
ghost use Rattle.pickle_ops.specs.Table.{form_of};
ghost use Rattle.pickle_ops.specs.Argument.{first_text, second_text, number_of, signed_of};
ghost use Rattle.pickle_ops.specs.Shape.{text_of};
ghost use Rattle.pickle_form.specs.Numeral.{is_natural};

use crate::escape::{is_raw_text, is_repr};
use crate::name::{is_name, is_text};
use crate::numeral::{is_float_line, is_int_line, is_long_line, is_truth, unsigned};
use crate::reason::Reason;
use crate::role::{Role, role_in_utf8, text_role};
use byteorder::{ByteOrder, LittleEndian};
use pickle_names::Coding;
use pickle_ops::{Form, OpRef, Opcode};

/// The reason, unless all is well.
pub(crate) fn unless(good: bool, why: Reason) -> Option<Reason>
    ensures { result ≡ unless good why }
{
    if good { None } else { Some(why) }
}

/// Whether a number in two's complement has no byte too many.
fn is_shortest(bytes: &[u8]) -> bool
    ensures { result ≡ is_shortest bytes.now }
{
    let len = bytes.len();
    if len == 0 {
        return true;
    }
    let last = bytes[len - 1];
    if len == 1 {
        return last != 0;
    }
    let before = bytes[len - 2];
    if last == 0 {
        128 <= before
    } else if last == 255 {
        before < 128
    } else {
        true
    }
}

/// Whether bytes are a number of LONG1.
fn is_long1(bytes: &[u8]) -> bool
    ensures { result ≡ is_long1 bytes.now }
{
    is_shortest(bytes) || bytes.len() == 8
}

/// Whether bytes are a number of LONG4.
fn is_long4(bytes: &[u8]) -> bool
    ensures { result ≡ is_long4 bytes.now }
{
    256 <= bytes.len() && is_shortest(bytes)
}

/// Why no pickler writes a text so, which has a shorter form below this length.
fn other_text(least: usize, bytes: &[u8]) -> Option<Reason>
    ensures { result ≡ other_text least bytes.now }
{
    if bytes.len() < least {
        return Some(Reason::LongLength);
    }
    unless(is_text(Coding::AnyUtf8, bytes), Reason::NotUtf8)
}

/// Whether both names of an import are plain.
fn are_names(first: &[u8], second: &[u8]) -> bool
    ensures { result ≡ (is_name first.now && is_name second.now) }
{
    is_name(first) && is_name(second)
}

/// Why no pickler writes the names of an import so.
fn other_names(op: &OpRef<'_>) -> Option<Reason>
    requires { form_of op.now.opcode ≡ Form.Two }
    ensures { result ≡ other_names op.now.arg }
{
    let (first, second) = op.texts();
    unless(are_names(first, second), Reason::Name)
}

/// Whether a protocol is one that PROTO names.
fn is_named(protocol: u64) -> bool
    ensures { result ≡ (nat_le 2 protocol && nat_le protocol 5) }
{
    2 <= protocol && protocol <= 5
}

/// Whether a number needs the four bytes of BININT.
fn is_wide(number: i32) -> bool
    ensures { result ≡ (int_lt number (pos 0) || int_lt (pos 65535) number) }
{
    number < 0 || 65_535 < number
}

/// The last protocol in which this line of INT is written.
fn last_of_int(text: &[u8]) -> u8
    ensures { result ≡ last_of_int text.now }
{
    if is_truth(text) {
        1
    } else if 10 <= unsigned(text).len() {
        2
    } else {
        0
    }
}

/// The last protocol in which these bytes of LONG1 are written.
fn last_of_long(bytes: &[u8]) -> u8
    ensures { result ≡ last_of_long bytes.now }
{
    if is_shortest(bytes) && 5 <= bytes.len() {
        5
    } else {
        2
    }
}

/// How an opcode is spelled.
#[derive(Clone, Copy)]
pub struct Spelled {
    /// Why no pickler writes its argument, if none does.
    pub why: Option<Reason>,
    /// The last protocol in which a pickler writes it.
    pub last: u64,
    /// The role of what it makes.
    pub role: Role,
}

/// A spelling.
#[inline(always)]
fn as_spelled(why: Option<Reason>, last: u64, role: Role) -> Spelled
    ensures { result ≡ record { why = why; last = last; role = role } }
{
    Spelled { why, last, role }
}

/// One that no pickler writes for this reason, unless all is well, in protocols up to this, which makes a plain value.
#[inline(always)]
fn value_if(good: bool, why: Reason, last: u64) -> Spelled
    ensures { result ≡ record { why = unless good why; last = last; role = Role.Value } }
{
    as_spelled(unless(good, why), last, Role::Value)
}

/// One of an opcode with an argument that each pickler writes so.
#[inline(always)]
fn always(last: u64, role: Role) -> Spelled
    ensures { result ≡ record { why = None; last = last; role = role } }
{
    as_spelled(None, last, role)
}

/// A text that is in UTF-8, in protocols up to this.
#[inline(always)]
fn text_spelled(text: &[u8], last: u64) -> Spelled
    ensures { result ≡ record { why = other_text 0 text.now; last = last; role = text_role text.now } }
{
    match role_in_utf8(text) {
        Some(role) => as_spelled(None, last, role),
        None => as_spelled(Some(Reason::NotUtf8), last, text_role(text)),
    }
}

/// The last protocol in which this text of BINUNICODE is written.
fn last_of_text(text: &[u8]) -> u64
    ensures { result ≡ if nat_le 256 (length text.now) then 5 else 3 }
{
    if 256 <= text.len() { 5 } else { 3 }
}

/// A line without its newline.
#[inline(always)]
fn text_of(line: &[u8]) -> &[u8]
    ensures { result.now ≡ text_of line.now }
{
    line.get(..line.len().saturating_sub(1)).unwrap_or_default()
}

/// The payload of a line.
#[inline(always)]
fn line_in<'a>(op: &OpRef<'a>) -> &'a [u8]
    ensures { result.now ≡ text_of op.now.arg }
{
    text_of(op.arg())
}

/// The payload behind a length of so many bytes.
#[inline(always)]
fn counted_in<'a>(width: usize, op: &OpRef<'a>) -> &'a [u8]
    ensures { result.now ≡ drop width op.now.arg }
{
    let arg = op.arg();
    arg.get(width..).unwrap_or_default()
}

/// The number of two bytes.
#[inline(always)]
fn number_of_two(op: &OpRef<'_>) -> u64
    requires { form_of op.now.opcode ≡ Form.Uint2 }
    ensures { result ≡ number_of Form.Uint2 op.now.arg }
{
    let arg = op.arg();
    u64::from(LittleEndian::read_u16(arg))
}

/// The number of four bytes.
#[inline(always)]
fn number_of_four(op: &OpRef<'_>) -> u64
    requires { form_of op.now.opcode ≡ Form.Uint4 }
    ensures { result ≡ number_of Form.Uint4 op.now.arg }
{
    let arg = op.arg();
    u64::from(LittleEndian::read_u32(arg))
}

/// Whether there is one byte, or the first one is no zero.
fn has_no_zero_in_front(text: &[u8]) -> bool
    ensures { result ≡ has_no_zero_in_front text.now }
{
    if text.len() == 1 {
        return true;
    }
    match text.first() {
        Some(first) => *first != b'0',
        None => true,
    }
}

/// Whether a decimal line is a number without a zero in front. All that is in it are digits.
#[tactic(auto, using(crate::proofs::Words::natural_decimal))]
fn is_natural_in(op: &OpRef<'_>) -> bool
    requires { form_of op.now.opcode ≡ Form.Decimal }
    ensures { result ≡ is_natural (text_of op.now.arg) }
{
    let arg = op.arg();
    has_no_zero_in_front(text_of(arg))
}

/// How an opcode is spelled that each pickler writes alike, whatever its argument is. All that is answered is constant, so that the compiler
/// makes tables of it.
#[inline(always)]
fn spelled_alike(opcode: Opcode) -> Option<Spelled>
    ensures some { IfSome result (λ s. (arg : List ℕ) → s ≡ spelling_of opcode arg) }
    ensures none { result ≡ None → (is_frequent opcode || is_seldom opcode) ≡ true }
{
    match opcode {
        Opcode::Int => None,
        Opcode::BinInt => None,
        Opcode::BinInt2 => None,
        Opcode::Long => None,
        Opcode::Long1 => None,
        Opcode::Long4 => None,
        Opcode::String => None,
        Opcode::BinString => None,
        Opcode::ShortBinString => Some(always(2, Role::Value)),
        Opcode::BinBytes => None,
        Opcode::BinBytes8 => None,
        Opcode::NextBuffer => Some(always(5, Role::Buffer)),
        Opcode::None => Some(always(5, Role::Null)),
        Opcode::Unicode => None,
        Opcode::ShortBinUnicode => None,
        Opcode::BinUnicode => None,
        Opcode::BinUnicode8 => None,
        Opcode::Float => None,
        Opcode::EmptyList => Some(always(5, Role::List)),
        Opcode::List => Some(always(0, Role::List)),
        Opcode::EmptyTuple => Some(always(5, Role::Tuple)),
        Opcode::Tuple => Some(always(5, Role::Tuple)),
        Opcode::Tuple1 => Some(always(5, Role::Tuple)),
        Opcode::Tuple2 => Some(always(5, Role::Tuple)),
        Opcode::Tuple3 => Some(always(5, Role::Tuple)),
        Opcode::EmptyDict => Some(always(5, Role::Dict)),
        Opcode::Dict => Some(always(0, Role::Dict)),
        Opcode::EmptySet => Some(always(5, Role::Set)),
        Opcode::Dup => Some(as_spelled(Some(Reason::NeverWritten), 5, Role::Value)),
        Opcode::Get => None,
        Opcode::LongBinGet => None,
        Opcode::Put => None,
        Opcode::BinPut => Some(always(3, Role::Value)),
        Opcode::LongBinPut => None,
        Opcode::Ext1 => None,
        Opcode::Ext2 => None,
        Opcode::Ext4 => None,
        Opcode::Global => None,
        Opcode::StackGlobal => Some(always(5, Role::Import)),
        Opcode::Reduce => Some(always(5, Role::Made)),
        Opcode::NewObj => Some(always(5, Role::Made)),
        Opcode::NewObjEx => Some(always(5, Role::Made)),
        Opcode::Inst => None,
        Opcode::Obj => Some(always(2, Role::Instance)),
        Opcode::Proto => None,
        Opcode::Frame => None,
        Opcode::PersId => None,
        Opcode::BinPersId => Some(always(5, Role::Outside)),
        _ => Some(always(5, Role::Value)),
    }
}

/// How an opcode with its argument is spelled that needs more than a few looks, or is seldom there.
#[inline(never)]
fn spelled_seldom(op: &OpRef<'_>) -> Spelled
    requires { is_seldom op.now.opcode ≡ true }
    ensures { result ≡ spelling_of op.now.opcode op.now.arg }
{
    match op.opcode() {
        Opcode::Int => {
            let line = line_in(op);
            value_if(
                is_int_line(line),
                Reason::NumberText,
                u64::from(last_of_int(line)),
            )
        }
        Opcode::Long => value_if(is_long_line(line_in(op)), Reason::NumberText, 1),
        Opcode::Long1 => {
            let bytes = counted_in(1, op);
            value_if(
                is_long1(bytes),
                Reason::LongNumber,
                u64::from(last_of_long(bytes)),
            )
        }
        Opcode::Long4 => value_if(is_long4(counted_in(4, op)), Reason::LongNumber, 5),
        Opcode::String => value_if(is_repr(line_in(op)), Reason::TextSpelling, 0),
        Opcode::BinString => value_if(256 <= counted_in(4, op).len(), Reason::LongLength, 2),
        Opcode::BinBytes => value_if(256 <= counted_in(4, op).len(), Reason::LongLength, 5),
        Opcode::BinBytes8 => value_if(
            4_294_967_296 <= counted_in(8, op).len(),
            Reason::LongLength,
            5,
        ),
        Opcode::Unicode => value_if(is_raw_text(line_in(op)), Reason::TextSpelling, 0),
        Opcode::BinUnicode => {
            let text = counted_in(4, op);
            text_spelled(text, last_of_text(text))
        }
        Opcode::BinUnicode8 => as_spelled(
            other_text(4_294_967_296, counted_in(8, op)),
            5,
            Role::Value,
        ),
        Opcode::Float => value_if(is_float_line(line_in(op)), Reason::NumberText, 0),
        Opcode::Get => value_if(is_natural_in(op), Reason::NumberText, 0),
        Opcode::Put => value_if(is_natural_in(op), Reason::NumberText, 0),
        Opcode::Ext1 => as_spelled(unless(0 < op.number(), Reason::LongNumber), 5, Role::Import),
        Opcode::Ext2 => as_spelled(
            unless(255 < number_of_two(op), Reason::LongNumber),
            5,
            Role::Import,
        ),
        Opcode::Ext4 => as_spelled(
            unless(65_535 < op.signed(), Reason::LongNumber),
            5,
            Role::Import,
        ),
        Opcode::Global => as_spelled(other_names(op), 5, Role::Import),
        Opcode::Inst => as_spelled(other_names(op), 0, Role::Instance),
        Opcode::Proto => value_if(is_named(op.number()), Reason::Protocol, 5),
        Opcode::Frame => value_if(0 < op.number(), Reason::EmptyFrame, 5),
        Opcode::PersId => as_spelled(
            unless(is_text(Coding::Ascii, line_in(op)), Reason::PersistentId),
            0,
            Role::Outside,
        ),
        _ => unreachable!(),
    }
}

/// How an opcode with its argument is spelled that is not spelled alike whatever its argument is. The frequent ones need few looks.
#[inline(always)]
fn spelled_by_argument(op: &OpRef<'_>) -> Spelled
    requires { (is_frequent op.now.opcode || is_seldom op.now.opcode) ≡ true }
    ensures { result ≡ spelling_of op.now.opcode op.now.arg }
{
    match op.opcode() {
        Opcode::BinInt => value_if(is_wide(op.signed()), Reason::LongNumber, 5),
        Opcode::BinInt2 => value_if(255 < number_of_two(op), Reason::LongNumber, 5),
        Opcode::ShortBinUnicode => text_spelled(counted_in(1, op), 5),
        Opcode::LongBinGet => value_if(255 < number_of_four(op), Reason::LongKey, 5),
        Opcode::LongBinPut => value_if(255 < number_of_four(op), Reason::LongKey, 3),
        _ => spelled_seldom(&op.again()),
    }
}

/// How an opcode with its argument is spelled.
#[inline(always)]
pub(crate) fn spelling_of(op: &OpRef<'_>) -> Spelled
    ensures { result ≡ spelling_of op.now.opcode op.now.arg }
{
    match spelled_alike(op.opcode()) {
        Some(spelled) => spelled,
        None => spelled_by_argument(op),
    }
}
