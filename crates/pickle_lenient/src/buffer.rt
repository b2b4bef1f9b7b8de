//! What of an opcode is read in a buffer, and what is behind it.

ghost use Rattle.std.specs.Prelude.{◌≡◌, ◌+◌, ◌^◌, ◌<◌, ◌≤◌, ◌++◌, length, take, IfOk, IfErr};
ghost use Rattle.pickle_ops.specs.Front.{front_of};
ghost use Rattle.pickle_ops.specs.Table.{opcode_of};
ghost use Rattle.pickle_ops.specs.Inside.Sizes.{length_bytes};
ghost use Rattle.pickle_lenient.specs.Stream.{width_read, form_read, is_filled, arg_read, first_read, ends_in};
ghost use Rattle.pickle_lenient.specs.Reading.{ends_at, IsLenient, IsNotLenient};

use crate::fault::NotTaken;
use crate::lenient::{LenientOp, newline, read_lenient};
use pickle_ops::{Form, FrontFault, Opcode, peek_op};
use std::alloc::{AllocError, Global};

/// The opcode of a code.
fn opcode_of(code: u8) -> Option<Opcode>
    ensures { result ≡ opcode_of code }
{
    Opcode::of_code(code)
}

/// Whether bytes with this fault at their front hold the whole of it.
fn ends_at(fault: FrontFault) -> bool
    ensures { result ≡ ends_at fault }
{
    match fault {
        FrontFault::Ended => false,
        FrontFault::Truncated => false,
        _ => true,
    }
}

/// Whether an opcode ends in the bytes, or they begin with what is none.
pub(crate) fn ends_in(bytes: &[u8]) -> bool
    ensures { result ≡ ends_in (front_of bytes.now) }
{
    match peek_op(bytes) {
        Ok(_) => true,
        Err(fault) => ends_at(fault),
    }
}

/// How many bytes of length an argument has.
fn length_bytes(form: Form) -> usize
    ensures is { result ≡ length_bytes form }
    ensures few { result ≤ 8 }
{
    match form {
        Form::Bytes1 => 1,
        Form::Bytes4 => 4,
        Form::Bytes8 => 8,
        Form::String4 => 4,
        _ => 0,
    }
}

/// The bytes of a length, if all are there.
fn width_read(width: usize, size: usize) -> usize
    ensures is { result ≡ width_read width size }
    ensures within { result ≤ size }
{
    if width <= size { width } else { 0 }
}

/// How many bytes of an argument of this form are read in these, where it does not end there.
fn form_read(form: Form, rest: &[u8]) -> usize
    ensures is { result ≡ form_read form rest.now }
    ensures within { result ≤ length rest.now }
{
    match form {
        Form::Two => match newline(rest) {
            None => 0,
            Some(end) => end + 1,
        },
        _ => width_read(length_bytes(form), rest.len()),
    }
}

/// Whether the bytes of its argument are read in the buffer and go on behind it.
fn is_filled(opcode: Opcode) -> bool
    ensures { result ≡ is_filled opcode }
{
    matches!(
        opcode,
        Opcode::ShortBinBytes | Opcode::BinBytes | Opcode::BinBytes8 | Opcode::ByteArray8
    )
}

/// How many bytes of the opcode's argument are read in these, where it does not end there.
fn arg_read(opcode: Opcode, rest: &[u8]) -> usize
    ensures is { result ≡ arg_read opcode rest.now }
    ensures within { result ≤ length rest.now }
{
    let fills = is_filled(opcode);
    if fills && length_bytes(opcode.form()) <= rest.len() {
        rest.len()
    } else {
        form_read(opcode.form(), rest)
    }
}

/// How many bytes of an opcode are read in these, where it does not end there.
pub(crate) fn first_read(bytes: &[u8]) -> usize
    ensures is { result ≡ first_read bytes.now }
    ensures within { result ≤ length bytes.now }
{
    match bytes.split_first() {
        None => 0,
        Some((code, rest)) => match opcode_of(*code) {
            None => 0,
            Some(opcode) => 1 + arg_read(opcode, rest),
        },
    }
}

/// Bytes, and others behind them.
fn joined(alloc: Global, first: &[u8], behind: &[u8]) -> Result<Vec<u8>, AllocError>
    requires small { length first.now + length behind.now < 2 ^ 62 }
    ensures { IfOk result (λ v. v.items ≡ first.now ++ behind.now) }
{
    let mut all = Vec::with_capacity(alloc, first.len() + behind.len())?;
    all.extend_from_slice(first)?;
    all.extend_from_slice(behind)?;
    Ok(all)
}

/// What is read of the first bytes and of those behind them, of which this many are looked at before the rest.
fn read_joined(
    alloc: Global,
    first: &[u8],
    behind: &[u8],
    enough: usize,
) -> Result<LenientOp, NotTaken>
    requires small { length first.now + length behind.now < 2 ^ 62 }
    requires few { enough ≤ length behind.now }
    ensures ok { IfOk result (λ r. IsLenient (first.now ++ behind.now) r.op r.row r.size) }
    ensures err { IfErr result (IsNotLenient (first.now ++ behind.now)) }
{
    let some = joined(alloc, first, &behind[..enough])?;
    let begin = some.as_slice();
    if ends_in(begin) {
        return read_lenient(alloc, begin);
    }
    let all = joined(alloc, first, behind)?;
    read_lenient(alloc, all.as_slice())
}

/// How many bytes a line takes; all of them, if it does not end there.
fn line_size(bytes: &[u8]) -> usize
    ensures { result ≤ length bytes.now }
{
    match newline(bytes) {
        None => bytes.len(),
        Some(end) => end + 1,
    }
}

/// How many bytes two lines take; all of them, if they do not end there.
fn lines_size(bytes: &[u8]) -> usize
    ensures { result ≤ length bytes.now }
{
    let first = line_size(bytes);
    first + line_size(&bytes[first..])
}

/// The number of a length of at most eight bytes, the lowest first, or the most that there is.
fn count_of(width: &[u8]) -> usize {
    let mut count: usize = 0;
    for b in width.iter().rev() {
        count = count.saturating_mul(256).saturating_add(usize::from(*b));
    }
    count
}

/// How many bytes a length and what it counts take; all of them, if they do not end there.
fn counted_size(first: &[u8], width: usize, behind: &[u8]) -> usize
    ensures { result ≤ length behind.now }
{
    if first.len() > width {
        return count_of(&first[1..width + 1]).min(behind.len());
    }
    if behind.len() < width {
        return behind.len();
    }
    count_of(&behind[..width])
        .saturating_add(width)
        .min(behind.len())
}

/// How many of the bytes behind the first are enough for an opcode that does not end in these. Nothing rests on this but how many
/// bytes are copied.
fn enough(first: &[u8], behind: &[u8]) -> usize
    ensures { result ≤ length behind.now }
{
    let Some((code, rest)) = first.split_first() else {
        return behind.len();
    };
    let Some(opcode) = Opcode::of_code(*code) else {
        return behind.len();
    };
    match opcode.form() {
        Form::Line | Form::Quoted | Form::Decimal => line_size(behind),
        Form::Two => {
            if rest.is_empty() {
                lines_size(behind)
            } else {
                line_size(behind)
            }
        }
        Form::Bytes1 => counted_size(first, 1, behind),
        Form::Bytes4 | Form::String4 => counted_size(first, 4, behind),
        Form::Bytes8 => counted_size(first, 8, behind),
        _ => behind.len().min(8),
    }
}

/// What is read of the bytes whose first are in a buffer in which no opcode ends, and whose others are behind it: of the buffer this many
/// bytes are read.
pub(crate) fn read_across(
    alloc: Global,
    bytes: &[u8],
    buffer: &[u8],
    behind: &[u8],
    read: usize,
) -> Result<LenientOp, NotTaken>
    requires small { length bytes.now < 2 ^ 62 }
    requires parts { bytes.now ≡ buffer.now ++ behind.now }
    requires few { read ≤ length buffer.now }
    ensures ok { IfOk result (λ r. IsLenient (take read buffer.now ++ behind.now) r.op r.row r.size) }
    ensures err { IfErr result (IsNotLenient (take read buffer.now ++ behind.now)) }
{
    if read == buffer.len() {
        return read_lenient(alloc, bytes);
    }
    let first = &buffer[..read];
    read_joined(alloc, first, behind, enough(first, behind))
}
