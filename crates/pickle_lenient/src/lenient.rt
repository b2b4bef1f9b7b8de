//! What loaders read at the front of bytes, where an opcode is spelled otherwise than it should be.

ghost use Rattle.std.specs.Prelude.{◌≡◌, ◌≢◌, ◌<◌, ◌≤◌, ◌+◌, ◌^◌, ◌∷◌, false, length, position, Ok, Err, IfOk, IfErr, IfSome};
ghost use Rattle.pickle_ops.specs.Shape.{is_newline};
ghost use Rattle.pickle_lenient.specs.Row.{is_far};
ghost use Rattle.pickle_lenient.specs.Lenient.{mended, keyed_row, odd_line, cut_line, tells_line};
ghost use Rattle.pickle_lenient.specs.Reading.{IsLenient, IsNotLenient, IsFaulty, IsNotFaulty};

use crate::fault::NotTaken;
use crate::key::key_of;
use crate::number::Number;
use crate::row::LenientRow;
use pickle_ops::{FrontFault, Op, Row, peek_op};
use std::alloc::{AllocError, Global};

/// An operation that loaders read.
#[derive(Drop)]
pub struct LenientOp {
    /// The operation; of GET and PUT with such a number another, which makes nothing either.
    pub op: Op,
    /// The row as which it moves.
    pub row: LenientRow,
    /// How many bytes it takes.
    pub size: usize,
}

/// Where the first newline is.
pub(crate) fn newline(bytes: &[u8]) -> Option<usize>
    ensures at { result ≡ position is_newline bytes.now }
    ensures within { IfSome result (λ n. n < length bytes.now) }
{
    bytes.iter().position(|b| *b == b'\n')
}

/// The row of GET or PUT of a key, by the code.
fn keyed_row(code: u8, key: Number) -> Option<LenientRow>
    ensures { result ≡ keyed_row code key }
{
    if code == b'g' {
        Some(LenientRow::get(key))
    } else if code == b'p' {
        Some(LenientRow::put(key))
    } else {
        None
    }
}

/// The row of GET or PUT of a number, and how many bytes it takes, by the code and the line behind it.
fn odd_line(alloc: Global, code: u8, rest: &[u8]) -> Result<Option<(LenientRow, usize)>, AllocError>
    ensures is { IfOk result (λ x. x ≡ odd_line code rest.now) }
    ensures some { IfOk result (λ x. IfSome x (λ r. 0 < r.1)) }
    ensures within { IfOk result (λ x. IfSome x (λ r. r.1 ≤ length rest.now + 1)) }
{
    match newline(rest) {
        None => Ok(None),
        Some(end) => match key_of(alloc, &rest[..end])? {
            None => Ok(None),
            Some(key) => match keyed_row(code, key) {
                None => Ok(None),
                Some(row) => Ok(Some((row, end + 2))),
            },
        },
    }
}

/// The bytes with the last of them lost, and with the ends of lines behind them.
fn mended(alloc: Global, code: u8, rest: &[u8]) -> Result<Vec<u8>, AllocError>
    requires small { length rest.now < 2 ^ 62 }
    ensures { IfOk result (λ v. v.items ≡ mended (code ∷ rest.now)) }
{
    let mut line = Vec::with_capacity(alloc, rest.len() + 3)?;
    line.push(code)?;
    line.extend_from_slice(&rest[..rest.len().saturating_sub(1)])?;
    line.extend_from_slice(b"\n\n")?;
    Ok(line)
}

/// A front that is cut, whose code tells something, as a loader reads it that lets the end of the file end a line.
fn read_mended(alloc: Global, code: u8, rest: &[u8]) -> Result<LenientOp, NotTaken>
    requires small { length rest.now < 2 ^ 62 }
    ensures ok { IfOk result (λ r. (cut_line (code ∷ rest.now) ≡ Ok (record { op = r.op; row = r.row; size = r.size })) × (r.size ≡ length rest.now + 1)) }
    ensures near { IfOk result (λ r. is_far r.row ≡ false) }
    ensures err { IfErr result (λ e. e ≢ NotTaken.Memory
        → (cut_line (code ∷ rest.now) ≡ Err FrontFault.Truncated) × (e ≡ NotTaken.Fault FrontFault.Truncated)) }
{
    let line = mended(alloc, code, rest)?;
    match peek_op(line.as_slice()) {
        Ok(found) => {
            let row = LenientRow::near(Row::of_ref(&found));
            let op = found.copied(alloc)?;
            Ok(LenientOp {
                op,
                row,
                size: rest.len() + 1,
            })
        }
        Err(_) => Err(NotTaken::Fault(FrontFault::Truncated)),
    }
}

/// Whether a line behind this code tells something.
fn tells_line(code: u8) -> bool
    ensures { result ≡ tells_line code }
{
    code == b'c' || (code == b'i' || code == b'P')
}

/// A front that is cut.
fn read_cut(alloc: Global, code: u8, rest: &[u8]) -> Result<LenientOp, NotTaken>
    requires small { length rest.now < 2 ^ 62 }
    ensures ok { IfOk result (λ r. IsFaulty (code ∷ rest.now) FrontFault.Truncated r.op r.row r.size) }
    ensures err { IfErr result (IsNotFaulty (code ∷ rest.now) FrontFault.Truncated) }
{
    if tells_line(code) {
        read_mended(alloc, code, rest)
    } else {
        Err(NotTaken::Fault(FrontFault::Truncated))
    }
}

/// A front with a bad argument.
fn read_key(alloc: Global, code: u8, rest: &[u8]) -> Result<LenientOp, NotTaken>
    ensures ok { IfOk result (λ r. IsFaulty (code ∷ rest.now) FrontFault.BadArgument r.op r.row r.size) }
    ensures err { IfErr result (IsNotFaulty (code ∷ rest.now) FrontFault.BadArgument) }
{
    match odd_line(alloc, code, rest)? {
        Some((row, size)) => Ok(LenientOp {
            op: Op::frame(0),
            row,
            size,
        }),
        None => Err(NotTaken::Fault(FrontFault::BadArgument)),
    }
}

/// A front with a fault, as loaders read it.
fn read_faulty(
    alloc: Global,
    code: u8,
    rest: &[u8],
    fault: FrontFault,
) -> Result<LenientOp, NotTaken>
    requires small { length rest.now < 2 ^ 62 }
    ensures ok { IfOk result (λ r. IsFaulty (code ∷ rest.now) fault r.op r.row r.size) }
    ensures err { IfErr result (IsNotFaulty (code ∷ rest.now) fault) }
{
    match fault {
        FrontFault::BadArgument => read_key(alloc, code, rest),
        FrontFault::Truncated => read_cut(alloc, code, rest),
        FrontFault::Ended => Err(NotTaken::Fault(FrontFault::Ended)),
        FrontFault::NegativeLength => Err(NotTaken::Fault(FrontFault::NegativeLength)),
        FrontFault::UnknownOpcode(byte) => Err(NotTaken::Fault(FrontFault::UnknownOpcode(byte))),
    }
}

/// What loaders read at the front of bytes, which are a code and these.
fn read_some(alloc: Global, bytes: &[u8], code: u8, rest: &[u8]) -> Result<LenientOp, NotTaken>
    requires small { length rest.now < 2 ^ 62 }
    requires parts { bytes.now ≡ code ∷ rest.now }
    ensures ok { IfOk result (λ r. IsLenient bytes.now r.op r.row r.size) }
    ensures err { IfErr result (IsNotLenient bytes.now) }
{
    match peek_op(bytes) {
        Ok(found) => {
            let row = LenientRow::near(Row::of_ref(&found));
            let size = found.size();
            let op = found.copied(alloc)?;
            Ok(LenientOp { op, row, size })
        }
        Err(fault) => read_faulty(alloc, code, rest, fault),
    }
}

/// What loaders read at the front of bytes.
pub(crate) fn read_lenient(alloc: Global, bytes: &[u8]) -> Result<LenientOp, NotTaken>
    requires small { length bytes.now < 2 ^ 62 }
    ensures ok { IfOk result (λ r. IsLenient bytes.now r.op r.row r.size) }
    ensures err { IfErr result (IsNotLenient bytes.now) }
{
    match bytes.split_first() {
        None => Err(NotTaken::Fault(FrontFault::Ended)),
        Some((code, rest)) => read_some(alloc, bytes, *code, rest),
    }
}
