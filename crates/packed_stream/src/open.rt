//! What a packed file opens to.

ghost use Rattle.std.specs.Prelude.{◌≡◌, ◌≤◌, List, ℕ, length, drop, Ok, IfOk};
ghost use Rattle.std.specs.Vec.{vec_len};
ghost use Rattle.inflate.specs.Stream.{inflated};
ghost use Rattle.packed_stream.specs.Packed.{end_size, has_checksum, has_size, IsPacked, kept, seen, checked, unpacked, opened};

use crate::adler::adler32;
use crate::header::{header_of, refused};
use crate::reason::{Packing, Reason, Refusal};
use byteorder::{BigEndian, ByteOrder, LittleEndian};
use inflate::{InflateError, Inflated, inflate};
use std::alloc::{AllocError, Global};
use zip_archive::crc32;

/// How many bytes stand behind the stream.
pub fn end_size(packing: Packing) -> usize
    ensures { result ≡ end_size packing }
{
    match packing {
        Packing::Gzip => 8,
        Packing::Zlib => 4,
    }
}

/// Whether this checksum is told.
fn has_checksum(packing: Packing, end: &[u8], content: &[u8]) -> bool
    requires { length end.now ≡ end_size packing }
    ensures { result ≡ has_checksum packing end.now content.now }
{
    match packing {
        Packing::Gzip => LittleEndian::read_u32(end) == crc32(content),
        Packing::Zlib => BigEndian::read_u32(end) == adler32(content),
    }
}

/// Whether this number of bytes is told.
fn has_size(packing: Packing, end: &[u8], content: &[u8]) -> bool
    requires { length end.now ≡ end_size packing }
    ensures { result ≡ has_size packing end.now content.now }
{
    match packing {
        Packing::Gzip => {
            LittleEndian::read_u32(&end[4..]) as usize == content.len() % 4_294_967_296
        }
        Packing::Zlib => true,
    }
}

/// Why what is behind a stream is not its end, if it is not.
#[tactic(auto, unfolding(crate::specs::Packed::checked))]
fn wrong_end(packing: Packing, bytes: &[u8], behind: &[u8], content: &[u8]) -> Option<Refusal>
    requires { length behind.now ≤ length bytes.now }
    ensures { checked packing bytes.now behind.now content.now ≡ kept content.now result }
{
    if behind.len() < end_size(packing) {
        return Some(refused(Reason::End, bytes.len()));
    }
    let place = bytes.len() - behind.len();
    if end_size(packing) < behind.len() {
        return Some(refused(Reason::Rest, place + end_size(packing)));
    }
    if !has_checksum(packing, behind, content) {
        return Some(refused(Reason::Checksum, place));
    }
    if !has_size(packing, behind, content) {
        return Some(refused(Reason::Size, bytes.len() - 4));
    }
    None
}

/// What a stream stands for, if what is behind it is its end.
fn whole(packing: Packing, bytes: &[u8], rest: &[u8], made: Inflated) -> Result<Vec<u8>, Refusal>
    requires { length rest.now ≤ length bytes.now }
    ensures value { seen result ≡ checked packing bytes.now (drop made.taken rest.now) made.bytes.items }
    ensures same { IfOk result (λ v. vec_len v ≡ vec_len made.bytes) }
{
    let behind = rest.get(made.taken..).unwrap_or_default();
    match wrong_end(packing, bytes, behind, made.bytes.as_slice()) {
        None => Ok(made.bytes),
        Some(refusal) => Err(refusal),
    }
}

/// What stands behind a header of so many bytes.
fn open_behind(
    alloc: Global,
    packing: Packing,
    bytes: &[u8],
    start: usize,
    limit: usize,
) -> Result<Result<Vec<u8>, Refusal>, AllocError>
    requires { start ≤ length bytes.now }
    ensures value { IfOk result (λ r. seen r ≡ unpacked packing bytes.now start (inflated limit (drop start bytes.now))) }
    ensures room { IfOk result (λ r. IfOk r (λ v. vec_len v ≤ limit)) }
{
    let rest = &bytes[start..];
    match inflate(alloc, rest, limit) {
        Ok(made) => Ok(whole(packing, bytes, rest, made)),
        Err(InflateError::Refused(refusal)) => Ok(Err(refused(
            Reason::Stream(refusal.why),
            start + refusal.offset.min(rest.len()),
        ))),
        Err(InflateError::NoMemory) => Err(AllocError),
    }
}

/// What the definition answers.
fn open_within(
    alloc: Global,
    packing: Packing,
    bytes: &[u8],
    limit: usize,
) -> Result<Result<Vec<u8>, Refusal>, AllocError>
    ensures value { IfOk result (λ r. seen r ≡ opened limit packing bytes.now) }
    ensures room { IfOk result (λ r. IfOk r (λ v. vec_len v ≤ limit)) }
{
    match header_of(packing, bytes) {
        Ok(start) => open_behind(alloc, packing, bytes, start, limit),
        Err(refusal) => Ok(Err(refusal)),
    }
}

/// What a packed file opens to, if that is at most so many bytes, or the first rule that the bytes break. It fails only where memory runs out.
pub fn open_packed(
    alloc: Global,
    packing: Packing,
    bytes: &[u8],
    limit: usize,
) -> Result<Result<Vec<u8>, Refusal>, AllocError>
    // What is answered is what the bytes open to, and is within the limit.
    ensures found { IfOk result (λ r. IfOk r (λ v. IsPacked packing bytes.now v.items)) }
    ensures room { IfOk result (λ r. IfOk r (λ v. vec_len v ≤ limit)) }

    // What they open to within the limit is answered.
    ensures only { (content : List ℕ) → IsPacked packing bytes.now content → length content ≤ limit → IfOk result (λ r. seen r ≡ Ok content) }

    // Why they are refused, and where.
    ensures exact { IfOk result (λ r. seen r ≡ opened limit packing bytes.now) }
{
    open_within(alloc, packing, bytes, limit)
}
