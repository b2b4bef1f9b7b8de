//! How packed files begin.

ghost use Rattle.std.specs.Prelude.{◌≡◌, ◌≤◌, ◌+◌, ◌<◌, length, drop, get_or, IfOk, IfSome};
ghost use Rattle.packed_stream.specs.Header.{refusal_at, begins_as_gzip, name_size, behind_name, gzip_header, are_zlib, begins_as_zlib, zlib_header, tells_zlib, are_turned, begins_block, may_be_zlib, header_of, packing_of};

use crate::reason::{Packing, Reason, Refusal};

/// What gzip begins with.
const GZIP: &[u8] = b"\x1f\x8b";

/// Refused at a place.
pub(crate) fn refused(why: Reason, offset: usize) -> Refusal
    ensures { result ≡ refusal_at why offset }
{
    Refusal { why, offset }
}

/// How many bytes a name has, with the zero that ends it, if one does.
#[tactic(auto, unfolding(crate::specs::Header::name_size))]
fn name_size(bytes: &[u8]) -> Option<usize>
    ensures value { result ≡ name_size bytes.now }
    ensures inside { IfSome result (λ size. size ≤ length bytes.now) }
{
    for place in 0..bytes.len() {
        if bytes[place] == 0 {
            return Some(place + 1);
        }
    }
    None
}

/// How many bytes the header has, where it has a name.
fn named_header(bytes: &[u8]) -> Result<usize, Refusal>
    requires { 10 ≤ length bytes.now }
    ensures value { result ≡ behind_name bytes.now (name_size (drop 10 bytes.now)) }
    ensures inside { IfOk result (λ start. start ≤ length bytes.now) }
{
    match name_size(&bytes[10..]) {
        Some(size) => Ok(10 + size),
        None => Err(refused(Reason::Cut, bytes.len())),
    }
}

/// Whether bytes begin as gzip does.
fn begins_as_gzip(bytes: &[u8]) -> bool
    ensures { result ≡ begins_as_gzip bytes.now }
{
    bytes.starts_with(GZIP)
}

/// How many bytes the header of gzip has.
#[tactic(auto, unfolding(crate::specs::Header::gzip_header))]
fn gzip_header(bytes: &[u8]) -> Result<usize, Refusal>
    ensures value { result ≡ gzip_header bytes.now }
    ensures inside { IfOk result (λ start. start ≤ length bytes.now) }
{
    if bytes.len() < 10 {
        return Err(refused(Reason::Cut, bytes.len()));
    }
    if !(begins_as_gzip(bytes) && bytes[2] == 8) {
        return Err(refused(Reason::Header, 0));
    }
    match bytes[3] {
        0 => Ok(10),
        8 => named_header(bytes),
        _ => Err(refused(Reason::Flags, 3)),
    }
}

/// Whether two bytes are the header of zlib.
fn are_zlib(cmf: u32, flg: u32) -> bool
    requires { (cmf < 256) × (flg < 256) }
    ensures { result ≡ are_zlib cmf flg }
{
    cmf == 120 && (flg / 32) % 2 == 0 && (cmf * 256 + flg) % 31 == 0
}

/// The byte at a place, or 0.
fn byte_at(bytes: &[u8], place: usize) -> u32
    ensures value { result ≡ get_or bytes.now place 0 }
    ensures small { result < 256 }
{
    match bytes.get(place) {
        Some(byte) => u32::from(*byte),
        None => 0,
    }
}

/// Whether bytes begin as zlib does.
fn begins_as_zlib(bytes: &[u8]) -> bool
    ensures { result ≡ begins_as_zlib bytes.now }
{
    are_zlib(byte_at(bytes, 0), byte_at(bytes, 1))
}

/// How many bytes the header of zlib has.
#[tactic(auto, unfolding(crate::specs::Header::zlib_header))]
fn zlib_header(bytes: &[u8]) -> Result<usize, Refusal>
    ensures value { result ≡ zlib_header bytes.now }
    ensures inside { IfOk result (λ start. start ≤ length bytes.now) }
{
    if bytes.len() < 2 {
        return Err(refused(Reason::Cut, bytes.len()));
    }
    if begins_as_zlib(bytes) {
        Ok(2)
    } else {
        Err(refused(Reason::Header, 0))
    }
}

/// Whether two bytes are a header of zlib, with a window of any size and without a dictionary.
fn tells_zlib(cmf: u32, flg: u32) -> bool
    requires { (cmf < 256) × (flg < 256) }
    ensures { result ≡ tells_zlib cmf flg }
{
    cmf < 128 && cmf % 16 == 8 && (flg / 32) % 2 == 0 && (cmf * 256 + flg) % 31 == 0
}

/// Whether each bit of a byte is turned in the second byte behind it.
fn are_turned(bytes: &[u8], place: usize) -> bool
    requires { place < 8 }
    ensures { result ≡ are_turned bytes.now place }
{
    byte_at(bytes, place) + byte_at(bytes, place + 2) == 255
}

/// Whether the first block behind a header may be one of this kind.
fn begins_block(kind: u32, bytes: &[u8]) -> bool
    ensures { result ≡ begins_block kind bytes.now }
{
    if kind == 0 {
        are_turned(bytes, 3) && are_turned(bytes, 4)
    } else {
        kind < 3
    }
}

/// Whether a reader of zlib may unpack something of these bytes, also where its window is a smaller one than that of `Packing::Zlib`: they begin
/// with a header without a dictionary, and a block may follow.
pub fn may_be_zlib(bytes: &[u8]) -> bool
    ensures { result ≡ may_be_zlib bytes.now }
{
    tells_zlib(byte_at(bytes, 0), byte_at(bytes, 1))
        && begins_block((byte_at(bytes, 2) / 2) % 4, bytes)
}

/// How many bytes the header has.
pub fn header_of(packing: Packing, bytes: &[u8]) -> Result<usize, Refusal>
    ensures value { result ≡ header_of packing bytes.now }
    ensures inside { IfOk result (λ start. start ≤ length bytes.now) }
{
    match packing {
        Packing::Gzip => gzip_header(bytes),
        Packing::Zlib => zlib_header(bytes),
    }
}

/// What bytes begin as, if they begin as a packed file does.
pub fn packing_of(bytes: &[u8]) -> Option<Packing>
    ensures { result ≡ packing_of bytes.now }
{
    if begins_as_gzip(bytes) {
        return Some(Packing::Gzip);
    }
    if begins_as_zlib(bytes) {
        Some(Packing::Zlib)
    } else {
        None
    }
}
