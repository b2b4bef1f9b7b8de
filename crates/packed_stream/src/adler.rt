//! The checksum of zlib.

ghost use Rattle.std.specs.Prelude.{◌≡◌, ◌<◌};
ghost use Rattle.std.specs.List.{fold};
ghost use Rattle.packed_stream.specs.Adler.{sums_behind, adler32};

/// Both sums are counted up to this number, the largest prime below 65,536.
const BASE: u32 = 65_521;

/// Both sums behind a byte.
#[inline(always)]
#[tactic(auto, unfolding(crate::specs::Adler::sums_behind))]
fn sums_behind(sums: (u32, u32), byte: u8) -> (u32, u32)
    requires { (sums.0 < 65521) × (sums.1 < 65521) }
    ensures value { result ≡ sums_behind sums byte }
    ensures small { (result.0 < 65521) × (result.1 < 65521) }
{
    let low = (sums.0 + u32::from(byte)) % BASE;
    (low, (sums.1 + low) % BASE)
}

/// Both sums of some bytes.
fn sums(bytes: &[u8]) -> (u32, u32)
    ensures value { result ≡ fold sums_behind (1, 0) bytes.now }
    ensures small { (result.0 < 65521) × (result.1 < 65521) }
{
    let mut sums = (1, 0);
    for byte in bytes {
        sums = sums_behind(sums, *byte);
    }
    sums
}

/// The checksum of some bytes.
pub(crate) fn adler32(bytes: &[u8]) -> u32
    ensures { result ≡ adler32 bytes.now }
{
    let (low, high) = sums(bytes);
    high * 65_536 + low
}
