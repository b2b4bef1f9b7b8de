//! A source, read whole.

ghost use Rattle.std.specs.Prelude.{◌≡◌, ◌≢◌, ◌≤◌, ◌<◌, ◌+◌, IfOk, IfErr};
ghost use Rattle.pickle_io.specs.Device.{HasFailed};
ghost use Rattle.pickle_io.specs.Whole.{IsWhole, StopsSo};

use crate::source::Source;
use std::alloc::Global;

/// The most bytes that are read at once.
const BLOCK: usize = 65_536;

/// Why a source was not read whole.
#[derive(Clone, Copy, Debug, PartialEq, Eq)]
pub enum ReadStop {
    /// A read failed.
    Failed,
    /// There are more bytes than the limit.
    TooLarge,
    /// There was no memory for the bytes.
    Memory,
}

/// All bytes that the source has yet to give, where these are no more than the limit; the source is then at its end.
///
/// `TooLarge` comes only where there are more, also where their number is not known before: of these one more than the limit
/// is read, and these bytes are lost. `Failed` comes only where a read failed, and `Memory` only where a byte was read and
/// there is no room for it; the bytes that were read so far, which are no more than the limit, are then lost too. A source
/// gives a byte only so often as it has turns: a source without turns that is not at its end fails, as `FromRead` does once
/// 18,446,744,073,709,551,615 reads have given a byte.
pub fn read_limited<S: Source>(
    alloc: Global,
    source: &mut S,
    limit: usize,
) -> Result<Vec<u8>, ReadStop>
    ensures whole { IfOk result (λ bytes. IsWhole (S.remaining source.old) (S.remaining source.new) limit bytes.items) }
    ensures stopped { IfErr result (StopsSo (S.remaining source.old) (S.remaining source.new) limit) }

    // The source fails just where `Failed` is answered.
    ensures calm { result ≢ Err ReadStop.Failed → S.failures source.new ≡ S.failures source.old }
    ensures rises { S.failures source.old ≤ S.failures source.new }
    ensures failed { result ≡ Err ReadStop.Failed → HasFailed (S.failures source.old) (S.failures source.new) }
{
    let mut bytes = Vec::new(alloc);
    let mut block = [0u8; BLOCK];
    'reads: loop {
        // One byte more than there is room for shows that there are too many.
        let room = limit - bytes.len();
        let most = room.min(BLOCK - 1) + 1;
        let Ok(count) = source.read(&mut block[..most]) else {
            return Err(ReadStop::Failed);
        };
        if count == 0 {
            return Ok(bytes);
        }
        if count > room {
            return Err(ReadStop::TooLarge);
        }
        if bytes.extend_from_slice(&block[..count]).is_err() {
            return Err(ReadStop::Memory);
        }
    }
}
