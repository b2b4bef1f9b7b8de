//! A reader of the standard library as a source.

ghost use Rattle.std.specs.Prelude.{◌≡◌, ◌≢◌, ◌+◌, ◌<◌, ◌≤◌, length, take, IfOk, IfErr, IsErr, OnOk, OnErr};
ghost use Rattle.std.specs.IoError.{error_kind};
ghost use Rattle.std.specs.Io.{ReadsAtMost};
ghost use Rattle.std.specs.Io.KnownBytes.{Consumes, IsAtEnd, ReadConsumes};
ghost use Rattle.pickle_io.specs.Device.{KeepsOrForgets, HasFailed};
ghost use Rattle.pickle_io.specs.Wrapped.{reader_of, read_failures_of, turns_of, first_turns};

use crate::sink::Failed;
use crate::source::Source;
use std::io;
use std::io::{Error, ErrorKind, Read};

/// One read, made again where a signal interrupted it.
fn read_again<R: Read>(reader: &mut R, buffer: &mut [u8]) -> io::Result<usize>
    ensures bound { ReadsAtMost result buffer.new }
    ensures bytes { ReadConsumes (R.remaining reader.old) (R.remaining reader.new) result buffer.new }
    ensures again { IfErr result (λ e. error_kind e ≢ ErrorKind.Interrupted) }
{
    for _ in 0..u64::MAX {
        match reader.read(buffer) {
            Err(error) if error.kind() == ErrorKind::Interrupted => {}
            given => return given,
        }
    }
    Err(Error::from(ErrorKind::Other))
}

/// A reader of the standard library as a source. Each error of the reader counts as a failure, but for a read that a signal interrupted,
/// which is made again. So that it ends, it fails too once 18,446,744,073,709,551,615 reads have given a byte.
#[derive(Drop)]
pub struct FromRead<R> {
    reader: R,
    turns: u64,
    failures: u64,
}

impl<R> FromRead<R> {
    /// The source that reads from this reader, and has not failed.
    pub fn new(reader: R) -> FromRead<R>
        ensures reader { reader_of result ≡ reader }
        ensures turns { turns_of result ≡ first_turns }
        ensures failures { read_failures_of result ≡ 0 }
    {
        FromRead {
            reader,
            turns: u64::MAX,
            failures: 0,
        }
    }
}

impl<R: Read> Source for FromRead<R> {
    ghost remaining = { λ s. R.remaining (reader_of s) };

    ghost failures = { λ s. read_failures_of s };

    ghost turns = { λ s. turns_of s };

    fn read(&mut self, buffer: &mut [u8]) -> Result<usize, Failed>
        ensures within { IfOk result (λ n. n ≤ length buffer.new) }
        ensures given { IfOk result (λ n. Consumes (R.remaining (reader_of self.old)) (R.remaining (reader_of self.new)) (take n buffer.new)) }
        ensures end { IfOk result (λ n. n ≡ 0 → 0 < length buffer.new → IsAtEnd (R.remaining (reader_of self.new))) }
        ensures kept { OnErr result (KeepsOrForgets (R.remaining (reader_of self.old)) (R.remaining (reader_of self.new))) }
        ensures calm { OnOk result (read_failures_of self.new ≡ read_failures_of self.old) }
        ensures rises { read_failures_of self.old ≤ read_failures_of self.new }
        ensures failed { OnErr result (HasFailed (read_failures_of self.old) (read_failures_of self.new)) }

        // Each read that gives a byte is a turn, no other is, and without a turn it fails.
        ensures turns { IfOk result (λ n. 0 < n → turns_of self.new + 1 ≡ turns_of self.old) }
        ensures idle { IfOk result (λ n. n ≡ 0 → turns_of self.new ≡ turns_of self.old) }
        ensures unused { OnErr result (turns_of self.new ≡ turns_of self.old) }
        ensures spent { turns_of self.old ≡ 0 → IsErr result }
    {
        if self.turns > 0 {
            if let Ok(n) = read_again(&mut self.reader, buffer) {
                if n > 0 {
                    self.turns -= 1;
                }
                return Ok(n);
            }
        }
        self.failures = self.failures.saturating_add(1);
        Err(Failed)
    }
}
