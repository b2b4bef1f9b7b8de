//! A writer of the standard library as a sink.

ghost use Rattle.std.specs.Prelude.{◌≡◌, ◌≢◌, ◌≤◌, IfErr};
ghost use Rattle.std.specs.IoError.{error_kind};
ghost use Rattle.std.specs.Io.{WritesAtMost};
ghost use Rattle.std.specs.Io.KnownBytes.{WriteAppends};
ghost use Rattle.pickle_io.specs.Device.{HasFailed};
ghost use Rattle.pickle_io.specs.Wrapped.{writer_of, write_failures_of};

use crate::sink::{Failed, Sink};
use std::io;
use std::io::{Error, ErrorKind, Write};

/// One write, made again where a signal interrupted it.
fn write_again<W: Write>(writer: &mut W, bytes: &[u8]) -> io::Result<usize>
    ensures bound { WritesAtMost result bytes.now }
    ensures bytes { WriteAppends (W.contents writer.old) (W.contents writer.new) result bytes.now }
    ensures again { IfErr result (λ e. error_kind e ≢ ErrorKind.Interrupted) }
{
    for _ in 0..u64::MAX {
        match writer.write(bytes) {
            Err(error) if error.kind() == ErrorKind::Interrupted => {}
            written => return written,
        }
    }
    Err(Error::from(ErrorKind::Other))
}

/// A writer of the standard library as a sink. Each error of the writer counts as a failure, but for a write that a signal
/// interrupted, which is made again; and so does a write of nothing where bytes were offered.
#[derive(Drop)]
pub struct ToWrite<W> {
    writer: W,
    failures: u64,
}

impl<W> ToWrite<W> {
    /// The sink that writes to this writer, and has not failed.
    pub fn new(writer: W) -> ToWrite<W>
        ensures writer { writer_of result ≡ writer }
        ensures failures { write_failures_of result ≡ 0 }
    {
        ToWrite {
            writer,
            failures: 0,
        }
    }

    /// The writer.
    pub fn into_inner(self) -> W
        ensures { result ≡ writer_of self }
    {
        let ToWrite {
            writer,
            failures: _,
        } = self;
        writer
    }

    /// Counts a failure of the writer.
    fn fail(&mut self) -> Failed
        ensures writer { writer_of self.new ≡ writer_of self.old }
        ensures rises { write_failures_of self.old ≤ write_failures_of self.new }
        ensures failed { HasFailed (write_failures_of self.old) (write_failures_of self.new) }
    {
        self.failures = self.failures.saturating_add(1);
        Failed
    }
}

impl<W: Write> Sink for ToWrite<W> {
    ghost told = { λ s. record { taken = W.contents (writer_of s); held = 0; failures = write_failures_of s } };

    fn write(&mut self, bytes: &[u8]) -> Result<usize, Failed> {
        match write_again(&mut self.writer, bytes) {
            Ok(n) if n > 0 || bytes.is_empty() => Ok(n),
            _ => Err(self.fail()),
        }
    }

    fn flush(&mut self) -> Result<(), Failed> {
        match self.writer.flush() {
            Ok(()) => Ok(()),
            Err(_) => Err(self.fail()),
        }
    }
}
