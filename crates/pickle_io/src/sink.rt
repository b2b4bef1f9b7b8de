//! Where texts go.

ghost use Rattle.std.specs.Prelude.{◌≡◌, ◌<◌, ◌≤◌, [], length, take, IfOk, OnOk, OnErr};
ghost use Rattle.pickle_io.specs.Device.{Told, Wrote, Broke, Writes};

/// A device failed.
#[derive(Clone, Copy, Debug, PartialEq, Eq)]
pub struct Failed;

/// What takes bytes, as a file or a terminal does.
pub trait Sink {
    // The bytes that it has taken, where it reports them, how many of them it has not yet handed on to whom it writes for, and how often
    // it has failed. That count may stop at 18,446,744,073,709,551,615.
    ghost told: { Self → Told };

    /// Takes a beginning of the bytes, at least one where one is offered, and answers how many. After a failure it has
    /// taken nothing of them, or it no longer reports what it has taken.
    fn write(&mut self, bytes: &[u8]) -> Result<usize, Failed>
        ensures within { IfOk result (λ n. n ≤ length bytes.now) }
        ensures some { IfOk result (λ n. 0 < length bytes.now → 0 < n) }
        ensures ok { IfOk result (λ n. Wrote (told self.old) (told self.new) (take n bytes.now)) }
        ensures err { OnErr result (Broke (told self.old) (told self.new) []) };

    /// Hands on what it has taken and still holds, to whom it writes for. `Failed` where that fails: what was not handed on it
    /// may still hold, or have lost.
    fn flush(&mut self) -> Result<(), Failed>
        ensures writes { Writes (told self.old) (told self.new) result [] }
        ensures handed { OnOk result ((told self.new).held ≡ 0) };
}

/// Writes all of the text; after a failure a beginning of it was written, and the sink is not called again.
#[tactic(auto, using(crate::proofs::Devices::device_steps))]
pub fn write_all<S: Sink>(sink: &mut S, text: &[u8]) -> Result<(), Failed>
    ensures { Writes (S.told sink.old) (S.told sink.new) result text.now }
{
    let mut rest = text;
    while !rest.is_empty() {
        let n = sink.write(rest)?;
        rest = &rest[n..];
    }
    Ok(())
}
