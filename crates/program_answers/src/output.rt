//! What an output still holds when a task ends.

ghost use Rattle.std.specs.Prelude.{◌≡◌, ◌≢◌, [], Err};
ghost use Rattle.pickle_io.specs.Device.{Wrote, Broke};

use pickle_io::Sink;
use pickle_script::Stop;

/// Writes out what the sink holds, also after a stop, and passes the answer on; `Stop::Write` instead of it where that fails. After
/// `Stop::Write` nothing is tried again: a device that has failed is not called again.
pub fn write_out<S: Sink>(sink: &mut S, answer: Result<u8, Stop>) -> Result<u8, Stop>
    ensures passed { result ≢ Err Stop.Write → result ≡ answer }
    ensures handed { result ≢ Err Stop.Write → (S.told sink.new).held ≡ 0 }
    ensures calm { result ≢ Err Stop.Write → Wrote (S.told sink.old) (S.told sink.new) [] }

    // A write that failed is not tried again, and no other one fails without a failure of the sink.
    ensures untouched { answer ≡ Err Stop.Write → sink.new ≡ sink.old }
    ensures failed { result ≡ Err Stop.Write → answer ≢ Err Stop.Write → Broke (S.told sink.old) (S.told sink.new) [] }
{
    if answer == Err(Stop::Write) {
        return answer;
    }
    match sink.flush() {
        Ok(()) => answer,
        Err(_) => Err(Stop::Write),
    }
}
