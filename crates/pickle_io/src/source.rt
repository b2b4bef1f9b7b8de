//! Where bytes come from.

ghost use Rattle.std.specs.Prelude.{ℕ, ◌+◌, ◌<◌, ◌≤◌, ◌≡◌, List, length, take, Option, IfOk, OnOk, OnErr};
ghost use Rattle.std.specs.Io.KnownBytes.{Consumes, IsAtEnd};
ghost use Rattle.pickle_io.specs.Device.{KeepsOrForgets, HasFailed};

use crate::sink::Failed;

/// What gives bytes, as a file or a terminal does.
pub trait Source {
    // The bytes that it has yet to give, where it reports them. None are left once it has said its end.
    ghost remaining: { Self → Option (List ℕ) };

    // How often it has failed. The count may stop at 18,446,744,073,709,551,615.
    ghost failures: { Self → ℕ };

    // How many reads may still give a byte, so that a loop over reads ends.
    ghost turns: { Self → ℕ };

    /// Fills a beginning of the buffer with the next bytes, and answers how many these are. None, where the buffer is not
    /// empty, is the end. After a failure it has given none of them, or it no longer reports what it has yet to give.
    fn read(&mut self, buffer: &mut [u8]) -> Result<usize, Failed>
        ensures within { IfOk result (λ n. n ≤ length buffer.new) }
        ensures given { IfOk result (λ n. Consumes (remaining self.old) (remaining self.new) (take n buffer.new)) }
        ensures end { IfOk result (λ n. n ≡ 0 → 0 < length buffer.new → IsAtEnd (remaining self.new)) }
        ensures turns { IfOk result (λ n. 0 < n → turns self.new + 1 ≡ turns self.old) }
        ensures kept { OnErr result (KeepsOrForgets (remaining self.old) (remaining self.new)) }
        ensures calm { OnOk result (failures self.new ≡ failures self.old) }
        ensures rises { failures self.old ≤ failures self.new }
        ensures failed { OnErr result (HasFailed (failures self.old) (failures self.new)) };
}
