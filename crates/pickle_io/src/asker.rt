//! Who asks, and reads the answers.

ghost use Rattle.std.specs.Prelude.{◌≡◌, ℕ, ◌+◌, ◌<◌, ◌≤◌, List, length, take, Option, IfOk, OnOk, OnErr};
ghost use Rattle.std.specs.Io.KnownBytes.{Consumes, IsAtEnd};
ghost use Rattle.pickle_io.specs.Device.{KeepsOrForgets, HasFailed};

use crate::page::Page;
use crate::sink::Failed;
use crate::source::Source;

/// Who asks, and reads the answers from a page. More is read only once the page holds nothing back, so that no answer waits for a question.
/// Each source is one, over any page.
pub trait Asker<K: Page> {
    // The bytes that are yet to come, where they are reported. None are left once the end was said.
    ghost remaining: { Self → Option (List ℕ) };

    // How often reading has failed. The count may stop at 18,446,744,073,709,551,615.
    ghost failures: { Self → ℕ };

    // How many reads may still give a byte, so that a loop over reads ends.
    ghost turns: { Self → ℕ };

    /// Fills a beginning of the buffer with the bytes that come next, as `Source::read` does, once this page has handed on all that it took.
    fn read_after(&mut self, page: &K, buffer: &mut [u8]) -> Result<usize, Failed>
        requires { (K.told page.now).held ≡ 0 }
        ensures within { IfOk result (λ n. n ≤ length buffer.new) }
        ensures given { IfOk result (λ n. Consumes (remaining self.old) (remaining self.new) (take n buffer.new)) }
        ensures end { IfOk result (λ n. n ≡ 0 → 0 < length buffer.new → IsAtEnd (remaining self.new)) }
        ensures turns { IfOk result (λ n. 0 < n → turns self.new + 1 ≡ turns self.old) }
        ensures kept { OnErr result (KeepsOrForgets (remaining self.old) (remaining self.new)) }
        ensures calm { OnOk result (failures self.new ≡ failures self.old) }
        ensures rises { failures self.old ≤ failures self.new }
        ensures failed { OnErr result (HasFailed (failures self.old) (failures self.new)) };
}

impl<S: Source, K: Page> Asker<K> for S {
    ghost remaining = { λ s. S.Source.remaining s };

    ghost failures = { λ s. S.Source.failures s };

    ghost turns = { λ s. S.Source.turns s };

    fn read_after(&mut self, _page: &K, buffer: &mut [u8]) -> Result<usize, Failed> {
        self.read(buffer)
    }
}
