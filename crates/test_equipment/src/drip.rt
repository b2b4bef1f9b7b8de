//! A source on trial.

ghost use Rattle.std.specs.Prelude.{◌≡◌, ◌+◌, ◌<◌, ◌≤◌, ◌↔◌, length, take, min, Some, IfOk, IsErr, OnOk, OnErr};
ghost use Rattle.std.specs.Io.KnownBytes.{Consumes, IsAtEnd};
ghost use Rattle.pickle_io.specs.Device.{KeepsOrForgets, HasFailed};

use pickle_io::{Failed, Source};

/// A source over bytes in memory, for trials of what is read from it: it gives at most this many bytes a call, answers
/// this many calls, and fails at each later one, for good.
#[derive(Drop)]
pub struct Drip<'a> {
    rest: &'a [u8],
    most: usize,
    calls: u64,
    failures: u64,
    ghost some: { 0 < most },
}

impl<'a> Drip<'a> {
    ghost use Rattle.test_equipment.specs.Trial.{drip_rest, drip_most, drip_calls, drip_failures};

    /// The source that gives these bytes, at most `most` a call, and fails once it has answered `calls` calls.
    pub fn new(bytes: &'a [u8], most: usize, calls: u64) -> Drip<'a>
        requires { 0 < most }
        ensures rest { drip_rest result ≡ bytes.now }
        ensures most { drip_most result ≡ most }
        ensures calls { drip_calls result ≡ calls }
        ensures failures { drip_failures result ≡ 0 }
    {
        Drip {
            rest: bytes,
            most,
            calls,
            failures: 0,
        }
    }

    /// How often it has failed.
    pub fn failures(&self) -> u64
        ensures { result ≡ drip_failures self.now }
    {
        self.failures
    }
}

impl<'a> Source for Drip<'a> {
    ghost use Rattle.test_equipment.specs.Trial.{drip_rest, drip_most, drip_calls, drip_failures};

    ghost remaining = { λ d. Some (drip_rest d) };

    ghost failures = { λ d. drip_failures d };

    ghost turns = { λ d. drip_calls d };

    fn read(&mut self, buffer: &mut [u8]) -> Result<usize, Failed>
        ensures within { IfOk result (λ n. n ≤ length buffer.new) }
        ensures given { IfOk result (λ n. Consumes (Some (drip_rest self.old)) (Some (drip_rest self.new)) (take n buffer.new)) }
        ensures end { IfOk result (λ n. n ≡ 0 → 0 < length buffer.new → IsAtEnd (Some (drip_rest self.new))) }
        ensures turns { IfOk result (λ n. 0 < n → drip_calls self.new + 1 ≡ drip_calls self.old) }
        ensures kept { OnErr result (KeepsOrForgets (Some (drip_rest self.old)) (Some (drip_rest self.new))) }
        ensures calm { OnOk result (drip_failures self.new ≡ drip_failures self.old) }
        ensures rises { drip_failures self.old ≤ drip_failures self.new }
        ensures failed { OnErr result (HasFailed (drip_failures self.old) (drip_failures self.new)) }

        // As many bytes as there are, up to the most, are given at each call that is not to fail; after a failure each
        // later call fails.
        ensures count { IfOk result (λ n. n ≡ min (drip_most self.old) (min (length (drip_rest self.old)) (length buffer.old))) }
        ensures most { drip_most self.new ≡ drip_most self.old }
        ensures fails { IsErr result ↔ (drip_calls self.old ≡ 0) }
        ensures calls { OnOk result (drip_calls self.new + 1 ≡ drip_calls self.old) }
        ensures broken { OnErr result (drip_calls self.new ≡ 0) }
    {
        if self.calls == 0 {
            self.failures = self.failures.saturating_add(1);
            return Err(Failed);
        }
        self.calls -= 1;
        let n = self.most.min(self.rest.len().min(buffer.len()));
        let (front, rest) = self.rest.split_at(n);
        buffer[..n].copy_from_slice(front);
        self.rest = rest;
        Ok(n)
    }
}
