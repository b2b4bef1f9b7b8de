//! A sink on trial.

ghost use Rattle.std.specs.Prelude.{◌≡◌, ◌+◌, ◌<◌, ◌≤◌, [], length, take, min, IfOk, IsErr, OnOk, OnErr};
ghost use Rattle.pickle_io.specs.Device.{Wrote, Broke};

use pickle_io::{Failed, Sink};
use std::alloc::Global;

/// A sink that keeps its bytes in memory, for trials of what is written to it: it takes at most this many bytes a call,
/// answers this many calls, and fails at each later one, or where it finds no room for the bytes. Once it has failed, it
/// fails for good.
#[derive(Drop)]
pub struct Sip {
    taken: Vec<u8>,
    most: usize,
    calls: u64,
    failures: u64,
    ghost some: { 0 < most },
}

impl Sip {
    ghost use Rattle.test_equipment.specs.Trial.{sip_taken, sip_most, sip_calls, sip_failures};

    /// The sink that has taken nothing, takes at most `most` bytes a call, and fails once it has answered `calls` calls.
    pub fn new(alloc: Global, most: usize, calls: u64) -> Sip
        requires { 0 < most }
        ensures taken { sip_taken result ≡ [] }
        ensures most { sip_most result ≡ most }
        ensures calls { sip_calls result ≡ calls }
        ensures failures { sip_failures result ≡ 0 }
    {
        Sip {
            taken: Vec::new(alloc),
            most,
            calls,
            failures: 0,
        }
    }

    /// The bytes that it has taken.
    pub fn taken(&self) -> &[u8]
        ensures { result.now ≡ sip_taken self.now }
    {
        self.taken.as_slice()
    }

    /// How often it has failed.
    pub fn failures(&self) -> u64
        ensures { result ≡ sip_failures self.now }
    {
        self.failures
    }
}

impl Sink for Sip {
    ghost use Rattle.test_equipment.specs.Trial.{sip_told, sip_most, sip_calls};

    ghost told = { λ s. sip_told s };

    fn write(&mut self, bytes: &[u8]) -> Result<usize, Failed>
        ensures within { IfOk result (λ n. n ≤ length bytes.now) }
        ensures some { IfOk result (λ n. 0 < length bytes.now → 0 < n) }
        ensures ok { IfOk result (λ n. Wrote (sip_told self.old) (sip_told self.new) (take n bytes.now)) }
        ensures err { OnErr result (Broke (sip_told self.old) (sip_told self.new) []) }

        // As many bytes as there are, up to the most, are taken at each call that is not to fail; after a failure each
        // later call fails.
        ensures count { IfOk result (λ n. n ≡ min (sip_most self.old) (length bytes.now)) }
        ensures most { sip_most self.new ≡ sip_most self.old }
        ensures calls { OnOk result (sip_calls self.new + 1 ≡ sip_calls self.old) }
        ensures fails { sip_calls self.old ≡ 0 → IsErr result }
        ensures broken { OnErr result (sip_calls self.new ≡ 0) }
    {
        let n = self.most.min(bytes.len());
        if self.calls == 0 || self.taken.extend_from_slice(&bytes[..n]).is_err() {
            self.calls = 0;
            self.failures = self.failures.saturating_add(1);
            return Err(Failed);
        }
        self.calls -= 1;
        Ok(n)
    }

    fn flush(&mut self) -> Result<(), Failed> {
        Ok(())
    }
}
