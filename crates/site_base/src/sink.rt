// Where bytes go.
ghost use Rattle.std.specs.Prelude.{◌≡◌, ◌+◌, ◌-◌, ◌^◌, min, ℕ, List, [], Option, Some};
ghost use Rattle.site_base.specs.Ends.{HasCause, Takes, FailsAsListed};

use crate::Failed;
use std::alloc::Global;
use std::marker::Model;

/// Where bytes go.
pub trait ByteSink {
    /// The bytes taken, where it tells them.
    ghost taken: { Self → Option (List ℕ) };

    /// How often it has failed.
    ghost failures: { Self → ℕ };

    /// Takes all bytes, or fails having taken a front part of them.
    fn write(&mut self, bytes: &[u8]) -> Result<(), Failed>
        ensures taken { Takes (taken self.old) (taken self.new) bytes.now result }
        ensures cause { HasCause (failures self.old) (failures self.new) result };
}

/// A sink in memory, which fails at listed calls.
#[derive(Drop)]
pub struct MemorySink {
    bytes: Vec<u8>,
    fail: Vec<u64>,
    calls: u64,
    failures: u64,
    short: u64,
}

impl Model for MemorySink {
    ghost use Rattle.site_base.specs.Ends.{SinkState};

    ghost Value = { SinkState };

    ghost view = { λ sink. record {
      taken = sink.bytes.items;
      fail = sink.fail.items;
      calls = sink.calls;
      failures = sink.failures;
      short = sink.short;
    } };
}

impl MemorySink {
    /// A sink that has taken nothing, and fails at the calls of these numbers, counted from 1.
    pub fn new(alloc: Global, fail: Vec<u64>) -> MemorySink
        ensures { result ≡ record { taken = []; fail = fail.items; calls = 0; failures = 0; short = 0 } }
    {
        MemorySink {
            bytes: Vec::new(alloc),
            fail,
            calls: 0,
            failures: 0,
            short: 0,
        }
    }

    /// The bytes taken so far.
    pub fn bytes(&self) -> &[u8]
        ensures { result.now ≡ self.now.taken }
    {
        &self.bytes
    }

    /// How often a call failed for want of memory.
    pub fn short(&self) -> u64
        ensures { result ≡ self.now.short }
    {
        self.short
    }
}

impl ByteSink for MemorySink {
    ghost taken = { λ sink. Some sink.taken };

    ghost failures = { λ sink. sink.failures };

    fn write(&mut self, bytes: &[u8]) -> Result<(), Failed>
        ensures taken { Takes (Some self.old.taken) (Some self.new.taken) bytes.now result }
        ensures cause { HasCause self.old.failures self.new.failures result }
        // It fails at the listed calls, and besides only where memory is wanting.
        ensures listed { FailsAsListed self.old.fail (min (self.old.calls + 1) (2 ^ 64 - 1))
            self.old.short self.new.short result }
        ensures calls { self.new.calls ≡ min (self.old.calls + 1) (2 ^ 64 - 1) }
        ensures fail { self.new.fail ≡ self.old.fail }
    {
        self.calls = self.calls.saturating_add(1);
        if self.fail.contains(&self.calls) {
            self.failures = self.failures.saturating_add(1);
            return Err(Failed);
        }
        if self.bytes.extend_from_slice(bytes).is_err() {
            self.short = self.short.saturating_add(1);
            self.failures = self.failures.saturating_add(1);
            return Err(Failed);
        }
        Ok(())
    }
}
