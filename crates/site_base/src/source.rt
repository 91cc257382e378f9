// Where bytes come from.
ghost use Rattle.std.specs.Prelude.{◌≡◌, ◌+◌, ◌-◌, ◌^◌, ◌≤◌, min, ℕ, List, [], Option, Some, length, drop, take, IfOk, OnErr, IsErr, Contains, ◌↔◌};
ghost use Rattle.site_base.specs.Ends.{HasCause, Gives};

use crate::Failed;
use std::marker::Model;

/// Where bytes come from.
pub trait ByteSource {
    /// The bytes left, where it tells them.
    ghost left: { Self → Option (List ℕ) };

    /// How often it has failed.
    ghost failures: { Self → ℕ };

    /// Moves the next bytes into the front of a slice and answers how many; 0 for a slice that is not empty is
    /// the end.
    fn read(&mut self, into: &mut [u8]) -> Result<usize, Failed>
        ensures bound { IfOk result (λ count. count ≤ length into.new) }
        ensures gives { Gives (left self.old) (left self.new) into.new result }
        // Where it fails, no byte is lost.
        ensures kept { OnErr result (left self.new ≡ left self.old) }
        ensures cause { HasCause (failures self.old) (failures self.new) result };
}

/// An input in memory, which fails at listed calls.
#[derive(Drop)]
pub struct MemoryInput {
    bytes: Vec<u8>,
    place: usize,
    fail: Vec<u64>,
    calls: u64,
    failures: u64,
}

impl Model for MemoryInput {
    ghost use Rattle.std.specs.Prelude.{drop, ◌≤◌, vec_len};
    ghost use Rattle.site_base.specs.Ends.{InputState};

    ghost Value = { InputState };

    ghost view = { λ input. record {
      left = drop input.place input.bytes.items;
      fail = input.fail.items;
      calls = input.calls;
      failures = input.failures;
    } };

    ghost invariant = { λ input. input.place ≤ vec_len input.bytes };
}

impl MemoryInput {
    /// An input of these bytes, which fails at the calls of these numbers, counted from 1.
    pub fn new(bytes: Vec<u8>, fail: Vec<u64>) -> MemoryInput
        ensures { result ≡ record { left = bytes.items; fail = fail.items; calls = 0; failures = 0 } }
    {
        MemoryInput {
            bytes,
            place: 0,
            fail,
            calls: 0,
            failures: 0,
        }
    }

    /// How many bytes are left.
    pub fn len(&self) -> usize
        ensures { result ≡ length self.now.left }
    {
        self.bytes.len() - self.place
    }
}

impl ByteSource for MemoryInput {
    ghost left = { λ input. Some input.left };

    ghost failures = { λ input. input.failures };

    fn read(&mut self, into: &mut [u8]) -> Result<usize, Failed>
        ensures bound { IfOk result (λ count. count ≤ length into.new) }
        ensures gives { Gives (Some self.old.left) (Some self.new.left) into.new result }
        ensures kept { OnErr result (Some self.new.left ≡ Some self.old.left) }
        ensures cause { HasCause self.old.failures self.new.failures result }
        ensures listed { IsErr result ↔ Contains self.old.fail (min (self.old.calls + 1) (2 ^ 64 - 1)) }
        ensures calls { self.new.calls ≡ min (self.old.calls + 1) (2 ^ 64 - 1) }
        ensures fail { self.new.fail ≡ self.old.fail }
    {
        self.calls = self.calls.saturating_add(1);
        if self.fail.contains(&self.calls) {
            self.failures = self.failures.saturating_add(1);
            return Err(Failed);
        }
        let rest = &self.bytes[self.place..];
        let count = into.len().min(rest.len());
        into[..count].copy_from_slice(&rest[..count]);
        self.place = self.place + count;
        Ok(count)
    }
}
