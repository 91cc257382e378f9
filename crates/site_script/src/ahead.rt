// Bytes that are read ahead.
ghost use Rattle.std.specs.Prelude.{◌≡◌, ◌==◌, [], length, take, drop, min};

use std::io;
use std::io::Read;
use std::marker::Model;

const BLOCK: usize = 8192;

/// Bytes that were read and not given yet, which clauses see as their list.
#[derive(Drop)]
pub(crate) struct Ahead {
    block: [u8; BLOCK],
    start: usize,
    end: usize,
}

impl Model for Ahead {
    ghost use Rattle.std.specs.Prelude.{List, ℕ, ◌-◌, ◌≤◌, take, drop};

    ghost Value = { List ℕ };

    ghost view = { λ ahead. take (ahead.end - ahead.start) (drop ahead.start ahead.block) };

    ghost invariant = { λ ahead. (ahead.start ≤ ahead.end) × (ahead.end ≤ 8192) };
}

impl Ahead {
    pub(crate) fn new() -> Ahead
        ensures { result ≡ [] }
    {
        Ahead {
            block: [0; BLOCK],
            start: 0,
            end: 0,
        }
    }

    pub(crate) fn is_empty(&self) -> bool
        ensures { result ≡ (length self.now == 0) }
    {
        self.start == self.end
    }

    /// Reads a block in place of what is there.
    pub(crate) fn fill(&mut self, reader: &mut impl Read) -> io::Result<()> {
        self.end = reader.read(&mut self.block)?;
        self.start = 0;
        Ok(())
    }

    /// Moves the first bytes into the front of a slice and answers how many: as many as there are, and as fit.
    pub(crate) fn give(&mut self, into: &mut [u8]) -> usize
        ensures count { result ≡ min (length into.old) (length self.old) }
        ensures given { take result into.new ≡ take result self.old }
        ensures left { self.new ≡ drop result self.old }
    {
        let count = into.len().min(self.end - self.start);
        into[..count].copy_from_slice(&self.block[self.start..self.start + count]);
        self.start = self.start + count;
        count
    }
}
