// Standard input as a source of bytes.
ghost use Rattle.std.specs.Prelude.{◌≡◌, None};

use crate::ahead::Ahead;
use crate::waiting::wait_a_moment;
use site_base::{ByteSource, Failed};
use std::io;
use std::io::ErrorKind;
use std::marker::Model;
use std::rt::Clock;

/// Standard input, read in blocks. It tells nothing of its bytes.
#[derive(Drop)]
pub struct StdInput<R: Input + Clock + Drop> {
    rt: R,
    ahead: Ahead,
    failures: u64,
}

impl<R: Input + Clock + Drop> Model for StdInput<R> {
    ghost use Rattle.std.specs.Prelude.{ℕ};

    ghost Value = { ℕ };

    ghost view = { λ input. input.failures };
}

impl<R: Input + Clock + Drop> StdInput<R> {
    /// The whole of standard input, of which nothing is read yet, so that it has never failed.
    pub fn new(rt: R) -> StdInput<R>
        ensures { result ≡ 0 }
    {
        StdInput {
            rt,
            ahead: Ahead::new(),
            failures: 0,
        }
    }
}

impl<R: Input + Clock + Drop> ByteSource for StdInput<R> {
    ghost left = { λ input. None };

    ghost failures = { λ input. input };

    fn read(&mut self, into: &mut [u8]) -> Result<usize, Failed> {
        if self.ahead.is_empty() && read_block(&self.rt, &mut self.ahead).is_err() {
            self.failures = self.failures.saturating_add(1);
            return Err(Failed);
        }
        Ok(self.ahead.give(into))
    }
}

// Reads a block, and waits for it where the stream itself does not.
fn read_block<R: Input + Clock>(rt: &R, ahead: &mut Ahead) -> io::Result<()> {
    for _ in 0..u64::MAX {
        match ahead.fill(&mut rt.reader()) {
            Err(error) if error.kind() == ErrorKind::WouldBlock => wait_a_moment(rt),
            done => return done,
        }
    }
    Err(io::Error::from(ErrorKind::TimedOut))
}
