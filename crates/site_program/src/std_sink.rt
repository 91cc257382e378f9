// Standard output as a sink.
ghost use Rattle.std.specs.Prelude.{◌≡◌, None};

use site_base::{ByteSink, Failed};
use site_script::wait_a_moment;
use std::io;
use std::io::{ErrorKind, Write};
use std::marker::Model;
use std::rt::Clock;

/// Standard output. It tells nothing of what it took.
#[derive(Drop)]
pub struct StdSink<R: Print + Clock + Clone + Drop> {
    rt: R,
    failures: u64,
}

impl<R: Print + Clock + Clone + Drop> Model for StdSink<R> {
    ghost use Rattle.std.specs.Prelude.{ℕ};

    ghost Value = { ℕ };

    ghost view = { λ sink. sink.failures };
}

impl<R: Print + Clock + Clone + Drop> StdSink<R> {
    /// Standard output, to which nothing is written yet, so that it has never failed.
    pub fn new(rt: R) -> StdSink<R>
        ensures { result ≡ 0 }
    {
        StdSink { rt, failures: 0 }
    }

    // Writes all of the bytes, and waits for room where the stream itself does not.
    fn write_whole(&self, bytes: &[u8]) -> io::Result<()> {
        let mut left = bytes;
        for _ in 0..u64::MAX {
            if left.is_empty() {
                return Ok(());
            }
            match io::writer(&self.rt).write(left) {
                Ok(0) => return Err(io::Error::from(ErrorKind::WriteZero)),
                Ok(count) => left = left.get(count..).unwrap_or(&[]),
                Err(error) if error.kind() == ErrorKind::WouldBlock => wait_a_moment(&self.rt),
                Err(error) if error.kind() == ErrorKind::Interrupted => {}
                Err(error) => return Err(error),
            }
        }
        Err(io::Error::from(ErrorKind::TimedOut))
    }
}

impl<R: Print + Clock + Clone + Drop> ByteSink for StdSink<R> {
    ghost taken = { λ s. None };

    ghost failures = { λ s. s };

    fn write(&mut self, bytes: &[u8]) -> Result<(), Failed> {
        if self.write_whole(bytes).is_err() {
            self.failures = self.failures.saturating_add(1);
            return Err(Failed);
        }
        Ok(())
    }
}
