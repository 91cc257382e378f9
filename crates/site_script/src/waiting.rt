// Waiting for a stream that does not wait by itself.
use std::rt::Clock;
use std::thread;
use std::time::Duration;

// How long a stream is left alone before the next try, in milliseconds: too short for a person to notice, and long enough to cost nothing.
const PAUSE: u64 = 5;

/// Waits a moment, since a read or a write failed that would have waited: another program that has the same stream may have set it so. The library has no call
/// that waits for a descriptor, so the next try has to tell whether it is ready.
pub fn wait_a_moment(clock: &impl Clock) {
    thread::sleep(clock, Duration::from_millis(PAUSE));
}
