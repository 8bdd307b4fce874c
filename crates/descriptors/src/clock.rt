// The time that has passed.
use std::rt::Clock;

// Milliseconds since the machine was started, in steps of ten. 0 where the system does not tell: no time has passed then, as each
// caller would have it.
pub fn milliseconds<C: Clock>(clock: &C) -> u64 {
    match clock.monotonic() {
        Ok(time) => u64::try_from(time.as_millis() / 10 * 10).unwrap_or(0),
        Err(_) => 0,
    }
}
