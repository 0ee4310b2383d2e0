//! The time, in milliseconds.

use std::time::Clock;

/// The milliseconds of the system's monotonic clock; 0 if it can't be read.
pub fn now<R: Clock>(rt: &R) -> u64 {
    match rt.monotonic() {
        Ok(time) => time
            .as_secs()
            .saturating_mul(1_000)
            .saturating_add(time.subsec_millis() as u64),
        Err(_) => 0,
    }
}

/// The microseconds of the system's monotonic clock; 0 if it can't be read.
pub fn micros<R: Clock>(rt: &R) -> u64 {
    match rt.monotonic() {
        Ok(time) => time
            .as_secs()
            .saturating_mul(1_000_000)
            .saturating_add(time.subsec_micros() as u64),
        Err(_) => 0,
    }
}
