//! A log on standard error.

use crate::event::LogEntry;
use jiff::Timestamp;
use std::time::Clock;

/// Writes one line an event on standard error, `TIME LEVEL EVENT KEY=VALUE ..`, or nothing if it is
/// off. The time is that of the system's clock in UTC, to the second, and `-` if the clock can't be
/// read. A line that can't be written is lost.
#[derive(Drop)]
pub struct Log<'a, R> {
    rt: &'a R,
    is_on: bool,
}

impl<'a, R: Clock + Eprint> Log<'a, R> {
    /// A log on a runtime's standard error.
    pub fn new(rt: &'a R, is_on: bool) -> Self {
        Log { rt, is_on }
    }

    /// Whether the events are written.
    pub fn is_on(&self) -> bool {
        self.is_on
    }

    /// Writes the line of an event.
    pub fn write<E: LogEntry>(&self, event: &E) {
        if self.is_on {
            put(self.rt, event);
        }
    }
}

/// Writes the line of an event.
fn put<R: Clock + Eprint, E: LogEntry>(rt: &R, event: &E) {
    let level = event.level();
    match now(rt) {
        Some(time) => {
            let _ = eprintln!(rt; "{time} {level} {event}");
        }
        None => {
            let _ = eprintln!(rt; "- {level} {event}");
        }
    }
}

/// The system's time. None if its clock can't be read, or is out of range.
fn now<R: Clock>(rt: &R) -> Option<Timestamp> {
    match rt.since_1970() {
        Ok(time) => time_at(time.as_secs()),
        Err(_) => None,
    }
}

/// The time this many seconds after 1970 began. None if it is out of range.
fn time_at(seconds: u64) -> Option<Timestamp> {
    match i64::try_from(seconds) {
        Ok(seconds) => Timestamp::from_second(seconds).ok(),
        Err(_) => None,
    }
}
