//! When a process began.

use crate::metrics::gauge;
use std::alloc::AllocError;
use std::time::Clock;

/// When a process began, in seconds since 1970 began. None: the clock couldn't be read.
#[derive(Clone, Copy, PartialEq, Eq)]
pub struct StartTime {
    seconds: Option<u64>,
}

impl StartTime {
    /// The process begins now.
    pub fn now<R: Clock>(rt: &R) -> Self {
        let seconds = match rt.since_1970() {
            Ok(time) => Some(time.as_secs()),
            Err(_) => None,
        };
        StartTime { seconds }
    }

    /// Appends it as a metric, if it is known. The only error is allocation failure.
    pub fn push_to(&self, text: &mut String) -> Result<(), AllocError> {
        let Some(seconds) = self.seconds else {
            return Ok(());
        };
        gauge(
            text,
            "wfarm_start_time_seconds",
            "When the process began, in seconds since 1970",
            seconds,
        )
    }
}
