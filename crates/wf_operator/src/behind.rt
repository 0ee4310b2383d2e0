//! Whether a process has been behind for too long.

/// The time for which a process may be behind and still be ready, in milliseconds.
const BEHIND_MILLIS: u64 = 10_000;

/// Since when a process is behind, if it is.
#[derive(Clone, Copy, Default)]
pub struct Behind {
    since: Option<u64>,
}

impl Behind {
    /// Whether it has been behind for too long, now that it is behind or not.
    pub fn judge(&mut self, is_behind: bool, time: u64) -> bool {
        if !is_behind {
            self.since = None;
            return false;
        }
        match self.since {
            Some(since) => BEHIND_MILLIS <= time.saturating_sub(since),
            None => {
                self.since = Some(time);
                false
            }
        }
    }
}
