//! What is done once a period.
ghost use Rattle.std.specs.Prelude.{◌≡◌, ◌≤◌, ◌↔◌, IsTrue, if◌then◌else◌};
ghost use Rattle.wf_timing.specs.Moment.{later};

/// A second, in milliseconds: between two heartbeats, and until what was heard of the peers is
/// written.
pub const SECOND: u64 = 1_000;

/// What is due once a period.
#[derive(Clone, Copy, Debug, PartialEq, Eq)]
pub struct Ticker {
    /// The milliseconds from one tick to the next, at least.
    pub period: u64,
    /// The moment from which the next tick is due.
    pub due: u64,
}

impl Ticker {
    /// The ticker whose first tick is due now.
    pub fn new(now: u64, period: u64) -> Ticker
        ensures period { result.period ≡ period }
        ensures due { result.due ≡ now }
    {
        Ticker { period, due: now }
    }

    /// Whether a tick is due. If so it is taken, and the next one is due a period after now.
    pub fn tick(&mut self, now: u64) -> bool
        ensures ticks { IsTrue result ↔ (self.old.due ≤ now) }
        ensures next { self.new.due ≡ (if result then later now self.old.period else self.old.due) }
        ensures period { self.new.period ≡ self.old.period }
    {
        if now < self.due {
            return false;
        }
        self.due = now.saturating_add(self.period);
        true
    }
}
