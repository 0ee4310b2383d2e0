//! Moments at which something is due.
ghost use Rattle.std.specs.Prelude.{◌≡◌, ◌≤◌, ◌-◌, ◌↔◌, min, IsTrue};
ghost use Rattle.wf_timing.specs.Moment.{later};

/// Something that is due from a moment on.
#[derive(Clone, Copy, Debug, PartialEq, Eq)]
pub struct Alarm {
    /// The moment, in milliseconds.
    pub due: u64,
}

impl Alarm {
    /// The alarm that is due so many milliseconds after `now`, or at the last moment that a clock
    /// can show.
    pub fn after(now: u64, wait: u64) -> Alarm
        ensures { result.due ≡ later now wait }
    {
        Alarm {
            due: now.saturating_add(wait),
        }
    }

    /// Whether it is due.
    pub fn is_due(self, now: u64) -> bool
        ensures { IsTrue result ↔ (self.due ≤ now) }
    {
        self.due <= now
    }

    /// The milliseconds until it is due; 0 if it is.
    pub fn left(self, now: u64) -> u64
        ensures { result ≡ self.due - now }
    {
        self.due.saturating_sub(now)
    }

    /// The one of two that is due first.
    pub fn sooner(self, other: Alarm) -> Alarm
        ensures { result.due ≡ min self.due other.due }
    {
        Alarm {
            due: self.due.min(other.due),
        }
    }
}
