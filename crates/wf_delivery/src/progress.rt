//! How far deliveries have come.

ghost use Rattle.std.specs.Prelude.{◌≡◌, ◌+◌, ◌<◌, ◌^◌};
ghost use Rattle.wf_delivery.specs.Progress.{begun, counted, next};

/// The most deliveries of one call.
pub const MOST_DELIVERIES: usize = 100_000;

/// How far deliveries have come, message by message to each of some nodes: whole rounds, deliveries
/// of the next round, and deliveries in total.
#[derive(Clone, Copy)]
pub struct PumpProgress {
    pub whole: usize,
    pub some: usize,
    pub done: usize,
}

/// How far deliveries have come, and how many of them were lost.
#[derive(Clone, Copy)]
pub struct Delivered {
    pub progress: PumpProgress,
    pub lost: usize,
}

impl PumpProgress {
    /// Nothing is delivered yet.
    pub fn start() -> PumpProgress
        ensures { result ≡ record { whole = 0; some = 0; done = 0 } }
    {
        PumpProgress {
            whole: 0,
            some: 0,
            done: 0,
        }
    }

    /// After one more delivery, where a round has `round` deliveries.
    pub fn next(self, round: usize) -> PumpProgress
        requires part { self.some < round }
        requires whole { self.whole + 1 < 2 ^ 64 }
        requires done { self.done + 1 < 2 ^ 64 }
        ensures { result ≡ next round self }
    {
        let done = self.done + 1;
        if self.some + 1 == round {
            PumpProgress {
                whole: self.whole + 1,
                some: 0,
                done,
            }
        } else {
            PumpProgress {
                whole: self.whole,
                some: self.some + 1,
                done,
            }
        }
    }

    /// The number of the first message that isn't pumped now; it was `first` before.
    pub fn pumped(self, first: usize) -> usize
        requires { first + self.whole + begun self.some < 2 ^ 64 }
        ensures { result ≡ first + self.whole + begun self.some }
    {
        if self.some == 0 {
            first + self.whole
        } else {
            first + self.whole + 1
        }
    }
}

/// The count of lost deliveries after one more delivery.
pub(crate) fn count_lost(lost: usize, loses: bool) -> usize
    requires { lost + 1 < 2 ^ 64 }
    ensures { result ≡ counted lost loses }
{
    if loses { lost + 1 } else { lost }
}
