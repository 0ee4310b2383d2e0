//! Whom a replica asks, and when.
ghost use Rattle.std.specs.Prelude.{◌≡◌, ◌≤◌, ◌<◌, ◌+◌, ◌-◌, ◌%◌, ◌↔◌, IsTrue, Some, None, false, true};
ghost use Rattle.wf_timing.specs.Moment.{later};
ghost use Rattle.wf_replica.specs.Questions.{IsAsking, IsSourceSilent, left_until, passed_on, rest, turn};

use wf_timing::Alarm;

/// The time from an answer that brought nothing to the next question, in milliseconds.
pub const REST_MILLIS: u64 = 50;

/// The time in which a source answers, in milliseconds. After it the next one is asked.
pub const SILENCE_MILLIS: u64 = 2_000;

/// For how long one source is asked that brings nothing, in milliseconds: one that is cut off from
/// the farm would go on so.
pub const TURN_MILLIS: u64 = 1_000;

/// Which of its sources a replica asks, and when. Moments are milliseconds of a clock that never
/// goes back.
#[derive(Clone, Copy, Debug, PartialEq, Eq)]
pub struct Asking {
    /// The number of its sources, at least one.
    pub count: usize,
    /// The one that is asked.
    pub source: usize,
    /// Since when, or when it last brought something.
    pub since: u64,
    /// When the question was asked that has no answer yet, if there is one.
    pub asked: Option<u64>,
    /// From when on the next question is due.
    pub due: u64,
}

impl Asking {
    /// The first question is due now, to the source of this number, counted round.
    pub fn new(count: usize, first: usize, now: u64) -> Asking
        requires { 1 ≤ count }
        ensures asking { IsAsking result }
        ensures value { result ≡
            record { count = count; source = first % count; since = now; asked = None; due = now } }
    {
        Asking {
            count,
            source: first % count,
            since: now,
            asked: None,
            due: now,
        }
    }

    /// Whether a question is due.
    pub fn is_due(self, now: u64) -> bool
        ensures { IsTrue result ↔ (self.asked ≡ None) × (self.due ≤ now) }
    {
        self.asked.is_none() && self.due <= now
    }

    /// A question was asked.
    pub fn ask(&mut self, now: u64)
        ensures { self.new ≡ record self.old { asked = Some now } }
    {
        self.asked = Some(now);
    }

    /// Whether the source was silent for too long, since it was asked.
    pub fn is_silent(self, now: u64) -> bool
        ensures { IsTrue result ↔ IsSourceSilent self now }
    {
        match self.asked {
            Some(since) => SILENCE_MILLIS <= now.saturating_sub(since),
            None => false,
        }
    }

    /// The question was answered. If that brought something, the next one is due at once, else
    /// after a rest; a source that has brought nothing for too long isn't asked again before the
    /// others.
    pub fn answer(&mut self, brings: bool, now: u64)
        requires { IsAsking self.old }
        ensures asking { IsAsking self.new }
        ensures brings { brings ≡ true →
            self.new ≡ record self.old { since = now; asked = None; due = now } }
        ensures rests { brings ≡ false → now - self.old.since < turn →
            self.new ≡ record self.old { asked = None; due = later now rest } }
        ensures passes { brings ≡ false → turn ≤ now - self.old.since →
            self.new ≡ passed_on now self.old }
    {
        self.asked = None;
        if brings {
            self.since = now;
            self.due = now;
        } else if TURN_MILLIS <= now.saturating_sub(self.since) {
            self.pass_on(now);
        } else {
            self.due = Alarm::after(now, REST_MILLIS).due;
        }
    }

    /// The next source is asked, after a rest: this one was silent, is gone, or has brought nothing
    /// for too long.
    pub fn pass_on(&mut self, now: u64)
        requires { IsAsking self.old }
        ensures asking { IsAsking self.new }
        ensures value { self.new ≡ passed_on now self.old }
    {
        self.source = (self.source + 1) % self.count;
        self.since = now;
        self.asked = None;
        self.due = Alarm::after(now, REST_MILLIS).due;
    }

    /// The milliseconds until something is due: a question, or the end of the time in which one is
    /// answered.
    pub fn left(self, now: u64) -> u64
        ensures { result ≡ left_until self now }
    {
        match self.asked {
            Some(since) => SILENCE_MILLIS.saturating_sub(now.saturating_sub(since)),
            None => self.due.saturating_sub(now),
        }
    }
}
