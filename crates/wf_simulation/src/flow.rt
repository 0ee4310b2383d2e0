//! A direction of a connection, with what is on its way.
#![tactic(auto, using(crate::proofs::Keeps::keeps_same, crate::proofs::Keeps::keeps_twice))]

ghost use Rattle.std.specs.Prelude.{◌≡◌, ◌≢◌, true, false, None};
ghost use Rattle.wf_simulation.specs.Flow.{IsReset};
ghost use Rattle.wf_simulation.specs.Pipe.{KeepsBytes};

use crate::counts::raise;
use crate::endpoint::Endpoint;
use crate::medium::Medium;
use crate::pipe::Pipe;
use std::alloc::Global;

/// A direction of a connection: its bytes, and when the next step of it is due.
#[derive(Drop)]
pub(crate) struct Flow {
    pub(crate) pipe: Pipe,
    pub(crate) due: Option<u64>,
    // whether a reset is on its way
    pub(crate) has_reset: bool,
    // whether nothing arrives any more, and nobody is told
    pub(crate) is_lost: bool,
}

impl Flow {
    /// A direction in which nothing is on its way.
    pub(crate) fn new(alloc: Global, room: usize) -> Self {
        Flow {
            pipe: Pipe::new(alloc, room),
            due: None,
            has_reset: false,
            is_lost: false,
        }
    }

    /// Something is on its way: a step is due, unless one is already.
    pub(crate) fn begin(&mut self, medium: &mut Medium)
        ensures bytes { KeepsBytes self.old.pipe self.new.pipe }
        ensures due { self.old.is_lost ≡ false → self.new.due ≢ None }
        ensures lost { self.new.is_lost ≡ self.old.is_lost }
        ensures reset { self.new.has_reset ≡ self.old.has_reset }
    {
        if self.due.is_none() && !self.is_lost {
            self.due = Some(medium.soon());
        }
    }

    /// Sends a reset: the other end comes to know that the connection has failed.
    pub(crate) fn reset(&mut self, medium: &mut Medium)
        ensures bytes { KeepsBytes self.old.pipe self.new.pipe }
        ensures reset { IsReset self.new }
        ensures lost { self.new.is_lost ≡ self.old.is_lost }
    {
        self.has_reset = true;
        self.pipe.fail_writer();
        self.begin(medium);
    }

    /// Nothing arrives any more, and nobody is told.
    fn lose(&mut self)
        ensures { KeepsBytes self.old.pipe self.new.pipe }
    {
        self.is_lost = true;
        self.due = None;
    }

    /// Whether a step is due now.
    fn is_due(&self, time: u64) -> bool {
        match self.due {
            Some(due) => due <= time,
            None => false,
        }
    }

    /// Does the step that is due, if one is: what is on its way from an end to another arrives, or
    /// it doesn't. What a host that has forgotten the connection had sent is lost; its reset isn't.
    pub(crate) fn step(
        &mut self,
        back: &mut Flow,
        from: &Endpoint,
        to: &mut Endpoint,
        medium: &mut Medium,
    )
        ensures forth { KeepsBytes self.old.pipe self.new.pipe }
        ensures back { KeepsBytes back.old.pipe back.new.pipe }
    {
        if !self.is_due(medium.time) {
            return;
        }
        if from.is_forgotten && !self.has_reset {
            self.due = None;
        } else if !medium.reaches(from.host, to.host) {
            raise(&mut medium.counts.waits);
            self.due = Some(medium.later());
        } else if medium.chance.happens(medium.faults.losses) {
            raise(&mut medium.counts.losses);
            self.lose();
        } else {
            self.due = None;
            self.arrive(back, to, medium);
        }
    }

    /// What is on its way arrives, or a part of it. A host that has forgotten the connection
    /// answers all but a reset by a reset.
    fn arrive(&mut self, back: &mut Flow, to: &mut Endpoint, medium: &mut Medium)
        ensures forth { KeepsBytes self.old.pipe self.new.pipe }
        ensures back { KeepsBytes back.old.pipe back.new.pipe }
        ensures forgotten { to.old.is_forgotten ≡ true → self.old.has_reset ≡ false →
            IsReset back.new }
    {
        if medium.chance.happens(medium.faults.resets) {
            raise(&mut medium.counts.resets);
            back.reset(medium);
            self.has_reset = true;
        }
        if self.has_reset {
            self.arrive_reset(back, to, medium);
            return;
        }
        if to.is_forgotten {
            self.reject(back, medium);
            return;
        }
        back.pipe.confirm();
        to.notify_room();
        if self.pipe.in_flight() != 0 {
            self.arrive_bytes(back, to, medium);
        } else if self.pipe.has_end_in_flight() {
            self.pipe.arrive_end();
            to.notify();
        }
        if self.pipe.in_flight() != 0 || self.pipe.has_end_in_flight() {
            self.begin(medium);
        }
    }

    /// A reset arrives: what hasn't been read may be lost.
    fn arrive_reset(&mut self, back: &mut Flow, to: &mut Endpoint, medium: &mut Medium)
        ensures forth { KeepsBytes self.old.pipe self.new.pipe }
        ensures back { KeepsBytes back.old.pipe back.new.pipe }
        ensures reset { IsReset back.old → IsReset back.new }
    {
        self.has_reset = false;
        self.pipe.fail_reader(medium.chance.up_to(2) == 1);
        back.pipe.fail_writer();
        to.notify();
    }

    /// Bytes arrive, or a part of them. Where nobody is there to read them, a reset comes back.
    fn arrive_bytes(&mut self, back: &mut Flow, to: &mut Endpoint, medium: &mut Medium)
        ensures forth { KeepsBytes self.old.pipe self.new.pipe }
        ensures back { KeepsBytes back.old.pipe back.new.pipe }
    {
        if to.is_closed || self.pipe.has_reader_failed() {
            self.reject(back, medium);
            return;
        }
        let part = medium.chance.part(self.pipe.in_flight());
        self.pipe.arrive(part);
        to.notify();
        raise(&mut medium.counts.pieces);
        medium.counts.bytes = medium.counts.bytes.saturating_add(part as u64);
    }

    /// What arrives is for nobody: it is dropped, and a reset comes back.
    fn reject(&mut self, back: &mut Flow, medium: &mut Medium)
        ensures forth { KeepsBytes self.old.pipe self.new.pipe }
        ensures back { KeepsBytes back.old.pipe back.new.pipe }
        ensures reset { IsReset back.new }
    {
        self.pipe.arrive(self.pipe.in_flight());
        raise(&mut medium.counts.answers);
        back.reset(medium);
    }
}
