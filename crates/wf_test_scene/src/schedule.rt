//! When what goes wrong.

use crate::dice::Dice;
use crate::plan::{FAULTS, Fault, Plan};

/// The stream of the generator: another one than that of the clients, so that what is left out
/// changes nothing of what comes later.
const STREAM: u64 = 9;

/// A fault, with all that is drawn for one.
#[derive(Clone, Copy)]
pub struct Stroke {
    /// Which it is, and its index in `FAULTS`.
    pub fault: Fault,
    pub kind: usize,
    /// The host at which it happens, and another one, or that of the clients.
    pub host: usize,
    pub other: usize,
    /// Until when others aren't reached, and when a process is started again.
    pub until: u64,
    pub back: u64,
    /// Which call of a disk fails; how much is kept of what isn't synced, or how long a sync takes,
    /// or which client stops; and whether the file from before is put back, or the client stops
    /// behind its request.
    pub call: usize,
    pub kept: usize,
    pub older: usize,
}

/// The faults of a play, one after another.
#[derive(Drop)]
pub struct Schedule {
    plan: Plan,
    dice: Dice,
    due: u64,
    // how many were drawn
    drawn: u32,
}

impl Schedule {
    /// The faults of a plan.
    pub fn new(plan: Plan) -> Self {
        let mut dice = Dice::new(plan.seed, STREAM);
        let due = dice.millis(1_000, 3_000);
        Schedule {
            plan,
            dice,
            due,
            drawn: 0,
        }
    }

    /// When the next one is due.
    pub fn due(&self) -> u64 {
        self.due
    }

    /// No more come.
    pub fn end(&mut self) {
        self.due = u64::MAX;
    }

    /// Takes the next one, if it is due, and if the plan doesn't leave it out.
    pub fn take(&mut self, time: u64) -> Option<Stroke> {
        if time < self.due {
            return None;
        }
        self.due = time.saturating_add(self.dice.millis(1, self.plan.pause));
        let stroke = self.draw(time)?;
        self.drawn = self.drawn.saturating_add(1);
        if self.plan.has(self.drawn, stroke.kind) {
            Some(stroke)
        } else {
            None
        }
    }

    /// Draws the next one. None: the plan has no weights.
    fn draw(&mut self, time: u64) -> Option<Stroke> {
        let hosts = self.plan.hosts() as usize;
        let kind = self.plan.fault_at(self.dice.below(self.plan.total()));
        let host = self.plan.host_at(self.dice.index(hosts.saturating_sub(1)));
        let other = self.dice.index(hosts);
        let until = time.saturating_add(self.dice.millis(200, 8_000));
        let back = time.saturating_add(self.dice.millis(1, 3_000));
        let call = self.dice.index(10).saturating_add(1);
        let kept = self.dice.index(200);
        let older = self.dice.index(2);
        if self.plan.total() == 0 {
            return None;
        }
        let (_, _, fault) = FAULTS.get(kind)?;
        Some(Stroke {
            fault: *fault,
            kind,
            host,
            other,
            until,
            back,
            call,
            kept,
            older,
        })
    }
}
