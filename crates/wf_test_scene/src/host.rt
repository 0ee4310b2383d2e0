//! A host of a simulated farm, on which a process runs.

use crate::lag::Lag;
use crate::plan::Fault;
use crate::schedule::Stroke;
use crate::slow_store::{Ground, SlowStore};
use std::cell::RefCell;
use wf_simulation::World;
use wf_store::MemoryFolder;

/// The most sockets of a turn.
pub const MOST_READY: usize = 64;

/// A host: its folder, which outlives its process, its clock, and when its process does something.
#[derive(Drop)]
pub struct Host<'a> {
    pub number: u8,
    pub folder: &'a MemoryFolder,
    /// When the next turn is due, or the next start.
    pub due: u64,
    /// How many sequences its process had published when that was noted last.
    pub published: u16,
    lag: &'a Lag,
    // how many milliseconds a sync takes, until when that is so, and until when its process waits
    // for one
    sync_millis: u64,
    slow_until: u64,
    busy_until: u64,
    // until when its disks are full
    full_until: u64,
    // by how much its clock is ahead, in milliseconds
    ahead: u64,
    // whether a call of its disks is to fail, and how many have
    will_fail: bool,
    failed: u64,
    // the fault by which its power is cut at a call, whether it was in the last turn, and how often
    armed: Option<Stroke>,
    is_cut: bool,
    cuts: u64,
}

impl<'a> Host<'a> {
    /// A host whose process is to be started at this time. Its clock is ahead by as many minutes as
    /// its number says.
    pub fn new(number: u8, folder: &'a MemoryFolder, lag: &'a Lag, due: u64) -> Self {
        Host {
            number,
            folder,
            due,
            published: 0,
            lag,
            sync_millis: 0,
            slow_until: 0,
            busy_until: 0,
            full_until: 0,
            ahead: u64::from(number).saturating_mul(60_000),
            will_fail: false,
            failed: 0,
            armed: None,
            is_cut: false,
            cuts: 0,
        }
    }

    /// The time of its clock.
    pub fn clock(&self, time: u64) -> u64 {
        time.saturating_add(self.ahead)
    }

    /// How many calls of its disks have failed.
    pub fn failed(&self) -> u64 {
        self.failed
    }

    /// It is turned on, unless it is, no call of its disks fails, and there is room on them. Random
    /// bits are these.
    pub fn turn_on(&mut self, world: &RefCell<World>, bits: [u8; 16]) {
        if let Ok(mut world) = world.try_borrow_mut() {
            world.turn_on(self.number as usize);
        }
        self.mend_disk();
        self.busy_until = 0;
        self.full_until = 0;
        self.armed = None;
        self.folder.set_bits(bits);
    }

    /// The folder, as its process sees it: its syncs take time.
    pub fn store(&self, world: &'a RefCell<World>) -> SlowStore<'a> {
        SlowStore::new(Ground {
            folder: self.folder,
            lag: self.lag,
            world,
            host: self.number as usize,
        })
    }

    /// Whether its process waits for a sync.
    pub fn is_busy(&self, time: u64) -> bool {
        time < self.busy_until
    }

    /// A turn of its process begins.
    pub fn begin(&self, time: u64) {
        let each = if time < self.slow_until {
            self.sync_millis
        } else {
            0
        };
        self.lag
            .begin(each, time < self.full_until, self.armed.is_some());
    }

    /// The turn is over. Returns when its process has waited for all syncs of it.
    pub fn end(&mut self, time: u64) -> u64 {
        self.is_cut = self.lag.is_off();
        self.busy_until = time.saturating_add(self.lag.end());
        self.busy_until
    }

    /// If its power was cut within the turn that is over, its files are what the cut leaves.
    /// Returns when its process is started again.
    pub fn take_cut(&mut self) -> Option<u64> {
        if !self.is_cut {
            return None;
        }
        self.is_cut = false;
        self.cuts = self.cuts.saturating_add(1);
        let stroke = self.armed.take()?;
        self.folder.cut(stroke.older, stroke.kept);
        Some(stroke.back)
    }

    /// How often its power was cut within a turn.
    pub fn cuts(&self) -> u64 {
        self.cuts
    }

    /// A fault happens. Returns whether the process ends by it.
    pub fn fail(&mut self, world: &RefCell<World>, time: u64, stroke: &Stroke) -> bool {
        match stroke.fault {
            Fault::Kill => self.due = stroke.back,
            Fault::Cut => {
                self.cut(world, stroke.older, stroke.kept);
                self.due = stroke.back;
            }
            Fault::Jump => {
                self.ahead = self.ahead.saturating_add(stroke.until.saturating_sub(time));
                self.due = self.busy_until;
                return false;
            }
            Fault::SlowSync => {
                self.sync_millis = (stroke.kept as u64).saturating_add(1);
                self.slow_until = stroke.until;
                return false;
            }
            Fault::CutCall => {
                self.folder.set_failure(stroke.call, stroke.kept);
                self.armed = Some(*stroke);
                return false;
            }
            Fault::FullDisk => {
                self.full_until = stroke.until;
                return false;
            }
            Fault::Disk => {
                self.folder.set_failure(stroke.call, stroke.kept);
                self.will_fail = true;
                return false;
            }
            // those aren't of one process: the play makes them happen
            Fault::Alone | Fault::OneWay | Fault::Stop | Fault::Strangers => return false,
        }
        true
    }

    /// Its power is cut.
    fn cut(&self, world: &RefCell<World>, older: usize, kept: usize) {
        if let Ok(mut world) = world.try_borrow_mut() {
            world.turn_off(self.number as usize);
        }
        self.folder.cut(older, kept);
    }

    /// No call of its disks fails any more.
    fn mend_disk(&mut self) {
        self.folder.set_failure(0, 0);
        self.will_fail = false;
    }

    /// All faults are over: no call of its disks fails or takes time any more, there is room on
    /// them, and its process is started by this time at the latest.
    pub fn heal(&mut self, time: u64) {
        self.slow_until = 0;
        self.full_until = 0;
        self.armed = None;
        self.due = self.due.min(time);
        self.mend_disk();
    }

    /// Counts the call of its disks that has failed, if one has.
    pub fn count_failure(&mut self) {
        if self.will_fail && !self.folder.will_fail() {
            self.will_fail = false;
            self.failed = self.failed.saturating_add(1);
        }
    }

    /// Puts the tokens of its sockets that may be ready to the front of a buffer, and returns how
    /// many they are.
    pub fn take_ready(&self, world: &RefCell<World>, tokens: &mut [usize]) -> usize {
        let Ok(mut world) = world.try_borrow_mut() else {
            return 0;
        };
        let mut count = 0usize;
        for token in tokens.iter_mut() {
            match world.take_ready(self.number as usize) {
                Some(ready) => {
                    *token = ready;
                    count = count.saturating_add(1);
                }
                None => return count,
            }
        }
        count
    }
}
