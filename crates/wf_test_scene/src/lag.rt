//! The time that syncs take, whether there is room for what is written, and the power.

use std::cell::Cell;

/// The most milliseconds that the syncs of a turn take: all is to heal soon after the last fault.
const MOST_MILLIS: u64 = 1_000;

/// How long a sync takes of the process whose turn it is, the time that its syncs took, whether its
/// disks are full, and whether its power is cut at the call of them that fails, and was.
#[derive(Drop)]
pub struct Lag {
    each: Cell<u64>,
    passed: Cell<u64>,
    // how many took any time
    count: Cell<u64>,
    is_full: Cell<bool>,
    // how many writes found no room
    refused: Cell<u64>,
    is_armed: Cell<bool>,
    is_off: Cell<bool>,
}

impl Lag {
    /// Syncs take no time, and there is room.
    pub fn new() -> Self {
        Lag {
            each: Cell::new(0),
            passed: Cell::new(0),
            count: Cell::new(0),
            is_full: Cell::new(false),
            refused: Cell::new(0),
            is_armed: Cell::new(false),
            is_off: Cell::new(false),
        }
    }

    /// A turn begins in which each sync takes so many milliseconds, each write finds no room if the
    /// disks are full, and the power is cut at the call of them that fails, if it is to be.
    pub fn begin(&self, each: u64, is_full: bool, is_armed: bool) {
        self.each.set(each);
        self.passed.set(0);
        self.is_full.set(is_full);
        self.is_armed.set(is_armed);
        self.is_off.set(false);
    }

    /// The turn is over. Returns how many milliseconds its syncs took.
    pub fn end(&self) -> u64 {
        let passed = self.passed.get();
        self.begin(0, false, false);
        passed
    }

    /// A file is synced.
    pub fn sync(&self) {
        let each = self.each.get();
        if each != 0 {
            let passed = self.passed.get().saturating_add(each);
            self.passed.set(passed.min(MOST_MILLIS));
            self.count.set(self.count.get().saturating_add(1));
        }
    }

    /// Whether there is no room for what is written.
    pub fn is_full(&self) -> bool {
        self.is_full.get()
    }

    /// Counts a write that finds no room.
    pub fn refuse(&self) {
        self.refused.set(self.refused.get().saturating_add(1));
    }

    /// Whether the power is to be cut at the call that fails.
    pub fn is_armed(&self) -> bool {
        self.is_armed.get()
    }

    /// The power is cut.
    pub fn turn_off(&self) {
        self.is_armed.set(false);
        self.is_off.set(true);
    }

    /// Whether it was cut in this turn.
    pub fn is_off(&self) -> bool {
        self.is_off.get()
    }

    /// How many writes found no room.
    pub fn refused(&self) -> u64 {
        self.refused.get()
    }

    /// How many milliseconds the syncs of the turn have taken.
    pub fn passed(&self) -> u64 {
        self.passed.get()
    }

    /// How many syncs have taken any time.
    pub fn count(&self) -> u64 {
        self.count.get()
    }
}
