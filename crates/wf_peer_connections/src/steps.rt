//! How many messages a node took in, and for how long.

/// How many messages a node took in, its own too, and for how many microseconds: what its tape
/// wrote and synced is in it.
#[derive(Clone, Copy, Default)]
pub struct Steps {
    pub number: u64,
    pub micros: u64,
}

impl Steps {
    /// Counts a message that was taken in from one moment to another, in microseconds.
    pub fn add(&mut self, from: u64, to: u64) {
        self.number = self.number.saturating_add(1);
        self.micros = self.micros.saturating_add(to.saturating_sub(from));
    }
}
