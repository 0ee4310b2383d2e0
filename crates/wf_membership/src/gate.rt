//! Whether a node acts.

/// Whether a node acts: whether it is given the messages that come, and says what it has to.
#[derive(Clone, Copy, PartialEq, Eq)]
pub enum Gate {
    /// It acts.
    Open,
    /// It has just started, and waits for what its peers remember of it.
    Starting,
    /// What it hears of its peers, how far it is, or what it knows of replacements can't be written
    /// to its folder; or that was just written, and only its next start goes by it.
    Unwritten,
    /// A peer remembers more of it than it has.
    Suspended,
}
