//! How often what happened.

/// How often what happened on a network.
#[derive(Clone, Copy, Default)]
pub struct Counts {
    /// Connections that were opened.
    pub opened: u64,
    /// Attempts to connect that were refused.
    pub refused: u64,
    /// Attempts to connect that nothing answered.
    pub unanswered: u64,
    /// Connections that were reset by chance.
    pub resets: u64,
    /// Resets since an end was closed over unread bytes, or something came for an end that was
    /// closed or that its host has forgotten.
    pub answers: u64,
    /// Directions that were lost.
    pub losses: u64,
    /// Pieces that arrived, and bytes of them.
    pub pieces: u64,
    pub bytes: u64,
    /// Steps that nothing let through.
    pub waits: u64,
}

/// One more.
pub(crate) fn raise(count: &mut u64) {
    *count = count.saturating_add(1);
}
