//! How long a tape may be.

/// The most bytes of a tape: as many as a node reads when it opens.
pub const MOST_TAPE_BYTES: usize = 8_589_926_400;
