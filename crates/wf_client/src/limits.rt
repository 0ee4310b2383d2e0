//! The limits of clients.

/// The number of clients at once.
pub const SLOTS: usize = 128;

/// The time for a whole request, in milliseconds.
pub const REQUEST_MILLIS: u64 = 10_000;

/// The time for taking a whole answer, in milliseconds.
pub const ANSWER_MILLIS: u64 = 10_000;

/// The time for which what a client still sends after its answer is read and dropped, in
/// milliseconds.
pub const LINGER_MILLIS: u64 = 1_000;

/// The bytes of all requests and answers together, from which on whole requests wait until answers
/// were taken.
pub const BUDGET_BYTES: usize = 67_108_864;
