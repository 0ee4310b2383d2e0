//! The outcome of one request.

/// The outcome of one request.
#[derive(Clone, Copy, PartialEq, Eq)]
pub enum Outcome {
    /// The response with this status was written completely; it has this many bytes.
    Sent(u16, u64),
    /// The writer failed within the response with this status, after this many bytes.
    WriteFailed(u16, u64),
    /// The reader failed before the request was complete. Nothing is written.
    ReadFailed,
    /// The input is empty. Nothing is written.
    NoRequest,
}
