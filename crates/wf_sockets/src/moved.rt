//! What a read or a write of a connection moved.

/// What a read or a write of a connection moved.
#[derive(Clone, Copy, Debug, PartialEq, Eq)]
pub enum Moved {
    /// This many bytes, at least one: to the front of the buffer, or from the front of what was to
    /// be written.
    Bytes(usize),
    /// None now. The connection isn't open yet, no byte has come, or none is taken.
    Blocked,
    /// None: the other side has ended its writing, so nothing comes any more.
    Closed,
    /// None: the connection has failed, or couldn't be opened.
    Failed,
}
