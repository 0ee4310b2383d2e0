use thiserror::Error;

/// Why the nodes aren't served.
#[derive(Clone, Copy, Debug, PartialEq, Eq, Error)]
pub enum ServeFault {
    /// They didn't start: a tape doesn't open, the port can't be bound, or an allocation failed.
    #[error("serve fault")]
    Start,
    /// The line with the port couldn't be written; a part of it may have been.
    #[error("write fault")]
    Write,
}
