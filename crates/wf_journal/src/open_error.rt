use thiserror::Error;

/// Why a journal isn't opened.
#[derive(Clone, Copy, Debug, PartialEq, Eq, Error)]
pub enum OpenFault {
    /// P1: the tape's device failed.
    #[error("P1: the tape failed")]
    TapeFailed,
    /// P2: what follows the whole records, at this byte offset, is neither a record nor a prefix of
    /// one.
    #[error("P2: a bad record at {0}")]
    BadRecord(usize),
    /// P3: allocation failed.
    #[error("P3: out of memory")]
    Memory,
}

/// Why a record isn't added, or the records aren't rewritten.
#[derive(Clone, Copy, Debug, PartialEq, Eq, Error)]
pub enum AddFault {
    /// P1: the tape's device failed, and the journal is halted.
    #[error("P1: the tape failed")]
    TapeFailed,
    /// P3: allocation failed, and nothing has changed.
    #[error("P3: out of memory")]
    Memory,
}
