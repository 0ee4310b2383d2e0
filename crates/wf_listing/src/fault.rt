use thiserror::Error;

/// Why a tape isn't listed, or a map on it isn't written. Its text is the error's number.
#[derive(Clone, Copy, Debug, PartialEq, Eq, Error)]
pub enum TapeReadFault {
    /// P1: it can't be read, or is longer than the longest tape that a node reads.
    #[error("P1")]
    Failed,
    /// P3: allocation failed.
    #[error("P3")]
    Memory,
    /// P4: it has no map as published under the sequence.
    #[error("P4")]
    NoMap,
}
