use thiserror::Error;

/// Why bytes aren't the text of a file `replaced`.
#[derive(Clone, Copy, Debug, PartialEq, Eq, Error)]
pub enum ReplacementsFault {
    /// This line, counted from 1, is none of it.
    #[error("line {0} is malformed")]
    Line(usize),
}

/// Why bytes aren't the text of a file `joins`.
#[derive(Clone, Copy, Debug, PartialEq, Eq, Error)]
pub enum JoiningFault {
    /// This line, counted from 1, is none of it.
    #[error("line {0} is malformed")]
    Line(usize),
}
