use thiserror::Error;

/// Why bytes aren't decoded as a greeting, or as a reply to one.
#[derive(Clone, Copy, Debug, PartialEq, Eq, Error)]
pub enum GreetingFault {
    /// No error so far; more bytes are needed.
    #[error("the greeting isn't whole")]
    Short,
    /// They don't begin as a greeting does.
    #[error("not a node of a farm")]
    NotANode,
    /// A greeting of another version: this one.
    #[error("version {0} of what nodes say to each other")]
    OtherVersion(u16),
    /// A field is outside its range.
    #[error("a malformed greeting")]
    Malformed,
}

/// Why bytes aren't the text of what was heard.
#[derive(Clone, Copy, Debug, PartialEq, Eq, Error)]
pub enum PeerProgressFault {
    /// They aren't at this line, counted from 1, or go on after the last one.
    #[error("malformed at line {0}")]
    Line(usize),
}
