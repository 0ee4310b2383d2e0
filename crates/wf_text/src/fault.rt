//! Errors of numbers and texts.

use thiserror::Error;

/// Why a text isn't a coordinate.
#[derive(Clone, Copy, Debug, PartialEq, Eq, Error)]
pub enum NumberFault {
    /// The text hasn't the form of a number.
    #[error("not a number")]
    BadNumber,
    /// The number has too many digits, or its magnitude is too great.
    #[error("the number is out of range")]
    OutOfRange,
}

/// Why bytes aren't a text of a map definition.
#[derive(Clone, Copy, Debug, PartialEq, Eq, Error)]
pub enum TextFault {
    /// Allocation failed.
    #[error("out of memory")]
    OutOfMemory,
    /// More bytes than a text may have.
    #[error("the text is too long")]
    TooLong,
    /// The bytes aren't UTF-8.
    #[error("the text is not UTF-8")]
    NotUtf8,
    /// A character that no text may hold.
    #[error("the text holds a character that no text may hold")]
    ForbiddenCharacter,
    /// A `"` and a `'`: neither kind of quote could stand around the text.
    #[error("the text holds both kinds of quote")]
    BothQuotes,
}
