/// Why no frame is read at the front of bytes.
#[derive(Clone, Copy, Debug, PartialEq, Eq)]
pub enum FrameFault {
    /// No error so far; more bytes are needed.
    Short,
    /// The version isn't read.
    BadVersion,
    /// The version has no kind with this byte.
    BadKind,
    /// The length is over that of the longest body.
    TooLong,
    /// The kind can't have a body of that length.
    BadLength,
}
