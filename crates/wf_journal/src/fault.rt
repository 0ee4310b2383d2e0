//! Why no record is read.

/// Why no record is read at the front of bytes.
#[derive(Clone, Copy, Debug, PartialEq, Eq)]
pub enum RecordFault {
    /// A record whose bytes end too early, without an error so far.
    Torn,
    /// A version, kind, length or field that no record has.
    Bad,
    /// The text of its definition isn't canonical.
    NotCanonical,
    /// Allocation failed.
    Memory,
}
