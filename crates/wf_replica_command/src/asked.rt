//! What a source was asked.

use wf_reader::Question;

/// The question that a source was asked.
#[derive(Clone, Copy, Debug, PartialEq, Eq)]
pub(crate) struct Asked {
    /// The number of the source in the list.
    pub(crate) source: usize,
    pub(crate) question: Question,
}
