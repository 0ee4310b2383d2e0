//! What is found in a file that isn't a map to publish.

use crate::fault::CheckFault;
use crate::line::NumberedLine;
use wf_block::Place;

/// The first error of a file, with its place.
#[derive(Clone, Copy)]
pub struct Finding<'a> {
    /// The error.
    pub fault: CheckFault,
    /// The file.
    pub file: &'a [u8],
    /// The byte offset that the line and the column are of.
    pub offset: usize,
    /// Where the reader found it; the front of the file for K1.
    pub place: Place,
    /// The line, cut at the offset.
    pub line: NumberedLine<'a>,
}
