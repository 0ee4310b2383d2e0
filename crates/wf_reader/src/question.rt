use wf_ballot::Seq;
use wf_folder::FarmName;

/// The version of what is said at a readers' port. It isn't the program's, nor that of what nodes
/// say to each other.
pub const READER_VERSION: u16 = 1;

/// The number of bytes of a question.
pub const QUESTION_BYTES: usize = 76;

/// What a reader asks: for the definitions after its last published sequence. It says which farm's
/// it is, and the digest of its history, so a reader of another farm is found at its first
/// question.
#[derive(Clone, Copy, Debug, PartialEq, Eq)]
pub struct Question {
    /// The name of its farm.
    pub farm: FarmName,
    /// Its last published sequence.
    pub published: Seq,
    /// The digest of its history up to that.
    pub digest: [u8; 32],
}
