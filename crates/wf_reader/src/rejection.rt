use thiserror::Error;
use wf_ballot::Seq;

/// Why a question isn't answered. Its line is for both ends.
#[derive(Clone, Copy, Debug, PartialEq, Eq, Error)]
pub enum QuestionRejection {
    /// The reader is of a farm of another name.
    #[error("another farm")]
    OtherFarm,
    /// The question is of another version.
    #[error("another version")]
    OtherVersion,
    /// The histories differ at this sequence, the reader's last, or before it.
    #[error("histories differ at sequence {0}")]
    OtherHistory(Seq),
    /// The answerer is too far from a voter.
    #[error("too far from a voter")]
    TooFar,
}
