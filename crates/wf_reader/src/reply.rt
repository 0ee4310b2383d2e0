use crate::answer::ReaderAnswer;
use crate::rejection::QuestionRejection;

/// The most bytes of a reply: the longest eight definitions, each behind its length, and 40 more.
pub const MOST_REPLY_BYTES: usize = 524_360;

/// The reply to a question.
#[derive(Drop)]
pub enum Reply {
    /// What is published next.
    Answer(ReaderAnswer),
    /// The question isn't answered, for this cause.
    Rejected(QuestionRejection),
}
