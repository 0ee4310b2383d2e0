//! Why an answer isn't taken.

use wf_ballot::Seq;

/// Why an answer doesn't fit a question.
#[derive(Clone, Copy, Debug, PartialEq, Eq)]
pub enum Misfit {
    /// The question isn't the one for what comes next.
    Unasked,
    /// It hasn't as many definitions as there have to be by its published sequence.
    Count,
    /// Its digest isn't that of the replica's list with its definitions.
    Digest,
    /// The histories differ at this sequence, the answerer's last, which the replica has published
    /// too.
    OtherHistory(Seq),
}

/// Why an answer isn't taken.
#[derive(Clone, Copy, Debug, PartialEq, Eq)]
pub enum AnswerFault {
    /// It doesn't fit the question: nothing has changed.
    Misfit(Misfit),
    /// An allocation failed: some of its definitions, from the first on, may have been learned.
    Memory,
}
