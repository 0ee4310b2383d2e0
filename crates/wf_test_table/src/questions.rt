//! The questions of a program of cases.
use crate::answer::Transcript;
use crate::case_input::CaseInput;
use std::alloc::AllocError;

/// Why there is no answer.
#[derive(Clone, Copy)]
pub enum Unanswered {
    /// An allocation failed.
    Memory,
    /// The words name no question.
    UnknownQuestion,
    /// The question can't be asked with these words, or with this input.
    BadWords,
}

/// What a question's function returns, beside what it appends.
pub type Answered = Result<(), Unanswered>;

impl From<AllocError> for Unanswered {
    fn from(_error: AllocError) -> Unanswered {
        Unanswered::Memory
    }
}

/// The questions of a program of cases.
pub trait Questions {
    /// Appends the answer, in whole lines, to what `answer` holds.
    fn answer(&self, asked: CaseInput<'_>, answer: &mut Transcript) -> Answered;
}
