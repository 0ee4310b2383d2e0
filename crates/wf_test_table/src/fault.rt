//! Errors of a table.
use crate::questions::Unanswered;
use std::alloc::AllocError;

/// Why a line of a table can't be read, or why a case can't be asked.
#[derive(Clone, Copy)]
pub enum TableFault {
    /// An allocation failed: this is no error of the table.
    Memory,
    /// The line begins with no word that a line begins with.
    UnknownLine,
    /// White space at the line's end, which no reader sees.
    SpaceAtEnd,
    /// A backslash that begins no escape.
    BadEscape,
    /// A `*` line without a number of times.
    BadCount,
    /// A row without `=>`.
    NoArrow,
    /// A named text that no line above names.
    UnknownText,
    /// A second text of one name.
    NameTaken,
    /// A line that may not come at this point of the table.
    Misplaced,
    /// A case without `ask`.
    NoQuestion,
    /// A case that expects no answer at all.
    NoAnswer,
    /// A question that the program doesn't know.
    UnknownQuestion,
    /// A question that can't be asked with its further words, or with its input.
    BadWords,
}

impl TableFault {
    /// The error in words.
    pub(crate) fn words(self) -> &'static str {
        match self {
            TableFault::Memory => "memory ran out",
            TableFault::UnknownLine => "no line of a table begins so",
            TableFault::SpaceAtEnd => "white space at the end of the line",
            TableFault::BadEscape => "a backslash without an escape",
            TableFault::BadCount => "no number of times",
            TableFault::NoArrow => "a row without =>",
            _ => self.words_of_cases(),
        }
    }

    fn words_of_cases(self) -> &'static str {
        match self {
            TableFault::UnknownText => "no text of this name",
            TableFault::NameTaken => "a second text of this name",
            TableFault::Misplaced => "the line means nothing here",
            TableFault::NoQuestion => "a case without a question",
            TableFault::NoAnswer => "a case without an expected answer",
            TableFault::UnknownQuestion => "no such question",
            _ => "the question can't be asked so",
        }
    }
}

impl From<AllocError> for TableFault {
    fn from(_error: AllocError) -> TableFault {
        TableFault::Memory
    }
}

impl From<Unanswered> for TableFault {
    fn from(unanswered: Unanswered) -> TableFault {
        match unanswered {
            Unanswered::Memory => TableFault::Memory,
            Unanswered::UnknownQuestion => TableFault::UnknownQuestion,
            Unanswered::BadWords => TableFault::BadWords,
        }
    }
}
