//! What has become of a reader.

use std::fmt;
use wf_reader::QuestionRejection;
use wf_visitors::{Level, LogEntry};

/// What has become of a reader.
#[derive(Clone, Copy)]
pub(crate) enum ReaderEvent {
    /// It was rejected, and closed.
    Rejected(QuestionRejection),
    /// What it sent isn't a question, and it was closed.
    Malformed,
    /// It gave way to another.
    Replaced,
}

impl LogEntry for ReaderEvent {
    fn level(&self) -> Level {
        match self {
            ReaderEvent::Rejected(QuestionRejection::OtherHistory(_)) => Level::Error,
            ReaderEvent::Rejected(_) | ReaderEvent::Malformed | ReaderEvent::Replaced =>
                Level::Warn,
        }
    }
}

impl fmt::Display for ReaderEvent {
    fn fmt<W: fmt::Write>(&self, f: &mut fmt::Formatter<W>) -> fmt::Result {
        match self {
            ReaderEvent::Rejected(why) => write!(f, "reader-rejected why=\"{why}\""),
            ReaderEvent::Malformed => f.write_str("reader-rejected why=\"not a question\""),
            ReaderEvent::Replaced => f.write_str("reader-closed why=\"another came\""),
        }
    }
}
