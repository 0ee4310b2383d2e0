//! What programs log of their folders and the tapes in them: `wfarm serve`, `wfarm node` and
//! `wfarm replica`.
//!
//! A [`FolderEvent`] is a `LogEntry` of `wf_visitors`, so that a `Log` writes it as a line.
//!
//! It promises nothing: no contract says what the lines are.
#![tactic(auto)]

mod event;

pub use event::FolderEvent;
