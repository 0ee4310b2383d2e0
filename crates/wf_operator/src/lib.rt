//! The operator's port of a process that has a history: `GET /healthz`, `/readyz`, `/votez`,
//! `/metrics`, `/map?seq=S`, `/history?from=S` and `/replacements`; `POST /replace/ask`,
//! `/replace/agree` and `/replace/begin`.
//!
//! - [`Operator`] answers what an [`Operated`] tells of itself; other paths are 404, other
//!   methods 405.
//! - [`ReplaceRequest`] is what a node is asked about the replacement of a node, and
//!   [`ReplaceReply`] what it answers.
//! - `metrics` writes metrics in Prometheus' text form, each with what it tells and its type;
//!   `specs/Metrics.antt` has their text. The port itself tells which build a process is. What
//!   processes have in common beyond that is written by [`StartTime`], [`push_sequences`],
//!   [`push_open`], [`push_requests`], [`PictureCounts`] and [`push_tape_bytes`]. [`Behind`] says
//!   whether a process has been behind for too long.
//!
//! **Doesn't.** What is told of health, and which numbers a process gives its metrics, has no
//! model; it is tested with the built program.
#![tactic(auto)]

mod behind;
mod lines;
mod metrics;
mod operator;
mod page;
mod pictures;
mod replacement;
mod request;
mod sequences;
mod start;
mod tape;
mod visits;

pub use behind::Behind;
pub use metrics::{MetricType, counter, gauge, head, seconds};
pub use operator::{Health, Operated, Operator};
pub use pictures::PictureCounts;
pub use replacement::{Proposed, ReplaceReply, ReplaceRequest};
pub use sequences::push_sequences;
pub use start::StartTime;
pub use tape::push_tape_bytes;
pub use visits::{push_open, push_requests};
