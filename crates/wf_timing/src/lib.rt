//! Time as pure functions of a clock's value: when something is due, how long to wait before
//! another try, and which peer to ask next.
//!
//! A moment is a number of milliseconds of a clock that the caller reads and that never goes back;
//! no call reads one. An [`Alarm`] is due from a moment on, a [`Ticker`] once a period. A
//! [`Backoff`] is the wait before the next try, which doubles up to a limit; [`retry_of`] is that
//! of a node's running proposal, which differs from node to node, so that two proposers don't go on
//! overtaking each other. [`CatchUp`] says which peer a node asks for the definitions that it
//! lacks.
//!
//! Promises: each result is the one of its definition (`specs/`), at any moments. After equally
//! many tries, two nodes' waits before a retry are at least 40 ms apart. No call allocates or
//! fails.
//!
//! Not here: the clock, and that anything is called in time.
#![tactic(auto)]

mod alarm;
mod backoff;
mod catch_up;
mod silence;
mod theorem;
mod ticker;

pub use alarm::Alarm;
pub use backoff::{Backoff, retry_of};
pub use catch_up::{CatchUp, PendingQuestion, WHOLE_ANSWER};
pub use silence::{SILENCE, is_silent};
pub use theorem::retries_differ_by_node;
pub use ticker::{SECOND, Ticker};
