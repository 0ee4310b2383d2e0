//! What stands around the processes of a simulated farm: their hosts, the clients, what those see,
//! and the faults that a seed draws.
//!
//! - [`Host`] has a clock of its own, a folder in memory that outlives its processes
//!   ([`SlowStore`], whose syncs take time, [`Lag`]), and faults that happen to it; [`Machine`] is
//!   the runtime that a process on it is given.
//! - [`Client`] publishes, asks for capabilities and pictures, looks at the operator's port, or
//!   reads the history; [`Ledger`] keeps what was seen, and each [`Violation`] of what a farm
//!   promises. [`Strangers`] connect to where only peers come.
//! - [`Plan`] says how large a farm is and which faults may come, [`Schedule`] draws them from its
//!   seed, and [`Tally`] counts what happened.
//!
//! Which processes there are, and how they are stepped, is not here (`wf_test_simulation`). The
//! functions are proved to be safe and to return, and nothing more.
#![tactic(auto)]

mod client;
mod dice;
mod exchange;
mod host;
mod lag;
mod ledger;
mod machine;
mod names;
mod plan;
mod process;
mod requests;
mod scene;
mod schedule;
mod slow_store;
mod stranger;
mod tally;

pub use client::{Client, REPLICA_ROLES, ROLES, Role};
pub use dice::Dice;
pub use host::{Host, MOST_READY};
pub use lag::Lag;
pub use ledger::{Answers, Ledger, NO_BYTES, Violation, digest_of};
pub use machine::Machine;
pub use names::{Names, init_line};
pub use plan::{Fault, Plan, Relapse};
pub use process::Process;
pub use requests::JOINER_BITS;
pub use scene::Scene;
pub use schedule::{Schedule, Stroke};
pub use slow_store::{Ground, SlowStore, SlowTape};
pub use stranger::{MOST_STRANGERS, Strangers};
pub use tally::Tally;
