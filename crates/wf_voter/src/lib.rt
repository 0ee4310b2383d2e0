//! A node's process as a turn of its loop acts on it: when it acts, what it is given, how it
//! answers clients, and how its run ends and the next begins. `wf_loop` is above.
//!
//! - [`Voter`] is the process, with whether it acts ([`Gate`](wf_membership::Gate)), and what it
//!   has of what was heard of the peers. [`retry`], [`handle_own`], [`deliver`], [`finish_post`]
//!   and [`ask`] are all that is done to it, beside answers to clients; [`begin_run`] begins its
//!   next run, which [`Voter::next_run`] opens.
//! - [`Clients`] are the clients of a node, over any network (`wf_sockets`).
//! - [`NodeFolder`] is what a node asks of its folder while it runs, [`NotReopened`] why it doesn't
//!   open its tape again.
//! - [`reach_of`] says how far a node is, [`told_votes`] which votes its peers are told of.
//!
//! **Promises.** By each of these the process goes on in its run, and nothing of a suspended node
//! changes (`specs/Continuation.antt`). A message of a peer is given to it only where it acts, or
//! is one of those that a node takes in that is outvoted or joins, and once the round and the
//! promise that it tells are in the file `heard`. Each response that a client was sent is the one
//! of `wf_edge` to exactly the bytes that had come from it, by this process as it was then
//! (`specs/Answer.antt`, `specs/Lived.antt`). A run follows one whose tape had failed, as the node
//! that it was.
//!
//! **Doesn't.** It has no connections with peers and no clock: when it acts, and what is posted to
//! whom, is decided above.
#![tactic(auto)]

mod acts;
mod answers;
mod clients;
mod next_run;
mod reach;
mod reopening;
mod voter;

pub use acts::{ask, begin_run, deliver, finish_post, handle_own, retry};
pub use clients::Clients;
pub use reach::{reach_of, told_votes};
pub use reopening::{NextRun, NodeFolder, NotReopened, TapeNotReopened};
pub use voter::Voter;
pub use wf_actor::Process;
