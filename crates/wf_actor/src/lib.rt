//! A node in a process of its own: its acts, the messages between it and its peers, and the life
//! that it shows.
//!
//! **Model.** An [`Actor`] is a node, with logs that only proofs read: the tape from which it was
//! opened, the node as it was then, all messages that it returned, and all that it was given, each
//! with its [`Origin`] (`specs/Life.antt`): of a peer's message that is what had come on its
//! connection. A [`Process`] is an actor; its own messages that wait for it; posts that wait to be
//! given to those that they are for; and a log of the runs that have ended (`specs/Process.antt`).
//!
//! **Promises.**
//! - Whatever was called, the node's acts since it was opened are a run of `wf_execution`, from the
//!   bytes that were read of its tape, or that it wrote to it when it moved there
//!   ([`Process::of`]), and end at the node as it is now ([`Process::always_lived`],
//!   [`a_life_is_part_of_a_farm`]). So a loop over a process needs no invariant to say what it did.
//!   A durable tape's content are these bytes; of a file that is a premise.
//! - A post that waits has messages that the node returned, and so has what waits for the node
//!   itself; what is given to the node was returned by it before, or came on a connection from the
//!   peer that it is said to come from, by `wf_wire` ([`Process::always_received`]).
//! - An act is the node's step. Its messages wait in one post, which is dropped if 256 wait
//!   already. The caller gives the first post to the connections of those that it is for
//!   ([`Process::first_post`]), and [`Process::finish_post`] to the node itself, unless its queue
//!   is full. Replies to a Prepare, an Accept or an Ask are for the node that sent it, all other
//!   messages are for every node (`reply_target` of `wf_wire`).
//! - [`Process::deliver`] delivers a message that came from a peer.
//! - [`Process::serve`] answers a client as `wf_edge` does; a publish is an act.
//! - A process whose tape failed returns N5 for each act and sends nothing more. It answers what
//!   reads. [`Process::reopen`] is its next run, on a tape that has what the node had stored, or
//!   that and the record of the step that failed.
//! - Processes of which each shows its life, and hears only what was sent before, are a farm of
//!   `wf_execution` ([`processes_are_a_farm`]).
//! - Node values that processes of a farm ever held respond to equal requests to the map service
//!   with equal bytes, as whole HTTP responses, where they have published equally many maps or are
//!   asked for one map; a 503 for a failed allocation aside ([`processes_respond_alike`],
//!   `specs/Responses.antt`).
//!
//! **Doesn't.** It has no connections, no clock and no sockets, and never blocks: what comes on a
//! connection and is sent on one is `wf_wire`'s.
#![tactic(auto)]

mod actor;
mod backlog;
mod cached;
mod note;
mod parts;
mod process;
mod reopening;
mod service;
mod theorem;

pub use actor::{Actor, Origin};
pub use backlog::{BACKLOG_MESSAGES, Backlog};
pub use cached::CachedNode;
pub use process::Process;
pub use reopening::ReopenFault;
pub use theorem::{
    a_life_is_part_of_a_farm, processes_are_a_farm, processes_respond_alike, runs_receive_their_own,
};
