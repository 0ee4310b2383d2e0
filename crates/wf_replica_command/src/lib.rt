//! `wfarm replica`: one thread that asks a farm's nodes for what is published, learns it, and
//! serves the public.
//!
//! [`run`] runs a parsed command line and returns its error, whose `Display` is the line for
//! standard error and whose [`ReplicaFault::status`] is the exit status. [`RunningReplica`] is a
//! replica that [`start_replica`] has started, stepped by its caller over any network and at times
//! that it is handed; `run` steps one over the network of the system. What a replica knows is
//! `wf_replica`'s `Follower`; its clients, its operator's port and its readers' port are those of a
//! node (`wf_ports`).
//!
//! **Promises** (`specs/Done.antt`), however many turns were taken, and however they ended.
//! - The replica's list is what it heard, message after message. If it heard only answers of nodes
//!   of a farm or of replicas of it, that is one of the lists of which `wf_execution`'s
//!   `replicas_agree` says that all are beginnings of one history (`wf_replica`'s
//!   `what_is_learned_is_served`).
//! - Each client that was answered was sent the response of `wf_replica` to exactly what had come
//!   of its request, over the list as it then was: a publish is 404.
//! - The list never went back: that by which a client was answered is a beginning of the next
//!   one's, and of what it is now.
//! - Each question of a reader was replied by the list as it then was (`specs/Readers.antt`).
//! - A durable tape of it has the records of the list, in their order, and nothing else.
//! - Each reply is one to a question that was open, and came whole on the connection where that was
//!   sent: by then replies alone had come there, and only the questions to them had been sent
//!   (`specs/Conversation.antt`). From the list with which it began, reply by reply
//!   (`specs/Heard.antt`): an answer that fits its question is taken whole, as far as memory
//!   allows, and any other, as any rejection, leaves the list as it was.
//! - It ends by itself only where all of its sources, as each last replied, are of another farm or
//!   another history.
//! - Its folder (`wf_store`) is locked first. The tape is opened only once the file `farm` was read
//!   as this replica's, or was written in an empty folder; a folder that it doesn't take is left as
//!   it was (`specs/Start.antt`).
//! - An error of the command line has its cause, and status 2; any other has status 1. The address
//!   in one is that which an option spells. An error of the folder has its cause in what was read
//!   of it (`specs/Start.antt`): of the file `farm` another first line, another kind or another
//!   farm's text; names beside none; or the call that failed.
//!
//! **Doesn't.** What the system does with files, sockets and clocks has no model: that answers
//! come, that a lock keeps others out and what the folder's files hold is tried with the built
//! program.
#![tactic(auto)]

mod asked;
mod clients;
mod command;
mod conversation;
mod event;
mod event_loop;
mod facts;
mod fault;
mod folder;
mod heard;
mod open_question;
mod plan;
mod ready;
mod renderer;
mod replica_loop;
mod running_replica;
mod source;
mod source_connection;
mod start;
mod upstream;

pub use command::run;
pub use event_loop::Turn;
pub use fault::ReplicaFault;
pub use running_replica::{RunningReplica, start_replica};
pub use wf_address::AddressOption;
