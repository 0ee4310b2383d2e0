//! What a node knows of its peers: the greeting with which each connects, whether it is let in, and
//! what was last heard of it.
//!
//! Nodes in processes of their own greet each other before they send messages. A [`Greeting`] says
//! which farm and node a peer is, and its [`Progress`]: its folder's mark, how often it started,
//! the mark of this start, the highest round that it tried, its promise, its highest vote and its
//! last published sequence; what it does now ([`NodeState`]); and which lost nodes were replaced,
//! as far as it knows (`wf_rejoin::Replacements`), with the highest sequence at which it has a
//! vote. [`admit`] lets a peer in or says why not ([`PeerRejection`]): a folder that isn't the
//! node's by what is known of replacements is rejected as one that joins, that is newer than was
//! told, or that is retired. [`PeerProgress`] keeps the progress that was last heard of each peer,
//! raised by each greeting and each message that comes from it, what the peer was accused of, and
//! its text for a file. A sound node's progress never falls, since each record is synced before a
//! message tells of it: a later start that says less than was heard lost its disk, or runs on a
//! copy. Of a folder whose place another one has taken nothing is kept ([`PeerProgress::without`]).
//! Within one start nothing is compared, since what a node says on two connections comes in any
//! order. [`is_from`] says who may send a message.
//!
//! Promises: each greeting and each reply to one has exactly one encoding, and nothing else is
//! decoded as it (`specs/Greeting.antt`); [`greeting_length`] and [`reply_length`] say how far a
//! reader may read before it decodes, and two greetings with which the same bytes begin are as long
//! ([`greetings_are_as_long`]). A peer is let in iff it meets the definition, and a cause
//! that is returned is one (`specs/Admission.antt`). What was heard never falls
//! (`specs/Progress.antt`, `specs/Sender.antt`), and has exactly one text
//! (`specs/PeerProgressText.antt`). Whatever a node handled and however often it restarted, its
//! next transition's messages tell no more of it than is stored by then (`specs/Reported.antt`).
//!
//! Not here: connections, who is at an address, files, and time.
#![tactic(auto)]

mod admission;
mod decoder;
mod encoder;
mod fault;
mod greeting;
mod heard;
mod hindrance;
mod peer_progress;
mod peer_progress_reader;
mod peer_progress_text;
mod progress;
mod reach;
mod rejection;
mod replaced_decoder;
mod reply;
mod sender;
mod state;
mod theorem;
mod told;

pub use admission::{Own, admit};
pub use decoder::{decode, greeting_length};
pub use encoder::encode;
pub use fault::{GreetingFault, PeerProgressFault};
pub use greeting::{GREETING_BYTES, Greeting, PEER_VERSION};
pub use heard::Heard;
pub use hindrance::hindrance_of;
pub use peer_progress::PeerProgress;
pub use progress::Progress;
pub use rejection::PeerRejection;
pub use reply::{GreetingReply, REJECTION_BYTES, decode_reply, encode_rejection, reply_length};
pub use sender::is_from;
pub use state::NodeState;
pub use theorem::{greetings_are_as_long, no_less_is_transitive, steps_report_no_more};
