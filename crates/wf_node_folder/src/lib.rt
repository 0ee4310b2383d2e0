//! The folder of a node in a process of its own: `wfarm init` makes it, `wfarm node` starts on it
//! and writes to it while the node runs, `wfarm clear` ends a suspension. `wf_node_command` is
//! above.
//!
//! - [`init_folder`] makes a folder, a [`wf_store::Store`], [`start_node`] starts a node on one,
//!   and [`clear_folder`] clears one. [`CommandFault`] is the error of each: its `Display` is the
//!   line for standard error, and [`CommandFault::status`] the exit status.
//! - [`ReadyNode`] is a node that has started and isn't served yet, [`HeldFolder`] the folder of
//!   one that runs.
//!
//! **Promises**, of the calls of the folder in their order (`specs/Start.antt`, `specs/Made.antt`,
//! `specs/Cleared.antt`).
//! - A start locks the folder first. It begins only where the file `farm` that was read is a
//!   node's, of a farm of as many nodes as addresses are listed, and its tape is there: never on an
//!   empty or an unknown folder. The files `replaced` and `joins` are read next, and are what it
//!   goes by (`specs/Ready.antt`): a bad one is an error. The tape is read, compared with what the
//!   file `farm` says is known of the node, and then opened; the start is counted last, once the
//!   file `heard` was read, of which what was heard of folders that others have replaced is left
//!   out. Its node was opened in memory, as that node of that farm, on the bytes that were read,
//!   without zeros that were never synced (`wf_recovery`): it had stored what they stand for. Then
//!   it moved to its tape, of which nothing is read: its records replace what that held, in one
//!   call. If the tape is durable, whatever a crash leaves stands for what the node had stored.
//! - A start that is rejected by what its tape holds has changed no file of the folder. A tape is
//!   called damaged only where the bytes that were read of it are (`specs/Damage.antt`): at the
//!   offset of the error, behind its records, is something bad that isn't zeros that were never
//!   synced, or there is a record that doesn't fit. A bad file `heard` is an error.
//! - While the node runs, no tape is made or put in the place of another, and a file is opened or
//!   written only where the folder at its path has been seen to be the one that is locked
//!   (`specs/Folder.antt`). What is put in the place of `farm` never says that less is published
//!   (`specs/FarmPut.antt`), and a folder ceases to join only where it may vote
//!   (`specs/Joined.antt`).
//! - `init` makes and locks a folder without names, draws its mark, and leaves a tape that is
//!   empty, or one on which that node opens; with `--replace` an empty one, and then the file
//!   `joins` with that mark; and then the file of a node of that number, farm and name that never
//!   started: these files, in this order.
//! - `clear` locks the folder, forgets what was heard, and then writes the file that it read
//!   without its suspension.
//! - Wherever the power is cut while `init` makes a folder, there is no file `farm`, or all is
//!   there ([`made_folders_are_whole`]). Wherever it is cut then, in `clear`, in a start that would
//!   come to serve, or while a node is served, each of the files `farm`, `heard`, `replaced` and
//!   `joins` is absent or whole, and the next start reads it back ([`cut_folders_are_read_back`],
//!   `specs/PowerCut.antt`; `wf_power_cuts` has what a cut leaves). What it leaves of the tape of a
//!   start, if that is durable, holds all that either file `farm` says
//!   ([`started_folders_start_again`]). What it leaves of `farm` while a node is served says no
//!   less than what was put there last ([`farm_files_are_kept`]).
//! - Each error has its cause, and its status: 2 where the command line is bad, else 1.
//!
//! **Doesn't.** What the system does with files has no model: that its lock holds, and that what is
//! read is what was written. What another program writes to a tape between its reading and its
//! opening is replaced. The tape of `--from`, and the file beside it, are of another folder, and
//! are read by their paths: of an error of them it is known that bytes were read that cause it, and
//! no call notes which. Where a tape failed, a start tries a second copy of it for the system's
//! cause (`node-I.tape.new`, which is removed).
#![tactic(auto)]

mod addresses;
mod clear;
mod fault;
mod folder;
mod from;
mod from_rejection;
mod held;
mod held_state;
mod init;
mod node;
mod read_node;
mod ready;
mod replacement_fault;
mod replacement_files;
mod running;
mod settled;
mod tape;
mod theorem;

pub use clear::clear_folder;
pub use fault::CommandFault;
pub use from_rejection::FromRejection;
pub use held::HeldFolder;
pub use init::init_folder;
pub use node::start_node;
pub use ready::ReadyNode;
pub use replacement_fault::ReplacementFault;
pub use theorem::{
    cut_folders_are_read_back, farm_files_are_kept, made_folders_are_whole,
    started_folders_start_again,
};
pub use wf_address::AddressOption;
