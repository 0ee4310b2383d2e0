//! What a power cut leaves of a folder, by the folder's calls.
//!
//! **Model.** `specs/Cut.antt` says, of a list of calls of a folder that was empty before the first
//! one, what a cut now may leave under a name (`MayLeaveNow`), and what one at any moment so far
//! could have left under all names at once (`CouldLeave`). [`DiskStore`] is a folder, a
//! [`wf_store::Store`], on disks in memory that it owns (`specs/Disks.antt`): of its value clauses
//! see the disks, what they were before each call, and the calls.
//!
//! **Promises.** A cut at any moment leaves of a [`DiskStore`] what its calls say
//! ([`DiskStore::cuts_leave_what_calls_say`]): of a file that is replaced the whole bytes from
//! before or the new ones, after the call the new ones alone, and of each other file what it had.
//! So what a function promises of the calls of any folder, it promises of power cuts:
//! `wf_node_folder` has theorems of that kind.
//!
//! **Doesn't.** Of a file that was opened as a tape the tape says what is left (`wf_tape`). Of a
//! folder of the system no clause says that its disks are like these.
#![tactic(auto)]

mod disks;
mod folder;
mod one_disk;
mod store;

pub use folder::DiskStore;
