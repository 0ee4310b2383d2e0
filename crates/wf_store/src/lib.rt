//! The folder of a farm, a node or a replica, as the one process that uses it sees it.
//!
//! A [`Store`] is a folder with files of known names ([`FileName`]). Its calls: [`Store::make`] and
//! [`Store::lock`] of the folder, [`Store::is_same`] (whether the folder at its path is still the
//! one that is locked), [`Store::count_names`], [`Store::draw`] of random bits; of a file
//! [`Store::presence`], [`Store::length`], [`Store::read`], [`Store::open`] and
//! [`Store::open_existing`] as a tape, and [`Store::replace`]. [`SystemStore`] is a folder of the
//! system; [`MemoryStore`] is one in memory, in a [`MemoryFolder`] that outlives it, whose disks
//! fail where that was set, and whose power is cut.
//!
//! **Model.** What a clause sees of any store is the list of its calls ([`Calls`],
//! `specs/Call.antt`): in which order they were made, what was read, what was written or was to be.
//! `changes` of it are those that changed a file, or may have. [`read_file`], [`file_length`],
//! [`is_folder`] and [`probe_file`] are about what is at any path.
//!
//! **Promises.** Each call is noted, with the bytes that were read or left, and an error is one of
//! those that its call has, of the file that it was about (`specs/Fault.antt`); a call that reads
//! changes no file. A file is replaced whole by [`replace_on`], over any disk: of a durable one a
//! power cut at any moment leaves the bytes from before or the new ones, and once it has returned
//! the new ones alone.
//!
//! **Doesn't.** What the system does with files and locks has no model: that what is read stands in
//! the file, that a lock keeps others out, and that two folders with one device and number are the
//! same are premises. Nor has what a cell contains: the clauses of a folder in memory are those on
//! its calls, and what a cut leaves of it is tested.
#![tactic(auto)]

mod at_path;
mod call_kind;
mod calls;
mod fault;
mod file_name;
mod memory;
mod memory_folder;
mod new_file;
mod replacement;
mod shared_disk;
mod store;
mod system;
mod system_file;
mod system_folder;

pub use at_path::{ProbeFault, file_length, is_folder, probe_file, read_file};
pub use call_kind::CallKind;
pub use calls::Calls;
pub use fault::FolderFault;
pub use file_name::{FileName, path_in};
pub use memory::MemoryStore;
pub use memory_folder::MemoryFolder;
pub use replacement::replace_on;
pub use shared_disk::SharedDisk;
pub use store::Store;
pub use system::SystemStore;
