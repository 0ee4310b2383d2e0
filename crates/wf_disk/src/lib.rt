//! A disk as a tape sees it: one folder with a file under the tape's own name and one under a
//! second name.
//!
//! Model: of each file the bytes that are synced, those after them that aren't, and whether a sync
//! of it has failed; and the files that a power cut may put back under the own name, until the
//! names are synced (`specs/Folder.antt`). Seven calls; what each leaves, where it succeeds and
//! where it fails, is in `specs/Call.antt`.
//!
//! Promises, of a durable disk: a call leaves what those tables say; a power cut inside a call
//! leaves what one before it or after it could. Of every disk: a failure of the device is counted,
//! and returned only if one was. A `MemoryDisk` is proved to be durable, fails at any call for
//! which a failure was set, and is cut to anything that a power cut may leave. Laws: what is synced
//! is there however a process ends, and a second power cut changes nothing.
//!
//! Not here: what a real disk holds (a `SystemDisk` declares itself not durable), and what the
//! bytes are for (wf_tape).
#![tactic(auto)]

mod disk;
mod failure;
mod fault;
mod file;
mod folder;
mod memory;
mod system;
mod theorem;

pub use disk::Disk;
pub use fault::DiskFault;
pub use folder::Name;
pub use memory::MemoryDisk;
pub use system::{FILE_READS, SystemDisk};
pub use theorem::{
    a_memory_disk_is_cut_to_any_image, a_process_ends_in_an_image, a_second_cut_changes_nothing,
    synced_bytes_stay,
};
