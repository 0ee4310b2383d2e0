//! Theorems about what the end of a process leaves in a folder: it is killed, or the power is cut.

ghost use Rattle.wf_disk.specs.FolderTheorems.{EndsInAnImage, SyncedBytesStay, CutsOnce, IsCutToAny, ends_in_an_image, synced_bytes_stay, cuts_once};

/// However a process ends, the own file then has what a power cut may leave.
#[tactic(auto, using(crate::specs::FolderTheorems::ends_in_an_image))]
pub fn a_process_ends_in_an_image()
    ensures { EndsInAnImage }
{}

/// A synced file has its bytes, and no others, however a process ends.
#[tactic(auto, using(crate::specs::FolderTheorems::synced_bytes_stay))]
pub fn synced_bytes_stay()
    ensures { SyncedBytesStay }
{}

/// After a power cut, a second one changes nothing of the bytes.
#[tactic(auto, using(crate::specs::FolderTheorems::cuts_once))]
pub fn a_second_cut_changes_nothing()
    ensures { CutsOnce }
{}

/// A `MemoryDisk` is cut (`MemoryDisk::cut`) to whatever a power cut may leave.
#[tactic(auto, using(crate::specs::FolderTheorems::is_cut_to_any))]
pub fn a_memory_disk_is_cut_to_any_image()
    ensures { IsCutToAny }
{}
