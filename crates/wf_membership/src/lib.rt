//! What a node goes by while its process runs, and its peers' connections too: words that
//! `wf_voter` and `wf_peer_connections` share, which are proved side by side.
//!
//! - [`Membership`] is what it goes by of replacements, constant for a run; [`Gate`] says whether
//!   it acts.
//! - [`FolderError`] says why a file of its folder isn't read or written.
//! - [`Tally`] counts the maps that it rejected, for its metrics.
//!
//! **Promises.** An error names the file that is the cause, if a file is
//! (`specs/FolderErrors.antt`).
//!
//! **Doesn't.** When a node acts is decided in `wf_peer_connections`, and what follows from that is
//! said in `wf_voter`. What is counted has no clause.
#![tactic(auto)]

mod error_file;
mod folder_error;
mod gate;
mod membership;
mod tally;

pub use folder_error::FolderError;
pub use gate::Gate;
pub use membership::Membership;
pub use tally::Tally;
