//! Whose a farm's folder is: the text of its file `farm`, and whether nodes may start on what is
//! there.
//!
//! A folder holds the tapes of one farm, `node-0.tape` and so on, and the file `farm`, which says
//! how many nodes the farm has, whether its tapes began empty, and a mark that no other folder's
//! file has ([`FarmFile`]). [`FarmFile::text`] is its text, [`FarmFile::read`] reads it. [`admit`]
//! decides whether a farm of n nodes may start, by what the file says and which tapes are there.
//!
//! A folder that one node uses, apart from the others, has that node's tape and a file `farm` of
//! its own kind ([`NodeFile`]), with the farm's name ([`FarmName`]), the node, how often it started
//! there, how far it is known to have been ([`Known`]), and who suspended it, if anybody did
//! ([`Suspension`]). [`admit_new`] says where such a folder may be made, [`admit_node`] whether the
//! node may start, [`admit_tape`] whether on a tape that holds so much.
//!
//! Promises: each farm has one text, and the texts that are read are exactly those
//! (`specs/FarmFile.antt`). A start is admitted only where the folder is new, this farm's or taken
//! over, and rejected only for the cause that is returned (`specs/Admission.antt`,
//! `specs/NodeAdmission.antt`). What is known of a node never falls when it is raised
//! (`specs/Reach.antt`).
//!
//! Not here: reading and writing files, and what the tapes hold.
#![tactic(auto)]

mod admission;
mod digest;
mod farm_file;
mod fault;
mod name;
mod node_admission;
mod node_file;
mod node_reader;
mod number;
mod presence;
mod reach;
mod reader;
mod suspension;
mod theorem;
mod vote;
mod word_reader;
mod words;

pub use admission::{FoundFile, Start, StartRejection, admit};
pub use farm_file::{Beginning, FarmFile, mark_digits};
pub use fault::{FileFault, NodeFileFault};
pub use name::{FarmName, NAME_BYTES};
pub use node_admission::{NodeFound, NodeRejection, NotEmpty, admit_new, admit_node, admit_tape};
pub use node_file::NodeFile;
pub use number::{number_digits, push_number, split_number};
pub use presence::Presence;
pub use reach::{HighestVote, Known, Reach};
pub use reader::{after, split_mark};
pub use suspension::{PeerAddress, Suspension};
pub use theorem::{no_node_start_is_admitted_and_rejected, no_start_is_admitted_and_rejected};
pub use vote::{
    higher_promise, higher_vote, is_no_lower, is_no_lower_vote, open_vote, raise_promise,
    raise_vote,
};
pub use word_reader::{split_named, split_reach, split_word};
pub use words::{push_mark_after, push_reach, push_word};
