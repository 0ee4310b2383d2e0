//! The check of a mapfile, for whoever wrote it: its first error with its line, what was found
//! there and what is allowed there.
//!
//! Model: a file is its bytes, as for the reader ([`wf_mapfile::read`]). A [`Finding`] is an error
//! with the line of its byte offset.
//!
//! Promises, of [`check`]: there is no finding exactly where the bytes mean a map whose canonical
//! text is within the limit, so that a farm publishes it. A finding's error is the reader's, or K1
//! where the canonical text is too long; its offset is the error's, and its line and column are
//! those of the offset (`specs/NumberedLine.antt`, `specs/Finding.antt`). M9, M11 and K1 have no
//! offset: they are at a LAYER up to which the file, closed, is a map (for K1 one that a farm
//! publishes), while up to the next LAYER it isn't; or likewise at a CLASS or FEATURE in it; or at
//! the front of the file. A report has the finding's line, column and error, and a message
//! (`specs/Message.antt`): in a block between its keywords it names exactly those of the block's
//! reader (`keywords_of` of wf_mapfile). As JSON it is a line of exactly the object that
//! `specs/Json.antt` says, with such a message. Tested and not proved: the rest of a message. Not
//! here: whether the map is a good one.
//!
//! In which block and at which keyword the reader was is its own word (`Place` of wf_block), and
//! the bytes of a canonical text are the writer's count (wf_spelling).
//!
//! Modules: `inspection` is the check, `finding` and `fault` are what it finds; `line` finds the
//! line of an offset, `place` the place of an error without one. `finding_report` is a finding's
//! text, `json` the line of JSON; `message` with `bad_token`, `excess` (of K1) and `shown`. `skim`
//! has what begins and ends in a file, by the keywords of each block (wf_mapfile).
#![tactic(auto)]

mod bad_token;
mod excess;
mod fault;
mod finding;
mod finding_report;
mod inspection;
mod json;
mod line;
mod message;
mod place;
mod shown;
mod skim;

pub use fault::CheckFault;
pub use finding::Finding;
pub use finding_report::report;
pub use inspection::{check, no_map_with_an_error_is_publishable};
pub use json::report_as_json;
pub use line::NumberedLine;
pub use message::MOST_COUNTED_BYTES;
