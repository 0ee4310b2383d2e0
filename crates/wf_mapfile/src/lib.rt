//! The mapfile reader: from bytes to a map definition, or to the first error from the left.
//!
//! A mapfile is a text (MapServer mapfile reference, the part of it that `specs/Meaning.antt`
//! defines). Model: `meaning` of the bytes, the definition that they mean or none. `meaning` is a
//! grammar over tokens; a definition has no comments, letter case, keyword order or dropped
//! keywords. Metadata is a list of pairs, of a key and a value (METADATA, WEB): the values under
//! three keys are kept (OGC 06-042 7.2.4.2), the others are checked and dropped. Keys are compared
//! without regard to ASCII letter case, and none comes twice.
//!
//! Promises, of [`read`]: if it returns a map, that map is what the bytes mean; if it returns an
//! error other than allocation failure, the bytes mean no map, and the error is theirs as far as
//! `specs/Rejection.antt` says which. It looks at each byte a bounded number of times. Which of the
//! other errors is returned, and each other offset, is tested and not proved. Not here: files, and
//! how a definition is written (wf_canon).
//!
//! Modules: `map` and `layer`, the blocks that hold all others, with `web` and `metadata`, whose
//! keywords fill their slots in `slots`; `reader`, the whole file; `keywords`, those of each block
//! with what each takes, for reports. The readers of tokens and of any block are in wf_block, CLASS
//! with STYLE and LABEL in wf_class, FEATURE and the layers so far in wf_feature. The error is
//! re-exported; [`read_with_place`] returns it with the block and the keyword where it was found.
#![tactic(auto)]

mod keywords;
mod layer;
mod map;
mod metadata;
mod reader;
mod slots;
mod web;

pub use keywords::{Keyword, Takes, keyword_of, keywords_of};
pub use reader::{MOST_MAPFILE_BYTES, Rejection, limit_of_mapfiles, read, read_with_place};
pub use wf_block::{Block, MapFault, Place};
pub use wf_feature::layer_names_are_tested;
