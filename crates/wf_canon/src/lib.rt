//! Canonical texts: exactly one text for each map definition, and back.
//!
//! A canonical text is a mapfile with one item a line, single spaces, keywords in capitals and
//! every default filled in (MapServer mapfile reference). `specs/Canon.antt` defines it as the
//! lines of a definition, one after the other. Model: a [`Canon`] is its definition.
//!
//! Promises: [`Canon::of`] and [`Canon::from_map`] return exactly the text of their definition.
//! [`Canon::from_bytes`] accepts exactly the canonical texts within the limit, and returns their
//! definition. Theorems about the definitions, for every map within the limits: the canonical text
//! of a map means that map, and two maps with the same text are equal. Not here: which of two
//! mapfiles a user would prefer.
//!
//! Copies of a [`Canon`] share one text and one definition, so whoever needs one takes a copy: it
//! allocates nothing.
//!
//! [`Canon::from_bytes`] first tries the quick reader of wf_spelling, `scan_text`, which accepts
//! canonical texts alone; only where it accepts nothing are the bytes read as any mapfile, written
//! again and compared.
//!
//! wf_spelling defines the canonical text, and writes and scans it.
#![tactic(auto)]

mod canon;
mod equality;
mod theorem;

pub use canon::Canon;
pub use theorem::{
    canonical_text_means_its_map, every_canonical_text_denotes_its_map, limit_of_canonical_texts,
    one_text_one_map,
};
pub use wf_spelling::{CanonFault, MOST_CANON_BYTES};
pub use wf_text::{number_is_read_again, write_number};
