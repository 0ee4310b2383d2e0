//! The canonical text of a map: its definition, how it is written, and a quick reader of it.
//!
//! A canonical text is a mapfile with one item a line, single spaces, keywords in capitals and
//! every default filled in (MapServer mapfile reference). `specs/Canon.antt` defines it as the
//! lines of a definition, one after the other. wf_block defines how tokens are written on a line,
//! wf_text how a number is written.
//!
//! Promises: [`text_of`] returns exactly the text of its definition. [`text_length`],
//! [`layer_length`] and [`features_length`] count its bytes, also of a text that is too long.
//! [`scan_text`] accepts canonical texts alone, and returns their definition. Not here: whether
//! bytes that the scanner leaves are a canonical text (wf_canon decides it).
//!
//! Modules: `draft` is a text while it is written, `line` writes the lines of one item; `class`,
//! `feature`, `layer` and `writer` write blocks of lines; `text` writes a whole text, `length`
//! counts one; `scan` reads them, in files of the same names.
#![tactic(auto)]

mod class;
mod draft;
mod fault;
mod feature;
mod layer;
mod length;
mod line;
mod number;
mod scan;
mod text;
mod writer;

pub use fault::CanonFault;
pub use length::{features_length, layer_length, text_length};
pub use scan::map::scan_text;
pub use text::{MOST_CANON_BYTES, text_of};
