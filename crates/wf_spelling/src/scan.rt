//! The quick reader: canonical text read in one pass, piece by piece, in the order in which the
//! writer writes it.
//!
//! It accepts canonical texts alone, but not all that it could: where it returns `None`, the
//! general reader decides.

mod class;
mod cursor;
mod feature;
mod layer;
mod line;
pub(crate) mod map;
mod number;
