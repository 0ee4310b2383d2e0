//! CLASS of a mapfile, with STYLE and LABEL: which features are drawn, and how.
//!
//! A class has the text or the list that a feature's attribute is compared with, styles and a label
//! (MapServer mapfile reference, CLASS, STYLE, LABEL, COLOR). Model: a reader is a function from a
//! list of tokens to the value at its front and the tokens after it, or none (`class` of
//! `specs/Class.antt`, and so on). Each block is defined by the table of its keywords, each of
//! which fills its slot in `slots`.
//!
//! Promises, of [`read_class`] and [`read_color`]: the value that is returned is what the tokens
//! mean; an error other than allocation failure is returned only if they mean nothing. Which error,
//! and its byte offset, is tested and not proved. Not here: how a block is read keyword by keyword
//! (wf_block), and which feature is in a class (wf_def).
#![tactic(auto)]

mod class;
mod color;
mod label;
mod slots;
mod style;

pub use class::read_class;
pub use color::read_color;
