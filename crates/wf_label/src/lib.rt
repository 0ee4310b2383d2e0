//! Labels: the texts of a map's features, where they are placed and how their letters look.
//!
//! A feature whose class has a label may have a text. The text is drawn in a box of whole pixels
//! beside the middle of the feature's first part, as the view shows it. Labels have an order. A
//! label is placed iff its box lies whole in the view and, if the label isn't forced, its box
//! widened by the label's buffer overlaps no box of a label placed before it. Contracts see a label
//! as the record of `specs/Placed.antt` and a picture as `wf_paint` does; the placed labels are the
//! one set of `specs/LabelLayout.antt`.
//!
//! - [`candidates`] returns all labels in label order, unless allocation fails.
//! - [`place`] returns the placed set in that order, unless allocation fails.
//! - [`glyph`] returns the rows of the table.
//! - [`draw_labels`] changes exactly the pixels that a letter inks. Where letters of two labels
//!   overlap, the label that comes first in the order shows.
//!
//! Labels are placed in the whole view, never in a part of it. The crate has one alphabet of
//! capitals, digits and three marks, draws every other character as a filled cell, and doesn't
//! rotate text.
//!
//! Three theorems in `theorem` say why that is right. Any labels in any view have exactly one
//! placed set. What `candidates` returns has every label once, sorted by priority, layer and
//! feature, and no other list is so. A label inks exactly the squares of the bits that its
//! characters' glyphs set, all of them in its box.
#![tactic(auto)]

mod draw;
mod feature_anchor;
mod fill;
mod glyphs;
mod ink;
mod label_order;
mod limits;
mod overlap;
mod placed;
mod placement;
mod position;
mod scale;
mod taken;
mod text;
mod theorem;

pub use draw::draw_labels;
pub use glyphs::glyph;
pub use label_order::candidates;
pub use limits::constants_are_the_limits;
pub use placed::Placed;
pub use placement::place;
pub use theorem::{
    boxes_overlap_where_they_share, candidates_are_sorted, letters_ink_their_set_bits,
    there_is_one_placed_set,
};
