//! Pictures: the image that answers a request for a part of a map, as a file.
//!
//! A [`PictureRequest`] has the layers of a map to show, the box in the map's coordinates, the size
//! in pixels and the background colour; its size and box are within their limits. A request has one
//! view: that of its box or, where box and size are those of a tile of the map's grid, the view
//! that sixteen tiles share. `wf_paint` paints the layers in the view, `wf_label` places the labels
//! in it and draws them over, and a tile is cut out of the result. The file is a pixmap in the raw
//! form of Netpbm's PPM format, without compression: a header in ASCII, then three bytes a pixel,
//! the top row first.
//!
//! Contracts relate a request to the bytes of its file (`specs/Picture.antt`). A picture is a
//! function of column and row, counted from the lower left pixel, and `specs/Image.antt` writes it
//! row by row.
//!
//! - `draw` returns exactly these bytes, unless allocation fails.
//! - `draw_view` and `cut` are the two halves of `draw`, so that a caller may keep the picture
//!   between them: `draw_view` returns the picture of a whole view, and `cut` the image of any
//!   request that has this view, both unless allocation fails.
//! - Each request has exactly one image (`there_is_one_image`).
//! - All tiles of a view are parts of one picture with its labels
//!   (`tiles_are_crops_of_one_picture`). So a label that crosses the border of two tiles is whole
//!   in both together.
//!
//! The crate checks no request: the caller's precondition is that the layers exist. It writes no
//! other format, keeps no picture, and doesn't parse requests.
#![tactic(auto)]

mod image;
mod picture;
mod request;
mod theorem;

pub use picture::{cut, draw, draw_view, view_of};
pub use request::{PictureRequest, Size};
pub use theorem::{there_is_one_image, tiles_are_crops_of_one_picture};
