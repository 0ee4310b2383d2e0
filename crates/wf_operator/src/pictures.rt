//! How many pictures clients were answered with.

use crate::metrics::counter;
use std::alloc::AllocError;

/// The front of a response that is a picture.
const PICTURE: &[u8] = b"HTTP/1.1 200 OK\r\nContent-Type: image/";

/// How many pictures clients were answered with: those that were drawn, and the tiles that were cut
/// out of a cached picture.
#[derive(Clone, Copy, Default)]
pub struct PictureCounts {
    drawn: u64,
    cached: u64,
}

impl PictureCounts {
    /// Counts a response, if it is a picture, and whether that is a tile of a cached one.
    pub fn note(&mut self, response: &[u8], is_cached: bool) {
        if !response.starts_with(PICTURE) {
            return;
        }
        if is_cached {
            self.cached = self.cached.saturating_add(1);
        } else {
            self.drawn = self.drawn.saturating_add(1);
        }
    }

    /// Appends the counts as metrics, and how many pictures weren't cached. The only error is
    /// allocation failure.
    pub fn push_to(&self, text: &mut String, unkept: u64) -> Result<(), AllocError> {
        counter(
            text,
            "wfarm_pictures_total",
            "Pictures that were drawn for a client",
            self.drawn,
        )?;
        counter(
            text,
            "wfarm_cached_tiles_total",
            "Tiles that were cut out of a cached picture",
            self.cached,
        )?;
        counter(
            text,
            "wfarm_unkept_pictures_total",
            "Pictures that were drawn and not cached, since an allocation failed",
            unkept,
        )
    }
}
