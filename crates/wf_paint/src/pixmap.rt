//! Pictures as bytes.
ghost use Rattle.std.specs.Prelude.{◌≡◌, ◌<◌, ◌*◌, ◌++◌, IfOk};
ghost use Rattle.wf_paint.specs.Pixmap.{IsPixmap, IsSet, column_of, row_of};

use crate::pixels::Pixels;
use std::alloc::{AllocError, Global};
use std::marker::Model;
use wf_def::Color;
use wf_geometry::Pixel;

/// A picture: three bytes a pixel, red, green and blue, row by row, the top row first.
#[derive(Drop)]
pub struct Pixmap {
    width: u32,
    height: u32,
    pixels: Pixels,
}

impl Model for Pixmap {
    ghost use Rattle.wf_paint.specs.Pixmap.{PixmapValue, IsPixmap};

    ghost Value = { PixmapValue };

    ghost view = { λ p. record { width = p.width; height = p.height; bytes = p.pixels } };

    ghost invariant = { λ p.
        IsPixmap (record { width = p.width; height = p.height; bytes = p.pixels }) };
}

impl Pixmap {
    /// The picture of this size with these pixels.
    pub(crate) fn of(width: u32, height: u32, pixels: Pixels) -> Self
        requires { IsPixmap (record { width = width; height = height; bytes = pixels }) }
        ensures { result ≡ record { width = width; height = height; bytes = pixels } }
    {
        Pixmap {
            width,
            height,
            pixels,
        }
    }

    /// The picture's width in pixels.
    pub fn width(&self) -> u32
        ensures value { result ≡ self.now.width }
        ensures within { IsPixmap self.now }
    {
        self.width
    }

    /// The picture's height in pixels.
    pub fn height(&self) -> u32
        ensures value { result ≡ self.now.height }
        ensures within { IsPixmap self.now }
    {
        self.height
    }

    /// The bytes: three a pixel, the top row first.
    pub fn bytes(&self) -> &[u8]
        ensures value { result.now ≡ self.now.bytes }
        ensures within { IsPixmap self.now }
    {
        self.pixels.as_slice()
    }

    /// The number of pixels.
    pub fn area(&self) -> u32
        ensures value { result ≡ self.now.width * self.now.height }
        ensures within { IsPixmap self.now }
    {
        self.width * self.height
    }

    /// The pixel at an index; indices count row by row from the upper left.
    #[tactic(auto, unfolding(crate::specs::Pixmap::column_of, crate::specs::Pixmap::row_of))]
    pub fn pixel(&self, index: u32) -> Pixel
        requires { index < self.now.width * self.now.height }
        ensures { result ≡ record {
          column = column_of self.now.width index;
          row = row_of self.now.width self.now.height index;
        } }
    {
        Pixel {
            column: index % self.width,
            row: self.height - 1 - index / self.width,
        }
    }

    /// Sets the pixel at an index to the colour; indices count row by row from the upper left.
    pub fn set(&mut self, index: u32, color: Color)
        requires { index < self.old.width * self.old.height }
        ensures { IsSet index color self.old self.new }
    {
        self.pixels.write(index, color);
    }

    /// The bytes after a head, in one buffer. A picture that was painted with room for a head of
    /// this length isn't copied. Returns Ok unless allocation fails.
    pub fn into_file(self, alloc: Global, head: &[u8]) -> Result<Vec<u8>, AllocError>
        ensures { IfOk result (λ file. file.items ≡ head.now ++ self.bytes) }
    {
        let Pixmap { pixels, .. } = self;
        pixels.into_file(alloc, head)
    }
}
