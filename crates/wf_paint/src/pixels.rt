//! The bytes of pixels: three each, red, green and blue, in a buffer that may have room before them
//! for the head of a file.
ghost use Rattle.std.specs.Prelude.{◌≡◌, ◌≤◌, ◌<◌, ◌+◌, ◌*◌, ◌^◌, ◌++◌, drop, length, IfOk};
ghost use Rattle.wf_paint.specs.Cells.{IsPlain, IsPixelWritten};

use std::alloc::{AllocError, Global};
use std::marker::Model;
use wf_def::Color;

/// How many pixels are copied at once.
const BLOCK_PIXELS: u32 = 1_024;

/// The bytes of a block.
const BLOCK_BYTES: usize = 3 * BLOCK_PIXELS as usize;

/// The largest room.
const MOST_ROOM: [u8; 255] = [0; 255];

/// Bytes of pixels, after room for other bytes. Seen as the bytes of the pixels alone.
#[derive(Drop)]
pub(crate) struct Pixels {
    /// How many of the first bytes are no pixel's.
    room: u8,
    bytes: Vec<u8>,
}

impl Model for Pixels {
    ghost use Rattle.std.specs.Prelude.{◌≤◌, ℕ, List, drop, length};

    ghost Value = { List ℕ };

    ghost view = { λ p. drop p.room p.bytes.items };

    ghost invariant = { λ p. p.room ≤ length p.bytes.items };
}

impl Pixels {
    /// So many pixels of the colour. They are copies of a block, since a copy of bytes is faster
    /// than a write of each pixel.
    pub(crate) fn plain(
        alloc: Global,
        room: u8,
        count: u32,
        color: Color,
    ) -> Result<Self, AllocError>
        requires { count ≤ 2 ^ 20 }
        ensures { IfOk result (λ pixels. IsPlain count color pixels) }
    {
        let bytes = plain_bytes(alloc, room, count, color)?;
        Ok(Pixels { room, bytes })
    }

    /// The bytes of the pixels.
    pub(crate) fn as_slice(&self) -> &[u8]
        ensures { result.now ≡ self.now }
    {
        &self.bytes[self.room as usize..]
    }

    /// Writes the pixel at an index.
    #[tactic(auto, using(crate::proofs::PlainLemmas::within_all))]
    pub(crate) fn write(&mut self, index: u32, color: Color)
        requires { 3 * index + 2 < length self.old }
        ensures { IsPixelWritten index color self.old self.new }
    {
        let start = self.room as usize + 3 * index as usize;
        self.bytes[start] = color.r;
        self.bytes[start + 1] = color.g;
        self.bytes[start + 2] = color.b;
    }

    /// The bytes after a head, in one buffer: where there is room for a head of this length, in the
    /// pixels' own.
    pub(crate) fn into_file(self, alloc: Global, head: &[u8]) -> Result<Vec<u8>, AllocError>
        ensures { IfOk result (λ file. file.items ≡ head.now ++ self) }
    {
        let Pixels { room, bytes } = self;
        if head.len() == room as usize {
            Ok(with_head(bytes, head))
        } else {
            concatenate(alloc, head, &bytes[room as usize..])
        }
    }
}

/// So many pixels of the colour, after `room` bytes.
fn plain_bytes(alloc: Global, room: u8, count: u32, color: Color) -> Result<Vec<u8>, AllocError>
    requires { count ≤ 2 ^ 20 }
    ensures room { IfOk result (λ bytes. room ≤ length bytes.items) }
    ensures pixels { IfOk result (λ bytes. IsPlain count color (drop room bytes.items)) }
{
    let block = block_of(color);
    let (blocks, rest) = (count / BLOCK_PIXELS, count % BLOCK_PIXELS);
    let mut bytes = Vec::with_capacity(alloc, room as usize + 3 * count as usize)?;
    bytes.extend_from_slice(&MOST_ROOM[..room as usize])?;
    for _ in 0..blocks {
        bytes.extend_from_slice(&block)?;
    }
    bytes.extend_from_slice(&block[..3 * rest as usize])?;
    Ok(bytes)
}

/// A block of the colour.
fn block_of(color: Color) -> [u8; BLOCK_BYTES]
    ensures { IsPlain 1024 color result }
{
    let mut block = [0; BLOCK_BYTES];
    for index in 0..BLOCK_PIXELS {
        let start = 3 * index as usize;
        block[start] = color.r;
        block[start + 1] = color.g;
        block[start + 2] = color.b;
    }
    block
}

/// The bytes, with the head in place of as many of the first.
fn with_head(bytes: Vec<u8>, head: &[u8]) -> Vec<u8>
    requires { length head.now ≤ length bytes.items }
    ensures { result.items ≡ head.now ++ drop (length head.now) bytes.items }
{
    let mut bytes = bytes;
    for index in 0..head.len() {
        bytes[index] = head[index];
    }
    bytes
}

/// The head and the bytes after it, copied.
fn concatenate(alloc: Global, head: &[u8], bytes: &[u8]) -> Result<Vec<u8>, AllocError>
    ensures { IfOk result (λ file. file.items ≡ head.now ++ bytes.now) }
{
    let mut file = Vec::with_capacity(alloc, head.len() + bytes.len())?;
    file.extend_from_slice(head)?;
    file.extend_from_slice(bytes)?;
    Ok(file)
}
