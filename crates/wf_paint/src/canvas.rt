//! A picture while it is painted, from the last operation to the first. A word has a bit for each
//! of 64 pixels, set where the pixel is free, so one test passes over all painted pixels of a word.
ghost use Rattle.std.specs.Prelude.{◌≡◌, ◌≤◌, ◌<◌, ◌*◌, ◌+◌, ◌/◌, ◌-◌, ◌^◌, ℕ, true, false, length, slice_index, nat_lt, IfOk};
ghost use Rattle.std.specs.Int.{bit_at};
ghost use Rattle.wf_geometry.specs.Limit.{most_pixels};
ghost use Rattle.wf_paint.specs.Cells.{IsCells, HasFreeBit, IsRangePainted, ArePainted, AreBlocks, IsSized, is_free};
ghost use Rattle.wf_paint.specs.Canvas.{IsCanvas, IsBlank, IsFull, HasFree, IsAlike, IsFinished, IsBoxPainted};
ghost use Rattle.wf_paint.specs.Shown.{IsColored, is_in_run};

use crate::pixels::Pixels;
use crate::pixmap::Pixmap;
use std::alloc::{AllocError, Global};
use std::marker::Model;
use wf_def::Color;

/// The width and height of a block, in pixels. A word has the bits of all blocks of its rows.
pub(crate) const BLOCK_SIDE: u32 = 16;

/// How many rows of blocks the highest picture has.
const BLOCK_ROWS: usize = 64;

/// A picture that records which pixels are painted. A painted pixel keeps its colour; the bytes of
/// a free one are the background's, so that a canvas is a picture at any time.
#[derive(Drop)]
pub(crate) struct Canvas {
    width: u32,
    height: u32,
    background: Color,
    pixels: Pixels,
    /// A bit for each pixel, set where it is free, from the lowest bit of a word on. Bits after the
    /// last pixel are clear.
    free: Vec<u64>,
    /// So many of the first words have no free pixel.
    known: u32,
    /// A word for each 16 rows, from the bottom, with a bit for each 16 columns: clear where all
    /// pixels of that block are known to be painted.
    blocks: Vec<u64>,
}

impl Model for Canvas {
    ghost use Rattle.wf_paint.specs.Canvas.{CanvasValue, IsCanvas};

    ghost Value = { CanvasValue };

    ghost view = { λ c. record {
      width = c.width;
      height = c.height;
      background = c.background;
      bytes = c.pixels;
      free = c.free.items;
      known = c.known;
      blocks = c.blocks.items;
    } };

    ghost invariant = { λ c. IsCanvas (record {
      width = c.width;
      height = c.height;
      background = c.background;
      bytes = c.pixels;
      free = c.free.items;
      known = c.known;
      blocks = c.blocks.items;
    }) };
}

impl Canvas {
    /// A canvas of this size, 1 to 1,024 pixels on each side, with all pixels free, and with room
    /// for so many bytes before the picture's. Returns Ok unless allocation fails.
    pub(crate) fn plain(
        alloc: Global,
        room: u8,
        width: u32,
        height: u32,
        background: Color,
    ) -> Result<Self, AllocError>
        requires width_least { 1 ≤ width }
        requires width_most { width ≤ most_pixels }
        requires height_least { 1 ≤ height }
        requires height_most { height ≤ most_pixels }
        ensures { IfOk result (λ c. IsBlank width height background c) }
    {
        let area = width * height;
        let blocks = vec![in alloc; u64::MAX; BLOCK_ROWS]?;
        Ok(Canvas {
            width,
            height,
            background,
            pixels: Pixels::plain(alloc, room, area, background)?,
            free: free_words(alloc, area)?,
            known: 0,
            blocks,
        })
    }

    /// The picture's width in pixels.
    pub(crate) fn width(&self) -> u32
        ensures value { result ≡ self.now.width }
        ensures within { IsCanvas self.now }
    {
        self.width
    }

    /// The picture's height in pixels.
    pub(crate) fn height(&self) -> u32
        ensures value { result ≡ self.now.height }
        ensures within { IsCanvas self.now }
    {
        self.height
    }

    /// Both sides are 1 to 1,024 pixels. A caller can't see the invariant that says so. The call
    /// does nothing.
    pub(crate) fn sides_are_limited(&self)
        ensures { IsCanvas self.now }
    {
        let _ = &self.width;
    }

    /// Writes the colour to the free pixels in columns from..to of a row; rows count from the
    /// bottom.
    pub(crate) fn cover(&mut self, row: u32, from: u32, to: u32, color: Color)
        requires row_within { row < self.old.height }
        requires to_within { to ≤ self.old.width }
        ensures { IsColored (is_in_run row from to) color self.old self.new }
    {
        if from < to {
            let left = (self.height - 1 - row) * self.width;
            let (start, end) = (left + from, left + to);
            if !is_range_painted(&self.free, start, end) {
                paint_range(&mut self.pixels, &mut self.free, start, end, color);
            }
        }
    }

    /// Writes the colour to the free ones of 1 to 64 pixels of a row, from a column on; rows count
    /// from the bottom.
    #[inline(always)]
    pub(crate) fn cover_few(&mut self, row: u32, from: u32, count: u32, color: Color)
        requires row_within { row < self.old.height }
        requires least { 1 ≤ count }
        requires most { count ≤ 64 }
        requires to_within { from + count ≤ self.old.width }
        ensures { IsColored (is_in_run row from (from + count)) color self.old self.new }
    {
        let left = (self.height - 1 - row) * self.width;
        let (start, end) = (left + from, left + (from + count));
        if !is_window_painted(&self.free, start, end) {
            paint_range(&mut self.pixels, &mut self.free, start, end, color);
        }
    }

    /// Whether all pixels are painted. No pixel changes.
    pub(crate) fn is_full(&mut self) -> bool
        ensures alike { IsAlike self.old self.new }
        ensures full { result ≡ true → IsFull self.new }
        ensures free { result ≡ false → HasFree self.new }
    {
        self.known = first_free(&self.free, self.known);
        self.known == self.width * self.height / 64 + 1
    }

    /// Whether painted blocks hide the pixels of 16 rows, from this one on, in columns from..to.
    /// May be false where they don't but all these pixels are painted.
    #[inline]
    pub(crate) fn hides(&self, row: u32, from: u32, to: u32) -> bool
        requires row_within { row + 16 ≤ self.now.height }
        requires order { from < to }
        requires to_within { to ≤ self.now.width }
        ensures { result ≡ true → IsBoxPainted row (row + 16) from to self.now }
    {
        let last = row / BLOCK_SIDE + (row % BLOCK_SIDE + BLOCK_SIDE - 1) / BLOCK_SIDE;
        are_painted(&self.blocks, row / BLOCK_SIDE, from, to)
            && are_painted(&self.blocks, last, from, to)
    }

    /// Finds the painted blocks, for `hides`. No pixel changes.
    pub(crate) fn find_painted_blocks(&mut self)
        ensures { IsAlike self.old self.new }
    {
        clear_painted(&mut self.blocks, &self.free, self.width, self.height);
    }

    /// The picture as it stands: free pixels have the background.
    pub(crate) fn finish(self) -> Pixmap
        ensures { IsFinished self result }
    {
        let Canvas {
            width,
            height,
            pixels,
            ..
        } = self;
        Pixmap::of(width, height, pixels)
    }
}

/// The words of so many pixels, all free.
fn free_words(alloc: Global, area: u32) -> Result<Vec<u64>, AllocError>
    requires { area ≤ 2 ^ 20 }
    ensures size { IfOk result (λ free. length free.items ≡ area / 64 + 1) }
    ensures free { IfOk result (λ free. (i : ℕ) → is_free free.items i ≡ nat_lt i area) }
{
    let last = (area / 64) as usize;
    let mut free = vec![in alloc; u64::MAX; last + 1]?;
    free[last] = (1 << (area % 64)) - 1;
    Ok(free)
}

/// Writes the three bytes of those of the 64 pixels from `first` on whose bit is set.
fn write_set(pixels: &mut Pixels, first: u32, bits: u64, color: Color)
    requires first { first ≤ 2 ^ 20 }
    requires within { (k : ℕ) → bit_at bits k ≡ 1 → 3 * (first + k) + 2 < length pixels.old }
    ensures { ArePainted 64 first bits color pixels.old pixels.new }
{
    let mut here = 0;
    while here < 64 {
        let rest = bits >> here;
        if rest == 0 {
            return;
        }
        let set = here + rest.trailing_zeros();
        pixels.write(first + set, color);
        here = set + 1;
    }
}

/// Whether none of these pixels is free. False for more than 64 of them. Most lines that make a
/// picture dear run over painted pixels, so that is tested before they are painted.
#[inline(always)]
fn is_range_painted(free: &Vec<u64>, start: u32, end: u32) -> bool
    requires order { start < end }
    requires within { end ≤ 64 * length free.now.items }
    ensures { result ≡ true → (i : ℕ) → start ≤ i → i < end → is_free free.now.items i ≡ false }
{
    end - start <= 64 && is_window_painted(free, start, end)
}

/// Whether none of these pixels, at most 64, is free.
#[inline(always)]
fn is_window_painted(free: &Vec<u64>, start: u32, end: u32) -> bool
    requires order { start < end }
    requires most { end ≤ start + 64 }
    requires within { end ≤ 64 * length free.now.items }
    ensures { result ≡ true → (i : ℕ) → start ≤ i → i < end → is_free free.now.items i ≡ false }
{
    let first = word_at(free, start / 64);
    let last = word_at(free, (end - 1) / 64);
    word_across(first, last, start % 64) << (64 - (end - start)) == 0
}

/// The bits of the first word from `bit` on, and above them those of the last word from its lowest
/// on.
#[inline(always)]
fn word_across(first: u64, last: u64, bit: u32) -> u64
    requires { bit < 64 }
    ensures first { (k : ℕ) → bit + k < 64 → bit_at first (bit + k) ≤ bit_at result k }
    ensures last { (k : ℕ) → 64 ≤ bit + k → k < 64 → bit_at last (bit + k - 64) ≤ bit_at result k }
{
    (first >> bit) | ((last << 1) << (63 - bit))
}

/// Writes the colour to the free pixels in start..end, word by word.
#[inline(never)]
fn paint_range(pixels: &mut Pixels, free: &mut Vec<u64>, start: u32, end: u32, color: Color)
    requires cells { IsCells free.old.items pixels.old }
    requires order { start ≤ end }
    requires within { end ≤ 64 * length free.old.items }
    ensures { IsRangePainted
        start end color free.old.items pixels.old free.new.items pixels.new }
{
    let mut here = start;
    while here < end {
        let next = end.min(64 * (here / 64 + 1));
        paint_word(pixels, free, here, next, color);
        here = next;
    }
}

/// Writes the colour to the free pixels in from..to, which are of one word.
fn paint_word(pixels: &mut Pixels, free: &mut Vec<u64>, from: u32, to: u32, color: Color)
    requires cells { IsCells free.old.items pixels.old }
    requires order { from < to }
    requires one { to ≤ 64 * (from / 64 + 1) }
    requires within { to ≤ 64 * length free.old.items }
    ensures { IsRangePainted
        from to color free.old.items pixels.old free.new.items pixels.new }
{
    let word = from / 64;
    let mask = ones(from % 64, to - 64 * word);
    let left = word_at(free, word);
    if left & mask != 0 {
        free[word as usize] = left & !mask;
        write_set(pixels, 64 * word, left & mask, color);
    }
}

/// The word at an index.
#[inline(always)]
fn word_at(free: &Vec<u64>, index: u32) -> u64
    requires { index < length free.now.items }
    ensures value { result ≡ slice_index free.now.items index }
    ensures fits { result < 2 ^ 64 }
{
    free[index as usize]
}

/// The word with the bits from `from` on and before `to` set, counted from the lowest.
#[inline(always)]
pub fn ones(from: u32, to: u32) -> u64
    requires from { from < 64 }
    requires least { 1 ≤ to }
    requires most { to ≤ 64 }
    ensures below { (k : ℕ) → k < from → bit_at result k ≡ 0 }
    ensures within { (k : ℕ) → from ≤ k → k < to → bit_at result k ≡ 1 }
    ensures above { (k : ℕ) → to ≤ k → bit_at result k ≡ 0 }
    ensures fits { result < 2 ^ 64 }
{
    (u64::MAX << from) & (u64::MAX >> (64 - to))
}

/// The index of the first word with a free pixel, or the number of words if there is none. The
/// first `known` words have none.
fn first_free(free: &Vec<u64>, known: u32) -> u32
    requires most { length free.now.items ≤ 2 ^ 14 + 1 }
    requires within { known ≤ length free.now.items }
    requires known { (i : ℕ) → i < 64 * known → is_free free.now.items i ≡ false }
    ensures within { result ≤ length free.now.items }
    ensures painted { (i : ℕ) → i < 64 * result → is_free free.now.items i ≡ false }
    ensures free { result < length free.now.items → HasFreeBit free.now.items result }
{
    let end = free.len() as u32;
    let mut here = known;
    while here < end {
        let bits = word_at(free, here);
        if bits != 0 {
            return here;
        }
        here += 1;
    }
    here
}

/// Whether the blocks of these columns in a row of blocks are known to be painted.
#[inline]
fn are_painted(blocks: &Vec<u64>, index: u32, from: u32, to: u32) -> bool
    requires index { index < length blocks.now.items }
    requires order { from < to }
    requires most { to ≤ most_pixels }
    ensures { result ≡ true → (column : ℕ) → from ≤ column → column < to →
        bit_at (slice_index blocks.now.items index) (column / 16) ≡ 0 }
{
    let mask = ones(from / BLOCK_SIDE, (to - 1) / BLOCK_SIDE + 1);
    word_at(blocks, index) & mask == 0
}

/// Clears the bits of the blocks that are painted.
fn clear_painted(blocks: &mut Vec<u64>, free: &Vec<u64>, width: u32, height: u32)
    requires size { IsSized width height free.now.items }
    requires blocks { AreBlocks width height free.now.items blocks.old.items }
    ensures { AreBlocks width height free.now.items blocks.new.items }
{
    let rows = (height + BLOCK_SIDE - 1) / BLOCK_SIDE;
    for index in 0..rows {
        clear_row(blocks, free, width, height, index);
    }
}

/// Clears the bits of the painted blocks of one row of blocks.
fn clear_row(blocks: &mut Vec<u64>, free: &Vec<u64>, width: u32, height: u32, index: u32)
    requires size { IsSized width height free.now.items }
    requires index { index < 64 }
    requires blocks { AreBlocks width height free.now.items blocks.old.items }
    ensures { AreBlocks width height free.now.items blocks.new.items }
{
    let columns = (width + BLOCK_SIDE - 1) / BLOCK_SIDE;
    for block in 0..columns {
        clear_block(blocks, free, width, height, index, block);
    }
}

/// Clears the bit of one block, if it is painted.
fn clear_block(
    blocks: &mut Vec<u64>,
    free: &Vec<u64>,
    width: u32,
    height: u32,
    index: u32,
    block: u32,
)
    requires size { IsSized width height free.now.items }
    requires index { index < 64 }
    requires block { block < 64 }
    requires blocks { AreBlocks width height free.now.items blocks.old.items }
    ensures { AreBlocks width height free.now.items blocks.new.items }
{
    let mask = ones(block, block + 1);
    let word = word_at(blocks, index);
    if word & mask != 0 && is_block_painted(free, width, height, index, block) {
        blocks[index as usize] = word & !mask;
    }
}

/// Whether no pixel of the block is free.
fn is_block_painted(free: &Vec<u64>, width: u32, height: u32, index: u32, block: u32) -> bool
    requires size { IsSized width height free.now.items }
    requires index { index < 64 }
    requires block { block < 64 }
    ensures { result ≡ true → (column row : ℕ) → row < height → column < width →
        row / 16 ≡ index → column / 16 ≡ block →
        is_free free.now.items ((height - 1 - row) * width + column) ≡ false }
{
    let (first, start) = (BLOCK_SIDE * index, BLOCK_SIDE * block);
    let (last, end) = (
        height.min(first + BLOCK_SIDE),
        width.min(start + BLOCK_SIDE),
    );
    if start >= end {
        return true;
    }
    for row in first..last {
        let left = (height - 1 - row) * width;
        if !is_window_painted(free, left + start, left + end) {
            return false;
        }
    }
    true
}
