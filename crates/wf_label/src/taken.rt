//! Which pixels of a view are taken by the boxes of placed labels.
ghost use Rattle.std.specs.Prelude.{◌≡◌, ◌≤◌, ◌<◌, ◌*◌, ◌+◌, ◌/◌, ◌^◌, ℕ, ◌&&◌, ◌||◌, false, true, length, nat_le, nat_lt};
ghost use Rattle.wf_label.specs.Colored.{IsCutBefore, is_in};
ghost use Rattle.wf_geometry.specs.View.{IsView};
ghost use Rattle.wf_label.specs.Taken.{IsMarkedWithin, IsMet, is_marked, words_for};

use crate::fill::cut;
use crate::placed::PixelBox;
use wf_geometry::View;
use wf_paint::ones;

/// The columns and rows of a view that a box covers: `left` to before `right`, `bottom` to before
/// `top`.
#[derive(Clone, Copy)]
struct CoveredBox {
    left: usize,
    right: usize,
    bottom: usize,
    top: usize,
}

/// The part of the box that lies in the view.
fn block_of(view: &View, pixel_box: &PixelBox) -> CoveredBox
    ensures left { IsCutBefore view.now.width result.left pixel_box.now.left }
    ensures right { IsCutBefore view.now.width result.right pixel_box.now.right }
    ensures bottom { IsCutBefore view.now.height result.bottom pixel_box.now.bottom }
    ensures top { IsCutBefore view.now.height result.top pixel_box.now.top }
    ensures wide { result.right ≤ view.now.width }
    ensures tall { result.top ≤ view.now.height }
    ensures begins { result.left ≤ view.now.width }
    ensures within { IsView view.now }
{
    let left = cut(pixel_box.left, view.width());
    let right = cut(pixel_box.right, view.width());
    let bottom = cut(pixel_box.bottom, view.height());
    let top = cut(pixel_box.top, view.height());
    CoveredBox {
        left: left as usize,
        right: right as usize,
        bottom: bottom as usize,
        top: top as usize,
    }
}

/// Marks the pixels of the view that lie in the box. `marks` has a bit a pixel, row by row from the
/// bottom, 64 in each word from the lowest on; a marked pixel's is set.
pub(crate) fn mark(marks: &mut [u64], view: &View, pixel_box: &PixelBox)
    requires { length marks.old ≡ words_for (view.now.width * view.now.height) }
    ensures { (column row : ℕ) → column < view.now.width →
        row < view.now.height → is_marked marks.new (row * view.now.width + column)
        ≡ (is_in pixel_box.now column row || is_marked marks.old (row * view.now.width + column)) }
{
    let width = view.width() as usize;
    let block = block_of(view, pixel_box);
    for row in block.bottom..block.top.max(block.bottom) {
        mark_run(marks, row * width + block.left, row * width + block.right);
    }
}

/// Marks the indices from `start` to before `end`, word by word.
fn mark_run(marks: &mut [u64], start: usize, end: usize)
    requires within { end ≤ 64 * length marks.old }
    requires most { end ≤ 2 ^ 20 }
    ensures { (index : ℕ) → is_marked marks.new index
        ≡ ((nat_le start index && nat_lt index end) || is_marked marks.old index) }
{
    let mut here = start;
    while here < end {
        let next = end.min(64 * (here / 64 + 1));
        mark_word(marks, here, next);
        here = next;
    }
}

/// Marks the indices from `start` to before `end`, which are of one word.
fn mark_word(marks: &mut [u64], start: usize, end: usize)
    requires order { start < end }
    requires one { end ≤ 64 * (start / 64 + 1) }
    requires within { end ≤ 64 * length marks.old }
    ensures { (index : ℕ) → is_marked marks.new index
        ≡ ((nat_le start index && nat_lt index end) || is_marked marks.old index) }
{
    let word = start / 64;
    let mask = ones((start % 64) as u32, (end - 64 * word) as u32);
    let old = marks[word];
    marks[word] = old | mask;
}

/// Whether a marked pixel of the view lies in the box.
pub(crate) fn meets_marked(marks: &[u64], view: &View, pixel_box: &PixelBox) -> bool
    requires { length marks.now ≡ words_for (view.now.width * view.now.height) }
    ensures free { result ≡ false → (column row : ℕ) →
        column < view.now.width → row < view.now.height → is_in pixel_box.now column row ≡ true →
        is_marked marks.now (row * view.now.width + column) ≡ false }
    ensures met { result ≡ true → IsMet view.now pixel_box.now marks.now }
{
    let width = view.width() as usize;
    let block = block_of(view, pixel_box);
    for row in block.bottom..block.top.max(block.bottom) {
        if has_mark(marks, row * width + block.left, row * width + block.right) {
            return true;
        }
    }
    false
}

/// Whether one of the indices from `start` to before `end` is marked.
fn has_mark(marks: &[u64], start: usize, end: usize) -> bool
    requires within { end ≤ 64 * length marks.now }
    requires most { end ≤ 2 ^ 20 }
    ensures free { result ≡ false →
        (index : ℕ) → start ≤ index → index < end → is_marked marks.now index ≡ false }
    ensures some { result ≡ true → IsMarkedWithin marks.now start end }
{
    let mut here = start;
    while here < end {
        let next = end.min(64 * (here / 64 + 1));
        if is_word_marked(marks, here, next) {
            return true;
        }
        here = next;
    }
    false
}

/// Whether one of the indices from `start` to before `end`, which are of one word, is marked.
fn is_word_marked(marks: &[u64], start: usize, end: usize) -> bool
    requires order { start < end }
    requires one { end ≤ 64 * (start / 64 + 1) }
    requires within { end ≤ 64 * length marks.now }
    ensures free { result ≡ false →
        (index : ℕ) → start ≤ index → index < end → is_marked marks.now index ≡ false }
    ensures some { result ≡ true → IsMarkedWithin marks.now start end }
{
    let word = start / 64;
    let mask = ones((start % 64) as u32, (end - 64 * word) as u32);
    marks[word] & mask != 0
}
