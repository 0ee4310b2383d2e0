//! The texts of labels, and how large they are.
ghost use Rattle.std.specs.Prelude.{◌≡◌, ◌≤◌, ◌^◌, length};
ghost use Rattle.std.specs.Str.{chars, IsUtf8};
ghost use Rattle.wf_def.specs.Limit.{most_text_bytes};
ghost use Rattle.wf_label.specs.PixelBox.{text_width, text_height};
ghost use Rattle.wf_label.specs.Label.{text_of};
ghost use Rattle.wf_label.specs.Placed.{scale_of};

use crate::limits::{CELL_HEIGHT, CELL_WIDTH};
use crate::scale::scale_of;
use wf_def::{Feature, LabelSize, Layer};

/// The text of a feature's label (MapServer mapfile reference, LABELITEM, TEXT): the feature's
/// value under the layer's LABELITEM where there is one, else the feature's own text.
#[tactic(auto, unfolding(crate::specs::Label::text_of))]
pub(crate) fn text_of<'a>(layer: &Layer, feature: &'a Feature) -> &'a str
    ensures value { result.now ≡ text_of layer.now feature.now }
    ensures most { length result.now ≤ most_text_bytes }
{
    let _ = feature.items().as_str();
    match layer.attribute(feature, layer.label_item()) {
        Some(value) => str_of(value),
        None => feature.text().as_str(),
    }
}

/// Bytes that are known to be UTF-8, as a `str`.
fn str_of(bytes: &[u8]) -> &str
    requires { IsUtf8 bytes.now }
    ensures { result.now ≡ bytes.now }
{
    str::from_utf8(bytes).unwrap()
}

/// How many characters a text has.
fn character_count(text: &str) -> usize
    ensures { result ≡ length (chars text.now) }
{
    text.chars().count()
}

/// How wide the text is in letters of a size, in pixels.
#[tactic(auto, unfolding(crate::specs::PixelBox::text_width))]
pub(crate) fn text_width(size: LabelSize, text: &str) -> u128
    ensures value { result ≡ text_width (scale_of size) text.now }
    ensures most { result ≤ 2 ^ 80 }
{
    CELL_WIDTH as u128 * u128::from(scale_of(size)) * character_count(text) as u128
}

/// How wide a text that a map holds is in letters of a size, in pixels: such a text is short.
#[tactic(auto, using(crate::proofs::TextLemmas::short_width))]
pub(crate) fn short_width(size: LabelSize, text: &str) -> u32
    requires { length text.now ≤ most_text_bytes }
    ensures { result ≡ text_width (scale_of size) text.now }
{
    text_width(size, text) as u32
}

/// How high a text is in letters of a size, in pixels.
#[tactic(auto, unfolding(crate::specs::PixelBox::text_height))]
pub(crate) fn text_height(size: LabelSize) -> u32
    ensures { result ≡ text_height (scale_of size) }
{
    CELL_HEIGHT as u32 * u32::from(scale_of(size))
}
