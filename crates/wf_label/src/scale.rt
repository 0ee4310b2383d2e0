//! How large letters are.
ghost use Rattle.std.specs.Prelude.{◌≡◌, ◌≤◌};
ghost use Rattle.wf_label.specs.Placed.{scale_of};

use wf_def::LabelSize;

/// How many pixels wide and high a bit of a letter is.
pub(crate) fn scale_of(size: LabelSize) -> u8
    ensures value { result ≡ scale_of size }
    ensures least { 1 ≤ result }
    ensures most { result ≤ 5 }
{
    match size {
        LabelSize::Tiny => 1,
        LabelSize::Small => 2,
        LabelSize::Medium => 3,
        LabelSize::Large => 4,
        LabelSize::Giant => 5,
    }
}
