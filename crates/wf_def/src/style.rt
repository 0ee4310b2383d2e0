//! Styles.
ghost use Rattle.std.specs.Prelude.{IfSome};
ghost use Rattle.wf_def.specs.Limits.{IsColor};

use crate::color::Color;
use crate::limits::{MOST_SIZE, MOST_WIDTH};
use crate::members::Limited;
use wf_text::Whole;

/// How a feature is drawn (MapServer mapfile reference, STYLE).
#[derive(Clone, Copy, PartialEq, Eq)]
pub struct Style {
    /// The colour of a polygon's or marker's interior, or of a line; `None` draws none (COLOR).
    pub color: Option<Color>,
    /// The colour of the border (OUTLINECOLOR).
    pub outline_color: Option<Color>,
    /// The width of a line or a border, in pixels (WIDTH).
    pub width: Whole<1, MOST_WIDTH>,
    /// The size of a marker, in pixels (SIZE).
    pub size: Whole<1, MOST_SIZE>,
}

impl Limited for Style {
    ghost use Rattle.wf_def.specs.Limits.{IsStyle};
    ghost use Rattle.wf_def.specs.EqualityTheorems.{style_eq-Decides};

    ghost IsWithin = { IsStyle };

    fn know(&self) {
        know_color(self.color);
        know_color(self.outline_color);
        let _ = self.width.get();
        let _ = self.size.get();
    }

    ghost copies = { λ _ _ same. same };

    ghost decides = { style_eq-Decides };
}

/// Makes it known to the prover that the option's value is a colour.
fn know_color(color: Option<Color>)
    ensures { IfSome color IsColor }
{
    if let Some(color) = color {
        let Color {
            r: _r,
            g: _g,
            b: _b,
        } = color;
    }
}
