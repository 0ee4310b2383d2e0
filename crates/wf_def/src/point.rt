//! Points.

use crate::members::Limited;
use crate::micro::know_coordinate;
use wf_text::Micro;

/// A point in the map's coordinates, in the order of the mapfile: east, then north.
#[derive(Clone, Copy, PartialEq, Eq)]
pub struct Point {
    pub x: Micro,
    pub y: Micro,
}

impl Limited for Point {
    ghost use Rattle.wf_def.specs.Limits.{IsPoint};
    ghost use Rattle.wf_def.specs.EqualityTheorems.{point_eq-Decides};

    ghost IsWithin = { IsPoint };

    fn know(&self) {
        know_coordinate(self.x);
        know_coordinate(self.y);
    }

    ghost copies = { λ _ _ same. same };

    ghost decides = { point_eq-Decides };
}
