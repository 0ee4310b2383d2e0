//! Extents: boxes in the map's coordinates.
ghost use Rattle.std.specs.Prelude.{◌≡◌, ◌↔◌, ◌<ℤ◌, IsSome, IfSome};
ghost use Rattle.wf_def.specs.Extent.{IsExtent};

use crate::micro::know_coordinate;
use std::marker::Model;
use wf_text::Micro;

/// A box whose minima are below its maxima (MapServer mapfile reference, EXTENT).
#[derive(Clone, Copy, PartialEq, Eq)]
pub struct Extent {
    minx: Micro,
    miny: Micro,
    maxx: Micro,
    maxy: Micro,
}

impl Model for Extent {
    ghost use Rattle.std.specs.Prelude.{◌<ℤ◌};
    ghost use Rattle.wf_def.specs.Extent.{ExtentValue, IsExtent};

    ghost Value = { ExtentValue };

    ghost view = { λ e. record { minx = e.minx; miny = e.miny; maxx = e.maxx; maxy = e.maxy } };

    ghost invariant = { λ e. IsExtent (record { minx = e.minx; miny = e.miny; maxx = e.maxx; maxy = e.maxy }) };

    ghost inverse = { λ v. record { minx = v.minx; miny = v.miny; maxx = v.maxx; maxy = v.maxy } };
}

impl Extent {
    /// The box with these sides, if the minima are below the maxima.
    pub fn new(minx: Micro, miny: Micro, maxx: Micro, maxy: Micro) -> Option<Self>
        ensures ordered { IsSome result ↔ ((minx <ℤ maxx) × (miny <ℤ maxy)) }
        ensures value { IfSome result
            (λ e. e ≡ record { minx = minx; miny = miny; maxx = maxx; maxy = maxy }) }
    {
        know_coordinate(minx);
        know_coordinate(miny);
        know_coordinate(maxx);
        know_coordinate(maxy);
        if minx < maxx && miny < maxy {
            Some(Extent {
                minx,
                miny,
                maxx,
                maxy,
            })
        } else {
            None
        }
    }

    /// The west side.
    pub fn minx(self) -> Micro
        ensures value { result ≡ self.minx }
        ensures within { IsExtent self }
    {
        self.minx
    }

    /// The south side.
    pub fn miny(self) -> Micro
        ensures value { result ≡ self.miny }
        ensures within { IsExtent self }
    {
        self.miny
    }

    /// The east side.
    pub fn maxx(self) -> Micro
        ensures value { result ≡ self.maxx }
        ensures within { IsExtent self }
    {
        self.maxx
    }

    /// The north side.
    pub fn maxy(self) -> Micro
        ensures value { result ≡ self.maxy }
        ensures within { IsExtent self }
    {
        self.maxy
    }
}
