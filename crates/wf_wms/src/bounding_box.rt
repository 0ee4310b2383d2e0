//! The parameter BBOX (OGC 06-042, 7.3.3.6).
ghost use Rattle.std.specs.Prelude.{◌≡◌, IfOk, option_map};
ghost use Rattle.wf_def.specs.Number.{number};
ghost use Rattle.wf_picture.specs.Request.{IsLargeEnough};
ghost use Rattle.wf_wms.specs.MapRequest.{box_in, box_of, coordinate_of, is_side, large_enough};

use crate::entries::four_entries;
use crate::exception::{Exception, Parameter};
use wf_def::{Extent, Micro};
use wf_geometry::LEAST_CELL;

/// The order of a coordinate reference system's axes (OGC 06-042, 6.7.2 and annex B).
#[derive(Clone, Copy)]
pub(crate) enum Axes {
    /// The first axis goes to the east, the second to the north.
    EastFirst,
    /// The first axis goes to the north, the second to the east.
    NorthFirst,
}

/// The box that BBOX gives along these axes, in the axis order of the map's EXTENT.
pub(crate) fn bounding_box(axes: Axes, value: Option<&str>) -> Result<Extent, Exception>
    ensures value { result ≡ box_in axes (option_map (λ text. text.now) value.entry) }
    ensures within { IfOk result IsLargeEnough }
{
    match value {
        None => Err(Exception::MissingParameter(Parameter::Bbox)),
        Some(text) => box_of(axes, four_entries(text)),
    }
}

/// The box of four numbers.
#[tactic(auto, unfolding(crate::specs::MapRequest::box_of))]
fn box_of(axes: Axes, four: Option<(&str, &str, &str, &str)>) -> Result<Extent, Exception>
    ensures value { result ≡ box_of axes
        (option_map (λ four. (four.0.now, four.1.now, four.2.now, four.3.now)) four.entry) }
    ensures within { IfOk result IsLargeEnough }
{
    let Some((a, b, c, d)) = four else {
        return Err(Exception::BadValue(Parameter::Bbox));
    };
    let (a, b) = (coordinate(a)?, coordinate(b)?);
    let (c, d) = (coordinate(c)?, coordinate(d)?);
    match axes {
        Axes::EastFirst => large_enough(a, b, c, d),
        Axes::NorthFirst => large_enough(b, a, d, c),
    }
}

fn coordinate(text: &str) -> Result<Micro, Exception>
    ensures { result ≡ coordinate_of (number text.now) }
{
    match Micro::read(text.as_bytes()) {
        Ok(coordinate) => Ok(coordinate),
        Err(_) => Err(Exception::BadValue(Parameter::Bbox)),
    }
}

/// The box with these sides, if they are long enough.
fn large_enough(minx: Micro, miny: Micro, maxx: Micro, maxy: Micro) -> Result<Extent, Exception>
    ensures value { result
        ≡ large_enough (record { minx = minx; miny = miny; maxx = maxx; maxy = maxy }) }
    ensures within { IfOk result IsLargeEnough }
{
    if is_side(minx, maxx) && is_side(miny, maxy) {
        Extent::new(minx, miny, maxx, maxy).ok_or(Exception::BadValue(Parameter::Bbox))
    } else {
        Err(Exception::BadValue(Parameter::Bbox))
    }
}

/// Whether the side is long enough, as that of the narrowest cell of the grid; so the minimum is
/// below the maximum.
fn is_side(low: Micro, high: Micro) -> bool
    ensures { result ≡ is_side low high }
{
    low.millionths() + LEAST_CELL as i64 <= high.millionths()
}
