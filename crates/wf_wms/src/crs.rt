//! The parameter CRS (OGC 06-042, 7.3.3.5).
ghost use Rattle.std.specs.Prelude.{◌≡◌, option_map};
ghost use Rattle.wf_wms.specs.MapRequest.{axes_in};

use crate::bounding_box::Axes;
use crate::exception::{Exception, Parameter};
use wf_def::Projection;

/// The axes of the coordinate reference system, if maps of the projection are offered in it.
pub(crate) fn axes(projection: Projection, crs: Option<&str>) -> Result<Axes, Exception>
    ensures { result ≡ axes_in projection (option_map (λ text. text.now) crs.entry) }
{
    let Some(crs) = crs else {
        return Err(Exception::MissingParameter(Parameter::Crs));
    };
    match (projection, crs) {
        (Projection::Epsg4326, "EPSG:4326") => Ok(Axes::NorthFirst),
        (Projection::Epsg4326, "CRS:84") => Ok(Axes::EastFirst),
        (Projection::Epsg3857, "EPSG:3857") => Ok(Axes::EastFirst),
        _ => Err(Exception::InvalidCrs),
    }
}
