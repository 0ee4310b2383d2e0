//! The parameters WIDTH and HEIGHT (OGC 06-042, 7.3.3.8).
ghost use Rattle.std.specs.Prelude.{◌≡◌, ◌≤◌, IfOk, option_map};
ghost use Rattle.wf_geometry.specs.Limit.{most_pixels};
ghost use Rattle.wf_picture.specs.Request.{IsSize};
ghost use Rattle.wf_wms.specs.MapRequest.{picture_size, size_in};

use crate::exception::{Exception, Parameter};
use crate::query::Query;
use wf_geometry::MOST_PIXELS;
use wf_picture::Size;
use wf_text::{are_digits, number_of_digits};

/// The size that WIDTH and HEIGHT give.
#[tactic(auto, unfolding(crate::specs::MapRequest::picture_size))]
pub(crate) fn picture_size(query: &Query) -> Result<Size, Exception>
    ensures value { result ≡ picture_size query.now }
    ensures within { IfOk result IsSize }
{
    let width = size(Parameter::Width, query.parameter("WIDTH"))?;
    let height = size(Parameter::Height, query.parameter("HEIGHT"))?;
    Ok(Size { width, height })
}

/// The pixels that the parameter of this name gives.
fn size(name: Parameter, value: Option<&str>) -> Result<u32, Exception>
    ensures value { result ≡ size_in name (option_map (λ text. text.now) value.entry) }
    ensures least { IfOk result (λ size. 1 ≤ size) }
    ensures most { IfOk result (λ size. size ≤ most_pixels) }
{
    let Some(text) = value else {
        return Err(Exception::MissingParameter(name));
    };
    if !are_digits(text.as_bytes()) {
        return Err(Exception::BadValue(name));
    }
    let number = number_of_digits(text.as_bytes());
    if number < 1 || number > u64::from(MOST_PIXELS) {
        return Err(Exception::BadValue(name));
    }
    Ok(number as u32)
}
