//! The parameter STYLES (OGC 06-042, 7.3.3.4).
ghost use Rattle.std.specs.Prelude.{◌≡◌, ◌<◌, IfSome, length, not, option_map, position};
ghost use Rattle.wf_wms.specs.MapRequest.{check_style_list, check_styles, entries, is_style};

use crate::entries::count_entries;
use crate::exception::{Exception, Parameter};

/// The one style of each layer, as in the service metadata.
const DEFAULT_STYLE: &str = "default";

/// Checks STYLES: it has as many entries as LAYERS, each a style's name; or it is absent, and each
/// layer has its default style.
pub(crate) fn check_styles(layers: usize, value: Option<&str>) -> Result<(), Exception>
    ensures { result ≡ check_styles layers (option_map (λ text. text.now) value.entry) }
{
    match value {
        None => Ok(()),
        Some(names) => check_style_list(layers, names),
    }
}

/// Checks that the list has one entry for each of these layers, each a style's name.
#[tactic(auto, unfolding(crate::specs::MapRequest::check_style_list))]
fn check_style_list(layers: usize, names: &str) -> Result<(), Exception>
    ensures { result ≡ check_style_list layers (entries names.now) }
{
    if count_entries(names) != layers {
        return Err(Exception::BadValue(Parameter::Styles));
    }
    match first_unknown(names) {
        None => Ok(()),
        Some(index) => Err(Exception::StyleNotDefined(index + 1)),
    }
}

/// The index of the first name that isn't a style's.
fn first_unknown(names: &str) -> Option<usize>
    ensures index { result ≡ position (λ name. not (is_style name)) (entries names.now) }
    ensures within { IfSome result (λ index. index < length (entries names.now)) }
{
    names
        .as_bytes()
        .split(|byte| *byte == b',')
        .position(|name| !is_style(name))
}

/// Whether the name is a style's, or empty, which means the default style.
fn is_style(name: &[u8]) -> bool
    ensures { result ≡ is_style name.now }
{
    name.is_empty() || name == DEFAULT_STYLE.as_bytes()
}
