//! Parameters with one allowed value.
ghost use Rattle.std.specs.Prelude.{◌≡◌, option_map};
ghost use Rattle.wf_wms.specs.MapRequest.{check_format, check_version};

use crate::exception::{Exception, Parameter};

/// Checks VERSION: it is that of the standard (OGC 06-042, 7.3.3.1).
pub(crate) fn check_version(version: Option<&str>) -> Result<(), Exception>
    ensures { result ≡ check_version (option_map (λ text. text.now) version.entry) }
{
    match version {
        None => Err(Exception::MissingParameter(Parameter::Version)),
        Some("1.3.0") => Ok(()),
        Some(_) => Err(Exception::BadValue(Parameter::Version)),
    }
}

/// Checks FORMAT: it is the one format of pictures (OGC 06-042, 7.3.3.7).
pub(crate) fn check_format(format: Option<&str>) -> Result<(), Exception>
    ensures { result ≡ check_format (option_map (λ text. text.now) format.entry) }
{
    match format {
        None => Err(Exception::MissingParameter(Parameter::Format)),
        Some("image/x-portable-pixmap") => Ok(()),
        Some(_) => Err(Exception::InvalidFormat),
    }
}
