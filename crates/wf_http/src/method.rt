//! The methods of a request.
ghost use Rattle.std.specs.Prelude.{◌≡◌};
ghost use Rattle.wf_http.specs.Method.{method_name};

use crate::http_error::Allowed;
use http::Method;

impl Allowed {
    /// The method, of which `as_str` is the name (RFC 9110, section 9.1).
    pub fn method(self) -> Method
        ensures { result ≡ method_name self }
    {
        match self {
            Allowed::Get => Method::GET,
            Allowed::Post => Method::POST,
        }
    }
}
