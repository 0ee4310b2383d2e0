//! The routes of a node: its resources, and the method that each has.
ghost use Rattle.std.specs.Prelude.{◌≡◌, Some};
ghost use Rattle.wf_http.specs.Checks.{first_failing};
ghost use Rattle.wf_edge.specs.Route.{resource_at, method_of, check_path, check_method, head_checks, resolve_at, resolved};

use crate::resource::{RequestedResource, Resource};
use wf_http::{Allowed, Fields, Front, HttpError, body_length, check_target, path_of};

/// The resource at a path.
#[tactic(auto, unfolding(crate::specs::Route::resource_at))]
pub fn resource_at(path: &[u8]) -> Option<Resource>
    ensures { result ≡ resource_at path.now }
{
    if path == b"/wms".as_slice() {
        Some(Resource::Wms)
    } else if path == b"/status".as_slice() {
        Some(Resource::Status)
    } else if path == b"/publish".as_slice() {
        Some(Resource::Publish)
    } else {
        None
    }
}

/// The method of a resource.
pub fn method_of(resource: Resource) -> Allowed
    ensures { result ≡ method_of resource }
{
    match resource {
        Resource::Wms | Resource::Status => Allowed::Get,
        Resource::Publish => Allowed::Post,
    }
}

fn check_path(found: Option<Resource>) -> Option<HttpError>
    ensures { result ≡ check_path found }
{
    match found {
        None => Some(HttpError::NotFound),
        Some(_) => None,
    }
}

fn check_method(found: Option<Resource>, method: &[u8]) -> Option<HttpError>
    ensures { result ≡ check_method found method.now }
{
    match found {
        None => None,
        Some(resource) => check_method_of(resource, method),
    }
}

fn check_method_of(resource: Resource, method: &[u8]) -> Option<HttpError>
    ensures { result ≡ check_method (Some resource) method.now }
{
    let allowed = method_of(resource);
    if method == allowed.method().as_str().as_bytes() {
        None
    } else {
        Some(HttpError::MethodNotAllowed(allowed))
    }
}

// The rejection by the first check on any head that fails.
fn reject_head(found: Option<Resource>, target: &[u8], method: &[u8]) -> Option<HttpError>
    ensures { result ≡ first_failing (head_checks found target.now method.now) }
{
    check_target(target)
        .or_else(|| check_path(found))
        .or_else(|| check_method(found, method))
}

// The request to the resource at the path.
fn resolve_at(found: Option<Resource>, fields: &Fields<'_>) -> Result<RequestedResource, HttpError>
    ensures { result ≡ resolve_at found fields.now }
{
    match found {
        None => Err(HttpError::NotFound),
        Some(Resource::Wms) => Ok(RequestedResource::Wms),
        Some(Resource::Status) => Ok(RequestedResource::Status),
        Some(Resource::Publish) => match body_length(fields) {
            Ok(bytes) => Ok(RequestedResource::Publish(bytes)),
            Err(http_error) => Err(http_error),
        },
    }
}

/// What a head asks for, or the rejection by the first check that fails: of the target (400), its
/// path (404), its method (405), and, for a publish, the body's coding (501), whether its length is
/// given (411), is one whole number (400) and is within the limit (413).
#[tactic(auto, unfolding(crate::specs::Route::resolved))]
pub fn resolve(front: &Front) -> Result<RequestedResource, HttpError>
    ensures { result ≡ resolved front.now.head }
{
    let target = front.target();
    let found = resource_at(path_of(target));
    match reject_head(found, target, front.method()) {
        Some(http_error) => Err(http_error),
        None => resolve_at(found, &front.fields()),
    }
}
