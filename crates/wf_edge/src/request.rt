//! A request to a node.
ghost use Rattle.std.specs.Prelude.{◌≡◌, Ok, IfOk, IfErr, IfSome};
ghost use Rattle.wf_http.specs.Front.{CountsReads};
ghost use Rattle.wf_http.specs.Target.{query_of};
ghost use Rattle.wf_edge.specs.Request.{body_bytes, BeginsWith, IsRequestFault, TakesRequest};
ghost use Rattle.wf_edge.specs.Route.{resolved};

use crate::resource::RequestedResource;
use crate::route::resolve;
use std::alloc::Global;
use std::marker::Model;
use wf_http::{Front, RequestFault, query_of, read_body};
use wf_stream::Source;

/// A request whose head has passed the checks, with its body.
#[derive(Drop)]
pub struct Request {
    front: Front,
    asked: RequestedResource,
    body: Vec<u8>,
}

impl Model for Request {
    ghost use Rattle.wf_edge.specs.Request.{Request as RequestValue};

    ghost Value = { RequestValue };

    ghost view = { λ r. record { head = r.front.head; asked = r.asked; body = r.body.items } };
}

// The length of the body, by what is asked for.
fn body_bytes(asked: RequestedResource) -> usize
    ensures { result ≡ body_bytes asked }
{
    match asked {
        RequestedResource::Wms | RequestedResource::Status => 0,
        RequestedResource::Publish(bytes) => bytes,
    }
}

impl Request {
    /// Reads a request: its head, the checks on it, and its body. Bytes after it are ignored, and
    /// are read only in one piece with the last of the head. A rejection is that of the first check
    /// that fails. Only a body allocates.
    #[tactic(auto, using(crate::proofs::RequestTheorem::head_failed, crate::proofs::RequestTheorem::check_failed, crate::proofs::RequestTheorem::body_failed, crate::proofs::RequestTheorem::request_read, crate::proofs::RequestTheorem::request_taken))]
    pub fn read<S: Source>(alloc: Global, source: &mut S) -> Result<Self, RequestFault>
        ensures asks { IfOk result (λ request. resolved request.head ≡ Ok request.asked) }
        ensures ok { IfOk result
            (λ request. IfSome (S.left source.old) (λ input. BeginsWith input request)) }
        ensures err { IfErr result
            (λ fault. IfSome (S.left source.old) (λ input. IsRequestFault input fault)) }
        ensures takes { TakesRequest (S.piece source.old) (S.left source.old) (S.left source.new) }
        ensures reads { CountsReads result (S.failures source.old) (S.failures source.new) }
    {
        let front = match Front::read(source) {
            Ok(front) => front,
            Err(fault) => return Err(fault),
        };
        let asked = match resolve(&front) {
            Ok(asked) => asked,
            Err(http_error) => return Err(RequestFault::Rejected(http_error)),
        };
        match read_body(alloc, source, front.behind(), body_bytes(asked)) {
            Ok(body) => Ok(Request { front, asked, body }),
            Err(fault) => Err(fault),
        }
    }

    /// What is asked for.
    pub fn resource(&self) -> RequestedResource
        ensures { result ≡ self.now.asked }
    {
        self.asked
    }

    /// The query of the target: the bytes after its first question mark.
    pub fn query(&self) -> &[u8]
        ensures { result.now ≡ query_of self.now.head.target }
    {
        query_of(self.front.target())
    }

    /// The body.
    pub fn body(&self) -> &[u8]
        ensures { result.now ≡ self.now.body }
    {
        &self.body
    }
}
