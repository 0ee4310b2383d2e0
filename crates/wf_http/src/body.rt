//! The body of a request.
ghost use Rattle.std.specs.Prelude.{◌≡◌, ◌<◌, ◌-◌, ◌++◌, IfOk, IfErr, IfSome, IsOk, length};
ghost use Rattle.wf_http.specs.Body.{IsRequestBody, IsBodyFault};
ghost use Rattle.wf_http.specs.Front.{CountsReads};
ghost use Rattle.wf_stream.specs.Effects.{TakesUpTo};

use crate::fault::RequestFault;
use crate::http_error::HttpError;
use std::alloc::{AllocError, Global};
use std::io::ErrorKind;
use wf_stream::{Source, read_onto};

// A buffer with room for a body of `bytes` bytes, and these at its front.
fn begin(alloc: Global, front: &[u8], bytes: usize) -> Result<Vec<u8>, AllocError>
    ensures { IfOk result (λ body. body.items ≡ front.now) }
{
    let mut body = Vec::with_capacity(alloc, bytes)?;
    body.extend_from_slice(front)?;
    Ok(body)
}

// Reads a body of `bytes` bytes, some of which may have been read with the head.
#[tactic(auto, using(crate::proofs::BodyTheorem::body_joined, crate::proofs::BodyTheorem::body_cut, crate::proofs::BodyTheorem::body_unheld, crate::proofs::BodyTheorem::missing_taken))]
fn read_missing<S: Source>(
    alloc: Global,
    source: &mut S,
    behind: &[u8],
    bytes: usize,
) -> Result<Vec<u8>, RequestFault>
    requires { 0 < bytes }
    ensures ok { IfOk result (λ body.
        IfSome (S.left source.old) (λ left. IsRequestBody (behind.now ++ left) bytes body.items)) }
    ensures err { IfErr result (λ fault.
        IfSome (S.left source.old) (λ left. IsBodyFault (behind.now ++ left) bytes fault)) }
    ensures takes { TakesUpTo (bytes - length behind.now) (S.left source.old) (S.left source.new) }
    ensures reads { CountsReads result (S.failures source.old) (S.failures source.new) }
{
    let front = behind.split_at(behind.len().min(bytes)).0;
    let missing = bytes - front.len();
    let mut body = match begin(alloc, front, bytes) {
        Ok(body) => body,
        Err(_) => return Err(RequestFault::Memory),
    };
    match read_onto(source, &mut body, missing) {
        Ok(count) => {
            if count != missing {
                return Err(RequestFault::Rejected(HttpError::BadRequest));
            }
            Ok(body)
        }
        Err(error) if error.kind() == ErrorKind::OutOfMemory => Err(RequestFault::Memory),
        Err(_) => Err(RequestFault::ReadFailed),
    }
}

/// Reads a body of `bytes` bytes, of which those in `behind` were read with the head. Bytes after
/// the body may be among them, and are ignored; no further ones are read: if all of the body came
/// with the head, nothing is read. An empty body allocates nothing either.
#[tactic(auto, using(crate::proofs::BodyTheorem::nothing_taken))]
pub fn read_body<S: Source>(
    alloc: Global,
    source: &mut S,
    behind: &[u8],
    bytes: usize,
) -> Result<Vec<u8>, RequestFault>
    ensures ok { IfOk result (λ body.
        IfSome (S.left source.old) (λ left. IsRequestBody (behind.now ++ left) bytes body.items)) }
    ensures err { IfErr result (λ fault.
        IfSome (S.left source.old) (λ left. IsBodyFault (behind.now ++ left) bytes fault)) }
    ensures takes { TakesUpTo (bytes - length behind.now) (S.left source.old) (S.left source.new) }
    ensures reads { CountsReads result (S.failures source.old) (S.failures source.new) }
    ensures empty { bytes ≡ 0 → IsOk result × (source.new ≡ source.old) }
{
    if bytes == 0 {
        return Ok(Vec::new(alloc));
    }
    read_missing(alloc, source, behind, bytes)
}
