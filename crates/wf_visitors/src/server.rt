//! What answers requests.
ghost use Rattle.std.specs.Prelude.{◌≡◌, ℕ, Bool, List};
ghost use Rattle.wf_visitors.specs.ServerReply.{nothing, IsServerReply};

use std::alloc::Global;
use wf_client::{Incoming, Outgoing};

/// What came of a request.
#[derive(Clone, Copy, PartialEq, Eq)]
pub enum ServerReply {
    /// It isn't whole: it lacks at least this many bytes. Nothing was written.
    Lacks(usize),
    /// There is none, or no memory for an answer. Nothing was written.
    Nothing,
    /// A response with this status was written, or as many bytes of it as there was memory for.
    Sent { status: u16, bytes: u64 },
}

/// What answers requests.
pub trait Server {
    /// What it may respond: of itself before, the bytes that have come from a client, whether the
    /// client has closed its side, the bytes of the response, and itself after it.
    ghost responds: { Self → List ℕ → Bool → List ℕ → Self → Type 0 };

    /// What it does where it doesn't respond, if that is known: of itself before and after.
    ghost stays: { Self → Self → Type 0 } = { λ _ _. Unit {0} };

    /// Reads the request of a client, and writes the response.
    fn answer(&mut self, alloc: Global, incoming: &Incoming, outgoing: &mut Outgoing) -> ServerReply
        requires { outgoing.old ≡ nothing }
        ensures { IsServerReply (stays self.old self.new)
            (responds self.old incoming.now.bytes incoming.now.is_closed
            outgoing.new.bytes self.new)
            result outgoing.old outgoing.new };
}
