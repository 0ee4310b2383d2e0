//! Clients of a process.

use crate::parts::post;
use crate::process::Process;
use std::alloc::Global;
use wf_edge::{Outcome, Served};
use wf_stream::{Sink, Source};
use wf_tape::Tape;
use wf_wire::Target;

impl<T: Tape> Process<T> {
    ghost use Rattle.wf_actor.specs.Process.{IsServedBy};
    ghost use Rattle.wf_edge.specs.Receipt.{CountsReceiving};
    ghost use Rattle.wf_edge.specs.Completion.{CountsCompleting};
    ghost use Rattle.wf_edge.specs.Request.{TakesRequest};

    /// Serves one request, as [`wf_edge::serve_one_cached`] does: what reads is answered by the
    /// node's history and the pictures that are kept; POST /publish is an act if its checks pass,
    /// and its messages wait for every node, whether or not the response is written. Where the
    /// reader fails before the request is complete, nothing is written and nothing has changed.
    pub fn serve<S: Source, K: Sink>(
        &mut self,
        alloc: Global,
        source: &mut S,
        sink: &mut K,
    ) -> Outcome
        ensures served { IsServedBy T.Tape S.Source K.Sink
            source.old source.new sink.old sink.new self.old result self.new }
        ensures takes { TakesRequest
            (S.piece source.old) (S.left source.old) (S.left source.new) }
        ensures reads { CountsReceiving result (S.failures source.old) (S.failures source.new) }
        ensures writes { CountsCompleting result (K.failures sink.old) (K.failures sink.new) }
    {
        let served = self.actor.serve(alloc, source, sink);
        let Served { outcome, messages } = served;
        post(
            alloc,
            &mut self.posts,
            messages,
            Target::Everyone,
            &self.actor.emitted,
        );
        outcome
    }
}
