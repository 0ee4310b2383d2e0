//! What asks a node of a farm: a publish over a connection, or the farm itself.
ghost use Rattle.std.specs.Prelude.{◌≡◌};
ghost use Rattle.wf_edge.specs.StepResult.{IsStepResult};
ghost use Rattle.wf_model.specs.Table.{Retry};
ghost use Rattle.wf_node.specs.Input.{view};
ghost use Rattle.wf_serve.specs.ConnectionEffect.{IsAsked};

use std::alloc::Global;
use wf_codec::Message;
use wf_edge::{Outcome, Request, Served, publish_request};
use wf_farm::NodeClient;
use wf_node::{Input, Node, NodeFault};
use wf_stream::Sink;
use wf_tape::Tape;

/// A publish over a connection, that a node answers.
#[derive(Drop)]
pub(crate) struct Publishing<'a, 'b, K> {
    pub sink: &'a mut K,
    pub request: &'b Request,
    // What came of the request, once it is answered.
    pub outcome: Outcome,
}

impl<'a, 'b, K: Sink, T: Tape> NodeClient<T> for Publishing<'a, 'b, K> {
    ghost use Rattle.wf_edge.specs.RequestEffect.{IsPublish, IsServed};

    ghost ready = { λ publishing _. IsPublish publishing.request.now.asked };

    ghost asks = { λ old before outputs after new.
        (new.sink.ghost_name ≡ old.sink.ghost_name)
        × (new.request ≡ old.request)
        × IsServed T.Tape K.Sink old.request.now old.sink.now new.sink.now
        before outputs after new.outcome };

    fn ask(&mut self, alloc: Global, node: &mut Node<T>) -> Vec<Message> {
        let Served { outcome, messages } = publish_request(alloc, self.sink, node, self.request);
        self.outcome = outcome;
        messages
    }
}

/// The farm itself, that asks a node to restart its proposal.
#[derive(Clone, Copy)]
pub(crate) struct Restart;

impl<T: Tape> NodeClient<T> for Restart {
    ghost ready = { λ _ _. Unit {0} };

    ghost asks = { λ _ before outputs after _. IsAsked T.Tape Retry before outputs after };

    fn ask(&mut self, alloc: Global, node: &mut Node<T>) -> Vec<Message> {
        outputs(alloc, node, Input::Retry)
    }
}

/// The messages of a node for an input; none if it rejects.
fn outputs<T: Tape>(alloc: Global, node: &mut Node<T>, input: Input) -> Vec<Message>
    ensures { IsAsked T.Tape (view input) node.old result node.new }
{
    match answer(alloc, node, input) {
        Ok(outputs) => outputs,
        Err(_) => Vec::new(alloc),
    }
}

/// The result of a node's step.
fn answer<T: Tape>(
    alloc: Global,
    node: &mut Node<T>,
    input: Input,
) -> Result<Vec<Message>, NodeFault>
    ensures { IsStepResult T.Tape (view input) node.old result node.new }
{
    node.step(alloc, input)
}
