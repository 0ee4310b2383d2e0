//! What logs note of a step.

ghost use Rattle.std.specs.Prelude.{◌≡◌, ◌++◌};
ghost use Rattle.wf_actor.specs.Life.{all_from};
ghost use Rattle.wf_wire.specs.Post.{logged};
ghost use Rattle.wf_execution.specs.Run.{given_to};
ghost use Rattle.wf_delivery.specs.Reachability.{outputs_by};

use crate::actor::Origin;
use wf_codec::Message;
use wf_node::{Input, NodeFault};
use wf_past::Past;

/// Notes the message that the input delivers, if it does, with where it comes from.
pub(crate) fn note(given: &mut Past<Message, Origin>, input: &Input, origin: &Origin)
    ensures { given.new.items ≡ given.old.items ++ all_from origin.now (given_to input.now) }
{
    match input {
        Input::Deliver(message) => *given = given.and(message, origin),
        Input::Propose(_) | Input::Retry | Input::CatchUp => {}
    }
}

/// Notes the messages of a step.
pub(crate) fn report(
    emitted: &mut Past<Vec<Message>, usize>,
    answer: &Result<Vec<Message>, NodeFault>,
)
    ensures { logged emitted.new.items ≡ logged emitted.old.items ++ outputs_by answer.now }
{
    match answer {
        Ok(messages) => *emitted = emitted.and(messages, &0),
        Err(_) => {}
    }
}
