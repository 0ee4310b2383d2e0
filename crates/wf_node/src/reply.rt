//! The messages that answer an input.

ghost use Rattle.std.specs.Prelude.{option_map};
ghost use Rattle.std.specs.Option.{option_to_list};
ghost use Rattle.wf_codec.specs.Message.{view};
ghost use Rattle.wf_node.specs.Act.{IsStepReply};

use crate::fault::NodeFault;
use std::alloc::Global;
use wf_codec::Message;

/// The message, if there is one, as a list. For no message it doesn't allocate.
pub(crate) fn reply(alloc: Global, message: Option<Message>) -> Result<Vec<Message>, NodeFault>
    ensures { IsStepReply (option_to_list (option_map view message)) result }
{
    let mut messages = Vec::new(alloc);
    if let Some(message) = message {
        messages.push(message)?;
    }
    Ok(messages)
}
