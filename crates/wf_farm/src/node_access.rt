//! Read access to the node of an entry.

ghost use Rattle.std.specs.Prelude.{◌≡◌, Some};
ghost use Rattle.std.specs.Option.{option_copied};
ghost use Rattle.wf_farm.specs.Farm.{running_in};

use crate::cluster::NodeHost;
use wf_node::Node;
use wf_tape::Tape;

impl<T: Tape> NodeHost<T> {
    /// The node, if it runs.
    pub(crate) fn running(&self) -> Option<&Node<T>>
        ensures { option_copied result ≡ running_in (Some self.now) }
    {
        match self {
            NodeHost::Running(node) => Some(node),
            NodeHost::Stopped(_) => None,
        }
    }
}
