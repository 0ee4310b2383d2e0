//! A farm's entry receives messages as its node does, if it runs.

use crate::cluster::NodeHost;
use std::alloc::Global;
use wf_codec::Message;
use wf_delivery::{Outputs, Recipient, hand, quiet};
use wf_tape::Tape;

impl<T: Tape> Recipient<T> for NodeHost<T> {
    ghost use Rattle.wf_farm.specs.Nodes.{KeepsEntry, node_in, nodes_of};
    ghost use Rattle.wf_farm.specs.NodesTheorems.{length-nodes, nodes_get, nodes_set};

    ghost node = { λ n i host. node_in n i host };

    ghost nodes = { λ hosts. nodes_of hosts };

    ghost keeps = { λ before after. KeepsEntry T.Tape before after };

    ghost as_many = { λ hosts. length-nodes hosts };

    ghost get = { λ hosts i host at. nodes_get hosts i host at };

    ghost set = { λ hosts i host. nodes_set hosts i host };

    fn receive(&mut self, alloc: Global, message: &Message) -> Outputs {
        match self {
            NodeHost::Running(node) => hand(alloc, node, message),
            NodeHost::Stopped(_) => quiet(alloc, false),
        }
    }
}
