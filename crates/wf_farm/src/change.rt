//! Changes of a farm's nodes by a client, over any kind of tape.

ghost use Rattle.std.specs.Prelude.{◌≡◌, ◌<◌, false, List, [], length};
ghost use Rattle.wf_delivery.specs.Delivery.{StandInTurn};
ghost use Rattle.wf_delivery.specs.Reachability.{AreReachableFrom};
ghost use Rattle.wf_farm.specs.Nodes.{KeepEntries, KeepHosts, nodes_in, nodes_of};
ghost use Rattle.wf_node.specs.Node.{Node};

use crate::cluster::NodeHost;
use crate::farm::Farm;
use std::alloc::Global;
use std::mem::replace;
use wf_tape::Tape;

/// What changes the nodes of a farm, as messages that it delivers do: some events of the model lead
/// to what they are afterwards.
pub trait FarmClient<T: Tape> {
    /// What is known of a call: the client and the nodes before it, and the nodes and the client
    /// after it.
    ghost changes: { Self → List (Node T) → List (Node T) → Self → Type 0 };

    /// Changes the farm's entries. A node that runs still does, and a stopped one is unchanged.
    fn change(&mut self, alloc: Global, hosts: &mut [NodeHost<T>])
        requires some { 0 < length hosts.old }
        requires in_turn { StandInTurn (nodes_of hosts.old) }
        ensures changes { changes self.old (nodes_of hosts.old) (nodes_of hosts.new) self.new }
        ensures reaches { AreReachableFrom T.Tape (nodes_of hosts.old) (nodes_of hosts.new) }
        ensures entries { KeepEntries T.Tape hosts.old hosts.new };
}

impl<T: Tape> Farm<T> {
    /// Lets the client change the farm's nodes. Afterwards all messages are forgotten, those sent
    /// before too. A node keeps what it published.
    pub fn change<C: FarmClient<T>>(&mut self, alloc: Global, client: &mut C)
        ensures changes { C.changes client.old (nodes_in self.old) (nodes_in self.new) client.new }
        ensures reachable { AreReachableFrom T.Tape (nodes_in self.old) (nodes_in self.new) }
        ensures kept { KeepHosts self.old.hosts self.new.hosts }
        ensures forgets { self.new ≡ record self.old {
          hosts = self.new.hosts;
          sent = [];
          pumped = 0;
          complete = false;
        } }
    {
        client.change(alloc, &mut self.cluster.hosts);
        drop(replace(&mut self.cluster.sent, Vec::new(alloc)));
        self.pumped = 0;
        self.complete = false;
    }
}
