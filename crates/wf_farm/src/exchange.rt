//! Exchanges: a node of a farm is asked to do something, over any kind of tape, and its messages
//! are delivered.

ghost use Rattle.std.specs.Prelude.{◌≡◌, ◌<◌, ◌≤◌, false, [], length, None, Vec};
ghost use Rattle.std.specs.declared.alloc.Global.{Global};
ghost use Rattle.wf_codec.specs.declared.message.Message.{Message};
ghost use Rattle.wf_node.specs.Node.{Node};
ghost use Rattle.wf_delivery.specs.Delivery.{AnyPart, StandInTurn};
ghost use Rattle.wf_delivery.specs.NodeInput.{IsSturdy};
ghost use Rattle.wf_farm.specs.Exchange.{IsAskedByClient, IsExchange, IsReadyFor, ReachabilityGoesOn};
ghost use Rattle.wf_delivery.specs.Reachability.{AreReachableFrom, AreReachableSending, AreReachable, HaveOneHistory};
ghost use Rattle.wf_farm.specs.Nodes.{KeepEntries, KeepHosts, RunsAt, nodes_in, nodes_of};
ghost use Rattle.wf_farm.specs.Hosts.{AreAtTheirIndex};

use crate::cluster::{Cluster, NodeHost};
use crate::farm::Farm;
use std::alloc::Global;
use std::mem::replace;
use wf_codec::Message;
use wf_delivery::{Pumped, deliver_each};
use wf_node::Node;
use wf_tape::Tape;

/// What asks a node of a farm to do something: a step of the node's own, which isn't a delivery, or
/// nothing.
pub trait NodeClient<T: Tape> {
    /// The client may ask this node.
    ghost ready: { Self → Node T → Type 0 };

    /// What is known of a call: the client and the node before it, the node's messages, and the
    /// node and the client after it.
    ghost asks: { Self → Node T → Vec Message Global → Node T → Self → Type 0 };

    /// Asks the node, and returns the messages that it sends.
    fn ask(&mut self, alloc: Global, node: &mut Node<T>) -> Vec<Message>
        requires { ready self.old node.old }
        ensures asks { asks self.old node.old result node.new self.new }
        ensures reaches { ReachabilityGoesOn T.Tape node.old result.items node.new }
        ensures sturdy { IsSturdy T.Tape node.old node.new };
}

impl<T: Tape> Farm<T> {
    /// Returns the farm of these nodes, each opened on its tape: node i at index i. The tapes are
    /// of a kind that isn't known to be durable, as a file isn't; a farm over tapes in memory
    /// begins with [`Farm::new`]. Allocates nothing.
    pub fn open(alloc: Global, hosts: Vec<NodeHost<T>>) -> Farm<T>
        requires some { 1 ≤ length hosts.items }
        requires most { length hosts.items ≤ 64 }
        requires in_turn { StandInTurn (nodes_of hosts.items) }
        requires outside { T.durable → ⊥ }
        ensures { result ≡ record {
          hosts = hosts.items;
          sent = [];
          pumped = 0;
          refused = None;
          complete = false;
        } }
    {
        Farm {
            cluster: Cluster {
                hosts,
                sent: Vec::new(alloc),
            },
            pumped: 0,
            refused: None,
            complete: false,
        }
    }

    /// Lets the client ask node `number`, and delivers the node's messages to every node, and those
    /// sent meanwhile, as [`deliver_all`](wf_delivery::deliver_all) does; stopped nodes receive
    /// nothing. Afterwards all messages are forgotten, those sent before the exchange too. A node
    /// that the tape fails under is halted, and keeps what it published.
    pub fn exchange<C: NodeClient<T>>(
        &mut self,
        alloc: Global,
        number: usize,
        client: &mut C,
    ) -> Pumped
        requires runs { RunsAt self.old.hosts number }
        requires ready { IsReadyFor C.ready client.old self.old.hosts number }
        ensures exchange { IsExchange T.Tape C.asks number client.old (nodes_in self.old) result
            client.new (nodes_in self.new) }
        ensures reachable { AreReachableFrom T.Tape (nodes_in self.old) (nodes_in self.new) }
        ensures kept { KeepHosts self.old.hosts self.new.hosts }
        ensures forgets { self.new ≡ record self.old {
          hosts = self.new.hosts;
          sent = [];
          pumped = 0;
          complete = false;
        } }
    {
        let pumped = exchange_in(alloc, &mut self.cluster.hosts, number, client);
        drop(replace(&mut self.cluster.sent, Vec::new(alloc)));
        self.pumped = 0;
        self.complete = false;
        pumped
    }

    /// The headline, for a farm over any kind of tape: if some events led to its nodes from the
    /// start, no two of them, running or halted, have published different definitions under one
    /// sequence. Over a durable tape some did. The call does nothing.
    pub fn nodes_agree(&self)
        ensures reached { T.durable → AreReachable AnyPart (nodes_in self.now) }
        ensures agree { AreReachable AnyPart (nodes_in self.now) →
            HaveOneHistory (nodes_in self.now) }
        ensures in_turn { StandInTurn (nodes_in self.now) }
    {
        let _ = &self.cluster;
    }
}

/// Lets the client ask a node that runs, and delivers the messages.
fn exchange_in<C: NodeClient<T>, T: Tape>(
    alloc: Global,
    hosts: &mut [NodeHost<T>],
    number: usize,
    client: &mut C,
) -> Pumped
    requires within { number < length hosts.old }
    requires runs { RunsAt hosts.old number }
    requires ready { IsReadyFor C.ready client.old hosts.old number }
    requires members { AreAtTheirIndex T.durable T.images T.never_fails hosts.old }
    ensures exchange { IsExchange T.Tape C.asks number client.old (nodes_of hosts.old) result
        client.new (nodes_of hosts.new) }
    ensures reachable { AreReachableFrom T.Tape (nodes_of hosts.old) (nodes_of hosts.new) }
    ensures entries { KeepEntries T.Tape hosts.old hosts.new }
{
    let messages = ask_node(alloc, hosts, number, client);
    deliver_each(alloc, hosts, messages)
}

/// Lets the client ask a node that runs, and returns the node's messages.
fn ask_node<C: NodeClient<T>, T: Tape>(
    alloc: Global,
    hosts: &mut [NodeHost<T>],
    number: usize,
    client: &mut C,
) -> Vec<Message>
    requires within { number < length hosts.old }
    requires runs { RunsAt hosts.old number }
    requires ready { IsReadyFor C.ready client.old hosts.old number }
    requires members { AreAtTheirIndex T.durable T.images T.never_fails hosts.old }
    ensures asked { IsAskedByClient C.asks number client.old (nodes_of hosts.old) result
        client.new (nodes_of hosts.new) }
    ensures only_sends { AreReachableSending T.Tape (nodes_of hosts.old) result.items
        (nodes_of hosts.new) }
    ensures entries { KeepEntries T.Tape hosts.old hosts.new }
{
    match &mut hosts[number] {
        NodeHost::Running(node) => client.ask(alloc, node),
        NodeHost::Stopped(_) => unreachable!(),
    }
}
