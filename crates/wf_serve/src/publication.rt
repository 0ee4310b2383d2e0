//! Theorems about a map that is published over a connection to new nodes.
ghost use Rattle.wf_serve.specs.First.{FirstIsPublished};
ghost use Rattle.wf_serve.specs.Publication.{AcceptedIsPublished, CaughtUpAreNew};

use wf_catch_up::a_catch_up_is_reachable;
use wf_delivery::new_nodes_publish;
use wf_tape::Tape;

/// If a connection to one of three new nodes, served by
/// [`serve_connection`](crate::serve_connection), was answered with the status 202, none of the
/// deliveries of the node's messages was lost, they didn't stop early, and no node was halted by
/// then, then all three nodes have published the map that the request's body means, under sequence
/// 1, and no proposal is running. A theorem: the call does nothing.
pub fn an_accepted_map_is_published<T: Tape>()
    ensures { AcceptedIsPublished T.Tape }
{
    a_catch_up_is_reachable::<T>();
    new_nodes_publish::<T>();
}

/// New nodes that caught up ([`catch_up`](crate::catch_up)), as [`serve_nodes`](crate::serve_nodes)
/// lets them before the first connection, are new still. A theorem: the call does nothing.
pub fn caught_up_nodes_stay_new<T: Tape>()
    ensures { CaughtUpAreNew T.Tape }
{
    a_catch_up_is_reachable::<T>();
}

/// Of the connections that three new nodes served
/// ([`serve_connections`](crate::serve_connections)), at least one, the first is by node 0, and the
/// map that was accepted over it, as above, all three have published under sequence 1 once all
/// connections were served. A theorem: the call does nothing.
pub fn the_first_map_is_published<T: Tape>()
    ensures { FirstIsPublished T.Tape }
{
    a_catch_up_is_reachable::<T>();
    new_nodes_publish::<T>();
}
