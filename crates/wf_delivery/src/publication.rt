//! Theorems about deliveries of which none is lost: that they are those of whole rounds, and what
//! is published.

ghost use Rattle.wf_delivery.specs.Publication.{DeliveredExactly, NewStayNew, PublishedOnAll};

use wf_tape::Tape;

/// If [`deliver_all`](wf_delivery::deliver_all) loses no delivery, and no node is halted
/// afterwards, its deliveries are exactly those of rounds to every node, of one message after the
/// other, from whatever world of the model the nodes were. A theorem: the call does nothing.
pub fn deliveries_are_rounds<T: Tape>()
    ensures { DeliveredExactly T.Tape }
{}

/// If one of three new nodes proposes a definition, and [`deliver_all`](wf_delivery::deliver_all)
/// delivers its messages, neither loses a delivery nor stops early, and no node is halted
/// afterwards, then all three have published the definition under sequence 1, by 27 deliveries. A
/// theorem: the call does nothing.
pub fn new_nodes_publish<T: Tape>()
    ensures { PublishedOnAll T.Tape }
{}

/// New nodes of which one is asked to catch up, and its messages are delivered by
/// [`deliver_all`](wf_delivery::deliver_all), are new still, if no node is halted afterwards,
/// whatever was lost. A theorem: the call does nothing.
pub fn new_nodes_stay_new<T: Tape>()
    ensures { NewStayNew T.Tape }
{}
