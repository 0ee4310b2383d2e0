//! The connections of a node to its peers: they are opened, written on, and tried again.
ghost use Rattle.std.specs.Prelude.{◌≡◌};
ghost use Rattle.wf_peer.specs.GreetingReply.{EndsANode};
ghost use Rattle.wf_voter.specs.Continuation.{Continues, ContinuesIn};

use crate::greeting::greeting;
use crate::peer_reads::admit;
use std::alloc::Global;
use std::net::Net;
use std::time::Clock;
use wf_ballot::NodeId;
use wf_membership::Gate;
use wf_peer::{GreetingReply, PeerRejection};
use wf_peer_connections::{Dial, DialTurn, PeerConnections, PeerEnd, id_of};
use wf_sockets::{Connection, Network};
use wf_tape::Tape;
use wf_visitors::Context;
use wf_voter::{NodeFolder, Voter, ask, finish_post};

/// Lets the connection to a peer go on.
#[tactic(auto, using(wf_voter::proofs::Continuation::still_in, wf_voter::proofs::Continuation::on_in, wf_voter::proofs::Continuation::twice_in))]
pub fn call<R: Clock + Eprint + AllocGlobal, T: Tape + Drop, F: NodeFolder<T>, N: Network>(
    context: &Context<'_, '_, R, N>,
    voter: &mut Voter<T>,
    folder: &mut F,
    peers: &mut PeerConnections<N>,
    index: usize,
)
    ensures on { ContinuesIn T.Tape (F.stands folder.old) voter.old
        (F.stands folder.new) voter.new }
{
    let Some(peer) = id_of(index) else {
        return;
    };
    let Some(dial) = peers.dials.get_mut(index) else {
        return;
    };
    let turned = turn_dial(dial, context.time);
    let is_established = dial.is_established();
    match turned {
        DialTurn::Same => {}
        DialTurn::Answered(reply) => {
            peers.note_answer(index);
            open(context, voter, folder, peers, index, peer, &reply);
        }
        DialTurn::Ended(why) => {
            if is_established {
                peers.note_answer(index);
            }
            let _ = peers.end(context, index, why);
        }
    }
}

/// Reads what came, and writes what waits: what is to be done once the connection is ready.
fn turn_dial<C: Connection + Drop>(dial: &mut Dial<C>, now: u64) -> DialTurn {
    let turned = dial.hear(now);
    if !matches!(turned, DialTurn::Same) {
        return turned;
    }
    match dial.send() {
        Some(why) => DialTurn::Ended(why),
        None => DialTurn::Same,
    }
}

/// Opens the connection to a peer, whose reply has come. One that is open already brings the peer's
/// greeting again, by which the connection is known to stand.
#[tactic(auto, using(wf_voter::proofs::Continuation::still_in, wf_voter::proofs::Continuation::on_in, wf_voter::proofs::Continuation::twice_in))]
fn open<R: Clock + Eprint + AllocGlobal, T: Tape + Drop, F: NodeFolder<T>, N: Network>(
    context: &Context<'_, '_, R, N>,
    voter: &mut Voter<T>,
    folder: &mut F,
    peers: &mut PeerConnections<N>,
    index: usize,
    peer: NodeId,
    reply: &GreetingReply,
)
    ensures on { ContinuesIn T.Tape (F.stands folder.old) voter.old
        (F.stands folder.new) voter.new }
{
    if let Some(why) = why_not(context, voter, folder, peers, peer, reply) {
        let _ = peers.end(context, index, why);
        return;
    }
    if peers.is_open(index) {
        peers.note_heard_again(index, reply, context.time);
        return;
    }
    if !peers.is_established(index) {
        // what its reply said has ended all connections
        return;
    }
    let _ = peers.open(context, index);
}

/// Why the connection to a peer doesn't open, by its reply.
#[tactic(auto, using(wf_voter::proofs::Continuation::still_in, wf_voter::proofs::Continuation::on_in))]
fn why_not<R: Clock + Eprint + AllocGlobal, T: Tape + Drop, F: NodeFolder<T>, N: Network>(
    context: &Context<'_, '_, R, N>,
    voter: &mut Voter<T>,
    folder: &mut F,
    peers: &mut PeerConnections<N>,
    peer: NodeId,
    reply: &GreetingReply,
) -> Option<PeerEnd>
    ensures on { ContinuesIn T.Tape (F.stands folder.old) voter.old
        (F.stands folder.new) voter.new }
{
    match reply {
        GreetingReply::Greeting(said) => {
            match admit(context, voter, folder, peers, None, Some(peer), said) {
                Ok(()) if voter.connects() => None,
                Ok(()) => Some(PeerEnd::Unwritten),
                Err(why) => Some(PeerEnd::Rejected(why)),
            }
        }
        GreetingReply::Rejected(why, _) => {
            // a folder that joins is another one than before, until the peer has agreed to it
            if !(voter.membership.joins && why.ends_a_node()) {
                take_rejection(context, voter, peers, peer, *why);
            }
            Some(PeerEnd::RejectedBy(*why))
        }
    }
}

/// A peer doesn't let this node in. One that remembers more of the node than it has suspends it:
/// nothing leaves it from now on. Of one whose history differs that is noted.
#[tactic(auto, using(wf_voter::proofs::Continuation::still))]
fn take_rejection<R: Clock + Eprint, T: Tape + Drop, N: Network>(
    context: &Context<'_, '_, R, N>,
    voter: &mut Voter<T>,
    peers: &mut PeerConnections<N>,
    peer: NodeId,
    why: PeerRejection,
)
    ensures on { Continues T.Tape voter.old voter.new }
    ensures suspended { EndsANode why → voter.new.gate ≡ Gate.Suspended }
{
    if why.ends_a_node() {
        voter.set_gate(Gate::Suspended);
        peers.suspend(context, peer, why);
    } else if why == PeerRejection::OtherHistory {
        let published = voter.process.node().published().number();
        peers.note_difference(context, peer, published);
    }
}

/// Connects to the peers to which there is no connection, and ends attempts that take too long.
pub fn connect<R: Net + Clock + Eprint + AllocGlobal, T: Tape + Drop, N: Network>(
    context: &Context<'_, '_, R, N>,
    voter: &Voter<T>,
    peers: &mut PeerConnections<N>,
) {
    for index in 0..peers.dials.len() {
        connect_to(context, voter, peers, index);
    }
}

/// Connects to a node, if it is a peer, there is no connection and it is time to; ends one that
/// takes too long, or is to be compared.
fn connect_to<R: Net + Clock + Eprint + AllocGlobal, T: Tape + Drop, N: Network>(
    context: &Context<'_, '_, R, N>,
    voter: &Voter<T>,
    peers: &mut PeerConnections<N>,
    index: usize,
) {
    let Some(peer) = id_of(index) else {
        return;
    };
    if peer == peers.plan.own.node {
        return;
    }
    let published = voter.process.node().published().number();
    if let Some(why) = peers.why_anew(index, published, context.time) {
        let _ = peers.end(context, index, why);
    }
    connect_if_due(context, voter, peers, index);
}

/// Connects to a peer and greets it, if there is no connection and it is time to.
fn connect_if_due<R: Net + Clock + Eprint + AllocGlobal, T: Tape + Drop, N: Network>(
    context: &Context<'_, '_, R, N>,
    voter: &Voter<T>,
    peers: &mut PeerConnections<N>,
    index: usize,
) {
    if !peers.is_due(index, context.time) {
        return;
    }
    if let Some(own) = greeting(peers, voter) {
        peers.connect_to(context, index, &own);
    }
}

/// Asks a peer for the definitions that the node lacks, if it is time to: nobody once the tape has
/// failed.
#[tactic(auto, using(wf_voter::proofs::Continuation::still))]
fn ask_next<T: Tape + Drop, N: Network>(
    alloc: Global,
    voter: &mut Voter<T>,
    peers: &mut PeerConnections<N>,
    time: u64,
)
    ensures { Continues T.Tape voter.old voter.new }
{
    if voter.process.is_halted() {
        return;
    }
    if let Some(index) = peers.next_to_ask(voter.process.node().history(), time) {
        if let Some(peer) = id_of(index) {
            ask(alloc, voter, peer);
        }
    }
}

/// Asks each peer for the next definition: peers learn by this that the node is there.
#[tactic(auto, using(wf_voter::proofs::Continuation::still, wf_voter::proofs::Continuation::twice))]
pub fn ask_all<T: Tape + Drop, N: Network>(
    alloc: Global,
    voter: &mut Voter<T>,
    peers: &PeerConnections<N>,
)
    ensures { Continues T.Tape voter.old voter.new }
{
    for index in 0..peers.dials.len() {
        ask_at(alloc, voter, peers, index);
    }
}

/// Asks a peer for the next definition, if messages can be sent to it.
#[tactic(auto, using(wf_voter::proofs::Continuation::still))]
fn ask_at<T: Tape + Drop, N: Network>(
    alloc: Global,
    voter: &mut Voter<T>,
    peers: &PeerConnections<N>,
    index: usize,
)
    ensures { Continues T.Tape voter.old voter.new }
{
    let Some(peer) = id_of(index) else {
        return;
    };
    if peers.is_open(index) {
        ask(alloc, voter, peer);
    }
}

/// Greets each peer again on the connection from it: by this it learns that the connection stands,
/// and once the last sequence is published, when nobody asks any more, that the node is there.
pub fn greet_again<R: Clock + Eprint + AllocGlobal, T: Tape + Drop, N: Network>(
    context: &Context<'_, '_, R, N>,
    voter: &Voter<T>,
    peers: &mut PeerConnections<N>,
) {
    if !voter.connects() {
        return;
    }
    if let Some(own) = greeting(peers, voter) {
        peers.greet_again(context.alloc(), &own);
    }
}

/// Asks for what the node lacks, writes what waits for the peers, and extends the digests if there
/// is time.
#[tactic(auto, using(wf_voter::proofs::Continuation::still, wf_voter::proofs::Continuation::twice))]
pub fn call_all<R: Clock + Eprint + AllocGlobal, T: Tape + Drop, N: Network>(
    context: &Context<'_, '_, R, N>,
    voter: &mut Voter<T>,
    peers: &mut PeerConnections<N>,
)
    ensures { Continues T.Tape voter.old voter.new }
{
    ask_next(context.alloc(), voter, peers, context.time);
    send_all(context, voter, peers);
    peers.extend_digests(voter.process.node().history());
}

/// Gives the connections what the node returned, and writes what waits for the peers: nothing once
/// the tape has failed.
pub fn send_all<R: Clock + Eprint + AllocGlobal, T: Tape + Drop, N: Network>(
    context: &Context<'_, '_, R, N>,
    voter: &mut Voter<T>,
    peers: &mut PeerConnections<N>,
)
    ensures { Continues T.Tape voter.old voter.new }
{
    post_all(voter, peers);
    if !voter.process.is_halted() {
        for index in 0..peers.dials.len() {
            send_to(context, peers, index);
        }
    }
}

/// Gives the posts that wait to the connections of those of the peers that they are for, and to the
/// node itself.
#[tactic(auto, using(wf_voter::proofs::Continuation::still, wf_voter::proofs::Continuation::twice))]
fn post_all<T: Tape + Drop, N: Network>(voter: &mut Voter<T>, peers: &mut PeerConnections<N>)
    ensures { Continues T.Tape voter.old voter.new }
{
    for _ in 0..u64::MAX {
        match voter.process.first_post() {
            Some(post) => peers.post(post),
            None => return,
        }
        finish_post(voter);
    }
}

/// Writes what waits for a peer, if anything does.
fn send_to<R: Clock + Eprint + AllocGlobal, N: Network>(
    context: &Context<'_, '_, R, N>,
    peers: &mut PeerConnections<N>,
    index: usize,
) {
    if peers.remaining(index) == 0 {
        return;
    }
    let Some(dial) = peers.dials.get_mut(index) else {
        return;
    };
    if let Some(why) = dial.send() {
        let _ = peers.end(context, index, why);
    }
}
