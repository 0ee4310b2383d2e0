//! What a node does by the clock, and for its peers.
ghost use Rattle.std.specs.Prelude.{◌≡◌};
ghost use Rattle.wf_peer_connections.specs.ReadersPort.{exchanges_of};
ghost use Rattle.wf_voter.specs.Continuation.{Continues, ContinuesIn};

use std::alloc::Global;
use std::net::Net;
use std::time::Clock;
use wf_peer_connections::{PeerConnections, Timers};
use wf_peering::{accept, ask_all, call_all, connect, greet_again, obey, save};
use wf_ports::Desk;
use wf_sockets::Network;
use wf_tape::Tape;
use wf_visitors::Context;
use wf_voter::{Clients, NodeFolder, Process, Voter, retry};

/// What the node does in a turn by the clock, and for its peers.
pub(crate) fn turn_by_clock<
    R: Net + Clock + Eprint + AllocGlobal,
    T: Tape + Drop,
    F: NodeFolder<T>,
    N: Network,
>(
    context: &Context<'_, '_, R, N>,
    voter: &mut Voter<T>,
    folder: &mut F,
    peers: &mut PeerConnections<N>,
    timers: &mut Timers,
    desk: &mut Desk<N>,
    clients: &mut Clients<T, N>,
)
    ensures on { ContinuesIn T.Tape (F.stands folder.old) voter.old
        (F.stands folder.new) voter.new }
    ensures befores { clients.new.before.items ≡ clients.old.before.items }
    ensures exchanges { exchanges_of desk.new.readers ≡ exchanges_of desk.old.readers }
{
    tick(context, voter, folder, peers, timers, desk, clients);
    retry_if_preempted(context.alloc(), voter, timers, context.time);
    watch(context, &voter.process, peers, timers);
    call_all(context, voter, peers);
}

/// Does what is to be done at a tick, if one is over.
#[tactic(auto, using(wf_voter::proofs::Continuation::still_in, wf_voter::proofs::Continuation::on_in, wf_voter::proofs::Continuation::twice_in))]
fn tick<R: Net + Clock + Eprint + AllocGlobal, T: Tape + Drop, F: NodeFolder<T>, N: Network>(
    context: &Context<'_, '_, R, N>,
    voter: &mut Voter<T>,
    folder: &mut F,
    peers: &mut PeerConnections<N>,
    timers: &mut Timers,
    desk: &mut Desk<N>,
    clients: &mut Clients<T, N>,
)
    ensures on { ContinuesIn T.Tape (F.stands folder.old) voter.old
        (F.stands folder.new) voter.new }
    ensures befores { clients.new.before.items ≡ clients.old.before.items }
    ensures exchanges { exchanges_of desk.new.readers ≡ exchanges_of desk.old.readers }
{
    if timers.is_tick(context.time) {
        clients.accept(context);
        clients.tick(context.time);
        desk.tick(context);
        obey(context, voter, folder, peers);
        on_tick(context, voter, folder, peers, timers);
    }
}

/// What the node does at a tick: nothing while it is halted.
#[tactic(auto, using(wf_voter::proofs::Continuation::still_in, wf_voter::proofs::Continuation::on_in, wf_voter::proofs::Continuation::twice_in))]
fn on_tick<R: Net + Clock + Eprint + AllocGlobal, T: Tape + Drop, F: NodeFolder<T>, N: Network>(
    context: &Context<'_, '_, R, N>,
    voter: &mut Voter<T>,
    folder: &mut F,
    peers: &mut PeerConnections<N>,
    timers: &mut Timers,
)
    ensures on { ContinuesIn T.Tape (F.stands folder.old) voter.old
        (F.stands folder.new) voter.new }
{
    if voter.process.is_halted() {
        return;
    }
    link(context, voter, folder, peers);
    respond_on(context, voter, folder, peers, timers);
}

/// Accepts the connections of peers, ends those on which nothing comes, and connects to peers:
/// nothing unless it has connections with them.
#[tactic(auto, using(wf_voter::proofs::Continuation::still_in, wf_voter::proofs::Continuation::twice_in, wf_voter::proofs::Continuation::on_in))]
fn link<R: Net + Clock + Eprint + AllocGlobal, T: Tape + Drop, F: NodeFolder<T>, N: Network>(
    context: &Context<'_, '_, R, N>,
    voter: &mut Voter<T>,
    folder: &mut F,
    peers: &mut PeerConnections<N>,
)
    ensures on { ContinuesIn T.Tape (F.stands folder.old) voter.old
        (F.stands folder.new) voter.new }
{
    if !voter.connects() {
        return;
    }
    accept(context, voter, folder, peers);
    peers.close_silent(context, voter.process.node().published().number());
    connect(context, voter, peers);
}

/// What the node says by the clock, and what it saves of what it heard.
#[tactic(auto, using(wf_voter::proofs::Continuation::twice_in, wf_voter::proofs::Continuation::on_in))]
fn respond_on<R: Clock + Eprint + AllocGlobal, T: Tape + Drop, F: NodeFolder<T>, N: Network>(
    context: &Context<'_, '_, R, N>,
    voter: &mut Voter<T>,
    folder: &mut F,
    peers: &mut PeerConnections<N>,
    timers: &mut Timers,
)
    ensures on { ContinuesIn T.Tape (F.stands folder.old) voter.old
        (F.stands folder.new) voter.new }
{
    retry_if_due(context.alloc(), voter, peers, timers, context.time);
    if timers.is_second(context.time) {
        ask_all(context.alloc(), voter, peers);
        greet_again(context, voter, peers);
        let _ = save(context, voter, folder, peers);
    }
}

/// Begins a running proposal again, if it is time to, or if a majority is heard that wasn't.
#[tactic(auto, using(wf_voter::proofs::Continuation::still))]
fn retry_if_due<T: Tape + Drop, N: Network>(
    alloc: Global,
    voter: &mut Voter<T>,
    peers: &PeerConnections<N>,
    timers: &mut Timers,
    time: u64,
)
    ensures { Continues T.Tape voter.old voter.new }
{
    let proposal = voter.process.node().proposal();
    if timers.is_retry_due(proposal, peers, time) {
        retry(alloc, voter);
    }
}

/// Begins a running proposal again without a wait, once, if a Nack has told of a higher round.
#[tactic(auto, using(wf_voter::proofs::Continuation::still))]
fn retry_if_preempted<T: Tape + Drop>(
    alloc: Global,
    voter: &mut Voter<T>,
    timers: &mut Timers,
    time: u64,
)
    ensures { Continues T.Tape voter.old voter.new }
{
    let node = voter.process.node();
    if node.is_preempted() && timers.is_first_preemption(node.published().number(), time) {
        retry(alloc, voter);
    }
}

/// Writes that the tape has failed, and what has become of the proposal, if either is new.
fn watch<R: Clock + Eprint, T: Tape + Drop, N: Network>(
    context: &Context<'_, '_, R, N>,
    process: &Process<T>,
    peers: &mut PeerConnections<N>,
    timers: &mut Timers,
) {
    let node = process.node();
    if process.is_halted() {
        timers.note_failed_tape(context, peers, node.tape().cause());
    }
    timers.watch_proposal(context.log, node.proposal());
}
