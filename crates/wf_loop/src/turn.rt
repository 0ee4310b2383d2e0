//! What a turn does once it has waited.
ghost use Rattle.std.specs.Prelude.{◌≡◌, true};
ghost use Rattle.wf_loop.specs.Readers.{StayReplied};
ghost use Rattle.wf_peer_connections.specs.ReadersPort.{exchanges_of};
ghost use Rattle.wf_voter.specs.Answer.{StayEarlier};
ghost use Rattle.wf_voter.specs.Continuation.{Continues, ContinuesIn};

use std::net::Net;
use std::rt::Files;
use std::time::Clock;
use wf_peer_connections::{NodeView, PeerConnections, Socket};
use wf_peering::{accept, call, read_inbound, send_all, state_of};
use wf_ports::{Desk, PortSocket};
use wf_readers_port::{Answerer, PortView};
use wf_sockets::Network;
use wf_tape::Tape;
use wf_visitors::{Context, micros};
use wf_voter::{Clients, NodeFolder, Voter, handle_own};

/// The most of its own messages that a turn delivers.
const MOST_OWN: u32 = 64;

/// The most requests of clients that a turn answers.
const MOST_SERVED: usize = 8;

/// Does what the sockets with these tokens ask for, which are ready, and answers clients.
pub(crate) fn serve_all<
    R: Net + Clock + Eprint + AllocGlobal,
    T: Tape + Drop,
    F: NodeFolder<T>,
    N: Network,
>(
    context: &Context<'_, '_, R, N>,
    voter: &mut Voter<T>,
    folder: &mut F,
    peers: &mut PeerConnections<N>,
    desk: &mut Desk<N>,
    clients: &mut Clients<T, N>,
    tokens: &[usize],
)
    ensures on { ContinuesIn T.Tape (F.stands folder.old) voter.old
        (F.stands folder.new) voter.new }
    ensures outvoted { voter.old.is_outvoted ≡ true →
        clients.new.before.items ≡ clients.old.before.items }
    ensures joins { voter.old.membership.joins ≡ true →
        clients.new.before.items ≡ clients.old.before.items }
    ensures earlier { StayEarlier T.Tape clients.old.before.items clients.new.before.items
        voter.old.process voter.new.process }
    ensures readers { StayReplied T.Tape voter.old.process voter.new.process
        (exchanges_of desk.old.readers) (exchanges_of desk.new.readers) }
{
    act_on_all(context, voter, folder, peers, desk, clients, tokens);
    handle_all_own(context, voter, peers);
    serve_clients(context, voter, peers, clients);
}

/// Whether there is more to do.
pub(crate) fn has_more<T: Tape + Drop, N: Network>(
    voter: &Voter<T>,
    peers: &PeerConnections<N>,
    clients: &Clients<T, N>,
) -> bool {
    peers.is_busy || (voter.answers() && clients.visitors().is_busy())
}

/// Does what the sockets with these tokens ask for: those of peers first.
#[tactic(auto, using(wf_voter::proofs::Continuation::still_in, wf_voter::proofs::Continuation::on_in, wf_voter::proofs::Continuation::twice_in))]
fn act_on_all<R: Net + Clock + Eprint + AllocGlobal, T: Tape + Drop, F: NodeFolder<T>, N: Network>(
    context: &Context<'_, '_, R, N>,
    voter: &mut Voter<T>,
    folder: &mut F,
    peers: &mut PeerConnections<N>,
    desk: &mut Desk<N>,
    clients: &mut Clients<T, N>,
    tokens: &[usize],
)
    ensures on { ContinuesIn T.Tape (F.stands folder.old) voter.old
        (F.stands folder.new) voter.new }
    ensures befores { clients.new.before.items ≡ clients.old.before.items }
    ensures readers { StayReplied T.Tape voter.old.process voter.new.process
        (exchanges_of desk.old.readers) (exchanges_of desk.new.readers) }
{
    act_on_those(context, voter, folder, peers, desk, clients, tokens, true);
    act_on_those(context, voter, folder, peers, desk, clients, tokens, false);
}

/// Does what those of the sockets with these tokens ask for that are of peers, or the others.
#[tactic(auto, using(wf_voter::proofs::Continuation::still_in, wf_voter::proofs::Continuation::on_in, wf_voter::proofs::Continuation::twice_in))]
fn act_on_those<
    R: Net + Clock + Eprint + AllocGlobal,
    T: Tape + Drop,
    F: NodeFolder<T>,
    N: Network,
>(
    context: &Context<'_, '_, R, N>,
    voter: &mut Voter<T>,
    folder: &mut F,
    peers: &mut PeerConnections<N>,
    desk: &mut Desk<N>,
    clients: &mut Clients<T, N>,
    tokens: &[usize],
    are_of_peers: bool,
)
    ensures on { ContinuesIn T.Tape (F.stands folder.old) voter.old
        (F.stands folder.new) voter.new }
    ensures befores { clients.new.before.items ≡ clients.old.before.items }
    ensures readers { StayReplied T.Tape voter.old.process voter.new.process
        (exchanges_of desk.old.readers) (exchanges_of desk.new.readers) }
{
    for token in tokens {
        let socket = Socket::of(*token);
        if socket.is_of_peer() != are_of_peers {
            continue;
        }
        act_on(context, voter, folder, peers, desk, clients, socket);
    }
}

/// Does what a ready socket asks for.
#[tactic(auto, using(wf_voter::proofs::Continuation::still_in, wf_voter::proofs::Continuation::on_in, crate::proofs::Readers::replied_in, crate::proofs::Readers::replied_still))]
fn act_on<R: Net + Clock + Eprint + AllocGlobal, T: Tape + Drop, F: NodeFolder<T>, N: Network>(
    context: &Context<'_, '_, R, N>,
    voter: &mut Voter<T>,
    folder: &mut F,
    peers: &mut PeerConnections<N>,
    desk: &mut Desk<N>,
    clients: &mut Clients<T, N>,
    socket: Socket,
)
    ensures on { ContinuesIn T.Tape (F.stands folder.old) voter.old
        (F.stands folder.new) voter.new }
    ensures befores { clients.new.before.items ≡ clients.old.before.items }
    ensures readers { StayReplied T.Tape voter.old.process voter.new.process
        (exchanges_of desk.old.readers) (exchanges_of desk.new.readers) }
{
    match socket {
        Socket::Port(port) => act_on_port(context, voter, peers, desk, clients, port),
        Socket::Listen => accept(context, voter, folder, peers),
        Socket::Dial(index) => call(context, voter, folder, peers, index),
        Socket::Inbound(index) => read_inbound(context, voter, folder, peers, index),
    }
}

/// Does what a ready socket of a port asks for, by which nothing of the node can change.
#[tactic(auto, using(crate::proofs::Readers::replied_still))]
fn act_on_port<R: Clock + Eprint + AllocGlobal, T: Tape + Drop, N: Network>(
    context: &Context<'_, '_, R, N>,
    voter: &Voter<T>,
    peers: &mut PeerConnections<N>,
    desk: &mut Desk<N>,
    clients: &mut Clients<T, N>,
    port: PortSocket,
)
    ensures befores { clients.new.before.items ≡ clients.old.before.items }
    ensures readers { StayReplied T.Tape voter.now.process voter.now.process
        (exchanges_of desk.old.readers) (exchanges_of desk.new.readers) }
{
    match port {
        PortSocket::Http => clients.accept(context),
        PortSocket::Client(index) => clients.on_ready(context, index),
        PortSocket::Admin => desk.operators.accept(context),
        PortSocket::Operator(index) => desk.operators.on_ready(context, index),
        PortSocket::Readers => desk.readers.accept(context),
        PortSocket::Reader(index) => reply(context, voter, peers, desk, index),
    }
}

/// Answers a reader, by which nothing of the node can change.
fn reply<R: Clock + Eprint + AllocGlobal, T: Tape + Drop, N: Network>(
    context: &Context<'_, '_, R, N>,
    voter: &Voter<T>,
    peers: &mut PeerConnections<N>,
    desk: &mut Desk<N>,
    index: usize,
)
    ensures { StayReplied T.Tape voter.now.process voter.now.process
        (exchanges_of desk.old.readers) (exchanges_of desk.new.readers) }
{
    voter.process.always_lived();
    voter.process.always_received();
    let history = voter.process.node().history();
    // what was published in this turn has its digests too
    peers.table.extend(history);
    let published = PortView {
        own: &Answerer {
            farm: peers.plan.own.farm,
            distance: 0,
        },
        history,
        digests: peers.table.digests(),
    };
    desk.readers.on_ready(context, &published, index);
}

/// Delivers messages of the node to itself, a bounded number of them.
#[tactic(auto, using(wf_voter::proofs::Continuation::still, wf_voter::proofs::Continuation::twice))]
fn handle_all_own<R: Clock + Eprint + AllocGlobal, T: Tape + Drop, N: Network>(
    context: &Context<'_, '_, R, N>,
    voter: &mut Voter<T>,
    peers: &mut PeerConnections<N>,
)
    ensures { Continues T.Tape voter.old voter.new }
{
    for _ in 0..MOST_OWN {
        if !handle_next_own(context, voter, peers) {
            return;
        }
    }
}

/// Delivers the first message of the node to itself. What waits for the peers is written before:
/// they store it while the node does. Returns whether a message waited.
#[tactic(auto, using(wf_voter::proofs::Continuation::twice))]
fn handle_next_own<R: Clock + Eprint + AllocGlobal, T: Tape + Drop, N: Network>(
    context: &Context<'_, '_, R, N>,
    voter: &mut Voter<T>,
    peers: &mut PeerConnections<N>,
) -> bool
    ensures { Continues T.Tape voter.old voter.new }
{
    send_all(context, voter, peers);
    let from = micros(context.rt);
    if !handle_own(context.alloc(), voter) {
        return false;
    }
    peers.steps.add(from, micros(context.rt));
    true
}

/// Answers requests of clients that are whole, a bounded number of them.
#[tactic(auto, using(wf_voter::proofs::Continuation::still, wf_voter::proofs::Continuation::twice))]
fn serve_clients<R: Clock + Eprint + AllocGlobal, T: Tape + Drop, N: Network>(
    context: &Context<'_, '_, R, N>,
    voter: &mut Voter<T>,
    peers: &mut PeerConnections<N>,
    clients: &mut Clients<T, N>,
)
    ensures on { Continues T.Tape voter.old voter.new }
    ensures outvoted { voter.old.is_outvoted ≡ true →
        clients.new.before.items ≡ clients.old.before.items }
    ensures joins { voter.old.membership.joins ≡ true →
        clients.new.before.items ≡ clients.old.before.items }
    ensures earlier { StayEarlier T.Tape clients.old.before.items clients.new.before.items
        voter.old.process voter.new.process }
{
    for _ in 0..MOST_SERVED {
        if !serve_next(context, voter, peers, clients) {
            return;
        }
    }
}

/// Answers the next request of a client, if it is whole. What it makes the node send is written to
/// the peers before the client is written to. Returns whether there was one.
#[tactic(auto, using(wf_voter::proofs::Continuation::twice))]
fn serve_next<R: Clock + Eprint + AllocGlobal, T: Tape + Drop, N: Network>(
    context: &Context<'_, '_, R, N>,
    voter: &mut Voter<T>,
    peers: &mut PeerConnections<N>,
    clients: &mut Clients<T, N>,
) -> bool
    ensures on { Continues T.Tape voter.old voter.new }
    ensures outvoted { voter.old.is_outvoted ≡ true →
        clients.new.before.items ≡ clients.old.before.items }
    ensures joins { voter.old.membership.joins ≡ true →
        clients.new.before.items ≡ clients.old.before.items }
    ensures earlier { StayEarlier T.Tape clients.old.before.items clients.new.before.items
        voter.old.process voter.new.process }
{
    let Some(index) = clients.answer_next(context, voter) else {
        return false;
    };
    send_all(context, voter, peers);
    clients.on_ready(context, index);
    true
}

/// Answers operators, who only read.
pub(crate) fn answer_operators<R: Files + Clock + Eprint + AllocGlobal, T: Tape + Drop, N: Network>(
    context: &Context<'_, '_, R, N>,
    voter: &Voter<T>,
    peers: &mut PeerConnections<N>,
    desk: &mut Desk<N>,
    clients: &Clients<T, N>,
)
    ensures { exchanges_of desk.new.readers ≡ exchanges_of desk.old.readers }
{
    let history = voter.process.node().history();
    let lacks = history.published().number() < peers.latest();
    let is_behind = desk.behind.judge(lacks, context.time);
    if desk.operators.waits() {
        // what was published in this turn has its digests too
        peers.table.extend(history);
        note_states(peers, context.time);
        tell_operators(context, voter, peers, desk, clients, is_behind);
    }
}

/// Notes which peers are heard, how many messages to them were posted and dropped, and how many
/// bytes were written.
fn note_states<N: Network>(peers: &mut PeerConnections<N>, time: u64) {
    for index in 0..peers.dials.len() {
        peers.note_state(index, time);
    }
}

/// Answers operators with what the node and its clients tell.
fn tell_operators<R: Files + Clock + Eprint + AllocGlobal, T: Tape + Drop, N: Network>(
    context: &Context<'_, '_, R, N>,
    voter: &Voter<T>,
    peers: &mut PeerConnections<N>,
    desk: &mut Desk<N>,
    clients: &Clients<T, N>,
    is_behind: bool,
)
    ensures { exchanges_of desk.new.readers ≡ exchanges_of desk.old.readers }
{
    let process = &voter.process;
    let view = NodeView {
        history: process.node().history(),
        state: state_of(voter),
        membership: voter.membership,
        is_halted: process.is_halted(),
        is_outvoted: voter.is_outvoted,
        proposal: process.node().proposal(),
        requests: clients.visitors().counts(),
        rejected: &voter.rejected,
        pictures: voter.pictures,
        unkept: process.cache().unkept(),
        clients: clients.visitors().taken_slots(),
    };
    peers.answer_operators(context, desk, &view, is_behind);
}
