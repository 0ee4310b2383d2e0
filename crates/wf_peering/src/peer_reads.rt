//! What comes from the peers of a node: connections, greetings and messages.
ghost use Rattle.std.specs.Prelude.{◌≡◌, [], OnOk};
ghost use Rattle.wf_peer.specs.Admission.{IsNodesFolder};
ghost use Rattle.wf_voter.specs.Continuation.{Continues, ContinuesIn};

use crate::greeting::greeting;
use crate::heard::save;
use crate::order::obey;
use crate::peer_calls::send_all;
use std::mem::replace;
use std::net::SocketAddr;
use std::time::Clock;
use wf_ballot::NodeId;
use wf_peer::{Greeting, PeerRejection};
use wf_peer_connections::{Came, INBOUND_SLOTS, Inbound, PeerConnections, PeerEnd, PeerTable};
use wf_sockets::{Connection, Network};
use wf_tape::Tape;
use wf_visitors::{Context, micros};
use wf_voter::{NodeFolder, Voter, deliver};
use wf_wire::PeerMessage;

/// The most pieces that a turn reads of a peer.
const MOST_PIECES: u32 = 4;

/// Accepts connections from peers.
#[tactic(auto, using(wf_voter::proofs::Continuation::still_in, wf_voter::proofs::Continuation::on_in, wf_voter::proofs::Continuation::twice_in))]
pub fn accept<R: Clock + Eprint + AllocGlobal, T: Tape + Drop, F: NodeFolder<T>, N: Network>(
    context: &Context<'_, '_, R, N>,
    voter: &mut Voter<T>,
    folder: &mut F,
    peers: &mut PeerConnections<N>,
)
    ensures on { ContinuesIn T.Tape (F.stands folder.old) voter.old
        (F.stands folder.new) voter.new }
{
    for _ in 0..INBOUND_SLOTS {
        let Ok((connection, address)) = context.network.accept(&mut peers.listener) else {
            return;
        };
        if voter.connects() {
            place(context, voter, folder, peers, connection, address);
        }
    }
}

/// Puts a connection from a peer's address into a free slot.
#[tactic(auto, using(wf_voter::proofs::Continuation::still_in, wf_voter::proofs::Continuation::on_in))]
fn place<R: Clock + Eprint + AllocGlobal, T: Tape + Drop, F: NodeFolder<T>, N: Network>(
    context: &Context<'_, '_, R, N>,
    voter: &mut Voter<T>,
    folder: &mut F,
    peers: &mut PeerConnections<N>,
    connection: N::Connection,
    address: SocketAddr,
)
    requires { N.Connection.came connection ≡ [] }
    ensures on { ContinuesIn T.Tape (F.stands folder.old) voter.old
        (F.stands folder.new) voter.new }
{
    let Some((index, inbound)) = peers.place(context, connection, address) else {
        return;
    };
    receive_out(context, voter, folder, peers, index, inbound);
}

/// Reads what came from a peer, a bounded part of it, and delivers it.
#[tactic(auto, using(wf_voter::proofs::Continuation::still_in, wf_voter::proofs::Continuation::on_in))]
pub fn read_inbound<R: Clock + Eprint + AllocGlobal, T: Tape + Drop, F: NodeFolder<T>, N: Network>(
    context: &Context<'_, '_, R, N>,
    voter: &mut Voter<T>,
    folder: &mut F,
    peers: &mut PeerConnections<N>,
    index: usize,
)
    ensures on { ContinuesIn T.Tape (F.stands folder.old) voter.old
        (F.stands folder.new) voter.new }
{
    let Some(inbound) = peers.take_inbound(index) else {
        return;
    };
    receive_out(context, voter, folder, peers, index, inbound);
}

/// Reads what came on a connection from a peer, and keeps it in its slot unless it has ended.
fn receive_out<R: Clock + Eprint + AllocGlobal, T: Tape + Drop, F: NodeFolder<T>, N: Network>(
    context: &Context<'_, '_, R, N>,
    voter: &mut Voter<T>,
    folder: &mut F,
    peers: &mut PeerConnections<N>,
    index: usize,
    mut inbound: Inbound<N::Connection>,
)
    ensures on { ContinuesIn T.Tape (F.stands folder.old) voter.old
        (F.stands folder.new) voter.new }
{
    match read(context, voter, folder, peers, &mut inbound) {
        None => peers.keep(context, index, inbound),
        Some(why) => peers.drop_inbound(context, inbound, why),
    }
}

/// Reads what came on a connection, a bounded part of it. Some: it has ended.
#[tactic(auto, using(wf_voter::proofs::Continuation::still_in, wf_voter::proofs::Continuation::on_in))]
fn read<R: Clock + Eprint + AllocGlobal, T: Tape + Drop, F: NodeFolder<T>, N: Network>(
    context: &Context<'_, '_, R, N>,
    voter: &mut Voter<T>,
    folder: &mut F,
    peers: &mut PeerConnections<N>,
    inbound: &mut Inbound<N::Connection>,
) -> Option<PeerEnd>
    ensures on { ContinuesIn T.Tape (F.stands folder.old) voter.old
        (F.stands folder.new) voter.new }
{
    let mut piece = replace(&mut peers.piece, Vec::new(context.alloc()));
    let ended = read_pieces(context, voter, folder, peers, inbound, piece.as_mut_slice());
    drop(replace(&mut peers.piece, piece));
    ended
}

/// Reads what came on a connection, a bounded number of pieces, each to the front of the buffer.
/// Some: it has ended.
#[tactic(auto, using(wf_voter::proofs::Continuation::still_in, wf_voter::proofs::Continuation::on_in, wf_voter::proofs::Continuation::twice_in))]
fn read_pieces<R: Clock + Eprint + AllocGlobal, T: Tape + Drop, F: NodeFolder<T>, N: Network>(
    context: &Context<'_, '_, R, N>,
    voter: &mut Voter<T>,
    folder: &mut F,
    peers: &mut PeerConnections<N>,
    inbound: &mut Inbound<N::Connection>,
    piece: &mut [u8],
) -> Option<PeerEnd>
    ensures on { ContinuesIn T.Tape (F.stands folder.old) voter.old
        (F.stands folder.new) voter.new }
{
    for _ in 0..MOST_PIECES {
        let came = inbound.handle(piece, context.time);
        match take_in(context, voter, folder, peers, inbound, came) {
            Ok(()) => {}
            Err(ended) => return ended,
        }
    }
    peers.is_busy = true;
    None
}

/// Takes in what came in one piece. Err: nothing more is to be read now, and why the connection has
/// ended if it has.
#[tactic(auto, using(wf_voter::proofs::Continuation::still_in, wf_voter::proofs::Continuation::on_in))]
fn take_in<R: Clock + Eprint + AllocGlobal, T: Tape + Drop, F: NodeFolder<T>, N: Network>(
    context: &Context<'_, '_, R, N>,
    voter: &mut Voter<T>,
    folder: &mut F,
    peers: &mut PeerConnections<N>,
    inbound: &mut Inbound<N::Connection>,
    came: Came,
) -> Result<(), Option<PeerEnd>>
    ensures on { ContinuesIn T.Tape (F.stands folder.old) voter.old
        (F.stands folder.new) voter.new }
{
    match came {
        Came::Nothing => Err(inbound.send()),
        Came::Part => Ok(()),
        Came::Greeting(greeting) => {
            match let_in(context, voter, folder, peers, inbound, &greeting) {
                Some(why) => Err(Some(why)),
                None => Ok(()),
            }
        }
        Came::Messages(peer, count) => {
            match deliver_all(context, voter, folder, peers, inbound, peer, count) {
                Some(why) => Err(Some(why)),
                None => Ok(()),
            }
        }
        Came::Ended(why) => Err(Some(why)),
    }
}

/// Lets a peer in that has greeted, in the place of an older connection from it. Some: it isn't let
/// in.
#[tactic(auto, using(wf_voter::proofs::Continuation::twice_in, wf_voter::proofs::Continuation::on_in))]
fn let_in<R: Clock + Eprint + AllocGlobal, T: Tape + Drop, F: NodeFolder<T>, N: Network>(
    context: &Context<'_, '_, R, N>,
    voter: &mut Voter<T>,
    folder: &mut F,
    peers: &mut PeerConnections<N>,
    inbound: &mut Inbound<N::Connection>,
    said: &Greeting,
) -> Option<PeerEnd>
    ensures on { ContinuesIn T.Tape (F.stands folder.old) voter.old
        (F.stands folder.new) voter.new }
{
    let admitted = admit(
        context,
        voter,
        folder,
        peers,
        Some(inbound.address()),
        None,
        said,
    );
    if !voter.connects() {
        // what was heard of it isn't in the folder, so nothing is said
        return Some(PeerEnd::Unwritten);
    }
    if let Err(why) = admitted {
        peers.reject(context.alloc(), inbound, said.node, why);
        return Some(PeerEnd::Rejected(why));
    }
    let peer = said.node;
    peers.close_older(context, peer);
    let Some(own) = greeting(peers, voter) else {
        return Some(PeerEnd::Memory);
    };
    peers.note_accepted(context, peer);
    inbound.let_in(context.alloc(), &own)
}

/// Whether a peer is let in that greets so, by all that the node has published: one that was
/// dialed, or one from an address. What is heard of it is in the folder before it is answered, and
/// so is of what it is accused, and what it says of replacements. Whether its history differs is
/// noted.
#[tactic(auto, using(wf_voter::proofs::Continuation::twice_in))]
pub(crate) fn admit<R: Clock + Eprint + AllocGlobal, T: Tape + Drop, F: NodeFolder<T>, N: Network>(
    context: &Context<'_, '_, R, N>,
    voter: &mut Voter<T>,
    folder: &mut F,
    peers: &mut PeerConnections<N>,
    address: Option<SocketAddr>,
    index: Option<NodeId>,
    said: &Greeting,
) -> Result<(), PeerRejection>
    ensures on { ContinuesIn T.Tape (F.stands folder.old) voter.old
        (F.stands folder.new) voter.new }
    // Only with the folder that is taken for its node by what this node began with.
    ensures folder { OnOk result (IsNodesFolder voter.old.membership.replacements said.now) }
{
    let admitted = peers.admit(
        context,
        voter.process.node().history(),
        &voter.membership,
        address,
        index,
        said,
    );
    let _ = save(context, voter, folder, peers);
    obey(context, voter, folder, peers);
    admitted
}

/// Judges the messages that came from a peer, and delivers them. Some: the connection has ended.
#[tactic(auto, using(wf_voter::proofs::Continuation::still_in, wf_voter::proofs::Continuation::on_in, wf_voter::proofs::Continuation::twice_in))]
fn deliver_all<R: Clock + Eprint + AllocGlobal, T: Tape + Drop, F: NodeFolder<T>, N: Network>(
    context: &Context<'_, '_, R, N>,
    voter: &mut Voter<T>,
    folder: &mut F,
    peers: &mut PeerConnections<N>,
    inbound: &mut Inbound<N::Connection>,
    peer: NodeId,
    count: usize,
) -> Option<PeerEnd>
    ensures on { ContinuesIn T.Tape (F.stands folder.old) voter.old
        (F.stands folder.new) voter.new }
{
    let number = peer.number() as usize;
    peers.note_received(number, count, context.time);
    if !peers.is_trusted(number) || !is_peer(peers, peer) {
        // as if the network had lost them
        return None;
    }
    for _ in 0..count {
        if !takes_next(voter, inbound) {
            // so are the others
            return None;
        }
        if let Some(why) = deliver_next(context, voter, folder, peers, inbound, peer) {
            return Some(why);
        }
    }
    None
}

/// Whether that is another node of the farm.
fn is_peer<N: Network>(peers: &PeerConnections<N>, peer: NodeId) -> bool {
    usize::from(peer.number()) < peers.dials.len() && peer != peers.plan.own.node
}

/// Whether the node is given the first message that waits.
fn takes_next<T: Tape + Drop, C: Connection + Drop>(
    voter: &Voter<T>,
    inbound: &Inbound<C>,
) -> bool {
    match inbound.first() {
        Some(message) => voter.takes(message),
        None => false,
    }
}

/// Judges the first message that waits of a peer, and delivers it: one that raises the peer's round
/// or promise once that is in the folder. Some: it isn't delivered, and the connection ends.
#[tactic(auto, using(wf_voter::proofs::Continuation::still_in, wf_voter::proofs::Continuation::on_in, wf_voter::proofs::Continuation::twice_in))]
fn deliver_next<R: Clock + Eprint + AllocGlobal, T: Tape + Drop, F: NodeFolder<T>, N: Network>(
    context: &Context<'_, '_, R, N>,
    voter: &mut Voter<T>,
    folder: &mut F,
    peers: &mut PeerConnections<N>,
    inbound: &mut Inbound<N::Connection>,
    peer: NodeId,
) -> Option<PeerEnd>
    ensures on { ContinuesIn T.Tape (F.stands folder.old) voter.old
        (F.stands folder.new) voter.new }
{
    if !hears_next(inbound, &mut peers.table, peer) {
        return Some(PeerEnd::WrongSender);
    }
    if !keeps_next(context, voter, folder, peers, inbound, peer) {
        return Some(PeerEnd::Unwritten);
    }
    if let Some(message) = inbound.pop() {
        deliver_first(context, voter, peers, message);
    }
    None
}

/// What the first message that waits tells of its peer: that is kept. Returns whether the peer may
/// send it.
fn hears_next<C: Connection + Drop>(
    inbound: &Inbound<C>,
    table: &mut PeerTable,
    peer: NodeId,
) -> bool {
    match inbound.first() {
        Some(message) => table.hear(message, peer),
        None => true,
    }
}

/// Whether what the first message tells of its peer is in the folder: where it isn't, it is
/// written.
#[tactic(auto, using(wf_voter::proofs::Continuation::still_in))]
fn keeps_next<R: Clock + Eprint + AllocGlobal, T: Tape + Drop, F: NodeFolder<T>, N: Network>(
    context: &Context<'_, '_, R, N>,
    voter: &mut Voter<T>,
    folder: &mut F,
    peers: &mut PeerConnections<N>,
    inbound: &Inbound<N::Connection>,
    peer: NodeId,
) -> bool
    ensures on { ContinuesIn T.Tape (F.stands folder.old) voter.old
        (F.stands folder.new) voter.new }
{
    if is_kept_next(voter, inbound, peer) {
        return true;
    }
    let is_saved = save(context, voter, folder, peers);
    is_saved && is_kept_next(voter, inbound, peer)
}

/// Whether the round and the promise that the first message tells are in the folder.
fn is_kept_next<T: Tape + Drop, C: Connection + Drop>(
    voter: &Voter<T>,
    inbound: &Inbound<C>,
    peer: NodeId,
) -> bool {
    match inbound.first() {
        Some(message) => voter.kept.has_heard(peer, message),
        None => true,
    }
}

/// Delivers a message of a peer, and writes the answer at once: the peers wait for it.
#[tactic(auto, using(wf_voter::proofs::Continuation::twice))]
fn deliver_first<R: Clock + Eprint + AllocGlobal, T: Tape + Drop, N: Network>(
    context: &Context<'_, '_, R, N>,
    voter: &mut Voter<T>,
    peers: &mut PeerConnections<N>,
    message: PeerMessage,
)
    ensures { Continues T.Tape voter.old voter.new }
{
    let from = micros(context.rt);
    deliver(context.alloc(), voter, message);
    peers.steps.add(from, micros(context.rt));
    send_all(context, voter, peers);
}
