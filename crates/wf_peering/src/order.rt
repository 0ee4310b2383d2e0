//! What is written to the folder about replacements before the node goes by it.
ghost use Rattle.std.specs.Prelude.{◌≡◌, OnOk};
ghost use Rattle.wf_peering.specs.Orders.{IsOrderKept, IsReachKept};
ghost use Rattle.wf_voter.specs.Continuation.{ContinuesIn};
ghost use Rattle.wf_voter.specs.Folder.{JoinsNoMore};

use std::time::Clock;
use wf_membership::{FolderError, Gate};
use wf_peer_connections::{Order, PeerConnections, PeerTable};
use wf_rejoin::Replacements;
use wf_sockets::Network;
use wf_store::FolderFault;
use wf_tape::Tape;
use wf_visitors::Context;
use wf_voter::{NodeFolder, Process, Voter, reach_of};

/// Writes what is to be written about replacements, and goes by it then. What only the next start
/// goes by ends this one: nothing more is sent or taken in. Where it can't be written, the node
/// acts no more until it can.
#[tactic(auto, using(wf_voter::proofs::Continuation::still_in, wf_voter::proofs::Continuation::kept_in, wf_voter::proofs::Continuation::gated_in))]
pub fn obey<R: Clock + Eprint + AllocGlobal, T: Tape + Drop, F: NodeFolder<T>, N: Network>(
    context: &Context<'_, '_, R, N>,
    voter: &mut Voter<T>,
    folder: &mut F,
    peers: &mut PeerConnections<N>,
)
    ensures on { ContinuesIn T.Tape (F.stands folder.old) voter.old
        (F.stands folder.new) voter.new }
{
    let published = voter.process.node().published();
    peers.note_due(published, context.time);
    let Some(order) = peers.order else {
        return;
    };
    match keep_order(&voter.process, &mut peers.table, folder, &order) {
        Ok(()) => {
            peers.take_order(context, &voter.membership, published, &order);
            if peers.is_over {
                voter.set_gate(Gate::Unwritten);
            }
        }
        Err(why) => {
            peers.note_unwritten(context.log, context.time, order.file(), why);
            voter.set_gate(Gate::Unwritten);
        }
    }
}

/// Writes to the folder what is to be written about replacements, synced. Err: its file has what it
/// had, or this.
#[tactic(auto, using(crate::proofs::Orders::note_kept, crate::proofs::Orders::step_kept, crate::proofs::Orders::end_kept))]
fn keep_order<T: Tape + Drop, F: NodeFolder<T>>(
    process: &Process<T>,
    table: &mut PeerTable,
    folder: &mut F,
    order: &Order,
) -> Result<(), FolderError>
    ensures stands { F.stands folder.new ≡ F.stands folder.old }
    ensures kept { OnOk result (IsOrderKept order.now (F.calls folder.new)) }
{
    match order {
        Order::Note(latest) => folder.keep_replaced(latest),
        Order::Join(step) => folder.keep_joining(step),
        Order::Joined => keep_joined(process, table, folder),
    }
}

/// Writes that the folder has joined: last, so that whatever it may vote by is there before.
fn keep_joined<T: Tape + Drop, F: NodeFolder<T>>(
    process: &Process<T>,
    table: &mut PeerTable,
    folder: &mut F,
) -> Result<(), FolderError>
    ensures stands { F.stands folder.new ≡ F.stands folder.old }
    ensures joined { OnOk result (JoinsNoMore (F.calls folder.new)) }
{
    match keep_reach(process, table, folder) {
        Ok(()) => folder.finish_joining(),
        Err(why) => Err(why),
    }
}

/// Keeps in the folder how far a node is. Err: the folder's, or that an allocation failed.
#[tactic(auto, using(crate::proofs::Orders::reach_kept))]
pub fn keep_reach<T: Tape + Drop, F: NodeFolder<T>>(
    process: &Process<T>,
    table: &mut PeerTable,
    folder: &mut F,
) -> Result<(), FolderError>
    ensures stands { F.stands folder.new ≡ F.stands folder.old }
    ensures kept { OnOk result (IsReachKept process.now.actor.node (F.farm folder.new)) }
{
    let node = process.node();
    table.extend(node.history());
    match table.digest_at(node.published().number()) {
        Some(digest) => folder.keep(&reach_of(node), digest),
        None => Err(FolderError::Store(FolderFault::Memory)),
    }
}
