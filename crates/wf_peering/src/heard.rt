//! What was heard of the peers, in the folder of a node.
ghost use Rattle.wf_voter.specs.Continuation.{ContinuesIn};

use std::time::Clock;
use wf_membership::{FolderError, Gate};
use wf_peer_connections::{PeerConnections, PeerTable};
use wf_sockets::Network;
use wf_store::FileName;
use wf_tape::Tape;
use wf_visitors::Context;
use wf_voter::{NodeFolder, Voter};

/// Writes what was heard of the peers to the node's folder, if more was heard than it has. Where
/// that fails, the node acts no more until it succeeds. Returns whether it did.
#[tactic(auto, using(wf_voter::proofs::Continuation::twice_in, wf_voter::proofs::Continuation::on_in))]
pub fn save<R: Clock + Eprint + AllocGlobal, T: Tape + Drop, F: NodeFolder<T>, N: Network>(
    context: &Context<'_, '_, R, N>,
    voter: &mut Voter<T>,
    folder: &mut F,
    peers: &mut PeerConnections<N>,
) -> bool
    ensures on { ContinuesIn T.Tape (F.stands folder.old) voter.old
        (F.stands folder.new) voter.new }
{
    match keep_heard(&mut peers.table, voter, folder) {
        Ok(()) => {
            peers.note_written(FileName::Heard);
            true
        }
        Err(why) => {
            peers.note_unwritten(context.log, context.time, FileName::Heard, why);
            voter.set_gate(Gate::Unwritten);
            false
        }
    }
}

/// Writes what was heard of the peers to the node's folder, if more was heard than it has.
#[tactic(auto, using(wf_voter::proofs::Continuation::still_in))]
fn keep_heard<T: Tape + Drop, F: NodeFolder<T>>(
    table: &mut PeerTable,
    voter: &mut Voter<T>,
    folder: &mut F,
) -> Result<(), FolderError>
    ensures on { ContinuesIn T.Tape (F.stands folder.old) voter.old
        (F.stands folder.new) voter.new }
{
    table.hold(&voter.kept);
    let Some(heard) = table.unsaved() else {
        return Ok(());
    };
    match folder.keep_heard(&heard) {
        Ok(()) => {
            voter.kept = heard;
            table.note_saved();
            Ok(())
        }
        Err(why) => Err(why),
    }
}
