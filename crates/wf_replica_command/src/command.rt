//! Runs a parsed command line.
ghost use Rattle.wf_line.specs.ProcessLine.{IsReplicaInRange};
ghost use Rattle.wf_replica_command.specs.Done.{IsReplicaDone, IsReplicaEnd, IsServedUntil};
ghost use Rattle.wf_replica_command.specs.ReplicaLoop.{HasHeardNothing, state_of};
ghost use Rattle.wf_replica_command.specs.Start.{IsLineRun};

use crate::event_loop::Turn;
use crate::fault::ReplicaFault;
use crate::ready::ReadyReplica;
use crate::running_replica::RunningReplica;
use crate::start::ready;
use std::fs::File;
use std::net::Net;
use std::rt::Files;
use std::time::Clock;
use wf_line::ReplicaLine;
use wf_store::Store;
use wf_tape::Tape;
use wf_visitors::Log;

/// Serves a replica for this many turns, or until it has to end. A turn waits until a socket is
/// ready or something is due, 0.1 seconds at most. The folder is locked first, and made a replica's
/// if it is empty. Err: the cause, whose text is the line for standard error.
#[tactic(auto, using(crate::proofs::Faults::not_begun, crate::proofs::Faults::ended_so, crate::proofs::Starting::run_served, crate::proofs::Starting::not_run))]
pub fn run<R: Files<File = File> + Clock + Eprint + Net + AllocGlobal, S: Store>(
    rt: &R,
    store: &mut S,
    line: &ReplicaLine<'_>,
    turns: u64,
) -> Result<(), ReplicaFault>
    requires { IsReplicaInRange line.now }
    ensures done { IsReplicaDone S.Tape.Tape line.now result }
    ensures folder { IsLineRun line.now (S.calls store.old) (S.calls store.new) result }
{
    let log = Log::new(rt, line.log);
    match ready(rt, store, &log, line) {
        Ok(ready) => serve(rt, &log, ready, turns),
        Err(fault) => Err(fault),
    }
}

/// Serves a replica that is ready, over the network of the system.
#[tactic(auto, using(crate::proofs::Faults::never_begun))]
fn serve<R: Files<File = File> + Clock + Eprint + Net + AllocGlobal, T: Tape + Drop>(
    rt: &R,
    log: &Log<'_, R>,
    ready: ReadyReplica<T>,
    turns: u64,
) -> Result<(), ReplicaFault>
    ensures { IsReplicaEnd T.Tape ready.plan result }
{
    let mut replica = match RunningReplica::of_system(rt, log, ready) {
        Ok(replica) => replica,
        Err(fault) => return Err(fault),
    };
    let last = run_turns(rt, log, &mut replica, turns);
    drop(replica);
    match last {
        Turn::On => Ok(()),
        Turn::Ended(why) => Err(ReplicaFault::Ended(why)),
    }
}

/// Takes that many turns, or fewer if the replica has to end. Returns how the last one ended.
#[tactic(auto, using(crate::proofs::Faults::served_to_the_end, crate::proofs::Faults::served_until, crate::proofs::Hearing::hears_nothing, crate::proofs::Hearing::hears_twice))]
fn run_turns<R: Net + Files + Clock + Eprint + AllocGlobal, T: Tape + Drop>(
    rt: &R,
    log: &Log<'_, R>,
    replica: &mut RunningReplica<T>,
    turns: u64,
) -> Turn
    requires { HasHeardNothing T.Tape (state_of replica.old.event_loop) }
    ensures { IsServedUntil T.Tape result }
{
    for _ in 0..turns {
        if let Turn::Ended(why) = replica.wait_and_run(rt, log) {
            return Turn::Ended(why);
        }
    }
    replica.always_lived();
    Turn::On
}
