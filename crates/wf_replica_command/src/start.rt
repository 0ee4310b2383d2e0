//! A replica starts on its folder.
ghost use Rattle.std.specs.Prelude.{◌≡◌, ◌≤◌, ◌⊎◌, ◌∷◌, [], IfErr, IfOk, OnErr, OnOk};
ghost use Rattle.wf_folder.specs.Name.{pad};
ghost use Rattle.wf_line.specs.ProcessLine.{IsReplicaInRange};
ghost use Rattle.wf_replica.specs.FarmFile.{replica_text};
ghost use Rattle.wf_replica.specs.Follower.{answers_of, list_of, read_by};
ghost use Rattle.wf_replica.specs.LearnedList.{numbered};
ghost use Rattle.wf_replica_command.specs.Fault.{IsReplicaPlanOf, IsReplicaFault};
ghost use Rattle.wf_replica_command.specs.Start.{IsReplicaFolderCause, IsReplicaStartCause, IsStarted, IsTapeLookedFor, IsUnclaimed, IsUnstarted};
ghost use Rattle.wf_store.specs.Call.{OnlyReads, locked};

use crate::event::ReplicaEvent;
use crate::fault::ReplicaFault;
use crate::folder::claim;
use crate::plan::{ReplicaPlan, plan_of};
use crate::ready::ReadyReplica;
use std::time::Clock;
use wf_folder_log::FolderEvent;
use wf_line::ReplicaLine;
use wf_replica::{Follower, FoundTape};
use wf_store::{FileName, Store, path_in};
use wf_tape::Tape;
use wf_visitors::Log;

/// Starts a replica on its folder, which is locked first, and made a replica's if it is empty.
#[tactic(auto, using(crate::proofs::Starting::started_on, crate::proofs::Starting::unstarted_on, crate::proofs::Starting::not_locked, crate::proofs::Starting::not_touched, crate::proofs::Starting::cause_on, crate::proofs::Starting::words_cause, crate::proofs::Faults::folder_fault, crate::proofs::Faults::words_fault))]
pub(crate) fn ready<R: Clock + Eprint + AllocGlobal, S: Store>(
    rt: &R,
    store: &mut S,
    log: &Log<'_, R>,
    line: &ReplicaLine<'_>,
) -> Result<ReadyReplica<S::Tape>, ReplicaFault>
    requires { IsReplicaInRange line.now }
    ensures planned { IfOk result (λ ready. IsReplicaPlanOf line.now ready.plan) }
    ensures fault { IfErr result (IsReplicaFault line.now) }
    ensures started { OnOk result (IsStarted (replica_text (pad line.now.farm.now))
        (locked ∷ S.calls store.old) (S.calls store.new)) }
    ensures unstarted { OnErr result (IsUnstarted (replica_text (pad line.now.farm.now))
        (S.calls store.old) (S.calls store.new)) }
    ensures cause { IfErr result (IsReplicaStartCause (replica_text (pad line.now.farm.now))
        (S.calls store.old) (S.calls store.new)) }
{
    let plan = match plan_of(rt.alloc(), line) {
        Ok(plan) => plan,
        Err(fault) => return Err(fault),
    };
    match store.lock() {
        Ok(()) => start(rt, store, log, line, plan),
        Err(fault) => {
            drop(plan);
            Err(ReplicaFault::Folder(fault))
        }
    }
}

/// Starts a replica on its folder, which is locked.
#[tactic(auto, using(crate::proofs::Starting::started_by, crate::proofs::Starting::begun_by, crate::proofs::Starting::not_claimed, crate::proofs::Starting::memory_cause))]
fn start<R: Clock + Eprint + AllocGlobal, S: Store>(
    rt: &R,
    store: &mut S,
    log: &Log<'_, R>,
    line: &ReplicaLine<'_>,
    plan: ReplicaPlan,
) -> Result<ReadyReplica<S::Tape>, ReplicaFault>
    requires { IsReplicaInRange line.now }
    ensures plan { IfOk result (λ ready. ready.plan ≡ plan) }
    ensures cause { IfErr result (IsReplicaFolderCause (replica_text plan.farm)
        (S.calls store.old) (S.calls store.new)) }
    ensures started { OnOk result (IsStarted (replica_text plan.farm)
        (S.calls store.old) (S.calls store.new)) }
    ensures unstarted { OnErr result (IsStarted (replica_text plan.farm)
        (S.calls store.old) (S.calls store.new)
        ⊎ IsUnclaimed (replica_text plan.farm) (S.calls store.old) (S.calls store.new)) }
{
    match claim(rt.alloc(), store, &plan.farm) {
        Ok(()) => begin(rt, store, log, line, plan),
        Err(fault) => {
            drop(plan);
            Err(fault)
        }
    }
}

/// Starts the replica of a folder that is one, with what its tape has. The only error is allocation
/// failure.
fn begin<R: Clock + Eprint + AllocGlobal, S: Store>(
    rt: &R,
    store: &mut S,
    log: &Log<'_, R>,
    line: &ReplicaLine<'_>,
    plan: ReplicaPlan,
) -> Result<ReadyReplica<S::Tape>, ReplicaFault>
    requires { IsReplicaInRange line.now }
    ensures plan { IfOk result (λ ready. ready.plan ≡ plan) }
    ensures memory { IfErr result (λ fault. fault ≡ ReplicaFault.Memory) }
    ensures tape { IsTapeLookedFor (S.calls store.old) (S.calls store.new) }
{
    match open(rt, store, log, line.cache as usize) {
        Ok(follower) => ready_with(rt, plan, line.state, follower),
        Err(fault) => {
            drop(plan);
            Err(fault)
        }
    }
}

/// A replica with what its tape has, which is in that folder. The only error is allocation failure.
fn ready_with<R: Clock + AllocGlobal, T: Tape + Drop>(
    rt: &R,
    plan: ReplicaPlan,
    folder: &str,
    follower: Follower<T>,
) -> Result<ReadyReplica<T>, ReplicaFault>
    requires unanswered { answers_of follower ≡ [] }
    requires read { read_by follower ≡ numbered 1 (list_of follower) }
    ensures plan { IfOk result (λ ready. ready.plan ≡ plan) }
    ensures memory { IfErr result (λ fault. fault ≡ ReplicaFault.Memory) }
{
    match path_in(rt.alloc(), folder, FileName::ReplicaTape) {
        Ok(tape) => Ok(ReadyReplica {
            plan,
            follower,
            tape,
            first: first_of(rt),
        }),
        Err(_) => {
            drop(plan);
            drop(follower);
            Err(ReplicaFault::Memory)
        }
    }
}

/// A replica with what the tape of its folder has, and room for so many pictures. The only error is
/// allocation failure.
fn open<R: Clock + Eprint + AllocGlobal, S: Store>(
    rt: &R,
    store: &mut S,
    log: &Log<'_, R>,
    pictures: usize,
) -> Result<Follower<S::Tape>, ReplicaFault>
    requires least { 1 ≤ pictures }
    requires most { pictures ≤ 64 }
    ensures unanswered { IfOk result (λ follower. answers_of follower ≡ []) }
    ensures read { IfOk result (λ follower. read_by follower ≡ numbered 1 (list_of follower)) }
    ensures tape { IsTapeLookedFor (S.calls store.old) (S.calls store.new) }
    ensures memory { IfErr result (λ fault. fault ≡ ReplicaFault.Memory) }
{
    let tape = open_tape(store, log);
    match Follower::open(rt.alloc(), tape, pictures) {
        Ok((follower, found)) => {
            log_opened(log, found, follower.history().published().number());
            Ok(follower)
        }
        Err(_) => Err(ReplicaFault::Memory),
    }
}

/// The tape of a replica's folder. None: it can't be opened.
#[tactic(auto, using(crate::proofs::Starting::tape_opened, crate::proofs::Starting::tape_unopened))]
fn open_tape<R: Clock + Eprint, S: Store>(store: &mut S, log: &Log<'_, R>) -> Option<S::Tape>
    ensures { IsTapeLookedFor (S.calls store.old) (S.calls store.new) }
{
    look_for_tape(store, log);
    match store.open(FileName::ReplicaTape) {
        Ok(tape) => Some(tape),
        Err(_) => None,
    }
}

/// Logs that there is no tape, if there is none.
fn look_for_tape<R: Clock + Eprint, S: Store>(store: &mut S, log: &Log<'_, R>)
    ensures { OnlyReads (S.calls store.old) (S.calls store.new) }
{
    let is_there = match store.presence(FileName::ReplicaTape) {
        Ok(presence) => presence.is_there(),
        Err(_) => false,
    };
    if !is_there {
        log.write(&FolderEvent::TapeMissing);
    }
}

/// Logs what was found on a tape.
fn log_opened<R: Clock + Eprint>(log: &Log<'_, R>, found: FoundTape, published: u16) {
    match found {
        FoundTape::Published => {}
        FoundTape::Damaged => log.write(&FolderEvent::TapeDamaged),
        FoundTape::Failed => log.write(&FolderEvent::TapeFailed),
    }
    log.write(&ReplicaEvent::Opened { published });
}

/// A number by which replicas begin with different sources.
fn first_of<R: Clock>(rt: &R) -> usize {
    match rt.since_1970() {
        Ok(time) => (time.subsec_micros() / 7) as usize,
        Err(_) => 0,
    }
}
