//! A replica that runs, and that its caller steps.
ghost use Rattle.std.specs.Prelude.{◌≡◌, ◌≤◌, ◌∷◌, IfErr, IfOk, OnErr, OnOk};
ghost use Rattle.wf_folder.specs.Name.{pad};
ghost use Rattle.wf_line.specs.ProcessLine.{IsReplicaInRange};
ghost use Rattle.wf_replica.specs.FarmFile.{replica_text};
ghost use Rattle.wf_replica_command.specs.Fault.{IsReplicaSystemFault, IsReplicaFault};
ghost use Rattle.wf_replica_command.specs.Heard.{Hears};
ghost use Rattle.wf_replica_command.specs.ReplicaLoop.{HasAnsweredByList, HasBeenTold, HasHeardNothing, HasLearned, HasOnlyGrown, HasRepliedByList, IsOfFarm, IsListOnTape, IsTurn, state_of};
ghost use Rattle.wf_replica_command.specs.Start.{IsReplicaStartCause, IsStarted, IsUnstarted};
ghost use Rattle.wf_store.specs.Call.{locked};

use crate::event::ReplicaEvent;
use crate::event_loop::Turn;
use crate::fault::ReplicaFault;
use crate::ready::ReadyReplica;
use crate::replica_loop::ReplicaLoop;
use crate::start::ready;
use std::net::Net;
use std::rt::Files;
use std::time::Clock;
use wf_learner::History;
use wf_line::ReplicaLine;
use wf_sockets::{Network, SystemNetwork};
use wf_store::Store;
use wf_tape::Tape;
use wf_visitors::Log;

/// A replica that runs over a network: its caller waits for sockets and steps it. A clause sees its
/// event loop.
pub struct RunningReplica<T: Tape, N: Network = SystemNetwork> {
    event_loop: ReplicaLoop<T, N>,
}

// A derived one would be taken apart by each caller.
impl<T: Tape + Drop, N: Network + Drop> Drop for RunningReplica<T, N> {
    fn drop(self) {
        let RunningReplica { event_loop } = self;
        drop(event_loop);
    }
}

/// Starts a replica on its folder, which is locked first and stays so as long as the store is
/// there, and binds its addresses on a network, at this time in milliseconds. Err: the cause, as
/// that of `wfarm replica`.
#[tactic(auto, using(crate::proofs::Faults::planned_fault, crate::proofs::Starting::started_so, crate::proofs::Starting::system_cause))]
pub fn start_replica<R: Clock + Eprint + Net + AllocGlobal, S: Store, N: Network + Drop>(
    rt: &R,
    network: N,
    store: &mut S,
    line: &ReplicaLine<'_>,
    time: u64,
) -> Result<RunningReplica<S::Tape, N>, ReplicaFault>
    requires { IsReplicaInRange line.now }
    ensures begun { IfOk result (λ replica.
        HasHeardNothing S.Tape.Tape (state_of replica.event_loop)) }
    ensures started { OnOk result (IsStarted (replica_text (pad line.now.farm.now))
        (locked ∷ S.calls store.old) (S.calls store.new)) }
    ensures unstarted { OnErr result (IsUnstarted (replica_text (pad line.now.farm.now))
        (S.calls store.old) (S.calls store.new)) }
    ensures fault { IfErr result (IsReplicaFault line.now) }
    ensures cause { IfErr result (IsReplicaStartCause (replica_text (pad line.now.farm.now))
        (S.calls store.old) (S.calls store.new)) }
{
    let log = Log::new(rt, line.log);
    match ready(rt, store, &log, line) {
        Ok(ready) => RunningReplica::on(rt, &log, network, ready, time),
        Err(fault) => {
            drop(network);
            Err(fault)
        }
    }
}

impl<T: Tape + Drop, N: Network + Drop> RunningReplica<T, N> {
    /// The replica that is ready, over a network.
    fn on<R: Clock + Eprint + Net + AllocGlobal>(
        rt: &R,
        log: &Log<'_, R>,
        network: N,
        ready: ReadyReplica<T>,
        time: u64,
    ) -> Result<Self, ReplicaFault>
        ensures begun { IfOk result (λ replica.
            HasHeardNothing T.Tape (state_of replica.event_loop)) }
        ensures fault { IfErr result (IsReplicaSystemFault ready.plan) }
    {
        match ReplicaLoop::on(rt, network, ready, time) {
            Ok(event_loop) => Ok(begun_with(log, event_loop)),
            Err(fault) => Err(fault),
        }
    }

    /// What the replica has published.
    pub fn history(&self) -> &History
        ensures { result.now ≡ self.now.event_loop.clients.renderer.follower.maps.shelf }
    {
        self.event_loop.history()
    }

    /// Whether what it has published is on its tape. Otherwise its tape has failed.
    pub fn has_tape(&self) -> bool {
        self.event_loop.has_tape()
    }

    /// The replica's list is what it has heard and what its tape has, what it has heard came on its
    /// connections, each client that was answered, and each reader that was replied to, was so from
    /// it as it then was, and it never went back, always. The call does nothing.
    pub fn always_lived(&self)
        ensures lived { HasLearned T.Tape (state_of self.now.event_loop) }
        ensures told { HasBeenTold T.Tape (state_of self.now.event_loop) }
        ensures recorded { IsListOnTape T.Tape (state_of self.now.event_loop) }
        ensures of_farm { IsOfFarm T.Tape (state_of self.now.event_loop) }
        ensures answered { HasAnsweredByList T.Tape (state_of self.now.event_loop) }
        ensures stayed { HasOnlyGrown T.Tape (state_of self.now.event_loop) }
        ensures replied { HasRepliedByList T.Tape (state_of self.now.event_loop) }
    {
        self.event_loop.always_lived();
    }

    /// For how long the next turn may be waited for at most where no socket is ready, in
    /// milliseconds.
    pub fn patience(&self, time: u64) -> u64
        ensures { result ≤ 100 }
    {
        self.event_loop.patience(time)
    }

    /// One turn, at this time in milliseconds, for the sockets with these tokens, which may be
    /// ready; it waits for nothing. One that has to end is to be dropped.
    pub fn run_once<R: Net + Files + Clock + Eprint + AllocGlobal>(
        &mut self,
        rt: &R,
        log: &Log<'_, R>,
        ready: &[usize],
        time: u64,
    ) -> Turn
        ensures lived { HasLearned T.Tape (state_of self.new.event_loop) }
        ensures told { HasBeenTold T.Tape (state_of self.new.event_loop) }
        ensures recorded { IsListOnTape T.Tape (state_of self.new.event_loop) }
        ensures of_farm { IsOfFarm T.Tape (state_of self.new.event_loop) }
        ensures answered { HasAnsweredByList T.Tape (state_of self.new.event_loop) }
        ensures stayed { HasOnlyGrown T.Tape (state_of self.new.event_loop) }
        ensures replied { HasRepliedByList T.Tape (state_of self.new.event_loop) }
        ensures heard { Hears self.old.event_loop.upstream
            self.old.event_loop.clients.renderer.follower
            self.new.event_loop.upstream self.new.event_loop.clients.renderer.follower }
        ensures ended { IsTurn T.Tape result (state_of self.new.event_loop) }
    {
        self.event_loop.run_once(rt, log, ready, time)
    }
}

impl<T: Tape + Drop> RunningReplica<T> {
    /// The replica that is ready, over the network of the system.
    pub(crate) fn of_system<R: Clock + Eprint + Net + AllocGlobal>(
        rt: &R,
        log: &Log<'_, R>,
        ready: ReadyReplica<T>,
    ) -> Result<Self, ReplicaFault>
        ensures begun { IfOk result (λ replica.
            HasHeardNothing T.Tape (state_of replica.event_loop)) }
        ensures fault { IfErr result (IsReplicaSystemFault ready.plan) }
    {
        match ReplicaLoop::new(rt, ready) {
            Ok(event_loop) => Ok(begun_with(log, event_loop)),
            Err(fault) => Err(fault),
        }
    }

    /// One turn over the network of the system, for which it waits.
    pub(crate) fn wait_and_run<R: Net + Files + Clock + Eprint + AllocGlobal>(
        &mut self,
        rt: &R,
        log: &Log<'_, R>,
    ) -> Turn
        ensures lived { HasLearned T.Tape (state_of self.new.event_loop) }
        ensures told { HasBeenTold T.Tape (state_of self.new.event_loop) }
        ensures recorded { IsListOnTape T.Tape (state_of self.new.event_loop) }
        ensures of_farm { IsOfFarm T.Tape (state_of self.new.event_loop) }
        ensures answered { HasAnsweredByList T.Tape (state_of self.new.event_loop) }
        ensures stayed { HasOnlyGrown T.Tape (state_of self.new.event_loop) }
        ensures replied { HasRepliedByList T.Tape (state_of self.new.event_loop) }
        ensures heard { Hears self.old.event_loop.upstream
            self.old.event_loop.clients.renderer.follower
            self.new.event_loop.upstream self.new.event_loop.clients.renderer.follower }
        ensures ended { IsTurn T.Tape result (state_of self.new.event_loop) }
    {
        self.event_loop.wait_and_run(rt, log)
    }
}

/// The replica of an event loop. Where clients come is logged.
fn begun_with<R: Clock + Eprint, T: Tape + Drop, N: Network + Drop>(
    log: &Log<'_, R>,
    event_loop: ReplicaLoop<T, N>,
) -> RunningReplica<T, N>
    ensures { result.event_loop ≡ event_loop }
{
    if let Some(http) = event_loop.http() {
        log.write(&ReplicaEvent::Listening { http });
    }
    RunningReplica { event_loop }
}
